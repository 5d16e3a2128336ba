//! Scripts played by threads, one for each actor, of any kind, and one for the operator; gates: a
//! lock round a cell, whose calls stand in one history, and a caller's seats at the gates of all
//! nodes.
//!
//! A gate is a table of three words, `ticket`, `serving` and `length`, and of one slot with the
//! cell. Each caller has a seat, which draws a ticket, waits until `serving` is its ticket, calls
//! the cell in the slot, adds one to `length`, and sets `serving` to the next ticket. A seat that
//! waits is parked on the word `serving`, and each passing on wakes those that wait, if a further
//! ticket was drawn; none of them turns round in a loop. These are all kinds of steps, with what
//! each tells its seat:
//!
//! | step | on | what it does | what its seat knows then |
//! |---|---|---|---|
//! | draw | ticket | adds one | its ticket, which no other seat has |
//! | look | serving | loads it; where it is the seat's ticket, the seat takes the slot too | at its turn the whole history, in which its own calls are those that it has seen |
//! | call | the slot that the seat holds | the cell answers | the cell's answer |
//! | note | length | adds one | that its call stands at the end of the history |
//! | pass on | serving | stores the next ticket, and gives the slot back | that it has no ticket |
//! | split | ticket | loads it; one seat becomes two | the new seat: that it has called nothing |
//! | join | ticket | loads it; two seats become one, when the gate is closed | the keeper: what the seat had seen, and its places |
//! | close | all | the table comes to its end | the cell, and that a history led to it which has each seat's calls at its places, each once and in order |
//!
//! The history is in no memory: it is what the rule of the table and the seats know, and a cell says
//! what it means that some calls led to it. So nothing grows with the calls but what the cell keeps.
//! Where the cell finds no memory no call is noted. Tickets and calls are counted modulo 2^64; fewer
//! than 2^32 seats with a ticket each can't confuse them. Nobody's turn is promised: a seat that
//! keeps the cell, or a cell that doesn't return, stops the others.
//!
//! Whatever the schedule, the lists of all nodes and of all callers of a run by threads agree, and
//! follow the script.
#![tactic(auto)]

ghost use Rattle.std.specs.Prelude.{ℕ, List, [], ◌∷◌, ◌++◌, IfOk, OnErr};

use std::alloc::AllocError;

mod actor_lines;
mod actors;
mod at_gates;
mod board;
mod caller_lines;
mod ends;
mod gate;
mod gate_wire;
mod gated_node;
mod gates;
mod operator_lines;
mod pass;
mod run;
mod threads;

pub use actor_lines::act_alone;
pub use actors::Actors;
pub use at_gates::ask_request;
pub use board::{GateRule, Stage, View};
pub use caller_lines::{Left, is_operator, take_lines};
pub use gate::{Board, Gate, GateSeat, Holder, Keeper, Steps};
pub use gate_wire::GateWire;
pub use gated_node::{GatedNode, NodeGate};
pub use gates::{Opened, close_gates, open_gates};
pub use pass::{FreePass, Pass};
pub use run::{Begun, assemble, begin_run, gathered_lists_agree, run_on};
pub use threads::Job;

/// There was no memory.
pub type OutOfMemory = AllocError;

/// What lies behind a gate.
pub trait GateCell {
    /// What it is asked.
    type Ask;

    /// What it answers.
    type Answer;

    /// These calls, the oldest first, led to it: caller, ask, answer.
    ghost led: { List (ℕ × (Self.Ask × Self.Answer)) → Self → Type 0 };

    /// What may be answered to an ask.
    ghost fits: { Self.Ask → Self.Answer → Type 0 };

    /// It may lack memory.
    ghost lacks: { Type 0 };

    /// Answers this caller: whatever led to the cell leads to it with this call behind.
    /// `OutOfMemory` adds no call.
    fn act(&mut self, caller: u32, ask: &Self::Ask) -> Result<Self::Answer, OutOfMemory>
        ensures fits { IfOk result (λ a. fits ask.now a) }
        ensures appended { IfOk result (λ a. (log : List (ℕ × (Self.Ask × Self.Answer))) → led log self.old → led (log ++ (caller, (ask.now, a)) ∷ []) self.new) }
        ensures kept { OnErr result ((log : List (ℕ × (Self.Ask × Self.Answer))) → led log self.old → led log self.new) }
        ensures lacks { OnErr result lacks };
}
