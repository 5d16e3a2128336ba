//! A writer of the journal: the rounds of its tasks, call by call.
#![tactic(auto)]

mod cause;
mod cause_list;
pub mod examples;
pub mod laws;
mod phase;
mod pieces;
mod prepared;
mod round;
mod round_calls;
mod slot;
mod slots;
mod stage;
mod task;
mod turn;
mod writer;

pub use cause::Cause;
pub use cause_list::CauseList;
pub use phase::{Aim, Phase};
pub use prepared::{best, rank};
pub use round::Round;
pub use round_calls::RoundCalls;
pub use slot::Slot;
pub use task::{Begun, Task};
pub use turn::{Outcome, Turn};
pub use writer::Writer;
