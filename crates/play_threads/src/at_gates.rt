//! A caller asks the node behind a gate.
ghost use Rattle.std.specs.Prelude.{◌≡◌, ◌++◌, ◌∷◌, [], IfOk, OnErr};
ghost use Rattle.journal_history.specs.declared.node_ask.NodeAsk.TheVariants.{Act};
ghost use Rattle.journal_history.specs.NodeCells.{AnswerFits};
ghost use Rattle.play_threads.specs.Entries.{own_lines, IsReplyOrStop, FitsAsk};

use crate::gate::{Gate, GateSeat};
use crate::gated_node::NodeGate;
use journal_core::{OutOfMemory, SharedRequest};
use journal_history::{NodeAnswer, NodeAsk};
use std::sync::Wait;

/// The node behind the gate is asked.
pub(crate) fn ask<R: Wait, C: NodeGate>(
    rt: &R,
    gate: &Gate<C>,
    seat: &mut GateSeat<C>,
    ask: &NodeAsk,
) -> Result<NodeAnswer, OutOfMemory>
    requires own { seat.old.seat.table_id ≡ gate.now.table.shared.table_id }
    ensures same { (seat.new.seat.table_id ≡ seat.old.seat.table_id) × (seat.new.caller ≡ seat.old.caller) }
    ensures ok { IfOk result (λ a. own_lines seat.new.caller seat.new.seat.me.0.seen ≡ own_lines seat.old.caller seat.old.seat.me.0.seen ++ record { caller = seat.old.caller; ask = ask.now; answer = a } ∷ []) }
    ensures fits { IfOk result (λ a. FitsAsk ask.now a) }
    ensures err { OnErr result (own_lines seat.new.caller seat.new.seat.me.0.seen ≡ own_lines seat.old.caller seat.old.seat.me.0.seen) }
{
    gate.act(rt, seat, ask)
}

/// A request reaches the node behind the gate.
#[tactic(auto, using(crate::proofs::SeatLaws::calls))]
pub fn ask_request<R: Wait, C: NodeGate>(
    rt: &R,
    gate: &Gate<C>,
    seat: &mut GateSeat<C>,
    late: bool,
    request: &SharedRequest,
) -> Result<NodeAnswer, OutOfMemory>
    requires own { seat.old.seat.table_id ≡ gate.now.table.shared.table_id }
    ensures same { (seat.new.seat.table_id ≡ seat.old.seat.table_id) × (seat.new.caller ≡ seat.old.caller) }
    ensures ok { IfOk result (λ a. own_lines seat.new.caller seat.new.seat.me.0.seen ≡ own_lines seat.old.caller seat.old.seat.me.0.seen ++ record { caller = seat.old.caller; ask = Act late request.now; answer = a } ∷ []) }
    ensures kind { IfOk result (λ a. IsReplyOrStop a) }
    ensures fits { IfOk result (λ a. AnswerFits (Act late request.now) a) }
    ensures err { OnErr result (own_lines seat.new.caller seat.new.seat.me.0.seen ≡ own_lines seat.old.caller seat.old.seat.me.0.seen) }
{
    let asked = NodeAsk::Act {
        late,
        request: request.share()?,
    };
    ask(rt, gate, seat, &asked)
}
