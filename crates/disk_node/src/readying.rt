//! The memory that the effects of a request want is taken before the first.
ghost use Rattle.std.specs.Prelude.{◌≡◌, ◌≤◌, ◌<◌, None, length, true, IfOk};
ghost use Rattle.std.specs.List.{list_any};
ghost use Rattle.journal_core.specs.declared.node_state.NodeState.{NodeState as AnyState};
ghost use Rattle.journal_core.specs.Limits.{limit_of, max_number};
ghost use Rattle.journal_core.specs.Step.{refused_at_once, effects_of};
ghost use Rattle.disk_effects.specs.Due.{puts_row};
ghost use Rattle.disk_node.specs.Doing.{HasFrame};
ghost use Rattle.disk_node.specs.Done.{effects_by, HasRoom};
ghost use Rattle.disk_node.specs.Clauses.{IsPlanned};

use disk_effects::{RequestPlan, plan_request};
use disk_segment::{ReadyFrame, RowRoom, SegmentTable};
use journal_core::{NodeState, OutOfMemory, Request};
use journal_step::{DurableEffect, batch_in};
use std::alloc::Global;

/// What the effects of a request lack of memory: the bytes of its batch, and room for a new row.
#[derive(Drop)]
pub struct Ready {
    pub frame: ReadyFrame,
    pub room: RowRoom,
}

/// A request that is planned: what is to be done for it, and the memory that this wants.
#[derive(Drop)]
pub struct Planned {
    pub plan: RequestPlan,
    pub ready: Ready,
}

fn frame_of(alloc: Global, request: &Request) -> Result<ReadyFrame, OutOfMemory>
    requires { limit_of request.now ≡ None }
    ensures { IfOk result (HasFrame request.now) }
{
    match batch_in(request) {
        Some(batch) => ReadyFrame::of(alloc, batch),
        None => Ok(ReadyFrame::none(alloc)),
    }
}

fn any_puts_row(effects: &[DurableEffect]) -> bool
    ensures { result ≡ list_any puts_row effects.now }
{
    effects.iter().any(|effect| effect.puts_row())
}

fn room_of(
    alloc: Global,
    table: &SegmentTable,
    effects: &[DurableEffect],
) -> Result<RowRoom, OutOfMemory>
    ensures { IfOk result (λ room. list_any puts_row effects.now ≡ true → length table.now < room) }
{
    if any_puts_row(effects) {
        table.room_for_one(alloc)
    } else {
        Ok(RowRoom::none(alloc))
    }
}

// The memory that these effects of a request want over this table.
fn make_ready(
    alloc: Global,
    table: &SegmentTable,
    request: &Request,
    effects: &[DurableEffect],
) -> Result<Ready, OutOfMemory>
    requires { limit_of request.now ≡ None }
    ensures frame { IfOk result (λ ready. HasFrame request.now ready.frame) }
    ensures room { (s : AnyState) → effects_by request.now effects.now ≡ effects_of s request.now → IfOk result (λ ready. HasRoom effects.now (length table.now) ready.room) }
{
    let frame = frame_of(alloc, request)?;
    let room = room_of(alloc, table, effects)?;
    Ok(Ready { frame, room })
}

/// The plan of a request, as `plan_request` tells it, with the memory that its effects want, which
/// `do_effects` then needs no more. What `plan_request` asks and answers holds here too.
pub fn ready_plan(
    alloc: Global,
    memory: &NodeState,
    table: &SegmentTable,
    request: &Request,
) -> Result<Planned, OutOfMemory>
    requires at_once { refused_at_once memory.now request.now ≡ None }
    requires limits { limit_of request.now ≡ None }
    requires known { memory.now.known ≤ max_number }
    ensures { IfOk result (λ planned. IsPlanned memory.now table.now request.now planned.plan planned.ready) }
{
    let plan = plan_request(alloc, memory, table, request)?;
    let ready = make_ready(alloc, table, request, plan.effects.as_slice())?;
    Ok(Planned { plan, ready })
}
