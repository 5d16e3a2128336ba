//! A request is answered: its reply is found, its effects are done, and memory follows.
ghost use Rattle.std.specs.Prelude.{◌≡◌, ◌≤◌, ◌↔◌, List, true, false, IfOk, OnOk, OnErr};
ghost use Rattle.base_disk.specs.Calls.{Rests};
ghost use Rattle.base_disk.specs.DiskCalls.{IfTold, IsDiskCall, IsDiskRun};
ghost use Rattle.journal_core.specs.declared.segment.Segment.{Segment};
ghost use Rattle.journal_core.specs.declared.node_state.NodeState.{NodeState as AnyState};
ghost use Rattle.journal_core.specs.Segments.{AreSound};
ghost use Rattle.journal_core.specs.Step.{crashed, fronted, row_refused, effects_of};
ghost use Rattle.journal_core.specs.Answers.{IsAnswer, FitsRequest, Rose};
ghost use Rattle.disk_segment.specs.Effects.{IsReady};
ghost use Rattle.disk_segment.specs.Rows.{RowsRise};
ghost use Rattle.disk_effects.specs.Told.{Tells, state_with};
ghost use Rattle.disk_recent.specs.Recent.{AsksRecent, IsRecent, cached_then};
ghost use Rattle.disk_node.specs.Node.{BringsEdits, IsUp, HasState, IsNode, IsNoFault, IsStoppedIn, IsWhole, Recalls, settled, state_behind, foretold};
ghost use Rattle.disk_node.specs.Clauses.{IsPlanned, HasMoments, IsStable, IsCached, ReadsNone, HasOwnCause, IsSpared};

use crate::acting_reads::{fetch, read_served};
use crate::effects_done::do_effects;
use crate::following::follow_effects;
use crate::node_memory::NodeMemory;
use crate::readying::{Planned, Ready, ready_plan};
use base_disk::{Disk, DiskFail};
use disk_effects::{RequestPlan, follow, plain_reply};
use disk_segment::SegmentTable;
use journal_core::{NodeState, Refusal, Reply, Request};
use std::alloc::Global;

// An acceptance has an edit.
#[tactic(auto, using(disk_files::proofs::Lists::any_some))]
pub(crate) fn look_at(request: &Request)
    ensures { BringsEdits request.now }
{
    if let Request::Accept { batch, .. } = request {
        let _bodies = batch.bodies();
    }
}

/// A node goes down: its memory forgets what isn't durable.
pub(crate) fn go_down(memory: &mut NodeState, table: &SegmentTable)
    ensures memory { memory.new ≡ crashed memory.old }
    ensures rise { RowsRise table.now }
{
    let _rows = table.as_slice();
    memory.crash();
}

// What follows the effects of a request.
fn settle(numbers: &mut NodeState, request: &Request, plan: &RequestPlan)
    ensures { numbers.new ≡ settled plan.now.refusal numbers.old plan.now.front request.now }
{
    numbers.known = plan.front.known;
    numbers.opened = plan.front.opened;
    numbers.serial = plan.front.serial;
    if plan.refusal.is_none() {
        follow(numbers, request);
    }
}

// The reply, before anything is done.
fn foretell<D: Disk>(
    alloc: Global,
    disk: &mut D,
    memory: &NodeMemory,
    request: &Request,
    plan: &RequestPlan,
) -> Result<Reply, DiskFail>
    requires told { (gs : List Segment) × Tells gs memory.now.table }
    requires refused { (gs : List Segment) → Tells gs memory.now.table → plan.now.refusal ≡ row_refused (state_with plan.now.front gs) request.now }

    ensures call { IsDiskRun D.DiskModel disk.old disk.new result }
    ensures reply { D.tells disk.old → (gs : List Segment) → IsReady (D.view disk.old) gs → AreSound gs → Tells gs memory.now.table → IsRecent memory.now.recent gs → IfOk result (λ reply. reply ≡ foretold plan.now.refusal (state_with plan.now.front gs) request.now) }
    ensures fits { IfOk result (FitsRequest request.now) }
    ensures own { IfOk result IsNoFault }
    ensures disk { IfTold D.DiskModel disk.old disk.new Rests }
    ensures unread { (gs : List Segment) → Tells gs memory.now.table → IsRecent memory.now.recent gs → AsksRecent memory.now.recent.start (state_with plan.now.front gs) request.now → D.reads disk.new ≡ D.reads disk.old }
    ensures shortages { D.shortages disk.old ≤ D.shortages disk.new }
{
    if let Some(refusal) = plan.refusal {
        return Ok(Reply::Refused(refusal));
    }
    match request {
        Request::Read { from } => read_served(alloc, disk, &plan.front, memory, *from),
        Request::Fetch { start, from, .. } => fetch(alloc, disk, memory, *start, *from),
        _ => match plain_reply(alloc, &plan.front, &memory.table, request) {
            Ok(Some(reply)) => Ok(reply),
            _ => Err(DiskFail::OutOfMemory),
        },
    }
}

/// Does the effects of a request, and what follows them. An `Err` leaves the node down.
pub(crate) fn carry_out<D: Disk>(
    disk: &mut D,
    memory: &mut NodeMemory,
    request: &Request,
    plan: &RequestPlan,
    ready: &mut Ready,
) -> Result<(), DiskFail>
    requires whole { IsWhole (D.tells disk.old) (D.view disk.old) memory.old.numbers memory.old.table memory.old.recent }
    requires brings { BringsEdits request.now }
    requires planned { IsPlanned memory.old.numbers memory.old.table request.now plan.now ready.old }

    ensures call { IsDiskCall D.DiskModel disk.old disk.new result }
    ensures node { IsNode (D.tells disk.new) (D.view disk.new) memory.new.numbers memory.new.table }
    ensures recalls { D.tells disk.old → Recalls (D.view disk.new) memory.new.numbers memory.new.table memory.new.recent }
    ensures up { OnOk result (memory.new.numbers.up ≡ true) }
    ensures down { OnErr result (memory.new.numbers.up ≡ false) }
    ensures done { D.tells disk.old → (s : AnyState) → IsUp (D.view disk.old) memory.old.numbers memory.old.table s → OnOk result (IsUp (D.view disk.new) memory.new.numbers memory.new.table (state_behind s request.now)) }
    ensures stopped { D.tells disk.old → (s : AnyState) → IsUp (D.view disk.old) memory.old.numbers memory.old.table s → OnErr result (IsStoppedIn (D.view disk.new) memory.new.numbers memory.new.table s request.now) }
    ensures moments { HasMoments D.DiskModel disk.old disk.new memory.old.numbers memory.old.table request.now }
    ensures cached { D.tells disk.old → (s : AnyState) → IsUp (D.view disk.old) memory.old.numbers memory.old.table s → OnOk result (memory.new.recent.start ≡ cached_then memory.old.recent.start (effects_of s request.now)) }
{
    let effects = plan.effects.as_slice();
    match do_effects(
        disk,
        &mut memory.numbers,
        &mut memory.table,
        ready,
        request,
        effects,
    ) {
        Ok(()) => {
            follow_effects(&mut memory.recent, request, effects);
            settle(&mut memory.numbers, request, plan);
            Ok(())
        }
        Err(fail) => {
            go_down(&mut memory.numbers, &memory.table);
            Err(fail)
        }
    }
}

// Does the effects of a request whose reply is found, and gives that reply. Where the disk fails,
// or wants memory, it gives a refusal that says so, and the node is down.
fn finish<D: Disk>(
    disk: &mut D,
    memory: &mut NodeMemory,
    request: &Request,
    planned: Planned,
    reply: Reply,
) -> Reply
    requires whole { IsWhole (D.tells disk.old) (D.view disk.old) memory.old.numbers memory.old.table memory.old.recent }
    requires brings { BringsEdits request.now }
    requires planned { IsPlanned memory.old.numbers memory.old.table request.now planned.plan planned.ready }
    requires fits { FitsRequest request.now reply }
    requires own { IsNoFault reply }

    ensures tells { D.tells disk.old ↔ D.tells disk.new }
    ensures node { IsNode (D.tells disk.new) (D.view disk.new) memory.new.numbers memory.new.table }
    ensures recalls { D.tells disk.old → Recalls (D.view disk.new) memory.new.numbers memory.new.table memory.new.recent }
    ensures answer { D.tells disk.old → (s : AnyState) → IsUp (D.view disk.old) memory.old.numbers memory.old.table s → reply ≡ foretold (row_refused (fronted s request.now) request.now) (fronted s request.now) request.now
        → (t : AnyState) × HasState memory.new.numbers.up (D.view disk.new) memory.new.numbers memory.new.table t × IsAnswer s request.now result t }
    ensures fits { FitsRequest request.now result }
    ensures moments { HasMoments D.DiskModel disk.old disk.new memory.old.numbers memory.old.table request.now }
    ensures stable { IsStable D.DiskModel disk.old disk.new memory.old.numbers memory.old.table request.now result }
    ensures cached { IsCached D.DiskModel disk.old memory.old.numbers memory.old.table request.now result memory.old.recent.start memory.new.recent.start }
    ensures reads { D.reads disk.new ≡ D.reads disk.old }
    ensures cause { HasOwnCause D.DiskModel disk.old disk.new result }
    ensures short { result ≡ Reply.Refused Refusal.OutOfMemory → Rose (D.shortages disk.old) (D.shortages disk.new) }
{
    let Planned { plan, mut ready } = planned;
    match carry_out(disk, memory, request, &plan, &mut ready) {
        Ok(()) => reply,
        Err(DiskFail::Failed) => Reply::Refused(Refusal::DiskFault),
        Err(DiskFail::OutOfMemory) => Reply::Refused(Refusal::OutOfMemory),
    }
}

// Finds the reply of a request that isn't refused at once, and does its effects. Where the disk
// fails the node goes down; where memory is wanting before the first effect, nothing changes.
fn answer_by<D: Disk>(
    alloc: Global,
    disk: &mut D,
    memory: &mut NodeMemory,
    request: &Request,
    planned: Planned,
) -> Reply
    requires whole { IsWhole (D.tells disk.old) (D.view disk.old) memory.old.numbers memory.old.table memory.old.recent }
    requires brings { BringsEdits request.now }
    requires planned { IsPlanned memory.old.numbers memory.old.table request.now planned.plan planned.ready }

    ensures tells { D.tells disk.old ↔ D.tells disk.new }
    ensures node { IsNode (D.tells disk.new) (D.view disk.new) memory.new.numbers memory.new.table }
    ensures recalls { D.tells disk.old → Recalls (D.view disk.new) memory.new.numbers memory.new.table memory.new.recent }
    ensures answer { D.tells disk.old → (s : AnyState) → IsUp (D.view disk.old) memory.old.numbers memory.old.table s
        → (t : AnyState) × HasState memory.new.numbers.up (D.view disk.new) memory.new.numbers memory.new.table t × IsAnswer s request.now result t }
    ensures fits { FitsRequest request.now result }
    ensures moments { HasMoments D.DiskModel disk.old disk.new memory.old.numbers memory.old.table request.now }
    ensures stable { IsStable D.DiskModel disk.old disk.new memory.old.numbers memory.old.table request.now result }
    ensures cached { IsCached D.DiskModel disk.old memory.old.numbers memory.old.table request.now result memory.old.recent.start memory.new.recent.start }
    ensures unread { ReadsNone D.DiskModel disk.old disk.new memory.old.numbers memory.old.table memory.old.recent.start request.now }
    ensures cause { HasOwnCause D.DiskModel disk.old disk.new result }
    ensures spared { IsSpared D.DiskModel disk.old disk.new memory.old.numbers memory.new.numbers memory.old.table memory.new.table memory.old.recent memory.new.recent result }
{
    match foretell(alloc, disk, memory, request, &planned.plan) {
        Ok(reply) => finish(disk, memory, request, planned, reply),
        Err(DiskFail::Failed) => {
            go_down(&mut memory.numbers, &memory.table);
            Reply::Refused(Refusal::DiskFault)
        }
        Err(DiskFail::OutOfMemory) => Reply::Refused(Refusal::OutOfMemory),
    }
}

/// Answers one request at a node over a disk, of which what it keeps in memory is given. The reply
/// is found, and the memory for the effects taken, before anything is done, so that want of it
/// changes nothing; where the disk fails, or wants memory in a call of an effect, the node goes
/// down.
pub(crate) fn answer<D: Disk>(
    alloc: Global,
    disk: &mut D,
    memory: &mut NodeMemory,
    request: &Request,
) -> Reply
    requires { IsWhole (D.tells disk.old) (D.view disk.old) memory.old.numbers memory.old.table memory.old.recent }

    ensures tells { D.tells disk.old ↔ D.tells disk.new }
    ensures node { IsNode (D.tells disk.new) (D.view disk.new) memory.new.numbers memory.new.table }
    ensures recalls { D.tells disk.old → Recalls (D.view disk.new) memory.new.numbers memory.new.table memory.new.recent }
    ensures answer { D.tells disk.old → (s : AnyState) → HasState memory.old.numbers.up (D.view disk.old) memory.old.numbers memory.old.table s
        → (t : AnyState) × HasState memory.new.numbers.up (D.view disk.new) memory.new.numbers memory.new.table t × IsAnswer s request.now result t }
    ensures fits { FitsRequest request.now result }
    ensures moments { HasMoments D.DiskModel disk.old disk.new memory.old.numbers memory.old.table request.now }
    ensures stable { IsStable D.DiskModel disk.old disk.new memory.old.numbers memory.old.table request.now result }
    ensures idle { memory.old.numbers.up ≡ false → disk.new ≡ disk.old }
    ensures cached { IsCached D.DiskModel disk.old memory.old.numbers memory.old.table request.now result memory.old.recent.start memory.new.recent.start }
    ensures unread { ReadsNone D.DiskModel disk.old disk.new memory.old.numbers memory.old.table memory.old.recent.start request.now }
    ensures cause { HasOwnCause D.DiskModel disk.old disk.new result }
    ensures spared { IsSpared D.DiskModel disk.old disk.new memory.old.numbers memory.new.numbers memory.old.table memory.new.table memory.old.recent memory.new.recent result }
{
    look_at(request);
    match memory.numbers.refused_at_once(request) {
        Some(refusal) => Reply::Refused(refusal),
        None => match ready_plan(alloc, &memory.numbers, &memory.table, request) {
            Ok(planned) => answer_by(alloc, disk, memory, request, planned),
            Err(_) => Reply::Refused(Refusal::OutOfMemory),
        },
    }
}
