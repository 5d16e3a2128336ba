//! Whether a record's calls are those of some chores.
ghost use Rattle.std.specs.Prelude.{◌≡◌, ◌++◌, ◌∷◌, ◌<◌, [], true, List, Decides, IfOk, OnOk, length};
ghost use Rattle.writer_core.specs.Writer.{HasBody, new_writer, writer_begun, next_call};
ghost use Rattle.mesh.specs.Makers.{heard_of, IsOfChores};
ghost use Rattle.mesh.specs.Matches.{IsWithin, AreWithin};
ghost use Rattle.mesh_judge.specs.Leading.{is_call, hears, is_read, next_pass, after_pass, reads, pass_from, begins, goes_on, all_go_on, between, stand_of, stands_of, AllLive, AreAlike, EndAlike, MakeAlike, Follows};

use journal_core::{Heard, OutOfMemory, Reply, Request};
use journal_history::{LentRecord, ListedRecord, Told, same};
use std::alloc::Global;
use writer_core::{Task, Writer};

/// A pass of reads from after a position on, and the node that it asks next.
#[derive(Clone, Copy)]
pub(crate) struct Pass {
    pub(crate) position: u64,
    pub(crate) node: usize,
}

/// Where a caller may stand: its writer, and the pass under way.
#[derive(Drop)]
pub(crate) struct Candidate {
    pub(crate) writer: Writer,
    pub(crate) pass: Option<Pass>,
}

/// What a caller hears of what it was told.
fn heard_of(alloc: Global, told: &Told) -> Result<Heard, OutOfMemory>
    ensures { IfOk result (λ heard. heard ≡ heard_of told.now) }
{
    Ok(match told {
        Told::Reply(reply) => Heard::Answer(reply.share(alloc)?),
        Told::Dropped | Told::Muted | Told::Silent => Heard::Silent,
    })
}

/// The call that a writer makes next is this one.
fn makes(
    alloc: Global,
    writer: &mut Writer,
    node: usize,
    request: &Request,
) -> Result<bool, OutOfMemory>
    ensures call { IfOk result (λ makes. makes ≡ is_call (next_call writer.old.view) node request.now) }
    ensures same { writer.new.view ≡ writer.old.view }
    ensures room { IfOk result (λ makes. makes ≡ true → writer.new.room ≡ true) }
{
    match writer.next(alloc)? {
        Some((next, asked)) => Ok(next == node && same(asked.get(), request)),
        None => Ok(false),
    }
}

/// A writer that makes this call next is kept, as it is after it.
fn push_heard(
    alloc: Global,
    after: &mut Vec<Candidate>,
    writer: Writer,
    node: usize,
    request: &Request,
    told: &Told,
) -> Result<(), OutOfMemory>
    ensures { OnOk result (stands_of after.new.items ≡ stands_of after.old.items ++ hears writer.view node request.now told.now) }
{
    let mut writer = writer;
    if makes(alloc, &mut writer, node, request)? {
        let _ = writer.hear(node, heard_of(alloc, told)?);
        after.push(Candidate { writer, pass: None })?;
    }
    Ok(())
}

/// A writer that makes this call next once it has begun the task is kept, as it is after the call.
fn push_begun(
    alloc: Global,
    after: &mut Vec<Candidate>,
    writer: &Writer,
    task: Task,
    node: usize,
    request: &Request,
    told: &Told,
) -> Result<(), OutOfMemory>
    requires { HasBody task }
    ensures { OnOk result (stands_of after.new.items ≡ stands_of after.old.items ++ hears (writer_begun writer.now.view task).writer node request.now told.now) }
{
    let mut writer = writer.share(alloc)?;
    let _ = writer.begin(task);
    push_heard(alloc, after, writer, node, request, told)
}

/// The read that a pass makes next is this one.
fn is_read(pass: Pass, node: usize, request: &Request) -> bool
    ensures { result ≡ is_read pass node request.now }
{
    match request {
        Request::Read { from } => pass.node == node && *from > 0 && *from - 1 == pass.position,
        _ => false,
    }
}

/// The pass goes on at the next node, up to the last.
fn next_pass(writer: Writer, pass: Pass) -> Candidate
    ensures { stand_of result ≡ next_pass writer.view pass }
{
    let next = if pass.node < writer.nodes() {
        Some(Pass {
            position: pass.position,
            node: pass.node + 1,
        })
    } else {
        None
    };
    Candidate { writer, pass: next }
}

/// What is left of a pass after its read: edits end it, and so does the last node.
fn after_pass(writer: Writer, pass: Pass, told: &Told) -> Candidate
    ensures { stand_of result ≡ after_pass writer.view pass told.now }
{
    match told {
        Told::Reply(Reply::Edits(_)) => Candidate { writer, pass: None },
        _ => next_pass(writer, pass),
    }
}

/// A pass that makes this call next is kept, as it is after it.
fn push_read(
    after: &mut Vec<Candidate>,
    writer: Writer,
    pass: Pass,
    node: usize,
    request: &Request,
    told: &Told,
) -> Result<(), OutOfMemory>
    ensures { OnOk result (stands_of after.new.items ≡ stands_of after.old.items ++ reads writer.view pass node request.now told.now) }
{
    if is_read(pass, node, request) {
        after.push(after_pass(writer, pass, told))?;
    }
    Ok(())
}

/// The pass that may begin with a read from this txid on.
fn pass_from(from: u64) -> Pass
    ensures { result ≡ pass_from from }
{
    Pass {
        position: from.saturating_sub(1),
        node: 1,
    }
}

/// Each chore that may begin with the request is begun; of those that make this call next, where
/// the caller stands after it is kept.
#[tactic(auto, using(crate::proofs::LeadingCode::log_begun, crate::proofs::LeadingCode::one_begun))]
fn push_begins(
    alloc: Global,
    after: &mut Vec<Candidate>,
    writer: Writer,
    node: usize,
    request: &Request,
    told: &Told,
) -> Result<(), OutOfMemory>
    ensures { OnOk result (stands_of after.new.items ≡ stands_of after.old.items ++ begins writer.view node request.now told.now) }
{
    match request {
        Request::State => push_begun(alloc, after, &writer, Task::Takeover, node, request, told),
        Request::Journal { batch, .. } => {
            let log = Task::Log(batch.bodies().share(alloc)?);
            push_begun(alloc, after, &writer, log, node, request, told)?;
            push_begun(alloc, after, &writer, Task::Roll, node, request, told)?;
            push_begun(alloc, after, &writer, Task::Close, node, request, told)
        }
        Request::Purge { min, .. } => {
            let purge = Task::Purge { min: *min };
            push_begun(alloc, after, &writer, purge, node, request, told)
        }
        Request::Read { from } => {
            push_read(after, writer, pass_from(*from), node, request, told)
        }
        Request::NewEpoch { .. }
        | Request::Start { .. }
        | Request::Finalize { .. }
        | Request::Prepare { .. }
        | Request::Fetch { .. }
        | Request::Accept { .. }
        | Request::Manifest => Ok(()),
    }
}

/// Where a caller may stand after the call: where nothing is under way, a chore begins.
fn push_next(
    alloc: Global,
    after: &mut Vec<Candidate>,
    candidate: Candidate,
    node: usize,
    request: &Request,
    told: &Told,
) -> Result<(), OutOfMemory>
    ensures { OnOk result (stands_of after.new.items ≡ stands_of after.old.items ++ goes_on (stand_of candidate) node request.now told.now) }
{
    let Candidate { writer, pass } = candidate;
    if let Some(pass) = pass {
        return push_read(after, writer, pass, node, request, told);
    }
    let mut writer = writer;
    if writer.next(alloc)?.is_some() {
        return push_heard(alloc, after, writer, node, request, told);
    }
    push_begins(alloc, after, writer, node, request, told)
}

/// Where the caller may stand after the call, of all where it may stand before.
fn all_after(
    alloc: Global,
    candidates: Vec<Candidate>,
    node: usize,
    request: &Request,
    told: &Told,
) -> Result<Vec<Candidate>, OutOfMemory>
    ensures { IfOk result (λ after. stands_of after.items ≡ all_go_on (stands_of candidates.items) node request.now told.now) }
{
    let mut after = Vec::new(alloc);
    for candidate in candidates {
        push_next(alloc, &mut after, candidate, node, request, told)?;
    }
    Ok(after)
}

/// Both are stopped between chores, and go on alike.
fn are_alike(a: &Candidate, b: &Candidate) -> bool
    ensures { Decides result (AreAlike (stand_of a.now) (stand_of b.now)) }
{
    a.pass.is_none() && b.pass.is_none() && a.writer.is_stopped_like(&b.writer)
}

/// The last of these goes on like the candidate.
fn end_alike(kept: &[Candidate], candidate: &Candidate) -> bool
    ensures { Decides result (EndAlike (stands_of kept.now) (stand_of candidate.now)) }
{
    match kept.last() {
        Some(last) => are_alike(last, candidate),
        None => false,
    }
}

/// The candidates without those that go on like the one before them: a log, a roll and a close that
/// failed in their first round leave the same.
fn distinct(alloc: Global, candidates: Vec<Candidate>) -> Result<Vec<Candidate>, OutOfMemory>
    ensures { IfOk result (λ kept. MakeAlike (stands_of candidates.items) (stands_of kept.items)) }
{
    let mut kept = Vec::new(alloc);
    for candidate in candidates {
        if end_alike(&kept, &candidate) {
            continue;
        }
        kept.push(candidate)?;
    }
    Ok(kept)
}

/// Where the caller may stand after the call, each but once.
fn after_call(
    alloc: Global,
    candidates: Vec<Candidate>,
    node: usize,
    request: &Request,
    told: &Told,
) -> Result<Vec<Candidate>, OutOfMemory>
    ensures { IfOk result (λ after. MakeAlike (all_go_on (stands_of candidates.items) node request.now told.now) (stands_of after.items)) }
{
    let after = all_after(alloc, candidates, node, request, told)?;
    if after.len() < 2 {
        return Ok(after);
    }
    distinct(alloc, after)
}

/// Where the caller may stand after a line; an operator's line is no caller's.
#[tactic(auto, using(crate::proofs::Following::follows_call, crate::proofs::Following::follows_late, crate::proofs::Following::follows_operator, crate::proofs::Following::follows_outcome))]
fn after_line(
    alloc: Global,
    nodes: usize,
    candidates: Vec<Candidate>,
    line: &ListedRecord,
) -> Result<Vec<Candidate>, OutOfMemory>
    requires within { IsWithin nodes line.now }
    requires live { 0 < nodes → AllLive (stands_of candidates.items) }
    ensures { IfOk result (λ after. Follows nodes (stands_of candidates.items) line.now (stands_of after.items)) }
{
    match line.lend(&Told::OK) {
        LentRecord::Call {
            node,
            request,
            told,
        } => after_call(alloc, candidates, node, request.get(), told),
        LentRecord::Late { .. } => Ok(candidates),
        LentRecord::Outcome { .. } => Ok(candidates),
        LentRecord::Operator { .. } => Ok(Vec::new(alloc)),
    }
}

/// A caller of that many nodes, before its first chore.
fn first_candidates(alloc: Global, nodes: usize) -> Result<Vec<Candidate>, OutOfMemory>
    ensures { IfOk result (λ first. stands_of first.items ≡ between (new_writer nodes) ∷ []) }
{
    let mut first = Vec::new(alloc);
    let writer = Writer::new(alloc, nodes)?;
    first.push(Candidate { writer, pass: None })?;
    Ok(first)
}

/// Some candidate is left.
fn some_left(candidates: &[Candidate]) -> bool
    ensures { Decides result (0 < length candidates.now) }
{
    !candidates.is_empty()
}

/// The calls of a record are those of some chores of one caller, by the answers that it has. A
/// journal request may be a log's or end a segment: each candidate that goes on is led, until the
/// next calls tell.
pub fn is_of_chores(
    alloc: Global,
    nodes: usize,
    lines: &[ListedRecord],
) -> Result<bool, OutOfMemory>
    requires { AreWithin nodes lines.now }
    ensures { IfOk result (λ is_made. Decides is_made (IsOfChores nodes lines.now)) }
{
    let mut candidates = first_candidates(alloc, nodes)?;
    for line in lines {
        candidates = after_line(alloc, nodes, candidates, line)?;
    }
    Ok(some_left(&candidates))
}
