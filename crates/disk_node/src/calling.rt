//! The disk calls of an effect.
ghost use Rattle.std.specs.Prelude.{◌≡◌, IfOk};
ghost use Rattle.base_disk.specs.DiskCalls.{IsDiskCall};
ghost use Rattle.disk_node.specs.Doing.{placeless, storing, place_after, HasFrame};
ghost use Rattle.disk_node.specs.Clauses.{IsDueSomewhere, CanBeDoneAt, DoesCalls};

use crate::readying::Ready;
use base_disk::{Disk, DiskFail};
use disk_files::{
    NodeNumber, accept_edits, append_edits, begin_segment, finalize_segment, put_number,
    remove_segment,
};
use disk_segment::ReadyFrame;
use journal_core::{Request, SegmentInfo, SegmentLine};
use journal_step::{DurableEffect, batch_in};

// Only an append tells a place.
fn placeless(done: Result<(), DiskFail>) -> Result<u64, DiskFail>
    ensures same { result ≡ placeless done }
    ensures place { IfOk result (λ place. place ≡ 0) }
{
    match done {
        Ok(()) => Ok(0),
        Err(fail) => Err(fail),
    }
}

fn store<D: Disk>(
    disk: &mut D,
    request: &Request,
    number: NodeNumber,
    value: u64,
) -> Result<u64, DiskFail>
    requires due { IsDueSomewhere request.now (storing number value) }
    requires can { CanBeDoneAt D.DiskModel disk.old request.now (storing number value) }

    ensures call { IsDiskCall D.DiskModel disk.old disk.new result }
    ensures place { IfOk result (λ place. place ≡ 0) }
    ensures does { DoesCalls D.DiskModel disk.old disk.new request.now (storing number value) result }
{
    let _request = request;
    placeless(put_number(disk, number, value))
}

fn begin<D: Disk>(disk: &mut D, request: &Request, start: u64, epoch: u64) -> Result<u64, DiskFail>
    requires due { IsDueSomewhere request.now (DurableEffect.NewSegment start epoch) }

    ensures call { IsDiskCall D.DiskModel disk.old disk.new result }
    ensures place { IfOk result (λ place. place ≡ 0) }
    ensures does { DoesCalls D.DiskModel disk.old disk.new request.now (DurableEffect.NewSegment start epoch) result }
{
    let _request = request;
    placeless(begin_segment(disk, start, epoch))
}

// An append without its batch isn't due.
fn append<D: Disk>(
    disk: &mut D,
    frame: &ReadyFrame,
    request: &Request,
    start: u64,
    at: u64,
) -> Result<u64, DiskFail>
    requires due { IsDueSomewhere request.now (DurableEffect.Append start at) }
    requires can { CanBeDoneAt D.DiskModel disk.old request.now (DurableEffect.Append start at) }
    requires frame { HasFrame request.now frame.now }

    ensures call { IsDiskCall D.DiskModel disk.old disk.new result }
    ensures place { IfOk result (λ place. place ≡ place_after request.now (DurableEffect.Append start at)) }
    ensures does { DoesCalls D.DiskModel disk.old disk.new request.now (DurableEffect.Append start at) result }
{
    match batch_in(request) {
        Some(batch) => append_edits(disk, start, at, batch, frame),
        None => unreachable!(),
    }
}

// An acceptance without its batch isn't due.
fn accept<D: Disk>(
    disk: &mut D,
    frame: &mut ReadyFrame,
    request: &Request,
    epoch: u64,
    again: bool,
) -> Result<u64, DiskFail>
    requires due { IsDueSomewhere request.now (DurableEffect.Replace epoch again) }
    requires can { CanBeDoneAt D.DiskModel disk.old request.now (DurableEffect.Replace epoch again) }
    requires frame { HasFrame request.now frame.old }

    ensures call { IsDiskCall D.DiskModel disk.old disk.new result }
    ensures frame { HasFrame request.now frame.new }
    ensures place { IfOk result (λ place. place ≡ 0) }
    ensures does { DoesCalls D.DiskModel disk.old disk.new request.now (DurableEffect.Replace epoch again) result }
{
    match batch_in(request) {
        Some(batch) => placeless(accept_edits(disk, epoch, batch, again, frame)),
        None => unreachable!(),
    }
}

fn finalize<D: Disk>(
    disk: &mut D,
    request: &Request,
    start: u64,
    end: u64,
    accepted: bool,
) -> Result<u64, DiskFail>
    requires due { IsDueSomewhere request.now (DurableEffect.MakeFinal start end accepted) }
    requires can { CanBeDoneAt D.DiskModel disk.old request.now (DurableEffect.MakeFinal start end accepted) }

    ensures call { IsDiskCall D.DiskModel disk.old disk.new result }
    ensures place { IfOk result (λ place. place ≡ 0) }
    ensures does { DoesCalls D.DiskModel disk.old disk.new request.now (DurableEffect.MakeFinal start end accepted) result }
{
    let _request = request;
    placeless(finalize_segment(disk, start, end, accepted))
}

fn remove<D: Disk>(disk: &mut D, request: &Request, info: SegmentInfo) -> Result<u64, DiskFail>
    requires due { IsDueSomewhere request.now (DurableEffect.Remove info) }
    requires can { CanBeDoneAt D.DiskModel disk.old request.now (DurableEffect.Remove info) }

    ensures call { IsDiskCall D.DiskModel disk.old disk.new result }
    ensures place { IfOk result (λ place. place ≡ 0) }
    ensures does { DoesCalls D.DiskModel disk.old disk.new request.now (DurableEffect.Remove info) result }
{
    let _request = request;
    let line = SegmentLine {
        start: info.start,
        end: info.end,
        is_final: info.is_final,
        epoch: info.epoch,
    };
    placeless(remove_segment(disk, &line, info.accepted))
}

/// The disk calls of an effect. It tells where the frames of the segment's file end after an
/// append, and 0 after another effect.
pub(crate) fn call_disk<D: Disk>(
    disk: &mut D,
    ready: &mut Ready,
    request: &Request,
    effect: DurableEffect,
) -> Result<u64, DiskFail>
    requires due { IsDueSomewhere request.now effect }
    requires can { CanBeDoneAt D.DiskModel disk.old request.now effect }
    requires frame { HasFrame request.now ready.old.frame }

    ensures call { IsDiskCall D.DiskModel disk.old disk.new result }
    ensures frame { HasFrame request.now ready.new.frame }
    ensures room { ready.new.room ≡ ready.old.room }
    ensures place { IfOk result (λ place. place ≡ place_after request.now effect) }
    ensures does { DoesCalls D.DiskModel disk.old disk.new request.now effect result }
{
    match effect {
        DurableEffect::Promise { epoch } => store(disk, request, NodeNumber::Promised, epoch),
        DurableEffect::WriterEpoch { epoch } => store(disk, request, NodeNumber::Writer, epoch),
        DurableEffect::Commit { txid } => store(disk, request, NodeNumber::Committed, txid),
        DurableEffect::NewSegment { start, epoch } => begin(disk, request, start, epoch),
        DurableEffect::Append { start, at } => append(disk, &ready.frame, request, start, at),
        DurableEffect::Replace { epoch, again } => {
            accept(disk, &mut ready.frame, request, epoch, again)
        }
        DurableEffect::MakeFinal {
            start,
            end,
            accepted,
        } => finalize(disk, request, start, end, accepted),
        DurableEffect::Remove { info } => remove(disk, request, info),
    }
}
