//! The files of segments are checked.
ghost use Rattle.std.specs.Prelude.{◌≡◌, Some, IfOk};
ghost use Rattle.base_disk.specs.Files.{bytes_of};
ghost use Rattle.base_disk.specs.Calls.{Rests};
ghost use Rattle.base_disk.specs.DiskCalls.{IfTold, IsDiskRun};
ghost use Rattle.list_fsck.specs.Segments.{IsReadAs};
ghost use Rattle.list_fsck.specs.Steps.{judged_progress, judged_whole, judged_final};

use crate::finding::Finding;
use crate::rule::Rule;
use crate::segment_bytes::{SegmentBytes, read_segment_bytes};
use base_disk::{Disk, DiskFail};
use ns_store::read_bytes;
use std::alloc::Global;

// All bytes of a file, and none of one that isn't there.
fn read_file<D: Disk>(alloc: Global, disk: &mut D, name: &str) -> Result<Vec<u8>, DiskFail>
    ensures call { IsDiskRun D.DiskModel disk.old disk.new result }
    ensures bytes { D.tells disk.old
        → IfOk result (λ v. v.items ≡ bytes_of ((D.view disk.old).seen name.now)) }
    ensures disk { IfTold D.DiskModel disk.old disk.new Rests }
{
    match disk.length(name)? {
        Some(size) => read_bytes(alloc, disk, name, size),
        None => Ok(Vec::new(alloc)),
    }
}

/// What the bytes of a segment's file turn out to be.
pub fn read_segment<D: Disk>(
    alloc: Global,
    disk: &mut D,
    name: &str,
) -> Result<SegmentBytes, DiskFail>
    ensures call { IsDiskRun D.DiskModel disk.old disk.new result }
    ensures read { D.tells disk.old
        → IfOk result (IsReadAs (bytes_of ((D.view disk.old).seen name.now))) }
    ensures disk { IfTold D.DiskModel disk.old disk.new Rests }
{
    let bytes = read_file(alloc, disk, name)?;
    Ok(read_segment_bytes(alloc, &bytes))
}

// That the bytes are bad at a place.
fn bad_bytes(place: u64) -> Option<Finding>
    ensures { result ≡ Some (record { rule = Rule.SegmentBytes; first = place; second = 0 }) }
{
    Some(Finding {
        rule: Rule::SegmentBytes,
        first: place,
        second: 0,
    })
}

/// What is told of a segment in progress, by the start in its name.
pub fn judge_progress(read: SegmentBytes, start: u64) -> Option<Finding>
    ensures { result ≡ judged_progress read start }
{
    match read {
        SegmentBytes::Bad { place } => bad_bytes(place),
        SegmentBytes::Whole { start: told, .. } => {
            if start == told {
                return None;
            }
            Some(Finding {
                rule: Rule::Start,
                first: start,
                second: told,
            })
        }
    }
}

// What is told of a final segment whose bytes begin at `told`, and end before `next`.
fn judge_whole(start: u64, last: u64, before: u64, told: u64, next: u64) -> Option<Finding>
    ensures { result ≡ judged_whole start last before told next }
{
    let told_last = next.saturating_sub(1);
    if start != told {
        return Some(Finding {
            rule: Rule::Start,
            first: start,
            second: told,
        });
    }
    if last != told_last {
        return Some(Finding {
            rule: Rule::Last,
            first: last,
            second: told_last,
        });
    }
    if start <= before {
        return Some(Finding {
            rule: Rule::Apart,
            first: start,
            second: before,
        });
    }
    None
}

/// What is told of a final segment, by the start and the end in its name, where the last final one
/// before it ends at `before`.
pub fn judge_final(read: SegmentBytes, start: u64, last: u64, before: u64) -> Option<Finding>
    ensures { result ≡ judged_final read start last before }
{
    match read {
        SegmentBytes::Bad { place } => bad_bytes(place),
        SegmentBytes::Whole { start: told, next } => judge_whole(start, last, before, told, next),
    }
}
