//! A batch is appended to a segment in progress.
ghost use Rattle.std.specs.Prelude.{◌≡◌, ◌≤◌, ◌<◌, ◌+◌, ◌^◌, ◌∷◌, [], length, None, IfOk, OnOk, IsErrOf};
ghost use Rattle.base_disk.specs.View.{IsStable};
ghost use Rattle.base_disk.specs.DiskCalls.{IfTells, IfTold, IsDiskCall};
ghost use Rattle.journal_core.specs.Views.{last_txid};
ghost use Rattle.journal_core.specs.Effects.{Append};
ghost use Rattle.journal_core.specs.Cuts.{append_cost};
ghost use Rattle.disk_frame.specs.Frames.{frame_bytes, broken_rule};
ghost use Rattle.disk_segment.specs.Seal.{SealCounts};
ghost use Rattle.disk_segment.specs.Names.{name_of, InProgress};
ghost use Rattle.disk_segment.specs.Effects.{Touches, IsCounted};
ghost use Rattle.disk_segment.specs.Calls.{CanAppend, IsFrameOf, after_seal};
ghost use Rattle.disk_segment.specs.Clauses.{MakesOf, IsCutOffOf, Lengthens, HasBlankSeal, SetsSeal, IsFrameAppended, IsCutBehind};

use crate::names::progress_name;
use crate::ready_frame::ReadyFrame;
use crate::seal::append_after_seal;
use base_disk::{Disk, DiskFail};
use journal_core::Batch;

// Appends after the seal of the file in progress.
fn append_to<D: Disk>(disk: &mut D, start: u64, at: u64, behind: &[u8]) -> Result<(), DiskFail>
    requires start { start ≤ 2 ^ 62 }
    requires small { at < 2 ^ 62 }
    requires blank { IfTells D.DiskModel disk.old (HasBlankSeal (name_of start InProgress) at) }
    requires stable { IfTells D.DiskModel disk.old (IsStable (name_of start InProgress)) }

    ensures call { IsDiskCall D.DiskModel disk.old disk.new result }
    ensures effect { IfTold D.DiskModel disk.old disk.new
        (SetsSeal (name_of start InProgress) at behind.now result) }
    ensures stable { D.tells disk.old
        → OnOk result (IsStable (name_of start InProgress) (D.view disk.new)) }
    ensures cut { IsCutBehind D.DiskModel disk.old disk.new (name_of start InProgress) at behind.now result }
    ensures counts { SealCounts (D.left disk.old) (D.left disk.new) result }
{
    let name = progress_name(start);
    append_after_seal(disk, name.as_str(), at, behind)
}

// Appends the frame of a batch after the seal of the file in progress.
fn append_frame<D: Disk>(
    disk: &mut D,
    start: u64,
    at: u64,
    batch: &Batch,
    frame: &ReadyFrame,
) -> Result<u64, DiskFail>
    requires start { start ≤ 2 ^ 62 }
    requires small { at < 2 ^ 62 }
    requires last { last_txid batch.now ≤ 2 ^ 62 }
    requires frame { IsFrameOf batch.now frame.now }
    requires blank { IfTells D.DiskModel disk.old (HasBlankSeal (name_of start InProgress) at) }
    requires stable { IfTells D.DiskModel disk.old (IsStable (name_of start InProgress)) }

    ensures call { IsDiskCall D.DiskModel disk.old disk.new result }
    ensures place { IfOk result (λ next. next ≡ at + length (frame_bytes batch.now)) }
    ensures effect { IfTold D.DiskModel disk.old disk.new (IsFrameAppended start at batch.now result) }
    ensures good { IsErrOf result DiskFail.Failed → broken_rule batch.now.first batch.now ≡ None }
    ensures stable { D.tells disk.old → OnOk result (IsStable (name_of start InProgress) (D.view disk.new)) }
    ensures cut { IsCutBehind D.DiskModel disk.old disk.new (name_of start InProgress) at (after_seal batch.now) result }
    ensures counts { SealCounts (D.left disk.old) (D.left disk.new) result }
{
    let behind = frame.after_seal(batch);
    let next = at + behind.len() as u64;
    append_to(disk, start, at, behind)?;
    Ok(next)
}

/// Appends a batch to the segment in progress with this start, at the place where the whole frames
/// of its file end, and where a seal stands blank and synced. Four disk calls: the frame without
/// its seal, with a blank seal after it, is written at `at + 1`; sync; the seal is set; sync. Where
/// the batch is next in the segment, a crash at any moment leaves files that stand for the segment
/// without its edits or with them all, and once this answered Ok only with them. The place that is
/// told is where the next frame goes. `start` is from 1 to 2^62, and the frame was made of the
/// batch. It takes no memory but what the disk takes.
pub fn append<D: Disk>(
    disk: &mut D,
    start: u64,
    at: u64,
    batch: &Batch,
    frame: &ReadyFrame,
) -> Result<u64, DiskFail>
    requires start { (1 ≤ start) × (start ≤ 2 ^ 62) }
    requires small { at < 2 ^ 62 }
    requires last { last_txid batch.now ≤ 2 ^ 62 }
    requires frame { IsFrameOf batch.now frame.now }
    requires blank { IfTells D.DiskModel disk.old (HasBlankSeal (name_of start InProgress) at) }
    requires stable { IfTells D.DiskModel disk.old (IsStable (name_of start InProgress)) }

    ensures call { IsDiskCall D.DiskModel disk.old disk.new result }
    ensures place { IfOk result (λ next. next ≡ at + length (frame_bytes batch.now)) }
    ensures effect { IfTold D.DiskModel disk.old disk.new (MakesOf (Append start batch.now.bodies) (CanAppend start at batch.now) result) }
    ensures touches { IfTold D.DiskModel disk.old disk.new (Touches start (InProgress ∷ [])) }
    ensures appends { IfTold D.DiskModel disk.old disk.new (Lengthens start at batch.now result) }
    ensures counts { IsCounted 4 (D.left disk.old) (D.left disk.new) result }
    ensures cut { IfTold D.DiskModel disk.old disk.new
        (IsCutOffOf append_cost (Append start batch.now.bodies) (CanAppend start at batch.now) (D.left disk.old) result) }
{
    append_frame(disk, start, at, batch, frame)
}
