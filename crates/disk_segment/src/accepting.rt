//! A recovery is accepted.
ghost use Rattle.std.specs.Prelude.{◌≡◌, ◌≤◌, ◌^◌, ◌∷◌, [], None, OnOk, false};
ghost use Rattle.base_disk.specs.Files.{Moves};
ghost use Rattle.base_disk.specs.Calls.{Atomic};
ghost use Rattle.base_disk.specs.Runs.{Quiet};
ghost use Rattle.base_disk.specs.DiskCalls.{HasFile, IfTold, IsDiskCall, LacksFile};
ghost use Rattle.base_files.specs.Puts.{Disturbs, IsPut, IsPutCut, IsOneCut};
ghost use Rattle.base_files.specs.Records.{record_bytes};
ghost use Rattle.journal_core.specs.Views.{last_txid};
ghost use Rattle.journal_core.specs.Effects.{Replace};
ghost use Rattle.journal_core.specs.Cuts.{accept_cost};
ghost use Rattle.disk_frame.specs.Frames.{frame_bytes, broken_rule};
ghost use Rattle.disk_segment.specs.Names.{name_of, InProgress, Record, UnderWay, FreshRecord};
ghost use Rattle.disk_segment.specs.Places.{IsStaged};
ghost use Rattle.disk_segment.specs.Effects.{Touches, IsCounted};
ghost use Rattle.disk_segment.specs.Calls.{CanReplace, IsFrameOf, content_of};
ghost use Rattle.disk_segment.specs.Clauses.{Makes, IsCutOff};

use crate::names::{progress_name, under_way_name};
use crate::ready_frame::ReadyFrame;
use base_disk::{Disk, DiskFail};
use base_files::PaxosFile;
use journal_core::Batch;

// Writes a content and syncs it.
fn stage_by<D: Disk>(disk: &mut D, way: &str, bytes: &[u8]) -> Result<(), DiskFail>
    ensures call { IsDiskCall D.DiskModel disk.old disk.new result }
    ensures quiet { IfTold D.DiskModel disk.old disk.new (Quiet (Disturbs way.now)) }
    ensures staged { D.tells disk.old → OnOk result (IsStaged way.now bytes.now (D.view disk.new)) }
    ensures counts { IsCounted 2 (D.left disk.old) (D.left disk.new) result }
{
    disk.write_at(way, 0, bytes)?;
    disk.sync(way)
}

// Writes the content of an acceptance beside the file in progress.
fn stage<D: Disk>(
    disk: &mut D,
    epoch: u64,
    batch: &Batch,
    frame: &mut ReadyFrame,
) -> Result<(), DiskFail>
    requires start { batch.now.first ≤ 2 ^ 62 }
    requires frame { IsFrameOf batch.now frame.old }

    ensures call { IsDiskCall D.DiskModel disk.old disk.new result }
    ensures quiet { IfTold D.DiskModel disk.old disk.new
        (Quiet (Disturbs (name_of batch.now.first (UnderWay epoch)))) }
    ensures staged { D.tells disk.old
        → OnOk result (IsStaged (name_of batch.now.first (UnderWay epoch)) (content_of batch.now.first epoch (frame_bytes batch.now)) (D.view disk.new)) }
    ensures good { OnOk result (broken_rule batch.now.first batch.now ≡ None) }
    ensures frame { IsFrameOf batch.now frame.new }
    ensures counts { IsCounted 2 (D.left disk.old) (D.left disk.new) result }
{
    let way = under_way_name(batch.first(), epoch);
    frame.put_header(epoch, batch);
    stage_by(disk, way.as_str(), frame.as_slice())
}

// Puts the record of an acceptance.
fn put_record<D: Disk>(disk: &mut D, epoch: u64, batch: &Batch) -> Result<(), DiskFail>
    requires start { batch.now.first ≤ 2 ^ 62 }
    requires epoch { epoch ≤ 2 ^ 62 }
    requires last { last_txid batch.now ≤ 2 ^ 62 }
    requires absent { LacksFile D.DiskModel disk.old (name_of batch.now.first FreshRecord) }

    ensures call { IsDiskCall D.DiskModel disk.old disk.new result }
    ensures put { IfTold D.DiskModel disk.old disk.new
        (IsPut (name_of batch.now.first Record) (name_of batch.now.first FreshRecord) (record_bytes (record { epoch = epoch; end = last_txid batch.now })) result) }
    ensures cut { IsPutCut D.DiskModel disk.old disk.new (name_of batch.now.first FreshRecord) result }
{
    PaxosFile::put(disk, batch.first(), epoch, batch.last())
}

// Puts the content of an acceptance in the place of the file in progress.
fn settle<D: Disk>(disk: &mut D, epoch: u64, batch: &Batch) -> Result<(), DiskFail>
    requires start { batch.now.first ≤ 2 ^ 62 }
    requires there { HasFile D.DiskModel disk.old (name_of batch.now.first (UnderWay epoch)) }

    ensures call { IsDiskCall D.DiskModel disk.old disk.new result }
    ensures moves { IfTold D.DiskModel disk.old disk.new
        (Atomic (Moves (name_of batch.now.first (UnderWay epoch)) (name_of batch.now.first InProgress)) result) }
    ensures cut { IsOneCut D.DiskModel disk.old disk.new result }
{
    let from = under_way_name(batch.first(), epoch);
    let to = progress_name(batch.first());
    disk.rename(from.as_str(), to.as_str())
}

/// Accepts the edits of the batch under this epoch as the segment in progress with its start, in
/// the place of one that may be there. Six disk calls: a header, one frame and a blank seal are
/// written to the `.epoch=` file; sync; the paxos record is put, which takes three calls; the
/// `.epoch=` file is renamed to the file in progress. The rename of the record decides. Where the
/// files stand for segments among which no final one has this start, and the record isn't of this
/// epoch, a crash at any moment leaves files that stand for the old edits or for the accepted ones,
/// and once this answered Ok only for these. The temporary file of the record isn't there, and is
/// gone again once this answered Ok. The batch's start and the epoch are from 1 to 2^62, and the
/// frame was made of the batch, as it still is. It takes no memory but what the disk takes.
pub fn replace<D: Disk>(
    disk: &mut D,
    epoch: u64,
    batch: &Batch,
    frame: &mut ReadyFrame,
) -> Result<(), DiskFail>
    requires start { (1 ≤ batch.now.first) × (batch.now.first ≤ 2 ^ 62) }
    requires epoch { (1 ≤ epoch) × (epoch ≤ 2 ^ 62) }
    requires last { last_txid batch.now ≤ 2 ^ 62 }
    requires absent { LacksFile D.DiskModel disk.old (name_of batch.now.first FreshRecord) }
    requires frame { IsFrameOf batch.now frame.old }

    ensures call { IsDiskCall D.DiskModel disk.old disk.new result }
    ensures frame { IsFrameOf batch.now frame.new }
    ensures effect { IfTold D.DiskModel disk.old disk.new (Makes (Replace epoch batch.now) (CanReplace epoch batch.now) result) }
    ensures touches { IfTold D.DiskModel disk.old disk.new (Touches batch.now.first (UnderWay epoch ∷ Record ∷ FreshRecord ∷ InProgress ∷ [])) }
    ensures fresh { D.tells disk.old → OnOk result ((D.view disk.new).seen (name_of batch.now.first FreshRecord) ≡ None) }
    ensures counts { IsCounted 6 (D.left disk.old) (D.left disk.new) result }
    ensures cut { IfTold D.DiskModel disk.old disk.new
        (IsCutOff (λ _. accept_cost false) (Replace epoch batch.now) (CanReplace epoch batch.now) (D.left disk.old) result) }
{
    stage(disk, epoch, batch, frame)?;
    put_record(disk, epoch, batch)?;
    settle(disk, epoch, batch)
}
