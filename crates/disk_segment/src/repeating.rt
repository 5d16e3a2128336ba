//! An acceptance is repeated under the epoch of its record.
ghost use Rattle.std.specs.Prelude.{◌≤◌, ◌^◌, ◌∷◌, [], true};
ghost use Rattle.base_disk.specs.Calls.{Effect};
ghost use Rattle.base_disk.specs.DiskCalls.{IfTold, IsDiskCall};
ghost use Rattle.base_files.specs.Puts.{Disturbs, IsPutCut};
ghost use Rattle.journal_core.specs.Views.{last_txid};
ghost use Rattle.journal_core.specs.Effects.{Replace};
ghost use Rattle.journal_core.specs.Cuts.{accept_cost};
ghost use Rattle.disk_segment.specs.Names.{name_of, InProgress, Fresh};
ghost use Rattle.disk_segment.specs.Effects.{Touches, IsCounted};
ghost use Rattle.disk_segment.specs.Calls.{CanReplaceAgain, IsFrameOf, PlacesFrame};
ghost use Rattle.disk_segment.specs.Clauses.{MakesOf, IsCutOffOf};

use crate::place::place_content;
use crate::ready_frame::ReadyFrame;
use base_disk::{Disk, DiskFail};
use journal_core::Batch;

// Puts the batch in the place of the segment in progress.
fn place_frame<D: Disk>(
    disk: &mut D,
    epoch: u64,
    batch: &Batch,
    frame: &mut ReadyFrame,
) -> Result<(), DiskFail>
    requires start { batch.now.first ≤ 2 ^ 62 }
    requires frame { IsFrameOf batch.now frame.old }

    ensures call { IsDiskCall D.DiskModel disk.old disk.new result }
    ensures frame { IsFrameOf batch.now frame.new }
    ensures place { IfTold D.DiskModel disk.old disk.new
        (Effect (Disturbs (name_of batch.now.first Fresh)) (PlacesFrame epoch batch.now) result) }
    ensures cut { IsPutCut D.DiskModel disk.old disk.new (name_of batch.now.first Fresh) result }
{
    frame.put_header(epoch, batch);
    place_content(disk, batch.first(), frame.as_slice())
}

/// Puts the edits of the batch in the place of the segment in progress with its start, where that
/// segment's paxos record already has this epoch: a file of a header, one frame and a blank seal.
/// Three disk calls: it is written to the `.new` file, synced and renamed, and the rename decides.
/// A crash at any moment leaves files that stand for the old edits or for the accepted ones, and
/// once this answered Done only for these. The batch's start and the epoch are from 1 to 2^62, and
/// the frame was made of the batch, as it still is. It takes no memory but what the disk takes.
pub fn replace_again<D: Disk>(
    disk: &mut D,
    epoch: u64,
    batch: &Batch,
    frame: &mut ReadyFrame,
) -> Result<(), DiskFail>
    requires start { (1 ≤ batch.now.first) × (batch.now.first ≤ 2 ^ 62) }
    requires epoch { (1 ≤ epoch) × (epoch ≤ 2 ^ 62) }
    requires last { last_txid batch.now ≤ 2 ^ 62 }
    requires frame { IsFrameOf batch.now frame.old }

    ensures call { IsDiskCall D.DiskModel disk.old disk.new result }
    ensures frame { IsFrameOf batch.now frame.new }
    ensures effect { IfTold D.DiskModel disk.old disk.new
        (MakesOf (Replace epoch batch.now) (CanReplaceAgain epoch batch.now) result) }
    ensures touches { IfTold D.DiskModel disk.old disk.new
        (Touches batch.now.first (InProgress ∷ Fresh ∷ [])) }
    ensures counts { IsCounted 3 (D.left disk.old) (D.left disk.new) result }
    ensures cut { IfTold D.DiskModel disk.old disk.new
        (IsCutOffOf (λ _. accept_cost true) (Replace epoch batch.now) (CanReplaceAgain epoch batch.now) (D.left disk.old) result) }
{
    place_frame(disk, epoch, batch, frame)
}
