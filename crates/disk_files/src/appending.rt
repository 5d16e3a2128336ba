//! Edits are appended to a segment in progress.
ghost use Rattle.std.specs.Prelude.{IfOk, ◌≡◌, ◌≤◌, ◌<◌, ◌+◌, ◌^◌, length};
ghost use Rattle.base_disk.specs.View.{IsStable};
ghost use Rattle.base_disk.specs.DiskCalls.{IfTells, IfTold, IsDiskCall};
ghost use Rattle.journal_core.specs.Views.{last_txid};
ghost use Rattle.journal_core.specs.declared.segment.Segment.{Segment};
ghost use Rattle.journal_core.specs.declared.node_state.NodeState.{NodeState};
ghost use Rattle.journal_core.specs.Effects.{Append, after_effect};
ghost use Rattle.journal_core.specs.Cuts.{append_cost};
ghost use Rattle.disk_frame.specs.Frames.{frame_bytes};
ghost use Rattle.disk_segment.specs.Names.{name_of, InProgress};
ghost use Rattle.disk_segment.specs.Effects.{IsCounted};
ghost use Rattle.disk_segment.specs.Calls.{CanAppend, IsFrameOf};
ghost use Rattle.disk_segment.specs.Clauses.{Lengthens, HasBlankSeal};
ghost use Rattle.disk_files.specs.Durable.{HoldsState};
ghost use Rattle.disk_files.specs.EffectCalls.{Does, IsCutAt, KeepsOthers};

use base_disk::{Disk, DiskFail};
use disk_segment::{ReadyFrame, append};
use journal_core::Batch;

/// Appends a batch to the segment in progress with this start, at the offset `at` of its file,
/// where its whole frames end and a seal stands blank and synced: four disk calls, of which the
/// third decides, and a crash may undo it until the fourth. Where the batch is next in the segment,
/// a crash at any moment leaves files that stand for the state without its edits or with them all,
/// and once this answered Ok only with them. The place that is told is where the next frame goes.
/// `start` is from 1 to 2^62, and the frame was made of the batch. It takes no memory but what the
/// disk takes. An `Err` leaves either.
pub fn append_edits<D: Disk>(
    disk: &mut D,
    start: u64,
    at: u64,
    batch: &Batch,
    frame: &ReadyFrame,
) -> Result<u64, DiskFail>
    requires start { (1 ≤ start) × (start ≤ 2 ^ 62) }
    requires small { at < 2 ^ 62 }
    requires last { last_txid batch.now ≤ 2 ^ 62 }
    requires frame { IsFrameOf batch.now frame.now }
    requires blank { IfTells D.DiskModel disk.old (HasBlankSeal (name_of start InProgress) at) }
    requires stable { IfTells D.DiskModel disk.old (IsStable (name_of start InProgress)) }

    ensures call { IsDiskCall D.DiskModel disk.old disk.new result }
    ensures place { IfOk result (λ next. next ≡ at + length (frame_bytes batch.now)) }
    ensures effect { D.tells disk.old → (s : NodeState) (g : Segment) → HoldsState (D.view disk.old) s → CanAppend start at batch.now s.segments (D.view disk.old) g
        → Does s (after_effect s (Append start batch.now.bodies)) result (D.view disk.old) (D.view disk.new) }
    ensures others { IfTold D.DiskModel disk.old disk.new (KeepsOthers start) }
    ensures appends { IfTold D.DiskModel disk.old disk.new (Lengthens start at batch.now result) }
    ensures counts { IsCounted 4 (D.left disk.old) (D.left disk.new) result }
    ensures cut { D.tells disk.old → (s : NodeState) (g : Segment) → HoldsState (D.view disk.old) s → CanAppend start at batch.now s.segments (D.view disk.old) g
        → IsCutAt append_cost s (after_effect s (Append start batch.now.bodies)) (D.left disk.old) result (D.view disk.new) }
{
    append(disk, start, at, batch, frame)
}
