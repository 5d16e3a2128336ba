//! A number of a node is noted.
ghost use Rattle.std.specs.Prelude.{◌≡◌, ◌≢◌, ◌≤◌, ◌^◌, ℕ, List};
ghost use Rattle.base_disk.specs.DiskCalls.{IsDiskCall, LacksFile};
ghost use Rattle.base_files.specs.Puts.{temporary};
ghost use Rattle.journal_core.specs.declared.segment.Segment.{Segment};
ghost use Rattle.journal_core.specs.declared.node_state.NodeState.{NodeState};
ghost use Rattle.journal_core.specs.Effects.{after_effect};
ghost use Rattle.journal_core.specs.Cuts.{number_cost};
ghost use Rattle.disk_segment.specs.Effects.{AppendsAt, IsCounted};
ghost use Rattle.disk_files.specs.Durable.{number_name, HoldsState};
ghost use Rattle.disk_files.specs.EffectCalls.{number_effect, Does, IsCutAt};

use crate::node_number::NodeNumber;
use base_disk::{Disk, DiskFail};
use base_files::NumberFile;

/// Puts this number, of at most 2^62, into its file, whose temporary file isn't there: three disk
/// calls, of which the last decides. A crash at any moment leaves files that stand for the state
/// with the old number or with the new one, and once this answered Ok only with the new one. Other
/// files stay as they are. An `Err` leaves either.
pub fn put_number<D: Disk>(disk: &mut D, number: NodeNumber, value: u64) -> Result<(), DiskFail>
    requires value { value ≤ 2 ^ 62 }
    requires absent { LacksFile D.DiskModel disk.old (temporary (number_name number)) }

    ensures call { IsDiskCall D.DiskModel disk.old disk.new result }
    ensures effect { D.tells disk.old → (s : NodeState) → HoldsState (D.view disk.old) s
        → Does s (after_effect s (number_effect number value)) result (D.view disk.old) (D.view disk.new) }
    ensures appends { D.tells disk.old → (g : Segment) (at : ℕ) → AppendsAt (D.view disk.old) g at
        → AppendsAt (D.view disk.new) g at }
    ensures files { D.tells disk.old → (name : List ℕ) → name ≢ number_name number
        → name ≢ temporary (number_name number)
        → (D.view disk.new).seen name ≡ (D.view disk.old).seen name }
    ensures counts { IsCounted 3 (D.left disk.old) (D.left disk.new) result }
    ensures cut { D.tells disk.old → (s : NodeState) → HoldsState (D.view disk.old) s
        → IsCutAt (λ _. number_cost) s (after_effect s (number_effect number value)) (D.left disk.old) result (D.view disk.new) }
{
    NumberFile::put(disk, number.name(), value)
}
