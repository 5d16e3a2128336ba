//! The checkpoint file of an image that is being saved.
ghost use Rattle.std.specs.Prelude.{◌≡◌, ◌∷◌, [], None, Some, OnOk};
ghost use Rattle.base_disk.specs.View.{AllLeave};
ghost use Rattle.base_disk.specs.Runs.{Quiet};
ghost use Rattle.base_disk.specs.DiskCalls.{IfTold, IsDiskCall, LacksFile};
ghost use Rattle.base_files.specs.Puts.{Disturbs};
ghost use Rattle.ns_store.specs.Names.{name_of, Checkpoint, FreshDigest};
ghost use Rattle.ns_store.specs.Saves.{OnlyOf};

use crate::clearing::clear;
use crate::image_names::ImageNames;
use base_disk::{Disk, DiskFail};

/// Removes what an earlier save left, and writes and syncs the checkpoint file.
pub fn store<D: Disk>(disk: &mut D, names: &ImageNames, bytes: &[u8]) -> Result<(), DiskFail>
    ensures call { IsDiskCall D.DiskModel disk.old disk.new result }
    ensures quiet { IfTold D.DiskModel disk.old disk.new
        (Quiet (OnlyOf names.now (Checkpoint ∷ FreshDigest ∷ []))) }
    ensures stored { D.tells disk.old
        → OnOk result (AllLeave (D.view disk.new) (λ c. c (name_of names.now Checkpoint) ≡ Some bytes.now)) }
    ensures fresh { D.tells disk.old
        → OnOk result ((D.view disk.new).seen (name_of names.now FreshDigest) ≡ None) }
{
    clear(disk, names.checkpoint())?;
    clear(disk, names.fresh())?;
    write_whole(disk, names.checkpoint(), bytes)
}

// Writes a file that isn't there, and syncs it.
fn write_whole<D: Disk>(disk: &mut D, name: &str, bytes: &[u8]) -> Result<(), DiskFail>
    requires { LacksFile D.DiskModel disk.old name.now }

    ensures call { IsDiskCall D.DiskModel disk.old disk.new result }
    ensures quiet { IfTold D.DiskModel disk.old disk.new (Quiet (Disturbs name.now)) }
    ensures stored { D.tells disk.old
        → OnOk result (AllLeave (D.view disk.new) (λ c. c name.now ≡ Some bytes.now)) }
{
    disk.write_at(name, 0, bytes)?;
    disk.sync(name)
}
