//! A file that may be there is removed.
ghost use Rattle.std.specs.Prelude.{◌≡◌, None, OnOk};
ghost use Rattle.base_disk.specs.Runs.{Quiet};
ghost use Rattle.base_disk.specs.DiskCalls.{IfTold, IsDiskCall};
ghost use Rattle.ns_store.specs.Saves.{MayGo};

use base_disk::{Disk, DiskFail};

/// Removes the file of this name, if it is there.
pub fn clear<D: Disk>(disk: &mut D, name: &str) -> Result<(), DiskFail>
    ensures call { IsDiskCall D.DiskModel disk.old disk.new result }
    ensures quiet { IfTold D.DiskModel disk.old disk.new (Quiet (MayGo name.now)) }
    ensures gone { D.tells disk.old → OnOk result ((D.view disk.new).seen name.now ≡ None) }
{
    match disk.length(name)? {
        Some(_) => disk.remove(name),
        None => Ok(()),
    }
}
