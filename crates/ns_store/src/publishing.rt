//! An image that is stored begins to count.
ghost use Rattle.std.specs.Prelude.{◌≡◌, ◌⊎◌, None, Some, OnOk, IfOk};
ghost use Rattle.std.specs.Bool.{OnTrue};
ghost use Rattle.base_disk.specs.View.{AllLeave};
ghost use Rattle.base_disk.specs.Calls.{Effect, Rests};
ghost use Rattle.base_disk.specs.Runs.{Quiet};
ghost use Rattle.base_disk.specs.DiskCalls.{HasFile, IfTold, IsDiskCall, IsDiskRun, LacksFile};
ghost use Rattle.ns_store.specs.Names.{name_of, Itself, Checkpoint, Digest, FreshDigest};
ghost use Rattle.ns_store.specs.Saves.{MayGo, Publishing, Publishes};

use crate::clearing::clear;
use crate::image_names::ImageNames;
use base_disk::{Disk, DiskFail};
use base_files::{Whole, put_through, read_whole};

// Whether the file of this name holds this line.
fn has_line<D: Disk>(disk: &mut D, name: &str, line: &[u8]) -> Result<bool, DiskFail>
    ensures call { IsDiskRun D.DiskModel disk.old disk.new result }
    ensures held { D.tells disk.old
        → IfOk result (λ held. OnTrue held ((D.view disk.old).seen name.now ≡ Some line.now)) }
    ensures disk { IfTold D.DiskModel disk.old disk.new Rests }
{
    let mut found = [0; 62];
    match read_whole(disk, name, &mut found)? {
        Whole::Read => Ok(found.as_slice() == line),
        _ => Ok(false),
    }
}

/// Sees to it that an image of this txid that stands there counts with this line of its digest or
/// not at all: where its digest is another one, it is removed.
pub fn make_way<D: Disk>(disk: &mut D, names: &ImageNames, line: &[u8]) -> Result<(), DiskFail>
    ensures call { IsDiskRun D.DiskModel disk.old disk.new result }
    ensures quiet { IfTold D.DiskModel disk.old disk.new
        (Quiet (MayGo (name_of names.now Itself))) }
    ensures free { D.tells disk.old
        → OnOk result (AllLeave (D.view disk.new) (λ c. (c (name_of names.now Itself) ≡ None) ⊎ (c (name_of names.now Digest) ≡ Some line.now))) }
{
    let held = has_line(disk, names.digest(), line)?;
    if held {
        return disk.sync(names.digest());
    }
    clear(disk, names.itself())
}

/// Puts the file of the digest, and renames the checkpoint file to the image.
pub fn publish<D: Disk>(disk: &mut D, names: &ImageNames, line: &[u8]) -> Result<(), DiskFail>
    requires fresh { LacksFile D.DiskModel disk.old (name_of names.now FreshDigest) }
    requires stored { HasFile D.DiskModel disk.old (name_of names.now Checkpoint) }

    ensures call { IsDiskCall D.DiskModel disk.old disk.new result }
    ensures publish { IfTold D.DiskModel disk.old disk.new
        (Effect (Publishing names.now line.now) (Publishes names.now line.now) result) }
{
    put_through(disk, names.fresh(), names.digest(), line)?;
    disk.rename(names.checkpoint(), names.itself())
}
