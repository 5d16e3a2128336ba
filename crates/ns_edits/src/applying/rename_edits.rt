//! The edits that rename.
ghost use Rattle.std.specs.Prelude.{◌≡◌, None, OnOk, OnErr};
ghost use Rattle.std.specs.List.{AllByRecursion};
ghost use Rattle.edit_ops.specs.Fields.{IsGood};
ghost use Rattle.edit_ops.specs.Records.{fields_of};
ghost use Rattle.ns_edits.specs.Admit.{target_of, admit_rename, admit_rename_old};
ghost use Rattle.ns_edits.specs.Apply.{move_of};

use crate::admitting::rename_checks::target_of;
use base_words::OutOfMemory;
use edit_ops::Op;
use ns_tree::{Namespace, parent};
use std::alloc::Global;

/// Moves a path with all under it into a directory that is there, or else to the other path, and
/// raises the mtime of both parents.
pub(crate) fn rename_old(
    alloc: Global,
    ns: &mut Namespace,
    src: &[u8],
    dst: &[u8],
    time: u64,
) -> Result<(), OutOfMemory>
    requires good { AllByRecursion IsGood (fields_of (Op.RenameOld src.now dst.now time)) }
    requires admitted { admit_rename_old src.now dst.now ns.old.pairs ≡ None }
    ensures ok { OnOk result (ns.new ≡ record ns.old { pairs = move_of src.now (target_of src.now dst.now ns.old.pairs) time ns.old.pairs }) }
    ensures err { OnErr result (ns.new ≡ ns.old) }
{
    ns.show_invariant();
    let target = target_of(ns, src, dst);
    ns.rename(alloc, src, target.as_slice())?;
    ns.raise_mtime(parent(target.as_slice()), time);
    ns.raise_mtime(parent(src), time);
    Ok(())
}

/// Moves a path with all under it to the other path, from which an old inode goes, and raises the
/// mtime of both parents.
pub(crate) fn rename(
    alloc: Global,
    ns: &mut Namespace,
    src: &[u8],
    dst: &[u8],
    time: u64,
    overwrite: bool,
) -> Result<(), OutOfMemory>
    requires good { AllByRecursion IsGood (fields_of (Op.Rename src.now dst.now time overwrite)) }
    requires admitted { admit_rename src.now dst.now overwrite ns.old.pairs ≡ None }
    ensures ok { OnOk result (ns.new ≡ record ns.old { pairs = move_of src.now dst.now time ns.old.pairs }) }
    ensures err { OnErr result (ns.new ≡ ns.old) }
{
    ns.show_invariant();
    ns.rename(alloc, src, dst)?;
    ns.raise_mtime(parent(dst), time);
    ns.raise_mtime(parent(src), time);
    Ok(())
}
