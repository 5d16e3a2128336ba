//! The edit that joins files.
ghost use Rattle.std.specs.Prelude.{◌≡◌, ◌≤◌, ◌^◌, None, OnOk, OnErr, IfOk, ◌∷◌};
ghost use Rattle.std.specs.List.{AllByRecursion};
ghost use Rattle.edit_ops.specs.Fields.{IsGood};
ghost use Rattle.edit_ops.specs.Records.{fields_of};
ghost use Rattle.ns_tree.specs.Space.{find};
ghost use Rattle.ns_edits.specs.Admit.{admit_concat, blocks_of, blocks_at};
ghost use Rattle.ns_edits.specs.Apply.{with_all_blocks, AreSources, concat_of, without_sources};

use crate::applying::inodes::put_all_blocks;
use base_words::{Name, OutOfMemory};
use edit_ops::{NameList, NumberList, Op};
use ns_tree::{Inode, Namespace, parent};
use std::alloc::Global;

/// Puts the blocks of the sources after those of the target, in order, and takes the sources away.
/// The target's mtime is set, and the mtime of each parent is raised.
pub(crate) fn join(
    alloc: Global,
    ns: &mut Namespace,
    target: &[u8],
    time: u64,
    sources: &NameList,
) -> Result<(), OutOfMemory>
    requires good { AllByRecursion IsGood (fields_of (Op.ConcatDelete target.now time sources.now)) }
    requires admitted { admit_concat target.now sources.now ns.old.pairs ≡ None }
    ensures ok { OnOk result (ns.new ≡ record ns.old { pairs = concat_of target.now time sources.now ns.old.pairs }) }
    ensures err { OnErr result (ns.new ≡ ns.old) }
{
    let all = all_blocks(alloc, ns, target, sources.as_slice())?;
    let all = NumberList::of(all);
    ns.show_invariant();
    ns.change(
        target,
        |inode: &mut Inode|
            ensures { inode.new ≡ with_all_blocks time all inode.old }
        { put_all_blocks(inode, time, all) },
    );
    remove_sources(ns, sources.as_slice(), time);
    ns.raise_mtime(parent(target), time);
    Ok(())
}

/// The blocks of the target and of the sources, in order.
fn all_blocks(
    alloc: Global,
    ns: &Namespace,
    target: &[u8],
    sources: &[Name],
) -> Result<Vec<u64>, OutOfMemory>
    ensures { IfOk result (λ all. all.items ≡ blocks_at (target.now ∷ sources.now) ns.now.pairs) }
{
    let mut all = Vec::from_slice(alloc, blocks(ns, target))?;
    for source in sources {
        all.extend_from_slice(blocks(ns, source.as_slice()))?;
    }
    Ok(all)
}

/// The lengths of a file's blocks; none where no file is.
fn blocks<'a>(ns: &'a Namespace, path: &[u8]) -> &'a [u64]
    ensures { result.now ≡ blocks_of (find path.now ns.now.pairs) }
{
    match ns.lookup(path) {
        Some(Inode::File { lengths, .. }) => lengths.as_slice(),
        _ => &[],
    }
}

/// Takes files away, and raises the mtime of their parents.
fn remove_sources(ns: &mut Namespace, sources: &[Name], time: u64)
    requires time { time ≤ 2 ^ 62 }
    requires files { AreSources sources.now ns.old.pairs }
    ensures { ns.new ≡ record ns.old { pairs = without_sources sources.now time ns.old.pairs } }
{
    for source in sources {
        ns.remove(source.as_slice());
        ns.raise_mtime(parent(source.as_slice()), time);
    }
}
