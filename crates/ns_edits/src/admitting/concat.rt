//! The conditions of files that go after another one.
ghost use Rattle.std.specs.Prelude.{◌≡◌, ◌||◌, [], ◌∷◌, ◌+◌, Some, IfOk, length, nat_lt};
ghost use Rattle.std.specs.List.{list_any};
ghost use Rattle.std.specs.Result.{result_err};
ghost use Rattle.ns_tree.specs.Path.{same_text};
ghost use Rattle.ns_tree.specs.Space.{find};
ghost use Rattle.ns_edits.specs.Admit.{first, refused_if, refused_open, blocks_of, blocks_at, bad_paths, admit_part, admit_sources, admit_concat};

use crate::admitting::walks::{check_file, found};
use crate::admitting::words::{check_path, refuse_if};
use crate::refusal::AdmitRefusal;
use base_words::Name;
use ns_tree::{Inode, Namespace};

const MOST_BLOCKS: usize = 65535;

/// Each source is looked up in the namespace and compared with those before it: of n sources at
/// most n² comparisons of two paths, and an edit's record holds all of them.
pub(crate) fn check_concat(
    namespace: &Namespace,
    target: &[u8],
    sources: &[Name],
) -> Result<(), AdmitRefusal>
    ensures { result_err result ≡ admit_concat target.now sources.now namespace.now.pairs }
{
    check_path(target)?;
    check_paths(sources)?;
    refuse_if(sources.is_empty(), AdmitRefusal::BadNumber)?;
    check_part(namespace, target)?;
    check_sources(namespace, target, sources)?;
    check_count(namespace, target, sources)
}

fn check_paths(paths: &[Name]) -> Result<(), AdmitRefusal>
    ensures { result_err result ≡ bad_paths paths.now }
{
    for path in paths {
        check_path(path.as_slice())?;
    }
    Ok(())
}

/// A closed file is at a path.
fn check_part(namespace: &Namespace, path: &[u8]) -> Result<(), AdmitRefusal>
    ensures { result_err result ≡ admit_part path.now namespace.now.pairs }
{
    let inode = found(namespace, path)?;
    check_file(inode)?;
    check_closed(inode)
}

fn check_closed(inode: &Inode) -> Result<(), AdmitRefusal>
    ensures { result_err result ≡ refused_open (Some inode.now) }
{
    match inode {
        Inode::Dir { .. } => Ok(()),
        Inode::File {
            under_construction,
            ..
        } => refuse_if(*under_construction, AdmitRefusal::UnderConstruction),
    }
}

/// Each source is a closed file, and neither the target nor a source before it.
fn check_sources(namespace: &Namespace, target: &[u8], sources: &[Name]) -> Result<(), AdmitRefusal>
    ensures { result_err result ≡ admit_sources (target.now ∷ []) sources.now namespace.now.pairs }
{
    for i in 0..sources.len() {
        check_source(namespace, target, &sources[..i], sources[i].as_slice())?;
    }
    Ok(())
}

fn check_source(
    namespace: &Namespace,
    target: &[u8],
    before: &[Name],
    source: &[u8],
) -> Result<(), AdmitRefusal>
    ensures { result_err result
        ≡ first (refused_if (same_text source.now target.now || list_any (same_text source.now) before.now) AdmitRefusal.IntoItself
        ∷ admit_part source.now namespace.now.pairs ∷ []) }
{
    refuse_if(
        source == target || is_listed(source, before),
        AdmitRefusal::IntoItself,
    )?;
    check_part(namespace, source)
}

fn is_listed(path: &[u8], paths: &[Name]) -> bool
    ensures { result ≡ list_any (same_text path.now) paths.now }
{
    for other in paths {
        if path == other.as_slice() {
            return true;
        }
    }
    false
}

/// All blocks together are few enough for one file.
fn check_count(namespace: &Namespace, target: &[u8], sources: &[Name]) -> Result<(), AdmitRefusal>
    ensures { result_err result
        ≡ refused_if (nat_lt 65535 (length (blocks_at (target.now ∷ sources.now) namespace.now.pairs))) AdmitRefusal.BadNumber }
{
    let mut room = room_after(MOST_BLOCKS, count_at(namespace, target))?;
    for source in sources {
        room = room_after(room, count_at(namespace, source.as_slice()))?;
    }
    Ok(())
}

/// How many blocks of a file that is there.
fn count_at(namespace: &Namespace, path: &[u8]) -> usize
    ensures { result ≡ length (blocks_of (find path.now namespace.now.pairs)) }
{
    match namespace.lookup(path) {
        Some(Inode::File { lengths, .. }) => lengths.as_slice().len(),
        Some(Inode::Dir { .. }) | None => 0,
    }
}

/// How many more blocks there may be after some.
fn room_after(room: usize, blocks: usize) -> Result<usize, AdmitRefusal>
    ensures refused { result_err result ≡ refused_if (nat_lt room blocks) AdmitRefusal.BadNumber }
    ensures left { IfOk result (λ left. left + blocks ≡ room) }
{
    if blocks > room {
        return Err(AdmitRefusal::BadNumber);
    }
    Ok(room - blocks)
}
