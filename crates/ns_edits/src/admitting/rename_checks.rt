//! The conditions of the two kinds of edit that rename, and the path that the older one leads to.
ghost use Rattle.std.specs.Prelude.{◌≡◌, ◌≤◌, ◌+◌, ◌++◌, length, Some, IsSome, nat_lt};
ghost use Rattle.std.specs.Result.{result_err};
ghost use Rattle.arrayvec.specs.ArrayVec.{array_vec_len};
ghost use Rattle.ns_tree.specs.Space.{find, has_under};
ghost use Rattle.ns_edits.specs.Admit.{last_component, target_of, bad_move, over, admit_move, admit_rename_old, admit_rename};

use crate::admitting::walks::{check_absent, check_parent, found};
use crate::admitting::words::{check_path, refuse_if};
use crate::refusal::AdmitRefusal;
use arrayvec::ArrayVec;
use ns_tree::{Inode, Namespace, is_root_path, lies_at_or_under, stem_of};

const MOST_PATH: usize = 1000;

/// A path in no memory of the heap, with room for two paths and a `/`.
pub(crate) type Target = ArrayVec<u8, 2001>;

pub(crate) fn check_rename_old(
    namespace: &Namespace,
    src: &[u8],
    dst: &[u8],
) -> Result<(), AdmitRefusal>
    requires src { length src.now ≤ 1000 }
    requires dst { length dst.now ≤ 1000 }
    ensures { result_err result ≡ admit_rename_old src.now dst.now namespace.now.pairs }
{
    check_path(src)?;
    check_path(dst)?;
    refuse_if(is_root_path(src), AdmitRefusal::Root)?;
    found(namespace, src)?;
    refuse_if(lies_at_or_under(src, dst), AdmitRefusal::IntoItself)?;
    let target = target_of(namespace, src, dst);
    check_move(namespace, src, target.as_slice())
}

pub(crate) fn check_rename(
    namespace: &Namespace,
    src: &[u8],
    dst: &[u8],
    overwrite: bool,
) -> Result<(), AdmitRefusal>
    ensures { result_err result ≡ admit_rename src.now dst.now overwrite namespace.now.pairs }
{
    check_path(src)?;
    check_path(dst)?;
    refuse_if(is_root_path(src) || is_root_path(dst), AdmitRefusal::Root)?;
    let source = found(namespace, src)?;
    refuse_if(lies_at_or_under(src, dst), AdmitRefusal::IntoItself)?;
    check_parent(namespace, dst)?;
    check_over(namespace, overwrite, source, dst)?;
    check_length(namespace, src, dst)
}

/// A path that is there may move to a path that is absent.
fn check_move(namespace: &Namespace, src: &[u8], target: &[u8]) -> Result<(), AdmitRefusal>
    requires { IsSome (find src.now namespace.now.pairs) }
    ensures { result_err result ≡ admit_move src.now target.now namespace.now.pairs }
{
    check_parent(namespace, target)?;
    check_absent(namespace, target)?;
    check_length(namespace, src, target)
}

/// What is at a path may go, where anything is there.
fn check_over(
    namespace: &Namespace,
    overwrite: bool,
    source: &Inode,
    dst: &[u8],
) -> Result<(), AdmitRefusal>
    ensures { result_err result
        ≡ over overwrite (Some source.now) (find dst.now namespace.now.pairs) (has_under dst.now namespace.now.pairs) }
{
    let Some(old) = namespace.lookup(dst) else {
        return Ok(());
    };
    if !overwrite {
        return Err(AdmitRefusal::Exists);
    }
    match (source, old) {
        (Inode::Dir { .. }, Inode::Dir { .. }) => {
            refuse_if(namespace.has_children(dst), AdmitRefusal::NotEmpty)
        }
        (Inode::Dir { .. }, Inode::File { .. }) => Err(AdmitRefusal::NotDirectory),
        (Inode::File { .. }, Inode::Dir { .. }) => Err(AdmitRefusal::NotFile),
        (Inode::File { .. }, Inode::File { .. }) => Ok(()),
    }
}

/// No moved path gets over 1,000 bytes.
fn check_length(namespace: &Namespace, src: &[u8], target: &[u8]) -> Result<(), AdmitRefusal>
    requires { IsSome (find src.now namespace.now.pairs) }
    ensures { result_err result ≡ bad_move src.now target.now namespace.now.pairs }
{
    let tail = namespace.longest(src).saturating_sub(src.len());
    refuse_if(is_too_long(tail, target.len()), AdmitRefusal::BadName)
}

fn is_too_long(tail: usize, front: usize) -> bool
    ensures { result ≡ nat_lt 1000 (tail + front) }
{
    front > MOST_PATH || tail > MOST_PATH - front
}

/// Where a rename of the older kind leads: into a directory that is there, or else to the path
/// itself.
pub(crate) fn target_of(namespace: &Namespace, src: &[u8], dst: &[u8]) -> Target
    requires src { length src.now ≤ 1000 }
    requires dst { length dst.now ≤ 1000 }
    ensures { result.items ≡ target_of src.now dst.now namespace.now.pairs }
{
    let mut target = Target::new();
    match namespace.lookup(dst) {
        Some(Inode::Dir { .. }) => {
            put(&mut target, stem_of(dst));
            put(&mut target, b"/");
            put(&mut target, last_component(src));
        }
        Some(Inode::File { .. }) | None => put(&mut target, dst),
    }
    target
}

fn put(target: &mut Target, part: &[u8])
    requires { array_vec_len target.old + length part.now ≤ 2001 }
    ensures items { target.new.items ≡ target.old.items ++ part.now }
    ensures count { array_vec_len target.new ≡ array_vec_len target.old + length part.now }
{
    match target.try_extend_from_slice(part) {
        Ok(()) => {}
        Err(_) => unreachable!(),
    }
}

/// What comes after the last `/`.
fn last_component(path: &[u8]) -> &[u8]
    ensures value { result.now ≡ last_component path.now }
    ensures short { length result.now ≤ length path.now }
{
    let mut i = path.len();
    while i > 0 {
        i -= 1;
        if path[i] == b'/' {
            return &path[i + 1..];
        }
    }
    path
}
