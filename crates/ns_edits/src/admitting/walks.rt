//! Walks from the root: whether a path is there, and whether its parent is.
ghost use Rattle.std.specs.Prelude.{◌≡◌, ◌∷◌, [], IfOk, Some, true};
ghost use Rattle.std.specs.Result.{result_err};
ghost use Rattle.ns_tree.specs.Path.{stem, path_of_stem, is_path};
ghost use Rattle.ns_tree.specs.Space.{find};
ghost use Rattle.ns_edits.specs.Admit.{first, ancestor, ancestors, finds, has_parent, refused_there, refused_dir, refused_file};

use crate::refusal::AdmitRefusal;
use ns_tree::{Inode, Namespace, is_root_path, parent, path_of, stem_of};

/// What is at a path. Where nothing is, the walk from the root says why; where something is, all
/// directories above it are there, and no walk is needed.
#[tactic(auto, using(crate::proofs::Above::above_found))]
pub(crate) fn found<'a>(namespace: &'a Namespace, path: &[u8]) -> Result<&'a Inode, AdmitRefusal>
    ensures refused { result_err result ≡ finds path.now namespace.now.pairs }
    ensures found { IfOk result (λ inode. find path.now namespace.now.pairs ≡ Some inode.now) }
{
    namespace.show_invariant();
    match namespace.lookup(path) {
        Some(inode) => Ok(inode),
        None => {
            walk_above(namespace, path, AdmitRefusal::Missing)?;
            Err(AdmitRefusal::Missing)
        }
    }
}

/// The directory of a path is there.
#[tactic(auto, using(crate::proofs::Above::above_parent))]
pub(crate) fn check_parent(namespace: &Namespace, path: &[u8]) -> Result<(), AdmitRefusal>
    ensures { result_err result ≡ has_parent path.now namespace.now.pairs }
{
    if is_root_path(path) {
        return Err(AdmitRefusal::Root);
    }
    namespace.show_invariant();
    if namespace.has_directory(parent(path)) {
        return Ok(());
    }
    walk_above(namespace, path, AdmitRefusal::NoParent)
}

/// The directory of a path is there, and nothing is at the path: one descent tells both.
#[tactic(auto, using(crate::proofs::Above::above_parent))]
pub(crate) fn check_new(namespace: &Namespace, path: &[u8]) -> Result<(), AdmitRefusal>
    requires { is_path path.now ≡ true }
    ensures { result_err result
        ≡ first (has_parent path.now namespace.now.pairs ∷ refused_there AdmitRefusal.Exists (find path.now namespace.now.pairs) ∷ []) }
{
    if is_root_path(path) {
        return Err(AdmitRefusal::Root);
    }
    namespace.show_invariant();
    match namespace.look(path) {
        (true, None) => Ok(()),
        (true, Some(_)) => Err(AdmitRefusal::Exists),
        (false, _) => {
            walk_above(namespace, path, AdmitRefusal::NoParent)?;
            check_absent(namespace, path)
        }
    }
}

/// Nothing is at a path.
pub(crate) fn check_absent(namespace: &Namespace, path: &[u8]) -> Result<(), AdmitRefusal>
    ensures { result_err result ≡ refused_there AdmitRefusal.Exists (find path.now namespace.now.pairs) }
{
    match namespace.lookup(path) {
        Some(_) => Err(AdmitRefusal::Exists),
        None => Ok(()),
    }
}

pub(crate) fn check_file(inode: &Inode) -> Result<(), AdmitRefusal>
    ensures { result_err result ≡ refused_dir AdmitRefusal.NotFile (Some inode.now) }
{
    match inode {
        Inode::Dir { .. } => Err(AdmitRefusal::NotFile),
        Inode::File { .. } => Ok(()),
    }
}

pub(crate) fn check_directory(inode: &Inode) -> Result<(), AdmitRefusal>
    ensures { result_err result ≡ refused_file AdmitRefusal.NotDirectory (Some inode.now) }
{
    match inode {
        Inode::Dir { .. } => Ok(()),
        Inode::File { .. } => Err(AdmitRefusal::NotDirectory),
    }
}

/// The first of the directories above a path that is absent or a file.
fn walk_above(namespace: &Namespace, path: &[u8], absent: AdmitRefusal) -> Result<(), AdmitRefusal>
    ensures { result_err result ≡ ancestors absent namespace.now.pairs [] (stem path.now) }
{
    let stem = stem_of(path);
    for i in 0..stem.len() {
        if stem[i] == b'/' {
            check_ancestor(namespace, &stem[..i], absent)?;
        }
    }
    Ok(())
}

/// A directory is at the path of a stem.
fn check_ancestor(
    namespace: &Namespace,
    stem: &[u8],
    absent: AdmitRefusal,
) -> Result<(), AdmitRefusal>
    ensures { result_err result ≡ ancestor absent (find (path_of_stem stem.now) namespace.now.pairs) }
{
    match namespace.lookup(path_of(stem)) {
        Some(Inode::Dir { .. }) => Ok(()),
        Some(Inode::File { .. }) => Err(AdmitRefusal::NotDirectory),
        None => Err(absent),
    }
}
