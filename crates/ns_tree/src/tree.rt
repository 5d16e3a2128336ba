//! The rows of a namespace, as a tree of branches.
ghost use Rattle.std.specs.Prelude.{◌≡◌, ◌∷◌, ◌≤◌, ◌<◌, [], None, Some, IsSome, IfSome, IfNone, IfOk, OnOk, OnErr, true, false, length, map, option_copied};
ghost use Rattle.std.specs.Fn.{FnOnceReturnsAtMut};
ghost use Rattle.ns_tree.specs.declared.inode.Inode.{Inode};
ghost use Rattle.ns_tree.specs.Path.{is_path, is_root, parent_of, is_at_or_under, stem};
ghost use Rattle.ns_tree.specs.Space.{Each, pair, find, is_dir_there, put, raise, without, subtree, renamed, has_under, longest_under, children_of, IsInWalkOrder};
ghost use Rattle.ns_tree.specs.Places.{set_at};
ghost use Rattle.ns_tree.specs.Last.{is_after_last};
ghost use Rattle.ns_tree.specs.Branches.{IsFrom, from_path, rooted, is_relative};

use crate::branch::{Branch, NewKid};
use crate::inode::{Inode, Row};
use crate::path::{parent, part_from, stem_of, walk_order};
use base_words::{Name, OutOfMemory};
use std::alloc::{AllocError, Global};
use std::marker::Model;

/// A tree has no more rows than an image can count.
const MOST_ROWS: usize = 4_294_967_295;

/// The root and all that stands under it: 4,294,967,295 rows at most.
#[derive(Drop)]
pub struct Tree {
    root: Branch,
    /// How many rows there are.
    count: usize,
}

impl Model for Tree {
    ghost use Rattle.std.specs.Prelude.{List, length, ◌≡◌, ◌≤◌};
    ghost use Rattle.ns_tree.specs.declared.inode.Row.{Row};
    ghost use Rattle.ns_tree.specs.Branches.{rooted, IsBranch};

    ghost Value = { List Row };

    ghost view = { λ a. rooted a.root };

    ghost invariant = { λ a. record {
      count : a.count ≡ length a.root;
      most : length a.root ≤ 4294967295;
      branch : IsBranch a.root;
    } };
}

/// Whether a path does not go from the root.
#[tactic(auto, using(crate::proofs::Treed::relative_first, crate::proofs::Treed::relative_none))]
fn is_relative(path: &[u8]) -> bool
    ensures { result ≡ is_relative path.now }
{
    if path.is_empty() {
        return true;
    }
    path[0] != b'/'
}

impl Tree {
    /// A root with nothing under it.
    pub fn new(alloc: Global, root: Inode) -> Tree
        ensures { result ≡ pair (47 ∷ []) root ∷ [] }
    {
        Tree {
            root: Branch::new(alloc, root),
            count: 1,
        }
    }

    /// How many rows there are.
    pub fn len(&self) -> usize
        ensures count { result ≡ length self.now }
        ensures some { 0 < result }
        ensures most { result ≤ 4294967295 }
    {
        self.count
    }

    /// The inode at a path.
    pub fn find(&self, path: &[u8]) -> Option<&Inode>
        ensures { option_copied result ≡ find path.now self.now }
    {
        let root = &self.root;
        if is_relative(path) {
            return None;
        }
        root.find(stem_of(path))
    }

    /// Whether the directory that a path other than the root's stands in is there, and the inode at
    /// the path.
    pub fn look(&self, path: &[u8]) -> (bool, Option<&Inode>)
        requires path { is_path path.now ≡ true }
        requires not_root { is_root path.now ≡ false }
        ensures above { result.0 ≡ is_dir_there (find (parent_of path.now) self.now) }
        ensures there { option_copied result.1 ≡ find path.now self.now }
    {
        self.root.look(path)
    }

    /// Raises the mtime of the directory at a path; where none is, nothing changes.
    pub fn raise(&mut self, path: &[u8], time: u64)
        ensures { self.new ≡ raise path.now time self.old }
    {
        let _ = &self.root;
        if is_relative(path) {
            return;
        }
        self.root.raise(stem_of(path), time);
        self.root.show();
    }

    /// Replaces the inode at a path; where none is, nothing changes.
    pub fn replace(&mut self, path: &[u8], inode: Inode)
        ensures { self.new ≡ set_at path.now inode self.old }
    {
        let _ = &self.root;
        if is_relative(path) {
            return;
        }
        self.root.replace(stem_of(path), inode);
        self.root.show();
    }

    /// Puts an inode at a path, and raises the mtime of the directory that it stands in; an `Err`
    /// changes nothing.
    pub fn put(
        &mut self,
        alloc: Global,
        path: &[u8],
        inode: Inode,
        time: u64,
    ) -> Result<(), OutOfMemory>
        requires path { is_path path.now ≡ true }
        requires absent { find path.now self.old ≡ None }
        requires parent { is_dir_there (find (parent_of path.now) self.old) ≡ true }
        ensures ok { OnOk result (self.new ≡ raise (parent_of path.now) time (put path.now inode self.old)) }
        ensures err { OnErr result (self.new ≡ self.old) }
    {
        if self.count == MOST_ROWS {
            return Err(AllocError);
        }
        let above = stem_of(parent(path));
        let name = part_from(path, above.len() + 1);
        self.root.put(alloc, above, NewKid { name, inode }, time)?;
        self.root.show();
        self.count += 1;
        Ok(())
    }

    /// Changes the inode at a path where it stands.
    pub fn change<F: FnOnce(&mut Inode)>(&mut self, path: &[u8], setting: F)
        requires callable { F.IsAlwaysCallable setting }
        requires path { is_path path.now ≡ true }
        requires there { IsSome (find path.now self.old) }
        ensures { (i j : Inode) × (find path.now self.old ≡ Some i) × FnOnceReturnsAtMut F.FnOnce setting i tt j × (self.new ≡ set_at path.now j self.old) }
    {
        self.root.change(stem_of(path), setting);
        self.root.show();
    }

    /// Removes a path with all under it.
    pub fn remove(&mut self, path: &[u8])
        requires path { is_path path.now ≡ true }
        requires there { IsSome (find path.now self.old) }
        requires not_root { is_root path.now ≡ false }
        ensures { self.new ≡ without path.now self.old }
    {
        let gone = self.root.cut(path);
        self.root.show();
        self.count -= gone.count();
    }

    /// Has room for what comes to a path: an inode is there then. An `Err` changes nothing.
    fn make_room(&mut self, alloc: Global, path: &[u8]) -> Result<(), OutOfMemory>
        requires path { is_path path.now ≡ true }
        requires parent { is_dir_there (find (parent_of path.now) self.old) ≡ true }
        ensures old { OnOk result (IsSome (find path.now self.old) → self.new ≡ self.old) }
        ensures new { OnOk result (find path.now self.old ≡ None → (i : Inode) × (self.new ≡ put path.now i self.old)) }
        ensures err { OnErr result (self.new ≡ self.old) }
    {
        if self.find(path).is_some() {
            return Ok(());
        }
        let room = Inode::Dir {
            mtime: 0,
            permission: 0,
            user: Name::from_slice(alloc, b"")?,
            group: Name::from_slice(alloc, b"")?,
            names: 0,
            space: 0,
        };
        self.put(alloc, path, room, 0)
    }

    /// Moves what stands at a path, with all under it, to another path in the place of what stands
    /// there.
    fn move_branch(&mut self, src: &[u8], dst: &[u8])
        requires src_path { is_path src.now ≡ true }
        requires dst_path { is_path dst.now ≡ true }
        requires src_below { is_root src.now ≡ false }
        requires dst_below { is_root dst.now ≡ false }
        requires there { IsSome (find src.now self.old) }
        requires room { IsSome (find dst.now self.old) }
        requires apart { is_at_or_under src.now dst.now ≡ false }
        requires alone { has_under dst.now self.old ≡ false }
        ensures { self.new ≡ renamed src.now dst.now self.old }
    {
        let branch = self.root.cut(src);
        let old = self.root.settle(dst, branch);
        self.root.show();
        self.count -= old.count();
    }

    /// Moves a path with all under it; what was at the other path goes. All memory is taken before
    /// the first change, and an `Err` changes nothing.
    pub fn rename(&mut self, alloc: Global, src: &[u8], dst: &[u8]) -> Result<(), OutOfMemory>
        requires src_path { is_path src.now ≡ true }
        requires dst_path { is_path dst.now ≡ true }
        requires src_below { is_root src.now ≡ false }
        requires dst_below { is_root dst.now ≡ false }
        requires there { IsSome (find src.now self.old) }
        requires apart { is_at_or_under src.now dst.now ≡ false }
        requires parent { is_dir_there (find (parent_of dst.now) self.old) ≡ true }
        requires alone { has_under dst.now self.old ≡ false }
        requires order { IsInWalkOrder self.old }
        ensures ok { OnOk result (self.new ≡ renamed src.now dst.now self.old) }
        ensures err { OnErr result (self.new ≡ self.old) }
    {
        self.make_room(alloc, dst)?;
        self.move_branch(src, dst);
        Ok(())
    }

    /// The branch at a path.
    fn at(&self, path: &[u8]) -> Option<&Branch>
        ensures some { IfSome result (λ branch. (0 < length path.now) × IsFrom (stem path.now) × (subtree path.now self.now ≡ rooted (map (from_path (stem path.now)) branch.now))) }
        ensures none { IfNone result (find path.now self.now ≡ None) }
    {
        let root = &self.root;
        if is_relative(path) {
            return None;
        }
        root.at(stem_of(path))
    }

    /// Whether something lies under a path.
    pub fn has_under(&self, path: &[u8]) -> bool
        requires { IsSome (find path.now self.now) }
        ensures { result ≡ has_under path.now self.now }
    {
        match self.at(path) {
            Some(branch) => {
                branch.show();
                branch.has_kids()
            }
            None => unreachable!(),
        }
    }

    /// The last components of what is right under a directory, in the order of their bytes; none
    /// where there is no directory.
    pub fn children(&self, alloc: Global, path: &[u8]) -> Result<Vec<Name>, OutOfMemory>
        ensures { IfOk result (λ names. names.items ≡ children_of path.now self.now) }
    {
        match self.at(path) {
            Some(branch) => match &branch.inode {
                Inode::Dir { .. } => branch.names(alloc),
                Inode::File { .. } => Ok(Vec::new(alloc)),
            },
            None => Ok(Vec::new(alloc)),
        }
    }

    /// The length of the longest path at or under a path.
    pub fn longest(&self, path: &[u8]) -> usize
        requires there { IsSome (find path.now self.now) }
        requires short { Each (λ x. length x.path ≤ 1000) self.now }
        ensures { result ≡ longest_under path.now self.now }
    {
        match self.at(path) {
            Some(branch) => {
                branch.show();
                path.len().max(stem_of(path).len() + branch.longest())
            }
            None => unreachable!(),
        }
    }

    /// All rows in the order of a walk.
    pub fn walk(&self, alloc: Global) -> Result<Vec<Row>, OutOfMemory>
        ensures { IfOk result (λ rows. rows.items ≡ self.now) }
    {
        let mut rows = Vec::new(alloc);
        let mut path = Vec::new(alloc);
        self.root.walk(alloc, &mut path, &mut rows)?;
        Ok(rows)
    }

    /// Whether a walk comes to a path after all rows.
    pub fn ends_before(&self, path: &[u8]) -> bool
        ensures { result ≡ is_after_last path.now self.now }
    {
        if self.count == 1 {
            walk_order(b"/", path).is_lt()
        } else {
            self.root.ends_before(path)
        }
    }
}
