//! A directory or a file, and all that stands below it.
ghost use Rattle.std.specs.Prelude.{◌≡◌, ◌∷◌, IfOk, ◌++◌, ◌<◌, ◌≤◌, [], None, Some, IsSome, IfSome, IfNone, false, true, length, map, take, drop, option_copied, OnOk, OnErr};
ghost use Rattle.std.specs.Fn.{FnOnceReturnsAtMut};
ghost use Rattle.ns_tree.specs.declared.inode.Inode.{Inode};
ghost use Rattle.std.specs.Ordering.{is_lt};
ghost use Rattle.ns_tree.specs.Path.{has_slash, before_last_slash, walk_cmp};
ghost use Rattle.ns_tree.specs.Last.{last_path};
ghost use Rattle.ns_tree.specs.Space.{Each, pair, find, is_dir, is_dir_there, raise, raised, put, put_at, without, subtree, has_under, names_under, longest_of};
ghost use Rattle.ns_tree.specs.Places.{set_at};
ghost use Rattle.ns_tree.specs.Branches.{IsLed, IsFrom, IsBranch, from_path, rooted};

use crate::inode::{Inode, Row};
use crate::path::path_of;
use base_words::{Name, OutOfMemory};
use std::alloc::Global;
use std::boxed::Box;
use std::cmp::Ordering;
use std::collections::BTreeMap;
use std::marker::Model;
use std::mem;

/// An inode, and what stands below it.
#[derive(Drop)]
pub struct Branch {
    pub(crate) inode: Inode,
    /// What stands right under it, by its last component.
    kids: BTreeMap<Vec<u8>, Box<Branch>>,
}

impl Model for Branch {
    ghost use Rattle.std.specs.Prelude.{List, ◌∷◌, [], length};
    ghost use Rattle.ns_tree.specs.declared.inode.Row.{Row};
    ghost use Rattle.ns_tree.specs.Space.{pair};
    ghost use Rattle.ns_tree.specs.Branches.{grown, AreBranches};
    ghost use Rattle.ns_tree.specs.BranchSize.{falls};

    ghost Value = { List Row };

    ghost view = { λ a. pair [] a.inode ∷ grown (λ k. k.items) (λ b. b.value) a.kids.entries };

    ghost invariant = { λ a. AreBranches (λ k. k.items) (λ b. b.value) a.kids.entries };

    ghost size = { length };

    ghost size_decreases = { λ a h. falls (λ k. k.items) (λ b. b.value) a.kids.entries };
}

/// What is put into a directory: a name and an inode.
#[derive(Drop)]
pub struct NewKid<'a> {
    pub name: &'a [u8],
    pub inode: Inode,
}

/// Where the first `/` of a text is, or the text's length.
#[tactic(auto, using(crate::proofs::FirstName::plain_more, crate::proofs::FirstName::led_at, crate::proofs::FirstName::led_end))]
fn first_slash(text: &[u8]) -> usize
    ensures within { result ≤ length text.now }
    ensures plain { has_slash (take result text.now) ≡ false }
    ensures rest { IsLed (drop result text.now) }
{
    for i in 0..text.len() {
        if text[i] == b'/' {
            return i;
        }
    }
    text.len()
}

/// The first component of a path, and what comes after it.
#[tactic(auto, using(crate::proofs::FirstName::parted))]
fn first_name(path: &[u8]) -> (&[u8], &[u8])
    requires some { 0 < length path.now }
    requires led { IsLed path.now }
    ensures parts { path.now ≡ 47 ∷ result.0.now ++ result.1.now }
    ensures name { has_slash result.0.now ≡ false }
    ensures rest { IsLed result.1.now }
{
    let text = &path[1..];
    let end = first_slash(text);
    (&text[..end], &text[end..])
}

fn is_directory(inode: &Inode) -> bool
    ensures { result ≡ is_dir inode.now }
{
    match inode {
        Inode::Dir { .. } => true,
        Inode::File { .. } => false,
    }
}

fn raise_inode(inode: &mut Inode, time: u64)
    ensures { inode.new ≡ raised time inode.old }
{
    match inode {
        Inode::Dir { mtime, .. } => {
            if *mtime < time {
                *mtime = time;
            }
        }
        Inode::File { .. } => {}
    }
}

fn change_inode<F: FnOnce(&mut Inode)>(inode: &mut Inode, setting: F)
    requires { F.IsAlwaysCallable setting }
    ensures { FnOnceReturnsAtMut F.FnOnce setting inode.old tt inode.new }
{
    setting(inode);
}

impl Branch {
    /// An inode with nothing below it.
    pub fn new(alloc: Global, inode: Inode) -> Branch
        ensures { result ≡ pair [] inode ∷ [] }
    {
        Branch {
            inode,
            kids: BTreeMap::new(alloc),
        }
    }

    /// Tells what holds of every branch: its own row comes first, and each other's path goes from
    /// there. Does nothing when it runs.
    #[tactic(auto, using(crate::proofs::BranchedParts::branch_is))]
    pub fn show(&self)
        ensures { IsBranch self.now }
    {
        let _ = &self.inode;
    }

    /// The inode at a path from here.
    pub fn find(&self, path: &[u8]) -> Option<&Inode>
        requires { IsLed path.now }
        ensures { option_copied result ≡ find path.now self.now }
    {
        if path.is_empty() {
            return Some(&self.inode);
        }
        if self.kids.len() == 0 {
            return None;
        }
        let (name, rest) = first_name(path);
        match self.kids.get(name) {
            Some(kid) => kid.find(rest),
            None => None,
        }
    }

    /// Whether a directory is right above a path below here, and the inode at the path.
    pub fn look(&self, path: &[u8]) -> (bool, Option<&Inode>)
        requires led { IsLed path.now }
        requires below { 0 < length path.now }
        ensures above { result.0 ≡ is_dir_there (find (before_last_slash path.now) self.now) }
        ensures there { option_copied result.1 ≡ find path.now self.now }
    {
        let _ = self.kids.len();
        let (name, rest) = first_name(path);
        if rest.is_empty() {
            return (is_directory(&self.inode), self.find(path));
        }
        match self.kids.get(name) {
            Some(kid) => kid.look(rest),
            None => (false, None),
        }
    }

    /// Raises the mtime of the directory at a path from here; where none is, nothing changes.
    pub fn raise(&mut self, path: &[u8], time: u64)
        requires { IsLed path.now }
        ensures { self.new ≡ raise path.now time self.old }
    {
        if path.is_empty() {
            raise_inode(&mut self.inode, time);
            return;
        }
        let (name, rest) = first_name(path);
        let Some(kid) = self.kids.get_mut(name) else {
            return;
        };
        kid.raise(rest, time);
        kid.show();
    }

    /// Replaces the inode at a path from here; where none is, nothing changes.
    pub fn replace(&mut self, path: &[u8], inode: Inode)
        requires { IsLed path.now }
        ensures { self.new ≡ set_at path.now inode self.old }
    {
        if path.is_empty() {
            self.inode = inode;
            return;
        }
        let (name, rest) = first_name(path);
        let Some(kid) = self.kids.get_mut(name) else {
            return;
        };
        kid.replace(rest, inode);
        kid.show();
    }

    /// Changes the inode at a path from here where it stands.
    pub fn change<F: FnOnce(&mut Inode)>(&mut self, path: &[u8], setting: F)
        requires callable { F.IsAlwaysCallable setting }
        requires led { IsLed path.now }
        requires there { IsSome (find path.now self.old) }
        ensures { (i j : Inode) × (find path.now self.old ≡ Some i) × FnOnceReturnsAtMut F.FnOnce setting i tt j × (self.new ≡ set_at path.now j self.old) }
    {
        if path.is_empty() {
            change_inode(&mut self.inode, setting);
            return;
        }
        let (name, rest) = first_name(path);
        match self.kids.get_mut(name) {
            Some(kid) => {
                kid.change(rest, setting);
                kid.show();
            }
            None => unreachable!(),
        }
    }

    /// Puts an inode under a name into the directory at a path from here, and raises the
    /// directory's mtime; an `Err` changes nothing.
    pub fn put(
        &mut self,
        alloc: Global,
        path: &[u8],
        kid: NewKid<'_>,
        time: u64,
    ) -> Result<(), OutOfMemory>
        requires led { IsLed path.now }
        requires some { 0 < length kid.name.now }
        requires plain { has_slash kid.name.now ≡ false }
        requires there { IsSome (find path.now self.old) }
        requires absent { find (path.now ++ 47 ∷ kid.name.now) self.old ≡ None }
        ensures ok { OnOk result (self.new ≡ raise path.now time (put (path.now ++ 47 ∷ kid.entry.name.now) kid.entry.inode self.old)) }
        ensures err { OnErr result (self.new ≡ self.old) }
    {
        if path.is_empty() {
            let key = Vec::from_slice(alloc, kid.name)?;
            let branch = Box::new(alloc, Branch::new(alloc, kid.inode))?;
            self.kids.insert(key, branch)?;
            raise_inode(&mut self.inode, time);
            return Ok(());
        }
        let (first, rest) = first_name(path);
        match self.kids.get_mut(first) {
            Some(branch) => {
                let put = branch.put(alloc, rest, kid, time);
                branch.show();
                put
            }
            None => unreachable!(),
        }
    }

    /// Takes what stands at a path below here, with all under it.
    pub fn cut(&mut self, path: &[u8]) -> Box<Branch>
        requires led { IsLed path.now }
        requires below { 0 < length path.now }
        requires there { IsSome (find path.now self.old) }
        ensures rest { self.new ≡ without path.now self.old }
        ensures part { subtree path.now self.old ≡ map (from_path path.now) result.value }
    {
        let (name, rest) = first_name(path);
        if rest.is_empty() {
            let _ = self.kids.len();
            return match self.kids.remove(name) {
                Some(kid) => kid,
                None => unreachable!(),
            };
        }
        match self.kids.get_mut(name) {
            Some(kid) => {
                let part = kid.cut(rest);
                kid.show();
                part
            }
            None => unreachable!(),
        }
    }

    /// Puts a branch in the place of all that stands at or under a path from here, and gives what
    /// stood there.
    pub fn settle(&mut self, path: &[u8], branch: Box<Branch>) -> Branch
        requires led { IsLed path.now }
        requires there { IsSome (find path.now self.old) }
        ensures placed { self.new ≡ put_at path.now (map (from_path path.now) branch.value) (without path.now self.old) }
        ensures part { subtree path.now self.old ≡ map (from_path path.now) result }
    {
        if path.is_empty() {
            self.show();
            return mem::replace(self, Box::into_inner(branch));
        }
        let (name, rest) = first_name(path);
        match self.kids.get_mut(name) {
            Some(kid) => {
                let old = kid.settle(rest, branch);
                kid.show();
                old
            }
            None => unreachable!(),
        }
    }

    /// The branch at a path from here.
    pub fn at(&self, path: &[u8]) -> Option<&Branch>
        requires { IsLed path.now }
        ensures some { IfSome result (λ branch. IsFrom path.now × (subtree path.now self.now ≡ map (from_path path.now) branch.now)) }
        ensures none { IfNone result (find path.now self.now ≡ None) }
    {
        if path.is_empty() {
            self.show();
            return Some(self);
        }
        if self.kids.len() == 0 {
            return None;
        }
        let (name, rest) = first_name(path);
        match self.kids.get(name) {
            Some(kid) => kid.at(rest),
            None => None,
        }
    }

    /// How many rows there are: the branch itself, and all that stands below it.
    pub fn count(&self) -> usize
        requires { length self.now ≤ 4294967295 }
        ensures { result ≡ length self.now }
    {
        let mut count = 1;
        for (_, kid) in &self.kids {
            count += kid.count();
        }
        count
    }

    /// Whether something stands below.
    pub fn has_kids(&self) -> bool
        ensures { result ≡ has_under [] self.now }
    {
        self.kids.len() > 0
    }

    /// The names of what stands right below, in the order of their bytes.
    pub fn names(&self, alloc: Global) -> Result<Vec<Name>, OutOfMemory>
        ensures { IfOk result (λ names. names.items ≡ names_under [] self.now) }
    {
        let mut names = Vec::new(alloc);
        for (name, _) in &self.kids {
            names.push(Name::from_slice(alloc, name.as_slice())?)?;
        }
        Ok(names)
    }

    /// The length of the longest path of a row.
    pub fn longest(&self) -> usize
        requires { Each (λ x. length x.path ≤ 1000) self.now }
        ensures { result ≡ longest_of self.now }
    {
        let mut longest = 0;
        for (name, kid) in &self.kids {
            longest = longest.max(1 + name.len() + kid.longest());
        }
        longest
    }

    /// Appends all rows in the order of a walk, by whole paths, where the branch stands at a path.
    pub fn walk(
        &self,
        alloc: Global,
        path: &mut Vec<u8>,
        rows: &mut Vec<Row>,
    ) -> Result<(), OutOfMemory>
        ensures path { OnOk result (path.new.items ≡ path.old.items) }
        ensures rows { OnOk result (rows.new.items ≡ rows.old.items ++ rooted (map (from_path path.old.items) self.now)) }
    {
        let own = Name::from_slice(alloc, path_of(path.as_slice()))?;
        rows.push(Row {
            path: own,
            inode: self.inode.copy(alloc)?,
        })?;
        for (name, kid) in &self.kids {
            let length = path.len();
            path.push(b'/')?;
            path.extend_from_slice(name.as_slice())?;
            kid.walk(alloc, path, rows)?;
            path.truncate(length);
        }
        Ok(())
    }

    /// Whether a walk comes to a path after all rows.
    pub fn ends_before(&self, path: &[u8]) -> bool
        ensures { result ≡ is_lt (walk_cmp (last_path self.now) path.now) }
    {
        let Some((name, kid)) = self.kids.last_key_value() else {
            return !path.is_empty();
        };
        if path.is_empty() {
            return false;
        }
        if path[0] != b'/' {
            return true;
        }
        let (first, rest) = first_name(path);
        match name.as_slice().cmp(first) {
            Ordering::Less => true,
            Ordering::Equal => kid.ends_before(rest),
            Ordering::Greater => false,
        }
    }
}
