//! A path that moves, with all under it.
ghost use Rattle.std.specs.Prelude.{◌≡◌, ◌+◌, ◌-◌, ◌≤◌, true, false, length, IsSome, OnOk, OnErr};
ghost use Rattle.ns_tree.specs.Path.{is_path, is_root, is_at_or_under, parent_of};
ghost use Rattle.ns_tree.specs.Space.{find, is_dir_there, has_under, longest_under, renamed};

use crate::namespace::Namespace;
use base_words::OutOfMemory;
use std::alloc::Global;

impl Namespace {
    /// Moves a path with all under it; what was at the other path goes. All memory is taken before
    /// the first change, and an `Err` changes nothing.
    pub fn rename(&mut self, alloc: Global, src: &[u8], dst: &[u8]) -> Result<(), OutOfMemory>
        requires src_below { is_root src.now ≡ false }
        requires dst_below { is_root dst.now ≡ false }
        requires path { is_path dst.now ≡ true }
        requires there { IsSome (find src.now self.old.pairs) }
        requires apart { is_at_or_under src.now dst.now ≡ false }
        requires parent { is_dir_there (find (parent_of dst.now) self.old.pairs) ≡ true }
        requires empty { IsSome (find dst.now self.old.pairs) → has_under dst.now self.old.pairs ≡ false }
        requires short { longest_under src.now self.old.pairs - length src.now + length dst.now ≤ 1000 }
        ensures ok { OnOk result (self.new ≡ record self.old { pairs = renamed src.now dst.now self.old.pairs }) }
        ensures err { OnErr result (self.new ≡ self.old) }
    {
        self.rows.rename(alloc, src, dst)
    }
}
