//! Worked examples, computed by the check.
ghost use Rattle.std.specs.Prelude.{◌≡◌, [], ◌∷◌, codes};
ghost use Rattle.ns_tree.specs.Space.{renamed, without, children_of};
ghost use Rattle.ns_tree.specs.Examples.{small_rows, paths};

/// A directory moves with what is under it.
pub fn a_directory_moves()
    ensures up { paths (renamed (codes "/u/x") (codes "/a") small_rows)
        ≡ codes "/" ∷ codes "/a" ∷ codes "/a/f" ∷ codes "/u" ∷ codes "/u-" ∷ [] }
    ensures down { paths (renamed (codes "/u/x") (codes "/u-/y") small_rows)
        ≡ codes "/" ∷ codes "/u" ∷ codes "/u-" ∷ codes "/u-/y" ∷ codes "/u-/y/f" ∷ [] }
{}

/// A directory goes with what is under it.
pub fn a_directory_goes()
    ensures { paths (without (codes "/u") small_rows) ≡ codes "/" ∷ codes "/u-" ∷ [] }
{}

/// The names right under a directory.
pub fn a_directory_has_names()
    ensures top { children_of (codes "/") small_rows ≡ codes "u" ∷ codes "u-" ∷ [] }
    ensures below { children_of (codes "/u") small_rows ≡ codes "x" ∷ [] }
    ensures absent { children_of (codes "/v") small_rows ≡ [] }
{}
