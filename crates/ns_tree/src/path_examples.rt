//! Worked examples, computed by the check.
ghost use Rattle.std.specs.Prelude.{◌≡◌, true, false, [], ◌∷◌, codes};
ghost use Rattle.std.specs.declared.cmp.Ordering.TheVariants.{Less};
ghost use Rattle.ns_tree.specs.Path.{walk_cmp, is_under, parent_of, is_path, is_owner};
ghost use Rattle.ns_tree.specs.Components.{components, by_components};

/// A walk comes to what is under a directory before it comes to a path that only begins alike.
pub fn a_walk_goes_by_components()
    ensures below { walk_cmp (codes "/u/x") (codes "/u-") ≡ Less }
    ensures beside { walk_cmp (codes "/u-") (codes "/u0") ≡ Less }
{}

/// A path's components, and two lists of them.
pub fn a_path_has_components()
    ensures root { components (codes "/") ≡ [] }
    ensures two { components (codes "/u/x") ≡ codes "u" ∷ codes "x" ∷ [] }
    ensures below { by_components (components (codes "/u/x")) (components (codes "/u-")) ≡ Less }
    ensures above { by_components (components (codes "/u")) (components (codes "/u/x")) ≡ Less }
{}

/// What is under a path, and what only begins with its text.
pub fn what_is_under_a_path()
    ensures root { is_under (codes "/") (codes "/u") ≡ true }
    ensures below { is_under (codes "/u") (codes "/u/x") ≡ true }
    ensures beside { is_under (codes "/u") (codes "/u-") ≡ false }
    ensures parent { parent_of (codes "/u/x") ≡ codes "/u" }
    ensures top { parent_of (codes "/u") ≡ codes "/" }
{}

/// A path has no empty component and no dots, and a user begins with a letter or `_`.
pub fn names_have_grammars()
    ensures path { is_path (codes "/u/x") ≡ true }
    ensures empty { is_path (codes "/u//x") ≡ false }
    ensures dots { is_path (codes "/u/..") ≡ false }
    ensures user { is_owner (codes "_a.b-9") ≡ true }
    ensures digit { is_owner (codes "9a") ≡ false }
{}
