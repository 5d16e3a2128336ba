//! Reports, worked out at check time.
ghost use Rattle.std.specs.Prelude.{◌≡◌, [], ◌∷◌, codes};
ghost use Rattle.play_report.specs.Text.{text_of};
ghost use Rattle.play_report.specs.Examples.{small_mesh, two_ends, small_report, still_mesh, names_mesh, names_ends, names_report, of_lines};

/// A mesh with every kind of line, one in which nothing happened, and one with names.
pub fn reports_are_as_written()
    ensures small { text_of small_mesh two_ends ≡ small_report }
    ensures still { text_of still_mesh [] ≡ of_lines (codes "nodes 1" ∷ codes "node 1" ∷ codes "end" ∷ []) }
    ensures names { text_of names_mesh names_ends ≡ names_report }
{}
