//! Worked examples of what pipes carry, computed by the check.
ghost use Rattle.std.specs.Prelude.{◌≡◌, ◌∷◌, [], codes};
ghost use Rattle.pipe_serve.specs.ByteExamples.{one_got, two_got, two_lives, two_sessions};
ghost use Rattle.pipe_serve.specs.Bytes.{AreAtPipes, KeepsBytes, all_taken, gots_of};

/// A life that was killed in the middle of a line, and the next one: the line that is behind the
/// rest of the other is none. Of each life the node got what was taken whole.
pub fn a_line_behind_a_cut_one()
    ensures at { AreAtPipes two_lives two_sessions }
    ensures first { gots_of 7 (all_taken two_sessions) ≡ one_got ∷ [] }
    ensures second { gots_of 8 (all_taken two_sessions) ≡ two_got ∷ [] }
{}

/// A pipe that keeps order may lose bytes between two readers, and gives none twice.
pub fn bytes_are_kept()
    ensures lost { KeepsBytes (codes "ab" ∷ codes "cd" ∷ []) (codes "a" ∷ codes "cd" ∷ []) }
    ensures twice { KeepsBytes (codes "ab" ∷ []) (codes "a" ∷ codes "a" ∷ []) → ⊥ }
{}
