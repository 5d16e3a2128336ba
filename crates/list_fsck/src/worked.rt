//! Worked examples of reports, computed when the crate is checked.
ghost use Rattle.std.specs.Prelude.{◌≡◌, ◌++◌, ◌∷◌, [], codes};
ghost use Rattle.list_fsck.specs.Rules.{number_of};
ghost use Rattle.list_fsck.specs.Reports.{text_of, count_of, AreVerdicts};
ghost use Rattle.list_fsck.specs.Examples.{clean_name, other_name, folder, clean, renamed};

use crate::rule::Rule;

/// The numbers of the rules.
pub fn numbers_of_rules()
    ensures first { number_of Rule.KnownName ≡ 1 }
    ensures last { number_of Rule.ImageBytes ≡ 10 }
{}

/// The four files of a known session of a node break no rule.
pub fn a_known_session_is_clean()
    ensures verdicts { AreVerdicts (folder clean_name) 0 clean 2 }
    ensures findings { count_of clean ≡ 0 }
    ensures text { text_of clean ≡ codes "ok committed-txid" ++ 10 ∷ (codes "ok edits_0000000000000000002-0000000000000000002" ++ 10 ∷ (codes "ok last-promised-epoch" ++ 10 ∷ (codes "ok last-writer-epoch" ++ 10 ∷ (codes "findings 0" ++ 10 ∷ [])))) }
{}

/// Of the four files of a known session of a node the segment's breaks a rule, where its name tells
/// another end.
pub fn another_end_is_told()
    ensures verdicts { AreVerdicts (folder other_name) 0 renamed 3 }
    ensures findings { count_of renamed ≡ 1 }
    ensures text { text_of renamed ≡ codes "ok committed-txid" ++ 10 ∷ (codes "bad edits_0000000000000000002-0000000000000000003 3 3 2" ++ 10 ∷ (codes "ok last-promised-epoch" ++ 10 ∷ (codes "ok last-writer-epoch" ++ 10 ∷ (codes "findings 1" ++ 10 ∷ [])))) }
{}
