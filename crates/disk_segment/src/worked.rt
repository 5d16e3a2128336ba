//! Worked examples of names, bytes and sets of files, computed when the crate is checked.
ghost use Rattle.std.specs.Prelude.{◌≡◌, ◌∷◌, [], List, ℕ, Some, None, false, codes, if◌then◌else◌};
ghost use Rattle.std.specs.Str.{bytes_eq};
ghost use Rattle.disk_segment.specs.Names.{name_of, InProgress, Final, Record, UnderWay, Fresh, FreshRecord};
ghost use Rattle.disk_segment.specs.Calls.{content_of};
ghost use Rattle.disk_segment.specs.Stands.{StandsFor};

/// The names of the files of the segment from txid 1.
pub fn names_of_a_segment()
    ensures in_progress { name_of 1 InProgress ≡ codes "edits_inprogress_0000000000000000001" }
    ensures final_ { name_of 1 (Final 301) ≡ codes "edits_0000000000000000001-0000000000000000301" }
    ensures record_ { name_of 1 Record ≡ codes "paxos/0000000000000000001" }
    ensures under_way { name_of 1 (UnderWay 2) ≡ codes "edits_inprogress_0000000000000000001.epoch=2" }
    ensures fresh { name_of 1 Fresh ≡ codes "edits_inprogress_0000000000000000001.new" }
    ensures fresh_record { name_of 1 FreshRecord ≡ codes "paxos/0000000000000000001.tmp" }
{}

/// The file of a segment from txid 1 that epoch 2 began: a header and a blank seal.
#[tactic(auto, unfolding(crate::specs::Calls::content_of))]
pub fn file_of_a_new_segment()
    ensures { content_of 1 2 [] ≡ 81 ∷ 74 ∷ 83 ∷ 71 ∷ 0 ∷ 0 ∷ 0 ∷ 1 ∷ 0 ∷ 0 ∷ 0 ∷ 0 ∷ 0 ∷ 0 ∷ 0 ∷ 1 ∷ 0 ∷ 0 ∷ 0 ∷ 0 ∷ 0 ∷ 0 ∷ 0 ∷ 2 ∷ 0 ∷ [] }
{}

/// No files stand for no segments.
pub fn no_files_stand_for_nothing()
    ensures { StandsFor (λ (name : List ℕ). None) [] }
{}

/// A file in progress with one edit, an OP_START_LOG_SEGMENT under epoch 2, stands for that one
/// segment.
pub fn one_file_stands_for_its_segment()
    ensures { StandsFor
        (λ (name : List ℕ). if bytes_eq name (name_of 1 InProgress) then Some (81 ∷ 74 ∷ 83 ∷ 71 ∷ 0 ∷ 0 ∷ 0 ∷ 1 ∷ 0 ∷ 0 ∷ 0 ∷ 0 ∷ 0 ∷ 0 ∷ 0 ∷ 1 ∷ 0 ∷ 0 ∷ 0 ∷ 0 ∷ 0 ∷ 0 ∷ 0 ∷ 2 ∷ 165 ∷ 0 ∷ 0 ∷ 0 ∷ 15 ∷ 0 ∷ 0 ∷ 0 ∷ 0 ∷ 0 ∷ 0 ∷ 0 ∷ 1 ∷ 0 ∷ 0 ∷ 0 ∷ 1 ∷ 0 ∷ 1 ∷ 24 ∷ 0 ∷ []) else None)
        (record { start = 1; epoch = 2; bodies = (24 ∷ []) ∷ []; is_final = false; accepted = false } ∷ []) }
{}
