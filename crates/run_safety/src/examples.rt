//! Worked runs, computed when the crate is checked.
ghost use Rattle.std.specs.Prelude.{ℕ, ◌≡◌, ◌<◌, List, [], ◌∷◌, drop, reverse, None, Some, false};
ghost use Rattle.journal_core.specs.Segments.{find_segment};
ghost use Rattle.journal_core.specs.declared.segment.Segment.{Segment};
ghost use Rattle.journal_history.specs.Entries.{node_after};
ghost use Rattle.run_safety.specs.Majority.{IsMajority};
ghost use Rattle.run_safety.specs.Parts.{IsFrom, TookEpoch};
ghost use Rattle.run_safety.specs.Run.{IsRun};
ghost use Rattle.run_safety.specs.Safe.{HasBody, IsAcknowledged, IsHeld, IsOnLine, IsRecovered, IsSafe};
ghost use Rattle.run_safety.specs.Tables.{story_of};
ghost use Rattle.run_safety.specs.Examples.{recovered_edit, recovered_log, its_line, begin, edit, later, tables, purged, purging_tables, promised_twice, split};

/// Two competing writers over three nodes, a kill, a restart, a late copy, a stop inside a prepare,
/// the recovery of an acknowledged edit and of one that a single node held, and an edit of the
/// second writer: a run.
pub fn recovered_edit_is_a_run()
    ensures { IsRun 3 recovered_edit }
{}

/// In that run these are acknowledged: the record that begins segment 1 and an edit under epoch 1,
/// and an edit under epoch 2.
pub fn edits_are_acknowledged()
    ensures begins { IsAcknowledged 3 (reverse recovered_edit) 1 1 begin }
    ensures first { IsAcknowledged 3 (reverse recovered_edit) 1 2 edit }
    ensures last { IsAcknowledged 3 (reverse recovered_edit) 2 5 later }
{}

/// Epoch 2 recovered the log from txid 1 up to its first segment, which begins with txid 4.
pub fn epoch_two_recovers_the_log()
    ensures { IsRecovered 3 (reverse recovered_edit) 2 4 1 recovered_log }
{}

/// What safety gives for the acknowledged edit of epoch 1: it is on the line, below the first
/// segment of epoch 2, and in the log that epoch 2 recovered.
pub fn safety_keeps_the_edit()
    ensures line { IsOnLine 3 (reverse recovered_edit) 2 edit }
    ensures below { 2 < 4 }
    ensures log { HasBody 1 recovered_log 2 edit }
{}

/// The line of that run: five edits, and each of them is the only one at its txid. The third is the
/// one that nobody had heard of.
pub fn its_line_is_known()
    ensures has { (txid : ℕ) → (body : List ℕ) → HasBody 1 its_line txid body → IsOnLine 3 (reverse recovered_edit) txid body }
    ensures only { (txid : ℕ) → (body other : List ℕ) → HasBody 1 its_line txid body → IsOnLine 3 (reverse recovered_edit) txid other → other ≡ body }
{}

/// Nodes 1 and 2 took epoch 2 from the second takeover, so whichever takeover a majority took it
/// from is the second.
pub fn epoch_two_is_one_takeovers()
    ensures took { TookEpoch (story_of tables) (reverse recovered_edit) 1 2 (1 ∷ 2 ∷ []) }
    ensures one { (takeover : ℕ) → (nodes : List ℕ) → IsMajority 3 nodes → TookEpoch (story_of tables) (reverse recovered_edit) takeover 2 nodes → takeover ≡ 1 }
{}

/// Whatever a node held of segment 1 under epoch 2 is the log that epoch 2 recovered.
pub fn epoch_two_has_one_value()
    ensures { (node : ℕ) → (g : Segment) → IsHeld (reverse recovered_edit) node g → g.start ≡ 1 → g.epoch ≡ 2 → g.bodies ≡ recovered_log }
{}

/// A writer logs, rolls and purges: a run. Its purge is sent from segment 4, and removes segment 1
/// alone.
pub fn a_purge_keeps_its_segment()
    ensures run { IsRun 1 purged }
    ensures from { IsFrom 1 (story_of purging_tables) (drop 1 (reverse purged)) 4 }
    ensures gone { find_segment 1 (node_after 1 (reverse purged)).segments ≡ None }
    ensures kept { find_segment 4 (node_after 1 (reverse purged)).segments ≡ Some (record { start = 4; epoch = 1; bodies = begin ∷ []; is_final = false; accepted = false }) }
{}

/// A node that promises one epoch twice: no run.
pub fn promised_twice_is_no_run()
    ensures { IsRun 1 promised_twice → ⊥ }
{}

/// Two nodes with different final segments: not safe.
pub fn split_is_not_safe()
    ensures { IsSafe 2 split → ⊥ }
{}
