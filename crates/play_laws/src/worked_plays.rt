//! Worked plays, computed by the check.
ghost use Rattle.std.specs.Prelude.{◌≡◌, ◌∷◌, [], List, codes, reverse, true, take};
ghost use Rattle.journal_history.specs.Entries.{Entry};
ghost use Rattle.run_safety.specs.Safe.{IsAcknowledged};
ghost use Rattle.play_model.specs.Plays.{has_ended, mesh_of, ends_of};
ghost use Rattle.play_laws.specs.FirstRun.{first_play, first_mesh, first_ends, first_entries};
ghost use Rattle.journal_history.specs.Moving.{moving_of};
ghost use Rattle.mesh.specs.Order.{epoch_order};
ghost use Rattle.mesh.specs.Agree.{Agrees};
ghost use Rattle.play_laws.specs.Broken.{lost_line, doubled_line, swapped_lines, made_up, undropped, asking_operator, wrong_epoch, only_said};
ghost use Rattle.play_laws.specs.Acked.{TellsAcknowledged};
ghost use Rattle.play_laws.specs.Orders.{losing_proposal, came_about, by_promise};
ghost use Rattle.play_laws.specs.PlayExamples.{played, results_at, listed, dropped_call, killed_nodes, competing_takeovers, fenced_writer, fencing_lines, recovered_edit, recovering_lines, lost_fetch, second_fetch_lines, late_copies, late_lines, rolled_and_purged, purging_lines, stopped_in_prepare, stopping_lines, cut_in_accept, cut_lines};

/// A dropped call is silent, and reaches no node.
pub fn shows_dropped_call()
    ensures ends { has_ended (played 1 dropped_call) ≡ true }
    ensures results { results_at (played 1 dropped_call) 0 ≡ codes "takeover 1 1" ∷ codes "aborted silent" ∷ [] }
    ensures node { listed (played 1 dropped_call) 1 4 ≡ [] }
{}

/// Nodes that are down refuse; those that missed a segment's beginning are left out of it.
pub fn shows_killed_nodes()
    ensures ends { has_ended (played 9 killed_nodes) ≡ true }
    ensures results { results_at (played 9 killed_nodes) 0 ≡ codes "takeover 1 1" ∷ codes "aborted ok ok ok ok Down outofsync outofsync outofsync outofsync" ∷ codes "aborted ok ok ok ok Down outofsync outofsync outofsync outofsync" ∷ [] }
{}

/// Of two writers that propose one epoch one wins; the other takes the next one.
pub fn shows_competing_takeovers()
    ensures ends { has_ended (played 3 competing_takeovers) ≡ true }
    ensures first { results_at (played 3 competing_takeovers) 0 ≡ codes "takeover aborted ok silent silent" ∷ codes "takeover 2 2" ∷ [] }
    ensures second { results_at (played 3 competing_takeovers) 1 ≡ codes "takeover 1 1" ∷ [] }
{}

/// A writer that another one has fenced is refused at each node.
pub fn shows_fenced_writer()
    ensures ends { has_ended (played 3 fenced_writer) ≡ true }
    ensures first { results_at (played 3 fenced_writer) 0 ≡ codes "takeover 1 1" ∷ codes "aborted EpochRefused:2 EpochRefused:2 EpochRefused:2" ∷ [] }
    ensures second { results_at (played 3 fenced_writer) 1 ≡ codes "takeover 2 2" ∷ [] }
    ensures node { listed (played 3 fenced_writer) 1 6 ≡ fencing_lines }
{}

/// An edit that one node holds is recovered by a takeover that hears of it.
pub fn shows_recovered_edit()
    ensures ends { has_ended (played 3 recovered_edit) ≡ true }
    ensures first { results_at (played 3 recovered_edit) 0 ≡ codes "takeover 1 1" ∷ codes "aborted silent silent silent" ∷ [] }
    ensures second { results_at (played 3 recovered_edit) 1 ≡ codes "takeover 2 3" ∷ [] }
    ensures node { listed (played 3 recovered_edit) 1 4 ≡ recovering_lines }
{}

/// Where its pieces can't be fetched, the takeover goes on without that node.
pub fn shows_lost_fetch()
    ensures ends { has_ended (played 3 lost_fetch) ≡ true }
    ensures second { results_at (played 3 lost_fetch) 1 ≡ codes "takeover 2 2" ∷ [] }
    ensures node { listed (played 3 lost_fetch) 2 7 ≡ second_fetch_lines }
{}

/// Late copies are refused by serial, or after a restart by the segment; a copy of no call isn't
/// sent.
pub fn shows_late_copies()
    ensures ends { has_ended (played 1 late_copies) ≡ true }
    ensures results { results_at (played 1 late_copies) 0 ≡ codes "takeover 1 1" ∷ codes "late none" ∷ [] }
    ensures node { listed (played 1 late_copies) 1 4 ≡ late_lines }
{}

/// Roll, purge, takeover and close, and what a closed writer answers.
pub fn shows_rolled_and_purged()
    ensures ends { has_ended (played 1 rolled_and_purged) ≡ true }
    ensures results { results_at (played 1 rolled_and_purged) 0 ≡ codes "takeover 1 1" ∷ codes "roll 3" ∷ codes "purge ok" ∷ codes "takeover 2 4" ∷ codes "close 5" ∷ codes "roll inactive" ∷ codes "inactive" ∷ codes "inactive" ∷ [] }
    ensures node { listed (played 1 rolled_and_purged) 1 4 ≡ purging_lines }
{}

/// A node that is stopped inside a prepare is silent, and then down.
pub fn shows_stopped_in_prepare()
    ensures ends { has_ended (played 3 stopped_in_prepare) ≡ true }
    ensures first { results_at (played 3 stopped_in_prepare) 0 ≡ codes "takeover aborted ok silent silent" ∷ [] }
    ensures second { results_at (played 3 stopped_in_prepare) 1 ≡ codes "takeover 2 1" ∷ [] }
    ensures node { listed (played 3 stopped_in_prepare) 1 3 ≡ stopping_lines }
{}

/// A node that is cut off inside an acceptance has it from the fifth disk call on.
pub fn shows_cut_in_accept()
    ensures four { take 3 (listed (played 3 (cut_in_accept 4)) 1 9) ≡ cut_lines 0 }
    ensures five { take 3 (listed (played 3 (cut_in_accept 5)) 1 9) ≡ cut_lines 1 }
    ensures first { results_at (played 3 (cut_in_accept 4)) 0 ≡ codes "takeover 1 1" ∷ codes "takeover 3 3" ∷ [] }
    ensures second { results_at (played 3 (cut_in_accept 4)) 1 ≡ codes "takeover 2 2" ∷ [] }
{}

/// Three nodes, one writer, three edits: the whole mesh.
pub fn shows_first_run()
    ensures ends { has_ended first_play ≡ true }
    ensures mesh { mesh_of first_play ≡ first_mesh }
    ensures names { ends_of first_play ≡ first_ends }
    ensures entries { moving_of first_play.trace ≡ first_entries }
{}

/// The epoch order of the first run is the order in which its entries came about.
pub fn shows_first_order()
    ensures { epoch_order first_mesh ≡ first_entries }
{}

/// The first edit of that run is acknowledged in it, as its result says.
pub fn shows_first_acknowledged()
    ensures says { results_at first_play 0 ≡ codes "takeover 1 1" ∷ codes "acked 2" ∷ codes "acked 3" ∷ codes "acked 4" ∷ [] }
    ensures acknowledged { IsAcknowledged 3 (reverse first_entries) 1 2 (10 ∷ []) }
{}

/// Entries in the order in which they came about, and by promises.
pub fn shows_epoch_order()
    ensures script { moving_of (played 3 losing_proposal).trace ≡ came_about }
    ensures epochs { epoch_order (mesh_of (played 3 losing_proposal)) ≡ by_promise }
{}

/// Meshes that are of no play, and that do not agree.
pub fn refuses_broken_meshes()
    ensures lost_line { Agrees lost_line → ⊥ }
    ensures doubled_line { Agrees doubled_line → ⊥ }
    ensures swapped_lines { Agrees swapped_lines → ⊥ }
    ensures made_up { Agrees made_up → ⊥ }
    ensures undropped { Agrees undropped → ⊥ }
    ensures asking_operator { Agrees asking_operator → ⊥ }
    ensures wrong_epoch { Agrees wrong_epoch → ⊥ }
{}

/// A result that claims an edit which nobody logged: in no order of entries does it tell what is
/// acknowledged.
pub fn refuses_claims_alone()
    ensures { (entries : List Entry) → TellsAcknowledged only_said entries → ⊥ }
{}
