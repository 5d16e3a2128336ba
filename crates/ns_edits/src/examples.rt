//! Worked logs, computed when the crate is checked.
ghost use Rattle.std.specs.Prelude.{◌≡◌, [], ◌∷◌, ◌++◌, codes, Some, None};
ghost use Rattle.ns_tree.specs.Space.{children_of};
ghost use Rattle.ns_edits.specs.Admit.{admit_of};
ghost use Rattle.ns_edits.specs.Replay.{replay, replay_from};
ghost use Rattle.ns_edits.specs.Examples.{plain, log_of, known_edits, known_rows, every_edit, every_rows, called, mkdir_u, called_edits, called_space};

use crate::refusal::AdmitRefusal;

/// Directories and a file that is made, closed, renamed and given away.
pub fn a_known_log_replays()
    ensures rows { replay (log_of known_edits) ≡ Some (record { pairs = known_rows; calls = [] }) }
    ensures children { children_of (codes "/u") known_rows ≡ codes "g" ∷ [] }
{}

/// An edit of every kind.
pub fn every_kind_replays()
    ensures { replay (log_of every_edit) ≡ Some (record { pairs = every_rows; calls = [] }) }
{}

/// Calls are noted with their txids, and one that is asked again is refused and told its txid.
pub fn calls_are_noted()
    ensures noted { replay (log_of called_edits) ≡ Some called_space }
    ensures repeated { admit_of called_space (called 7 (mkdir_u 10)) ≡ Some (AdmitRefusal.RepeatedCall 2) }
    ensures other { admit_of called_space (called 8 (mkdir_u 11)) ≡ Some AdmitRefusal.Exists }
    ensures again { replay_from 4 (log_of (called 9 (mkdir_u 13) ∷ [])) called_space ≡ None }
{}
