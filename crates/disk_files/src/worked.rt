//! Worked examples of names, computed when the crate is checked.
ghost use Rattle.std.specs.Prelude.{◌≡◌, List, ℕ, None, codes};
ghost use Rattle.journal_core.specs.Step.{fresh_state};
ghost use Rattle.disk_files.specs.Durable.{number_name, StandsAs};

use crate::node_number::NodeNumber;

/// The names of the number files.
pub fn names_of_number_files()
    ensures promised { number_name NodeNumber.Promised ≡ codes "last-promised-epoch" }
    ensures writer { number_name NodeNumber.Writer ≡ codes "last-writer-epoch" }
    ensures committed { number_name NodeNumber.Committed ≡ codes "committed-txid" }
{}

/// No files stand for a node before its first request.
pub fn no_files_stand_for_a_fresh_node()
    ensures { StandsAs (λ (name : List ℕ). None) fresh_state }
{}
