//! A node over a disk that it owns: opened, asked, stopped and cut; nodes over empty disks.
#![tactic(auto)]

mod acting;
mod acting_reads;
mod acting_stops;
mod as_cut_node;
mod as_node;
mod calling;
mod cutting;
mod doing;
mod doing_laws;
mod effects_done;
mod following;
mod fresh;
mod journal_node;
mod node_memory;
mod node_opening;
mod open_fail;
mod readying;
mod state_examples;
mod state_laws;

pub use doing::do_effect;
pub use doing_laws::{appends_are_within, costs_are_kept};
pub use effects_done::do_effects;
pub use fresh::{fresh_nodes, open_empty};
pub use journal_node::JournalNode;
pub use open_fail::OpenFail;
pub use readying::{Planned, Ready, ready_plan};
pub use state_examples::{
    a_number_file_is_read, no_files_are_a_fresh_node, segment_files_are_read,
};
pub use state_laws::{
    lists_are_decoded, numbers_are_decoded, segment_files_are_decoded, segments_are_decoded,
    states_are_decoded,
};
