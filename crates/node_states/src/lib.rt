//! The states of the nodes after each line of a report whose lists agree: what moved the nodes in
//! the epoch order, and each other line behind the one before it.
#![tactic(auto)]

mod answers;
mod asks;
mod fields;
mod laws;
mod line_list;
mod lines;
mod node_line;
mod order;
mod record_texts;
mod state_texts;
mod states;
mod stepping;
mod telling;
mod turn;
mod turns;
mod worked;

pub use laws::each_line_is_told_once;
pub use states::{States, tell_states};
pub use worked::states_are_as_written;
