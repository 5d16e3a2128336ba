//! The mesh: what all nodes and all callers of a play list, side by side.
#![tactic(auto)]

mod examples;
mod laws;
mod tables;
mod whole;

pub use examples::{
    refuses_copies_without_a_mark_each, refuses_log_without_body, shows_crossed_takeovers,
    shows_tailing_caller,
};
pub use laws::{
    an_epoch_has_one_owner, an_order_of_all_lines_is_a_run, epoch_order_is_a_run,
    epoch_order_is_safe, epoch_order_keeps_each_node,
};
pub use tables::{HistoryTable, RecordTable};
pub use whole::Mesh;
