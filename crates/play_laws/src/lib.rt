//! What holds of the name nodes of every script, in any mesh that follows it; the worked plays of
//! the documents.
#![tactic(auto)]

mod examples;
mod laws;
mod named_examples;
mod worked_plays;

pub use examples::{refuses_orphan_batch, shows_safe_standby};
pub use laws::{
    actors_hold_replays, edits_have_one_result, end_reads_are_on_line, epoch_order_is_safe,
    finals_are_on_line, images_are_left, line_calls_apart, line_replays, logs_are_admitted,
    names_are_kept, names_are_safe, none_breaks, orders_are_linear, plays_are_safe,
    reads_are_on_line, results_tell_acknowledged,
};
pub use named_examples::{
    shows_late_takeover, shows_refused_edits, shows_repeated_calls, shows_standby,
    shows_standby_without_image, shows_survived_batch, shows_trimmed_log,
};
pub use worked_plays::{
    refuses_broken_meshes, refuses_claims_alone, shows_competing_takeovers, shows_cut_in_accept,
    shows_dropped_call, shows_epoch_order, shows_fenced_writer, shows_first_acknowledged,
    shows_first_order, shows_first_run, shows_killed_nodes, shows_late_copies, shows_lost_fetch,
    shows_recovered_edit, shows_rolled_and_purged, shows_stopped_in_prepare,
};
