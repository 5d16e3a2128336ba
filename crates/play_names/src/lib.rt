//! What a name node holds beside its writer, and the result lines that an actor lists.
#![tactic(auto)]

mod edit_due;
mod name_results;
mod tailed;
mod task_results;
mod worked_holdings;

pub use edit_due::EditDue;
pub use name_results::{
    behind_text, logged_results, lost_results, one_number, one_word, tail_results,
};
pub use tailed::Tailed;
pub use task_results::{
    aborted_text, bytes_of, inactive_texts, no_call, numbered_text, numbered_text_in,
    numbered_twice, once, push_causes, repeat_text, results, text_room, too_long,
};
pub use worked_holdings::{a_tail_catches_up, edits_are_told_apart, images_are_kept};
