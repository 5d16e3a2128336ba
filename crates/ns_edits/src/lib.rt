//! Which edits a namespace admits, what they do to it, and the replay of a log.
#![tactic(auto)]

mod admitting;
mod applying;
mod entry_error;
mod examples;
mod laws;
mod refusal;
mod replayed;
mod replaying;

pub use admitting::admit;
pub use applying::apply;
pub use examples::{a_known_log_replays, calls_are_noted, every_kind_replays};
pub use laws::{
    calls_are_apart, entries_stay_sound, only_records_decode, records_decode, replay_is_one,
    replay_splits, spaces_stay_sound,
};
pub use refusal::AdmitRefusal;
pub use replayed::Replayed;
pub use replaying::replay;
