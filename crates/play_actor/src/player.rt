//! An actor of a play.

use journal_core::Name;
use play_calls::CallerLog;

/// An actor: its name, what it does, and what it lists of its calls.
#[derive(Drop)]
pub(crate) struct Player<A> {
    pub(crate) name: Name,
    pub(crate) actor: A,
    pub(crate) log: CallerLog,
}
