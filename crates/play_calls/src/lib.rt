//! What a caller lists of its calls to the nodes, and the marks of those that are lost or copied.
#![tactic(auto)]

mod caller_log;
mod calls_to;
mod delivery;
mod telling;

pub use caller_log::CallerLog;
pub use delivery::Delivery;
pub use telling::{heard_of, is_done, told_of};
