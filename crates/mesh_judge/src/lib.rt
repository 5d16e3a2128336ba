//! What is made of a mesh: its epoch order, as events, and whether it agrees.
#![tactic(auto)]

mod agreement;
mod caller;
mod counts;
mod equality;
mod lines;
mod local;
mod making;
mod marking;
mod matching;
mod moved;
mod ordering;
mod part;
mod plans;
mod ranking;
mod reached;
mod request_key;
mod uncalled;
mod won;

pub use agreement::{agrees, broken_part};
pub use lines::{are_operators, are_within};
pub use local::is_local_run;
pub use making::is_of_chores;
pub use matching::{Unlike, unlike_line};
pub use moved::moves;
pub use ordering::order_events;
pub use part::Part;
pub use plans::{any_marks_tell_calls, marks_told};
pub use reached::{Reach, ReachList, is_muted, node_reached, reached_by_node};
pub use uncalled::uncalled_line;
