//! A session at a node: request lines come in, and each is answered with its reply line.
#![tactic(auto)]

mod answered;
mod answering;
mod line_reader;
mod more;
mod next;
mod served;
mod serving;
mod session_node;
mod worked;

pub use line_reader::{LONGEST_INPUT, LONGEST_LINE, LineReader};
pub use next::Next;
pub use served::Served;
pub use serving::serve;
pub use session_node::SessionNode;
pub use worked::{two_lines_are_all, two_lines_are_answered};
