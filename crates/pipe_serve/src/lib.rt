//! A node in a process of its own: a session of tagged lines for each client, a thread each, at one
//! node behind a gate. Laws: how the numbers of a life's calls go with the lines that a node takes.
#![tactic(auto)]

mod byte_examples;
mod call_count;
mod client_cell;
mod client_pipes;
mod clients;
mod ending;
mod laws;
mod origin;
mod ports;
mod seat_node;
mod served;
mod served_node;
mod session;
mod session_end;
mod shared;

pub use byte_examples::{a_line_behind_a_cut_one, bytes_are_kept};
pub use client_pipes::ClientPipes;
pub use clients::serve_clients;
pub use laws::{
    bytes_keep_order, calls_are_numbered, calls_write_lines, ends_tell_bytes, lines_keep_order,
    sessions_keep_order, sessions_take_lines, uses_are_lives,
};
pub use ports::Ports;
pub use served::{ServeEnd, Served};
pub use session::serve_session;
pub use session_end::SessionEnd;
