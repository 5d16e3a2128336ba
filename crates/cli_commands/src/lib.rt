//! The commands: their words, what those on files and the one that serves a node do, and how the
//! program ends.
#![tactic(auto)]

mod command;
mod command_fault;
mod crash_examples;
mod exit;
mod folder_examples;
mod found;
mod fsck_command;
mod laws;
mod list_command;
mod node_command;
mod served_node;
mod starting;
mod status;
mod tool;
mod tool_words;
mod writing;

pub use command::{Command, asks_piped, read_command};
pub use command_fault::{CommandFault, Line, file_line, line_for, status_for};
pub use crash_examples::{crashes_in_two_lines, next_lines_are_after};
pub use exit::Exit;
pub use folder_examples::no_segment_is_invented;
pub use found::{Found, LONGEST_FILE, find};
pub use fsck_command::check_files;
pub use laws::{one_folder_one_state, usage_is_of_first_wrong_word};
pub use list_command::list_file;
pub use node_command::serve_node;
pub use starting::{asks_for_node, refuse_folder, refuse_words};
pub use status::Status;
pub use tool::{ImageTool, SegmentTool, Tool};
pub use writing::{write_due, write_fault, write_line, write_text};
