//! A caller's wire to nodes that stand at the far ends of named pipes, opened as files; lines with
//! a tag and an end of their own, so that a line that is cut is none, nor is one that is glued to
//! what a cut one left; what the nodes and the name nodes of a cluster list agrees for some plan of
//! losses.
#![tactic(auto)]

mod dialer;
mod file_sink;
mod file_source;
mod laws;
mod line_laws;
mod line_room;
mod node_pipe;
mod node_pipes;
mod node_seat;
mod opener;
mod opening;
mod pipe_ends;
mod pipe_wire;
mod replies;
mod tagged_line;

pub use file_sink::FileSink;
pub use file_source::FileSource;
pub use laws::{
    a_cluster_agrees, a_cluster_is_safe, fronts_are_made, lives_are_local, lives_went, pipes_carry,
    pipes_go, processes_are_clusters, tags_carry,
};
pub use line_laws::{cut_lines_are_none, glued_lines_are_none, texts_are_plain};
pub use line_room::LineRoom;
pub use node_pipe::NodePipe;
pub use node_pipes::NodePipes;
pub use opener::Opener;
pub use opening::{open_to_answer, open_to_ask};
pub use pipe_wire::PipeWire;
pub use tagged_line::{TaggedLine, put_tagged, read_tagged};
