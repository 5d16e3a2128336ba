//! A caller's pipes to nodes, on which no wait is without end: threads of their own open them, read
//! and write, and the caller waits for the replies of a round until its time is over.
#![tactic(auto)]

mod bells;
mod board;
mod carriers;
mod folder_ends;
mod lane;
mod lanes;
mod node_ends;
mod patient_pipes;
mod patient_reader;
mod patient_writer;
mod round;

pub use folder_ends::FolderEnds;
pub use node_ends::NodeEnds;
pub use patient_pipes::PatientPipes;
pub use patient_reader::PatientReader;
pub use patient_writer::PatientWriter;
