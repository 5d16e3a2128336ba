//! Frames of batches in a segment file, and the bytes of a whole segment file.
#![tactic(auto)]

mod checked;
mod checking;
mod entries;
mod entry;
mod frame_cause;
mod framed;
mod framing;
mod header;
mod laws;
mod rules;
mod scanned;
mod scanning;
mod worked;

pub use checked::Checked;
pub use checking::check_frame;
pub use entries::Entries;
pub use entry::Entry;
pub use frame_cause::FrameCause;
pub use framed::Framed;
pub use framing::frame_after;
pub use header::{HEADER_LENGTH, Header, header_of, put_header, read_header};
pub use laws::{
    bytes_have_one_answer, frame_is_read_back, frames_go_on, segments_go_on,
    segments_have_one_answer,
};
pub use rules::SEAL;
pub use scanned::{Scan, Scanned};
pub use scanning::{scan, scan_window};
pub use worked::{
    a_cut_frame_is_short, an_open_frame_counts, known_bytes_are_spelled, rules_are_broken,
};
