//! Segment files over a disk: each writing call is one durable effect, also after a crash; how
//! edits are read; the table of segments.
#![tactic(auto)]

mod accepting;
mod appending;
mod asked;
mod content;
mod creating;
mod discarding;
mod file_scan;
mod finalizing;
mod given;
pub mod laws;
mod names;
mod place;
mod reading;
mod ready_frame;
mod repeating;
mod scanning;
mod seal;
mod segment_row;
mod segment_table;
mod window_end;
pub mod worked;

pub use accepting::replace;
pub use appending::append;
pub use asked::Asked;
pub use creating::create;
pub use discarding::discard;
pub use file_scan::FileScan;
pub use finalizing::finalize;
pub use given::Given;
pub use names::progress_name;
pub use reading::read_from;
pub use ready_frame::ReadyFrame;
pub use repeating::replace_again;
pub use scanning::scan_file;
pub use seal::append_after_seal;
pub use segment_row::SegmentRow;
pub use segment_table::{RowRoom, SegmentTable};
