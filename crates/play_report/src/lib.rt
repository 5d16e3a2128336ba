//! The report of a play, its summary, and what is told of a mirror of its nodes, or of a standby
//! that begins over them.
#![tactic(auto)]

mod asks;
mod booted;
mod counted;
mod entries;
mod examples;
mod expected;
mod lasts;
mod mirrored;
mod parts;
mod pieces;
mod replies;
mod report;
mod requests;
mod results;
mod rows;
mod summary;
mod taker;
mod tally;

pub use booted::{BootText, print_booted_behind, print_unreachable};
pub use counted::{LONGEST_REPORT, is_within_limit};
pub use examples::reports_are_as_written;
pub use mirrored::print_mirror;
pub use parts::caller_name;
pub use report::{ReportText, parting};
pub use summary::summary_of;
pub use taker::{Printable, Taker};
