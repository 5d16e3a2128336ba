//! The top call of the program: words and the bytes of a script or of a report, a file of a disk, or
//! requests to a node come in; a report, a summary, what a mirror holds, what a standby comes to, a
//! judgement, states, a listing, a segment, replies or a fault line go out.
#![tactic(auto)]

mod booting;
mod buffer;
mod generating;
mod judging;
mod laws;
mod mirroring;
mod piping;
mod playing;
mod plays;
mod telling;
mod top;
mod written;

pub use laws::{
    files_have_one_listing, numbers_have_one_summary, reports_show_no_fault, scripts_have_one_boot,
    scripts_have_one_mirror, scripts_have_one_report,
};
pub use plays::{play_soundly, run_soundly};
pub use top::{qjm, qjm_alone};
