//! A name node in a process of its own: the lines of its input are taken one by one, over pipes to
//! the nodes, and their results written as soon as they are known.
#![tactic(auto)]

mod answer;
mod inputs;
mod laws;
mod lead_end;
mod lead_state;
mod leading;
mod line_text;
mod results;

pub use answer::Answer;
pub use laws::edits_fit;
pub use lead_end::LeadEnd;
pub use lead_state::{LeadState, StatedActor};
pub use leading::{lead, lead_lines};
