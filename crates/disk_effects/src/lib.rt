//! What a request does to a node of the journal, from what it has in memory and a table of its
//! segments: its refusal and its durable effects, what they leave in the table, and its reply.
#![tactic(auto)]

mod applying;
mod effect_list;
mod laws;
mod memory;
mod plan;
mod planning;
mod replies;
mod row_index;
mod serving;

pub use applying::apply;
pub use effect_list::EffectList;
pub use journal_step::follow;
pub use laws::{refused_is_its_front, step_is_in_parts};
pub use memory::note;
pub use plan::RequestPlan;
pub use planning::plan_request;
pub use replies::plain_reply;
pub use serving::{line_at, not_served, serving_row};
