//! Runs of the journal world: what can happen in it, what a run is, why every run is safe and what
//! else it keeps, and how callers that go on by the writer's rounds make one.
#![tactic(auto)]

mod event;
pub mod examples;
pub mod laws;

pub use event::{Event, Fate};
