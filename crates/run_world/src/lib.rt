//! The journal world, event by event: nodes with their armings, actors with their writers; its
//! steps are a run, and a takeover that one majority serves is taken.
#![tactic(auto)]

mod actor;
pub mod examples;
pub mod laws;
mod seen;
mod world;

pub use seen::Seen;
pub use world::World;
