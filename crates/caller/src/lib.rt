//! One caller of the nodes of a journal: what it lists of its calls, over a wire that leads to the
//! nodes.
#![tactic(auto)]

mod caller;
mod wire;

pub use caller::Caller;
pub use wire::{CopyWire, OperatedWire, Wire, WireModel};
