//! How a request is decided, once, as data, from a node's numbers and an index of its segments; a
//! node in memory, which applies what was decided.
#![tactic(auto)]

mod answering;
mod applying;
mod batches;
mod budget;
mod costs;
mod cutting;
mod deciding;
mod decision;
mod durable_effect;
mod following;
mod list_index;
mod numbers;
mod plain_node;
mod segment_index;
mod serving;
mod stopping;

pub use answering::step;
pub use applying::apply_effect;
pub use batches::batch_in;
pub use budget::Budget;
pub use costs::{EffectCost, effect_cost, name_cost, number_cost};
pub use cutting::effects_standing;
pub use deciding::decide;
pub use decision::Decision;
pub use durable_effect::DurableEffect;
pub use following::follow;
pub use list_index::entry_of;
pub use plain_node::PlainNode;
pub use segment_index::{IndexedSegment, SegmentIndex, is_old};
pub use stopping::stop;
