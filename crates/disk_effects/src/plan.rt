//! What is to be done for a request at a node.
use crate::effect_list::EffectList;
use journal_core::{NodeState, Refusal};

/// What is decided about a request that passes its front, before anything is done.
pub struct RequestPlan {
    /// The node's numbers as the front leaves them, without segments.
    pub front: NodeState,
    /// Why the request is refused after its front, if it is.
    pub refusal: Option<Refusal>,
    /// The durable effects, in order, that of the front first.
    pub effects: EffectList,
}

/// A plan is let go by one call wherever it is, which keeps proofs short.
impl Drop for RequestPlan {
    fn drop(self) {
        let RequestPlan {
            front,
            refusal: _,
            effects,
        } = self;
        drop(front);
        drop(effects);
    }
}
