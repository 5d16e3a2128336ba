//! What a worker is asked.
use crate::queue::Item;
use journal_core::{Heard, OutOfMemory, SharedRequest};

/// What a worker is asked.
#[derive(Drop)]
pub enum Ask {
    /// To make this call.
    Call(SharedRequest),
    /// To end; the last of all.
    Close,
}

/// It has no receipt, and may stand anywhere.
impl Item for Ask {
    ghost stands = { λ source k ask. Unit {0} };
}

/// What is answered to a call.
pub type Answer = Result<Heard, OutOfMemory>;
