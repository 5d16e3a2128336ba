//! How a line of the input is answered.
use crate::lead_state::LeadState;

/// How a line of the input is answered.
#[derive(Clone, Copy)]
pub enum Answer {
    /// By the results that were listed of it.
    Results,
    /// By nothing: it is empty, or a comment.
    Nothing,
    /// By the rule that it breaks.
    Broken { rule: u32 },
    /// By what the name node is.
    State { state: LeadState },
}
