//! The parts of agreement.

/// What two lists have to keep to agree, in the order in which it is judged.
#[derive(Clone, Copy)]
pub enum Part {
    /// There is a history for each node, and a record for each actor and the operator.
    Sizes,
    /// The records speak of the nodes that are there.
    Nodes,
    /// The histories speak of the callers that are there.
    Callers,
    /// The operator's record has what an operator does, and nothing else.
    Operator,
    /// Each history is what one node answers from its beginning on.
    Histories,
    /// Of each node and each caller both list the same, each once and in order.
    Calls,
    /// Calls are dropped, muted and copied as the plan marks them.
    Marks,
    /// Each actor's calls are those of some tasks and tails.
    Rounds,
}
