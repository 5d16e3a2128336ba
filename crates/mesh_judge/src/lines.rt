//! Whether the lines of a list are of the mesh's nodes and callers, and whether the operator
//! operates.
ghost use Rattle.std.specs.Prelude.{◌≡◌, Decides, [], ◌∷◌};
ghost use Rattle.journal_history.specs.Listed.{shown_ask};
ghost use Rattle.mesh.specs.Matches.{IsWithin, AreWithin, CallersWithin};
ghost use Rattle.mesh.specs.Makers.{IsOperation, IsOperators};

use journal_history::{LentAsk, LentRecord, ListedLine, ListedRecord, Told};

/// The line is of one of that many nodes, or of none.
fn is_within(nodes: usize, line: &ListedRecord) -> bool
    ensures { Decides result (IsWithin nodes line.now) }
{
    match line.lend(&Told::OK) {
        LentRecord::Call { node, .. }
        | LentRecord::Late { node, .. }
        | LentRecord::Operator { node, .. } => 1 <= node && node <= nodes,
        LentRecord::Outcome { .. } => true,
    }
}

/// Each line of a record is of one of that many nodes, or of none.
pub fn are_within(nodes: usize, lines: &[ListedRecord]) -> bool
    ensures { Decides result (AreWithin nodes lines.now) }
{
    for line in lines {
        if !is_within(nodes, line) {
            return false;
        }
    }
    true
}

/// Each line of a history is of a caller up to this one.
pub(crate) fn callers_within(callers: usize, lines: &[ListedLine]) -> bool
    ensures { Decides result (CallersWithin callers lines.now) }
{
    for line in lines {
        if line.caller() as usize > callers {
            return false;
        }
    }
    true
}

/// It is a kill, a restart or an arming.
fn is_operation(ask: LentAsk<'_>) -> bool
    ensures { Decides result (IsOperation (shown_ask ask.entry)) }
{
    match ask {
        LentAsk::Act { .. } => false,
        LentAsk::Kill | LentAsk::Restart | LentAsk::Arm { .. } => true,
    }
}

/// The line is one of an operator.
#[tactic(auto, unfolding(mesh::specs::Makers::IsOperators))]
fn is_operators(line: &ListedRecord) -> bool
    ensures { Decides result (IsOperators (line.now ∷ [])) }
{
    match line.lend(&Told::OK) {
        LentRecord::Operator { ask, .. } => is_operation(ask),
        LentRecord::Call { .. } | LentRecord::Late { .. } | LentRecord::Outcome { .. } => false,
    }
}

/// Each line of a record is one of an operator.
pub fn are_operators(lines: &[ListedRecord]) -> bool
    ensures { Decides result (IsOperators lines.now) }
{
    for line in lines {
        if !is_operators(line) {
            return false;
        }
    }
    true
}
