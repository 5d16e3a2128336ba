//! The rules of a report.
ghost use Rattle.std.specs.Prelude.{◌≡◌};
ghost use Rattle.report_judge.specs.Reads.{IsRule};
ghost use Rattle.report_judge.specs.Complete.{rule_number};

/// A rule of a report, which a line may break.
#[derive(Clone, Copy)]
pub(crate) enum Rule {
    /// The first line is `nodes N`, N from 1 to 15.
    FirstLine,
    /// Node by node stands `node K`, K from 1 to N, before the node's history.
    NodeLine,
    /// A line of a history is a caller, a request or an order, an arrow and the answer.
    HistoryLine,
    /// An actor has a name, which no actor before it has, and there are at most eight.
    ActorLine,
    /// A line of a record is a node, a request or an order, an arrow and what came of it, or a
    /// result.
    RecordLine,
    /// A position is a number.
    PositionLine,
    /// A row has 12 columns, between tabs.
    RowLine,
    /// The last line is `end`.
    LastLine,
    /// The lists that were read are printed so.
    Spelling,
}

impl Rule {
    /// Its number, from 1 to 9.
    pub(crate) fn number(self) -> u64
        ensures rule { IsRule result }
        ensures number { result ≡ rule_number self }
    {
        match self {
            Rule::FirstLine => 1,
            Rule::NodeLine => 2,
            Rule::HistoryLine => 3,
            Rule::ActorLine => 4,
            Rule::RecordLine => 5,
            Rule::PositionLine => 6,
            Rule::RowLine => 7,
            Rule::LastLine => 8,
            Rule::Spelling => 9,
        }
    }
}
