//! What a report is judged.
use base_words::Name;
use mesh_judge::Part;

/// Where lists don't agree.
#[derive(Drop)]
pub struct Finding {
    /// The first part of agreement that they break.
    pub part: Part,
    /// The words that the report has above the first list that breaks it, as `node 2`.
    pub list: Name,
    /// The line of the report, from 1, with which this list breaks it.
    pub line: u64,
}

/// What it is judged.
#[derive(Drop)]
pub enum Judgement {
    /// It is the report of lists that agree.
    Agrees,
    /// It is the report of lists that don't agree.
    Disagrees(Finding),
    /// It is no report: this line, from 1, breaks this rule.
    Bad { line: u64, rule: u64 },
}
