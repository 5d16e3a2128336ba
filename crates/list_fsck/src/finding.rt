//! What is told of a file that breaks a rule.
use crate::rule::Rule;

/// The first rule that a file breaks, and the two numbers that are told of it.
#[derive(Clone, Copy)]
pub struct Finding {
    pub rule: Rule,
    pub first: u64,
    pub second: u64,
}
