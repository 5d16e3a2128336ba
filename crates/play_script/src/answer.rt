//! What the reader answers.
use crate::script::Script;

/// What the reader answers.
#[derive(Drop)]
pub enum ReadScript {
    /// The script that the bytes are.
    Script(Script),
    /// The first line that breaks a rule, from 1, and the rule.
    BadScript { line: u64, rule: u32 },
    /// Out of memory.
    OutOfMemory,
}
