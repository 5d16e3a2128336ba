//! What a line is read as.
use crate::script_line::ScriptLine;

/// A line that says something, after the first.
#[derive(Drop)]
pub enum LineRead {
    /// It breaks this rule.
    Broken { rule: u32 },
    /// It says this.
    Says(ScriptLine),
}
