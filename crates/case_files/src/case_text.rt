//! A case as its file has it.
use anyhow::Context;

/// A line of a case.
pub struct CaseLine {
    /// Its number in its file, from 1 on.
    pub number: usize,
    /// What it says, without its end.
    pub text: String,
}

impl Drop for CaseLine {
    fn drop(self) {
        let CaseLine { number: _, text } = self;
        drop(text);
    }
}

/// A case: what stands from its title to the next empty line.
pub struct CaseText {
    /// The name of its file.
    pub file: String,
    /// What its first line has after `case `. No other case has it.
    pub title: String,
    /// The lines after the first, without remarks. None is empty.
    pub lines: Vec<CaseLine>,
}

impl Drop for CaseText {
    fn drop(self) {
        let CaseText { file, title, lines } = self;
        drop(file);
        drop(title);
        drop(lines);
    }
}

impl CaseText {
    /// What a line of the case came to: an `Err` is that of `taken`, with the file and the line's
    /// number before it.
    pub fn at_line(&self, line: &CaseLine, taken: anyhow::Result<()>) -> anyhow::Result<()> {
        taken.context(format_args!("{}, line {}", self.file, line.number))
    }
}
