//! The cases of files are read.
use crate::case_text::{CaseLine, CaseText};
use anyhow::{Context, bail, ensure};
use std::alloc::Global;
use std::fs::Files;
use std::rt::Env;
use std::{env, fs};

/// The cases that were read so far.
#[derive(Drop)]
struct CaseReader {
    cases: Vec<CaseText>,
    /// Whether the next line may belong to the last of them.
    is_open: bool,
}

impl CaseReader {
    /// Takes the lines of a file.
    fn take_file(&mut self, alloc: Global, file: &str, text: &str) -> anyhow::Result<()> {
        self.is_open = false;
        for (place, line) in text.lines().enumerate() {
            let number = place.saturating_add(1);
            self.take_line(alloc, file, number, line)
                .context(format_args!("{file}, line {number}"))?;
        }
        Ok(())
    }

    /// Takes a line of this number.
    fn take_line(
        &mut self,
        alloc: Global,
        file: &str,
        number: usize,
        line: &str,
    ) -> anyhow::Result<()> {
        if line.is_empty() {
            self.is_open = false;
            return Ok(());
        }
        if line.starts_with('#') {
            return Ok(());
        }
        if !self.is_open {
            return self.begin(alloc, file, line);
        }
        if let Some(case) = self.cases.last_mut() {
            let text = line.to_string(alloc)?;
            case.lines.push(CaseLine { number, text })?;
        }
        Ok(())
    }

    /// Begins the case of a first line.
    fn begin(&mut self, alloc: Global, file: &str, line: &str) -> anyhow::Result<()> {
        let Some(title) = line.strip_prefix("case ") else {
            bail!("a case begins with its title");
        };
        let is_taken = self.cases.iter().any(|case| case.title.as_str() == title);
        ensure!(!is_taken, "a case before has that title");
        self.cases.push(CaseText {
            file: file.to_string(alloc)?,
            title: title.to_string(alloc)?,
            lines: Vec::new(alloc),
        })?;
        self.is_open = true;
        Ok(())
    }
}

/// The cases of the files that the program's words name, in order.
///
/// An `Err` says that a word isn't UTF-8, that a file can't be read or isn't UTF-8, or that memory
/// ran out. Or it tells the file and the number of a line: a case begins there without its title,
/// or with the title of a case before.
pub fn read_cases<R: Env + Files + AllocGlobal>(rt: &R) -> anyhow::Result<Vec<CaseText>> {
    let mut reader = CaseReader {
        cases: Vec::new(rt.alloc()),
        is_open: false,
    };
    for file in env::args(rt)?.skip(1) {
        let text = fs::read_to_string(rt, &file).context(format_args!("reading {file}"))?;
        reader.take_file(rt.alloc(), &file, &text)?;
    }
    Ok(reader.cases)
}
