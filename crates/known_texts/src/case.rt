//! One case: its input, and its questions.
use crate::kind::Kind;
use anyhow::bail;
use case_files::{CaseText, bytes_of, put_bytes, put_input, put_line, two_words, word_and_rest};
use std::alloc::Global;

/// What the lines of a case have said.
#[derive(Drop)]
struct Case {
    kinds: Vec<Kind>,
    input: Vec<u8>,
}

impl Case {
    fn new(alloc: Global) -> Case {
        Case {
            kinds: Vec::new(alloc),
            input: Vec::new(alloc),
        }
    }

    // Takes the lines after the first.
    fn take_lines(
        &mut self,
        alloc: Global,
        text: &CaseText,
        out: &mut Vec<u8>,
    ) -> anyhow::Result<()> {
        for line in &text.lines {
            let taken = self.take_line(alloc, &line.text, out);
            text.at_line(line, taken)?;
        }
        Ok(())
    }

    // Takes a line; the answer to a question comes at the end of `out`.
    fn take_line(&mut self, alloc: Global, line: &str, out: &mut Vec<u8>) -> anyhow::Result<()> {
        let (key, rest) = word_and_rest(line);
        if put_input(alloc, &mut self.input, key, rest)? {
            return Ok(());
        }
        match key {
            "kind" => self.set_kinds(rest),
            "times" => put_times(alloc, &mut self.input, rest),
            _ => {
                put_line(out, line)?;
                self.question(alloc, key, rest, out)
            }
        }
    }

    fn set_kinds(&mut self, words: &str) -> anyhow::Result<()> {
        self.kinds.clear();
        for word in words.split_whitespace() {
            let Some(kind) = Kind::of(word) else {
                bail!("no kind: {word}");
            };
            self.kinds.push(kind)?;
        }
        Ok(())
    }

    fn question(
        &self,
        alloc: Global,
        key: &str,
        rest: &str,
        out: &mut Vec<u8>,
    ) -> anyhow::Result<()> {
        let mut asked = self.input.to_vec(alloc)?;
        match key {
            "ask" => asked.extend_from_slice(rest.as_bytes())?,
            "line" => put_line(&mut asked, rest)?,
            "more" => put_bytes(alloc, &mut asked, rest)?,
            "with" => change(alloc, &mut asked, rest)?,
            "cut" => return self.cut(alloc, rest, out),
            _ => bail!("no line of a case"),
        }
        self.ask(alloc, &asked, out)
    }

    // Asks bytes.
    fn ask(&self, alloc: Global, asked: &[u8], out: &mut Vec<u8>) -> anyhow::Result<()> {
        if self.kinds.is_empty() {
            bail!("a question of no kind");
        }
        for kind in &self.kinds {
            kind.answer(alloc, asked, out)?;
            if !out.ends_with(b"\n") {
                out.push(b'\n')?;
            }
        }
        Ok(())
    }

    // Asks the first bytes, of each count that the two numbers say.
    fn cut(&self, alloc: Global, rest: &str, out: &mut Vec<u8>) -> anyhow::Result<()> {
        let (from, to) = two_words(rest)?;
        let from: usize = from.parse()?;
        let to: usize = to.parse()?;
        for count in from..to {
            let Some(front) = self.input.get(..count) else {
                bail!("the input isn't so long");
            };
            self.ask(alloc, front, out)?;
        }
        Ok(())
    }
}

/// Asks a case, and appends its first line and its answers.
pub fn answer_case(alloc: Global, text: &CaseText, out: &mut Vec<u8>) -> anyhow::Result<()> {
    out.extend_from_slice(b"case ")?;
    put_line(out, &text.title)?;
    let mut case = Case::new(alloc);
    let asked = case.take_lines(alloc, text, out);
    drop(case);
    asked
}

fn put_times(alloc: Global, out: &mut Vec<u8>, rest: &str) -> anyhow::Result<()> {
    let (count, word) = two_words(rest)?;
    let bytes = bytes_of(alloc, word)?;
    let count: u64 = count.parse()?;
    for _ in 0..count {
        out.extend_from_slice(&bytes)?;
    }
    Ok(())
}

// Puts other bytes at a place.
fn change(alloc: Global, asked: &mut Vec<u8>, rest: &str) -> anyhow::Result<()> {
    let (place, word) = two_words(rest)?;
    let at: usize = place.parse()?;
    for (row, byte) in bytes_of(alloc, word)?.iter().enumerate() {
        match asked.get_mut(at.saturating_add(row)) {
            Some(there) => *there = *byte,
            None => bail!("the input isn't so long"),
        }
    }
    Ok(())
}
