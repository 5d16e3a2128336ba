//! The lines of a case.
use crate::case::{Case, DiskBefore, LostCalls, NamedFile};
use crate::hold::{Called, Hold};
use anyhow::bail;
use case_files::{
    CaseText, bytes_of, choice_of, number_and_rest, put_input, two_words, word_and_rest,
};
use std::alloc::{AllocError, Global};
use std::fs;
use std::fs::Files;

impl Case {
    /// Takes the lines of a case. An `Err` has the place of the first that is none.
    pub fn take_lines<R: Files + AllocGlobal>(
        &mut self,
        rt: &R,
        text: &CaseText,
    ) -> anyhow::Result<()> {
        for line in &text.lines {
            let taken = self.take_line(rt, &line.text);
            text.at_line(line, taken)?;
        }
        Ok(())
    }

    fn take_line<R: Files + AllocGlobal>(&mut self, rt: &R, line: &str) -> anyhow::Result<()> {
        if self.take_flag(line) {
            return Ok(());
        }
        let (key, rest) = word_and_rest(line);
        match key {
            "words" => put_words(rt.alloc(), &mut self.words, rest)?,
            "word" => self.words.push(rest.to_string(rt.alloc())?)?,
            "room" => self.room = rest.parse()?,
            "lost" => self.lost.take(rest)?,
            "stop" => self.stop = Some(rest.parse()?),
            "hold" => self.hold = Some(hold_of(rest)?),
            "crash" => self.before = DiskBefore::Crashed(choice_of(rest)?),
            "file" => self.files.push(file_of_bytes(rt.alloc(), rest)?)?,
            "text" => self.files.push(file_of_text(rt.alloc(), rest)?)?,
            "more" => put_more(rt.alloc(), &mut self.files, rest)?,
            "script" => self.input = fs::read(rt, rest)?,
            _ => put_piece(rt.alloc(), &mut self.input, key, rest)?,
        }
        Ok(())
    }

    /// Takes a line of one word, if it is one.
    fn take_flag(&mut self, line: &str) -> bool {
        match line {
            "again" => self.before = DiskBefore::Kept,
            "alone" => self.is_alone = true,
            "files" => self.tells_files = true,
            "nodes" => self.tells_nodes = true,
            "passes" => self.tells_passes = true,
            "digits" => self.tells_digits = true,
            _ => return false,
        }
        true
    }
}

impl LostCalls {
    fn take(&mut self, text: &str) -> anyhow::Result<()> {
        let (end, number) = two_words(text)?;
        let calls = match end {
            "read" => &mut self.reads,
            "write" => &mut self.writes,
            "disk" => &mut self.disk,
            _ => bail!("nothing that has calls: {end}"),
        };
        calls.push(number.parse()?)?;
        Ok(())
    }
}

/// `CALLER NODE`, and what comes behind them.
fn called_of(text: &str) -> anyhow::Result<(Called, &str)> {
    let (caller, rest) = two_words(text)?;
    let (node, rest) = number_and_rest(rest)?;
    let called = Called {
        caller: caller.parse()?,
        node: node as usize,
    };
    Ok((called, rest))
}

/// `CALLER NODE CALLER NODE COUNT`.
fn hold_of(text: &str) -> anyhow::Result<Hold> {
    let (held, rest) = called_of(text)?;
    let (until, count) = called_of(rest)?;
    Ok(Hold {
        held,
        until,
        count: count.parse()?,
    })
}

fn put_words(alloc: Global, words: &mut Vec<String>, text: &str) -> Result<(), AllocError> {
    for word in text.split(' ') {
        words.push(word.to_string(alloc)?)?;
    }
    Ok(())
}

fn file_of_bytes(alloc: Global, text: &str) -> anyhow::Result<NamedFile> {
    let (name, digits) = word_and_rest(text);
    Ok(NamedFile {
        name: name.to_string(alloc)?,
        bytes: bytes_of(alloc, digits)?,
    })
}

fn file_of_text(alloc: Global, text: &str) -> anyhow::Result<NamedFile> {
    let (name, line) = two_words(text)?;
    let mut bytes = line.as_bytes().to_vec(alloc)?;
    bytes.push(b'\n')?;
    Ok(NamedFile {
        name: name.to_string(alloc)?,
        bytes,
    })
}

/// Puts bytes so many times behind those of the last file.
fn put_more(alloc: Global, files: &mut Vec<NamedFile>, text: &str) -> anyhow::Result<()> {
    let (count, digits) = two_words(text)?;
    let count: u64 = count.parse()?;
    let piece = bytes_of(alloc, digits)?;
    let Some(file) = files.last_mut() else {
        bail!("no file before");
    };
    for _ in 0..count {
        file.bytes.extend_from_slice(&piece)?;
    }
    Ok(())
}

/// Puts a piece of the input, of the kind that the key says.
fn put_piece(alloc: Global, input: &mut Vec<u8>, key: &str, rest: &str) -> anyhow::Result<()> {
    if put_input(alloc, input, key, rest)? {
        return Ok(());
    }
    match key {
        "lines" => {
            let (count, text) = two_words(rest)?;
            put_times(input, count.parse()?, text, "\n")?;
        }
        "times" => {
            let (count, text) = two_words(rest)?;
            put_times(input, count.parse()?, text, "")?;
        }
        _ => bail!("no line of a case: {key}"),
    }
    Ok(())
}

/// Puts the text and its end so many times.
fn put_times(input: &mut Vec<u8>, count: u64, text: &str, end: &str) -> Result<(), AllocError> {
    for _ in 0..count {
        input.extend_from_slice(text.as_bytes())?;
        input.extend_from_slice(end.as_bytes())?;
    }
    Ok(())
}
