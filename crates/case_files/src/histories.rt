//! What nodes have listed, as steps at a node.
use crate::asking::told_by;
use crate::words::word_and_rest;
use base_words::put_decimal;
use journal_core::Node;
use journal_history::{LentAsk, ListedLine, NodeAnswer};
use journal_text::{print_reply, print_request};
use std::alloc::{AllocError, Global};

// Puts the step that a line says: `ask REQUEST`, `stop EFFECTS REQUEST`, `kill`, `restart` or
// `arm`.
fn put_step(line: &ListedLine, text: &mut Vec<u8>) -> Result<(), AllocError> {
    let plain = NodeAnswer::OK;
    let lent = line.lend(&plain);
    match lent.ask {
        LentAsk::Act { request, .. } => {
            put_front(lent.answer, text)?;
            print_request(request.get(), text)
        }
        LentAsk::Kill => text.extend_from_slice(b"kill"),
        LentAsk::Restart => text.extend_from_slice(b"restart"),
        LentAsk::Arm { .. } => text.extend_from_slice(b"arm"),
    }
}

// Puts what stands before the request of a step that was answered so.
fn put_front(answer: &NodeAnswer, text: &mut Vec<u8>) -> Result<(), AllocError> {
    if let NodeAnswer::Stopped { keep } = answer {
        put_count(b"stop ", *keep, text)?;
    } else {
        text.extend_from_slice(b"ask")?;
    }
    text.push(b' ')?;
    Ok(())
}

fn put_count(word: &[u8], count: u64, text: &mut Vec<u8>) -> Result<(), AllocError> {
    text.extend_from_slice(word)?;
    put_decimal(text, count)
}

fn step_of(alloc: Global, line: &ListedLine) -> Result<String, AllocError> {
    let mut text = Vec::new(alloc);
    put_step(line, &mut text)?;
    String::from_utf8_lossy(alloc, &text)
}

// Puts what a node that listed the line answered; of a kill or a restart, whether it took place.
fn put_answer(line: &ListedLine, text: &mut Vec<u8>) -> Result<(), AllocError> {
    let plain = NodeAnswer::OK;
    match line.lend(&plain).answer {
        NodeAnswer::Replied(reply) => print_reply(reply, text),
        NodeAnswer::Stopped { keep } => put_count(b"did ", *keep, text),
        NodeAnswer::Done => text.extend_from_slice(b"done"),
        NodeAnswer::Idle => text.extend_from_slice(b"idle"),
        NodeAnswer::NotOpened(_) => text.extend_from_slice(b"not opened"),
    }
}

fn answer_of(alloc: Global, line: &ListedLine) -> Result<String, AllocError> {
    let mut text = Vec::new(alloc);
    put_answer(line, &mut text)?;
    String::from_utf8_lossy(alloc, &text)
}

// What a step at a node came to, as a line of a history tells it.
fn drive_line<N: Node>(alloc: Global, node: &mut N, step: &str) -> anyhow::Result<String> {
    let (word, rest) = word_and_rest(step);
    if word == "arm" {
        return Ok(String::from_str(alloc, "done")?);
    }
    let told = told_by(alloc, node, word, rest)?;
    Ok(match told.as_str() {
        "up" | "down" => String::from_str(alloc, "done")?,
        "was up" | "was down" => String::from_str(alloc, "idle")?,
        _ => told,
    })
}

// Tells a step and what it came to, and what was listed, where that is something else.
fn tell_step(step: &str, seen: &str, listed: &str, told: &mut String) -> Result<(), AllocError> {
    writeln!(told, "{step}: {seen}")?;
    if listed != seen {
        writeln!(told, "  but {listed} was listed")?;
    }
    Ok(())
}

/// A node takes what another listed, line by line, as texts, which are told with its answers. What
/// was listed is told too where the node answers otherwise. An `Err` is lack of memory.
pub fn drive<N: Node>(
    alloc: Global,
    node: &mut N,
    history: &[ListedLine],
    told: &mut String,
) -> anyhow::Result<()> {
    for line in history {
        let step = step_of(alloc, line)?;
        let seen = drive_line(alloc, node, &step)?;
        let listed = answer_of(alloc, line)?;
        tell_step(&step, &seen, &listed, told)?;
    }
    Ok(())
}
