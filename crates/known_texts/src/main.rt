//! Known texts: each case of the files that are named is asked, and its answers are printed.
//!
//! `case_files` has the form of a case. These lines make the input of one:
//!
//! - `| TEXT` adds a line, and `- TEXT` adds text without a line's end.
//! - `x HEX ..` adds bytes, and `times COUNT HEX` adds bytes so many times.
//!
//! `kind KIND ..` says of which kinds the questions after it are (`kind.rt` has them). These lines
//! are questions:
//!
//! - `ask TEXT` asks the input with the text after it, and `line TEXT` with a line after it.
//! - `more HEX ..` asks the input with bytes after it, and `with PLACE HEX` with other bytes at a
//!   place.
//! - `cut FROM TO` asks, of each count from the first number up to below the second, so many bytes
//!   of the input.
//!
//! The name of a case is printed, and of each question its line and the answer of each kind.
//!
//! A case that names no kind is one of steps at a bench: it begins with a disk of no files, no
//! node, and a fresh node in memory beside it. Its name is printed, of each step `STEP: ` and what
//! it came to, and an empty line.
//!
//! Both nodes take these steps; what the node in memory tells is told where it differs:
//!
//! - `open` opens a node on the disk, and the node in memory comes up.
//! - `ask LINE`, `kill`, `restart`, and `stop N LINE`, after the first N effects of the request.
//! - `cut D CHOICE LINE`: after D disk calls of the request the disk crashes, and is opened again.
//!   How many effects stand in memory is told.
//! - `close` gives the disk back, and `crash CHOICE` has it crash too. CHOICE is `old`, `new`, or a
//!   byte in two hexadecimal digits.
//! - `fail at N ..` and `fail after N`: these disk calls from now on fail, or all after so many.
//!   From then on, and once a file was changed, the node in memory is asked no more.
//!
//! Calls of the disk, while no node has it:
//!
//! - `write NAME AT HEX`, `shorten NAME LENGTH`, `sync NAME`, `rename FROM TO`, `remove NAME`.
//! - `length NAME`, `read NAME AT ROOM`, `names`, and `files`, which tells the bytes of all.
//! - `opens` tells what the files open as: the promise, the writer's epoch, the committed txid, and
//!   of each segment what it is, its start, its end, its epoch and how many bytes of its file are
//!   whole.
//!
//! Calls for images on that disk: `save TXID HEX`, `load TXID`, `newest 0`, `keep COUNT`, which
//! removes all but so many of the newest; `least EXTRA`, the first txid that the log keeps then,
//! with so many more; `store HEX` and `restore TXID`, by a namespace; and `checkpoint TXID` of a
//! standby there.
//!
//! `random SEED COUNT` does that many random steps, most of them such that a node does them.
//!
//! These look, and change nothing, since each is done at a copy that takes the steps before it
//! anew:
//!
//! - `same`: both nodes answer all questions alike.
//! - `at each call LINE`: so they do where the request is cut after each number of its disk calls,
//!   by each choice.
//! - `fails at each call LINE`: and where each of its calls fails, before a crash by each choice
//!   and without one.
//! - `left at each call LINE`: what the files open as after such a cut, and how many there are
//!   then, where that differs from what was told last.
//! - `stopped at each call STEP; THEN; ..` and `failing at each call STEP; THEN; ..`: what a step
//!   at the disk and the steps after it come to where it ends after each number of its calls and a
//!   crash by each choice, or each of its calls fails, where that differs from what was told last.
//! - `opening at each call`: files open as ever after an opening that was stopped or in which a
//!   call failed.
//!
//! A line that is none of these ends the program, with its place.
#![tactic(auto)]

mod backs;
mod bench;
mod case;
mod cuts;
mod disk_calls;
mod each;
mod edits;
mod files;
mod image_calls;
mod kind;
mod looks;
mod names;
mod openings;
mod random;
mod sessions;
mod shown;
mod steps;
mod stops;
mod texts;
mod worlds;
mod writers;

use crate::case::answer_case;
use crate::steps::Benches;
use case_files::{CaseText, read_cases};
use std::alloc::Global;
use std::io;
use std::io::Write;

// Appends the answers of all cases.
fn answer_all(
    alloc: Global,
    cases: &[CaseText],
    benches: &mut Benches,
    out: &mut Vec<u8>,
) -> anyhow::Result<()> {
    for case in cases {
        if case.lines.iter().any(|line| line.text.starts_with("kind ")) {
            answer_case(alloc, case, out)?;
        } else {
            benches.do_case(case, out)?;
        }
    }
    Ok(())
}

fn main(rt: HostRuntime) -> anyhow::Result<()> {
    let cases = read_cases(&rt)?;
    let mut benches = Benches::new(rt.alloc());
    let mut answers = Vec::new(rt.alloc());
    let answered = answer_all(rt.alloc(), &cases, &mut benches, &mut answers);
    drop(benches);
    answered?;
    io::writer(&rt).write_all(&answers)?;
    Ok(())
}
