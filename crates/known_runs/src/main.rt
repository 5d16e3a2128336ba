//! Known runs: each case of the files that the arguments name is done by the program's top call
//! over memory, in order, and told on the standard output: its title, what it wrote, its status,
//! and what it asks for. `docs/CASES.md` has the lines of a case. A line that is none of these ends
//! the program with its place and a word about it.
#![tactic(auto)]

mod case;
mod case_line;
mod counted_pass;
mod doing;
mod hold;
mod left;
mod telling;

use crate::case::Case;
use crate::doing::do_case;
use crate::telling::tell;
use base_disk::MemDisk;
use case_files::{CaseText, read_cases};
use std::fs::Files;
use std::sync::Wait;
use std::thread::Threads;

/// Does the run of a case, and tells what it came to. The case says nothing yet.
fn answer<R: Files + Print + Threads + Wait + Sync + AllocGlobal>(
    rt: &R,
    text: &CaseText,
    case: &mut Case,
    disk: &mut MemDisk,
) -> anyhow::Result<()> {
    case.take_lines(rt, text)?;
    println!(rt; "case {}", text.title)?;
    let done = do_case(rt, rt.alloc(), case, disk)?;
    tell(rt, case, &done, disk)
}

fn main(rt: HostRuntime) -> anyhow::Result<()> {
    let texts = read_cases(&rt)?;
    let mut disk = MemDisk::new(rt.alloc());
    for text in &texts {
        let mut case = Case::new(rt.alloc());
        let answered = answer(&rt, text, &mut case, &mut disk);
        drop(case);
        answered?;
    }
    Ok(())
}
