//! Cuts and choices as texts.
use anyhow::bail;
use base_disk::Choice;
use case_files::request_of;
use journal_core::{Cut, CutNode};
use journal_step::PlainNode;
use std::alloc::{AllocError, Global};

/// The node in memory is cut after so many disk calls of a request; how many effects stand.
pub fn cut_in_memory(
    alloc: Global,
    node: &mut PlainNode,
    calls: u64,
    cut: Cut,
    line: &str,
) -> anyhow::Result<u64> {
    let request = request_of(alloc, line)?;
    let standing = if node.state().up {
        node.act_cut(alloc, &request, calls, cut)
    } else {
        Ok(0)
    };
    drop(request);
    Ok(standing?)
}

/// The cut of that choice.
pub fn cut_of(choice: Choice) -> anyhow::Result<Cut> {
    match choice {
        Choice::Old => Ok(Cut::Old),
        Choice::New => Ok(Cut::New),
        Choice::Fill(0xa5) => Ok(Cut::A5),
        Choice::Fill(byte) => bail!("a node in memory isn't cut by {byte:02x}"),
    }
}

/// The choice's text.
pub fn choice_text(alloc: Global, choice: Choice) -> Result<String, AllocError> {
    match choice {
        Choice::Old => String::from_str(alloc, "old"),
        Choice::New => String::from_str(alloc, "new"),
        Choice::Fill(byte) => format!(in alloc; "{byte:02x}"),
    }
}
