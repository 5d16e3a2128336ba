//! What is told of a mirror after a pass.
ghost use Rattle.std.specs.Prelude.{◌≡◌, ◌≤◌, ◌+◌, ◌-◌, ◌++◌, OnOk, IfOk};
ghost use Rattle.std.specs.List.{flat_map};
ghost use Rattle.play_report.specs.Mirrored.{told_after, told_text, nodes_told_text, held_text, missing_text, edits_in, mirror_text};

use crate::parts::{put_pair, put_spaced};
use crate::summary::put_line;
use journal_core::{OutOfMemory, SegmentLine};
use play_names::push_causes;
use std::alloc::Global;
use writer_calls::{Missing, NodeTold};
use writer_core::Cause;

/// How many final segments a node told, or why it told none, after a space.
fn put_told(out: &mut Vec<u8>, told: &NodeTold) -> Result<(), OutOfMemory>
    ensures { OnOk result (out.new.items ≡ out.old.items ++ told_after told.now.cause told.now.lines) }
{
    match told.cause {
        Cause::Ok => put_spaced(out, told.lines),
        Cause::Silent | Cause::OutOfSync | Cause::Refused(_) => push_causes(out, &[told.cause]),
    }
}

/// A node's number, and what it told.
#[tactic(auto, unfolding(crate::specs::Mirrored::told_text))]
fn put_node(out: &mut Vec<u8>, node: u64, told: &NodeTold) -> Result<(), OutOfMemory>
    ensures { OnOk result (out.new.items ≡ out.old.items ++ told_text node told.now) }
{
    out.extend_from_slice(b"node")?;
    put_spaced(out, node)?;
    put_told(out, told)?;
    out.push(b'\n')?;
    Ok(())
}

/// The nodes in order, from number 1 on.
fn put_nodes(out: &mut Vec<u8>, heard: &[NodeTold]) -> Result<(), OutOfMemory>
    ensures { OnOk result (out.new.items ≡ out.old.items ++ nodes_told_text 1 heard.now) }
{
    for (index, told) in heard.iter().enumerate() {
        put_node(out, index as u64 + 1, told)?;
    }
    Ok(())
}

/// A segment that is held.
#[tactic(auto, unfolding(crate::specs::Mirrored::held_text))]
fn put_held(out: &mut Vec<u8>, line: &SegmentLine) -> Result<(), OutOfMemory>
    ensures { OnOk result (out.new.items ≡ out.old.items ++ held_text line.now) }
{
    out.extend_from_slice(b"segment")?;
    put_pair(out, line.start, line.end)?;
    out.push(b'\n')?;
    Ok(())
}

/// The segments that are held.
fn put_lines(out: &mut Vec<u8>, lines: &[SegmentLine]) -> Result<(), OutOfMemory>
    ensures { OnOk result (out.new.items ≡ out.old.items ++ flat_map held_text lines.now) }
{
    for line in lines {
        put_held(out, line)?;
    }
    Ok(())
}

/// A line that is missing, with its node and why.
#[tactic(auto, unfolding(crate::specs::Mirrored::missing_text))]
fn put_missing(out: &mut Vec<u8>, missing: &Missing) -> Result<(), OutOfMemory>
    ensures { OnOk result (out.new.items ≡ out.old.items ++ missing_text missing.now) }
{
    out.extend_from_slice(b"missing")?;
    put_pair(out, missing.start, missing.end)?;
    put_spaced(out, missing.node as u64)?;
    push_causes(out, &[missing.cause])?;
    out.push(b'\n')?;
    Ok(())
}

/// The lines that are missing.
fn put_all_missing(out: &mut Vec<u8>, missing: &[Missing]) -> Result<(), OutOfMemory>
    ensures { OnOk result (out.new.items ≡ out.old.items ++ flat_map missing_text missing.now) }
{
    for line in missing {
        put_missing(out, line)?;
    }
    Ok(())
}

/// How many edits a line has.
fn edits_of(line: &SegmentLine) -> u128
    ensures count { result ≡ line.now.end + 1 - line.now.start }
    ensures small { result ≤ 18446744073709551616 }
{
    (u128::from(line.end) + 1).saturating_sub(u128::from(line.start))
}

/// How many edits these lines have.
fn count_edits(lines: &[SegmentLine]) -> u128
    ensures { result ≡ edits_in lines.now }
{
    let _count = lines.len();
    let mut sum: u128 = 0;
    for line in lines {
        sum += edits_of(line);
    }
    sum
}

/// What a mirror tells after a pass: a line for each node, with how many final segments it told or
/// why it told none; the segments that are held; the lines that are missing, each with its node and
/// why; how many edits are held.
#[tactic(auto, unfolding(crate::specs::Mirrored::mirror_text))]
pub fn print_mirror(
    alloc: Global,
    heard: &[NodeTold],
    lines: &[SegmentLine],
    missing: &[Missing],
) -> Result<Vec<u8>, OutOfMemory>
    ensures { IfOk result (λ text. text.items ≡ mirror_text heard.now lines.now missing.now) }
{
    let mut out = Vec::new(alloc);
    put_nodes(&mut out, heard)?;
    put_lines(&mut out, lines)?;
    put_all_missing(&mut out, missing)?;
    put_line(&mut out, b"edits", count_edits(lines))?;
    out.extend_from_slice(b"end\n")?;
    Ok(out)
}
