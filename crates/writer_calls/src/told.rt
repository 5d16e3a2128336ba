//! What nodes tell of their final segments.
ghost use Rattle.std.specs.Prelude.{◌≡◌, count_by};
ghost use Rattle.writer_calls.specs.Told.{counts, lines_heard, manifest_cause, node_told};

use journal_core::{Heard, Reply, SegmentLine};
use writer_core::Cause;

/// A line of a manifest, and the node that told it, from 1.
#[derive(Clone, Copy)]
pub struct ToldLine {
    pub node: usize,
    pub line: SegmentLine,
}

/// What came of a node's manifest call.
#[derive(Clone, Copy)]
pub struct NodeTold {
    /// `Ok` where the node told its segments, its refusal where it refused, and else `Silent`.
    pub cause: Cause,
    /// How many final lines it told.
    pub lines: u64,
}

/// The line counts as told: it is final, and its start isn't 0 nor above its end.
pub(crate) fn counts(line: &SegmentLine) -> bool
    ensures { result ≡ counts line.now }
{
    line.is_final && line.start != 0 && line.start <= line.end
}

/// The lines that were heard of a manifest call.
pub(crate) fn lines_heard(heard: &Heard) -> &[SegmentLine]
    ensures { result.now ≡ lines_heard heard.now }
{
    match heard {
        Heard::Answer(Reply::Segments(lines)) => lines.as_slice(),
        _ => &[],
    }
}

/// Why a node told its segments or didn't.
fn manifest_cause(heard: &Heard) -> Cause
    ensures { result ≡ manifest_cause heard.now }
{
    match heard {
        Heard::Answer(Reply::Segments(_)) => Cause::Ok,
        Heard::Answer(Reply::Refused(refusal)) => Cause::Refused(*refusal),
        _ => Cause::Silent,
    }
}

/// How many of these lines count as told.
fn count_told(lines: &[SegmentLine]) -> u64
    ensures { result ≡ count_by counts lines.now }
{
    lines.iter().filter(|line| counts(*line)).count() as u64
}

/// What came of a manifest call.
pub(crate) fn told_of(heard: &Heard) -> NodeTold
    ensures { result ≡ node_told heard.now }
{
    NodeTold {
        cause: manifest_cause(heard),
        lines: count_told(lines_heard(heard)),
    }
}
