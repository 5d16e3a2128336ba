//! A request, or an opening, that is cut or fails at each of its disk calls.
use crate::bench::Bench;
use crate::cuts::choice_text;
use crate::openings::opens_text;
use crate::shown::written;
use anyhow::bail;
use base_disk::{Choice, Disk};
use case_files::{CaseLine, ask};

// More calls than a request or an opening makes.
const MOST_CALLS: u64 = 200;

// What a crash may leave; none where there is no crash.
const CRASHES: &[Option<Choice>] = &[
    None,
    Some(Choice::Old),
    Some(Choice::New),
    Some(Choice::Fill(0xa5)),
];

/// What is looked at.
#[derive(Clone, Copy)]
pub enum Look {
    /// A request that is cut leaves what a cut leaves of a node in memory.
    Cut,
    /// A request of which one call fails leaves what a cut there leaves that brings all back that
    /// was written.
    Fault,
    /// What the files open as after a request that is cut, and how many there are.
    Left,
    /// Files open as ever after an opening that was stopped, or in which one call failed.
    Opening,
}

/// What is looked at in a request after steps.
#[derive(Clone, Copy)]
pub struct Each<'a> {
    pub look: Look,
    pub before: &'a [CaseLine],
    pub line: &'a str,
}

// The request, or the opening, as far as the disk lets it.
fn take_line(copy: &mut Bench, line: &str, told: &mut String) -> anyhow::Result<()> {
    told.clear();
    match &mut copy.node {
        Some(node) => told.push_str(&ask(copy.alloc, node, line)?)?,
        None => opens_text(copy.alloc, &mut copy.disk, told)?,
    }
    Ok(())
}

// Takes the steps at a copy, then the request, or the opening, as far as the disk lets it: for so
// many calls, if a number is given.
fn retake(
    copy: &mut Bench,
    each: &Each,
    calls: Option<u64>,
    told: &mut String,
) -> anyhow::Result<()> {
    copy.replay(each.before)?;
    if let Some(calls) = calls {
        copy.stop_after(calls);
    }
    take_line(copy, each.line, told)
}

fn is_fault(told: &str) -> bool {
    told.ends_with("DiskFault") || told.ends_with("disk fault")
}

// How many calls it makes.
fn calls_of(copy: &mut Bench, each: &Each) -> anyhow::Result<u64> {
    let mut told = String::new(copy.alloc);
    for calls in 0..MOST_CALLS {
        retake(copy, each, Some(calls), &mut told)?;
        if !is_fault(&told) {
            return Ok(calls);
        }
    }
    bail!("more than {MOST_CALLS} calls")
}

fn cuts_alike(
    copy: &mut Bench,
    each: &Each,
    call: u64,
    choice: Choice,
    told: &mut String,
) -> anyhow::Result<bool> {
    let mut passed = String::new(copy.alloc);
    copy.replay(each.before)?;
    copy.cut_plain(call, choice, each.line, &mut passed)?;
    copy.cut_disk(call, choice, each.line, &mut passed)?;
    copy.is_alike(told)
}

// The call fails, and the node goes down. What it tells is passed over.
fn fail_once(copy: &mut Bench, line: &str, call: u64, passed: &mut String) -> anyhow::Result<()> {
    copy.cut_plain(call, Choice::New, line, passed)?;
    copy.fail_at(vec![in copy.alloc; call]?);
    take_line(copy, line, passed)?;
    if !is_fault(passed) {
        bail!("call {call} doesn't fail: {passed}");
    }
    take_line(copy, "state", passed)?;
    if passed.as_str() != "refused 1 Down" {
        bail!("it isn't down after call {call}: {passed}");
    }
    Ok(())
}

// The node is started again.
fn start_again(copy: &mut Bench, call: u64, passed: &mut String) -> anyhow::Result<()> {
    passed.clear();
    copy.tell_both("restart", "", passed)?;
    if passed.as_str() != "up" {
        bail!("it doesn't come up after call {call}: {passed}");
    }
    Ok(())
}

// The call fails, the node goes down and is started again, and may crash then.
fn fail_and_crash(
    copy: &mut Bench,
    each: &Each,
    call: u64,
    crash: Option<Choice>,
    passed: &mut String,
) -> anyhow::Result<()> {
    copy.replay(each.before)?;
    fail_once(copy, each.line, call, passed)?;
    start_again(copy, call, passed)?;
    if let Some(choice) = crash {
        copy.crash_by(choice);
        copy.open(passed)?;
    }
    Ok(())
}

fn faults_alike(
    copy: &mut Bench,
    each: &Each,
    call: u64,
    crash: Option<Choice>,
    told: &mut String,
) -> anyhow::Result<bool> {
    let mut passed = String::new(copy.alloc);
    let failed = fail_and_crash(copy, each, call, crash, &mut passed);
    drop(passed);
    failed?;
    copy.is_alike(told)
}

// What the files open as after so many calls and a crash, and how many there are.
fn take_left(
    copy: &mut Bench,
    each: &Each,
    call: u64,
    choice: Choice,
    left: &mut String,
) -> anyhow::Result<()> {
    retake(copy, each, Some(call), left)?;
    copy.crash_by(choice);
    left.clear();
    opens_text(copy.alloc, &mut copy.disk, left)?;
    let count = copy.disk.list()?.len();
    written(write!(left, "; {count} files"))
}

// What is left where it differs from what was told last.
fn put_left(
    copy: &mut Bench,
    each: &Each,
    call: u64,
    choice: Choice,
    told: &mut String,
) -> anyhow::Result<()> {
    let mut left = String::new(copy.alloc);
    take_left(copy, each, call, choice, &mut left)?;
    if told.ends_with(left.as_str()) {
        return Ok(());
    }
    let choice = choice_text(copy.alloc, choice)?;
    written(write!(told, "\n  from {call} {choice}: {left}"))
}

// Where there is no crash that one call of the opening fails.
fn opens_alike(
    copy: &mut Bench,
    each: &Each,
    call: u64,
    crash: Option<Choice>,
    told: &mut String,
) -> anyhow::Result<bool> {
    let mut due = String::new(copy.alloc);
    retake(copy, each, None, &mut due)?;
    let mut seen = String::new(copy.alloc);
    match crash {
        Some(choice) => {
            retake(copy, each, Some(call), &mut seen)?;
            copy.crash_by(choice);
        }
        None => {
            copy.replay(each.before)?;
            copy.fail_at(vec![in copy.alloc; call]?);
            take_line(copy, each.line, &mut seen)?;
        }
    }
    take_line(copy, each.line, &mut seen)?;
    if seen != due {
        write!(told, "opens as {seen}")?;
    }
    Ok(seen == due)
}

// Looks at it where it ends after so many calls.
fn looks_so(
    copy: &mut Bench,
    each: &Each,
    call: u64,
    crash: Option<Choice>,
    told: &mut String,
) -> anyhow::Result<bool> {
    match (each.look, crash) {
        (Look::Cut, Some(choice)) => cuts_alike(copy, each, call, choice, told),
        (Look::Left, Some(choice)) => {
            put_left(copy, each, call, choice, told)?;
            Ok(true)
        }
        (Look::Cut | Look::Left, None) => Ok(true),
        (Look::Fault, _) => faults_alike(copy, each, call, crash, told),
        (Look::Opening, _) => opens_alike(copy, each, call, crash, told),
    }
}

// Looks at it where it ends after so many calls, for each choice of a crash after it. The first
// choice where it isn't alike is told.
fn looks_so_after(
    copy: &mut Bench,
    each: &Each,
    call: u64,
    told: &mut String,
) -> anyhow::Result<bool> {
    for crash in CRASHES {
        if !looks_so(copy, each, call, *crash, told)? {
            write!(told, ", after {call} calls and {crash:?}")?;
            return Ok(false);
        }
    }
    Ok(true)
}

// Looks at it where it ends before each of its calls, with each choice of a crash; a request that
// is cut also after its last call.
fn looks_so_anywhere(
    copy: &mut Bench,
    each: &Each,
    calls: u64,
    told: &mut String,
) -> anyhow::Result<bool> {
    for call in 0..calls {
        if !looks_so_after(copy, each, call, told)? {
            return Ok(false);
        }
    }
    match each.look {
        Look::Cut | Look::Left => looks_so_after(copy, each, calls, told),
        Look::Fault | Look::Opening => Ok(true),
    }
}

/// Looks at it at each of its calls, of which the number is told.
pub fn tell_each(copy: &mut Bench, each: &Each, told: &mut String) -> anyhow::Result<()> {
    let calls = calls_of(copy, each)?;
    write!(told, "{calls} calls")?;
    if looks_so_anywhere(copy, each, calls, told)? {
        if !matches!(each.look, Look::Left) {
            told.push_str(", alike")?;
        }
    }
    Ok(())
}
