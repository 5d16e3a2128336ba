//! A writer call by call, over whatever nodes answer.
ghost use Rattle.std.specs.Prelude.{◌≢◌, [], IfOk};
ghost use Rattle.writer_core.specs.Writer.{HasBody};

use crate::shown::written;
use anyhow::{anyhow, bail};
use case_files::{bytes_of, number_and_rest, word_and_rest};
use journal_core::{BodyList, Bytes, Heard, OutOfMemory, Request};
use journal_text::{print_request, read_reply};
use std::alloc::{AllocError, Global};
use writer_core::{Cause, Task, Turn, Writer};

/// The most bytes of a request that are told.
const SHOWN: usize = 60;

/// Lines to a new writer of as many nodes as the first line says. Each is told with what came of
/// it.
///
/// - `begin takeover`, `begin log COUNT HEX`, `begin roll`, `begin purge TXID`, `begin close`.
/// - `hear COUNT REPLY`: so many calls of the writer are made, each of which hears that reply, or
///   nothing where it is `silent`. The front of each request is told, and what follows the last.
/// - `round`: the nodes that its next request goes to.
/// - `causes`, `room`, and `stop`.
pub fn tell_writer(alloc: Global, input: &[u8], told: &mut String) -> anyhow::Result<()> {
    let (first, lines) = str::from_utf8(input)?
        .split_once('\n')
        .ok_or(anyhow!("no writer"))?;
    let mut writer = Writer::new(alloc, first.parse()?)?;
    let done = take_lines(alloc, &mut writer, lines, told);
    drop(writer);
    done
}

fn take_lines(
    alloc: Global,
    writer: &mut Writer,
    lines: &str,
    told: &mut String,
) -> anyhow::Result<()> {
    for line in lines.lines() {
        writeln!(told, "{line}")?;
        take_line(alloc, writer, line, told)?;
    }
    Ok(())
}

fn take_line(
    alloc: Global,
    writer: &mut Writer,
    line: &str,
    told: &mut String,
) -> anyhow::Result<()> {
    let (word, rest) = word_and_rest(line);
    match word {
        "begin" => begin(alloc, writer, rest, told),
        "hear" => hear_each(alloc, writer, rest, told),
        "round" => written(put_round(alloc, writer, told)),
        "causes" => written(put_causes(writer.causes(), told)),
        "room" => written(writeln!(told, "{}", writer.room())),
        "stop" => {
            writer.stop();
            Ok(())
        }
        _ => bail!("no line of a writer: {line}"),
    }
}

fn put_cause(cause: &Cause, told: &mut String) -> Result<(), AllocError> {
    match cause {
        Cause::Ok => told.push_str(" ok"),
        Cause::Silent => told.push_str(" silent"),
        Cause::OutOfSync => told.push_str(" out of sync"),
        Cause::Refused(refusal) => write!(told, " refused {}", refusal.number()),
    }
}

// What came of each node's part in a round.
fn put_causes(causes: &[Cause], told: &mut String) -> Result<(), AllocError> {
    for cause in causes {
        put_cause(cause, told)?;
    }
    told.push_str("\n")
}

fn bodies_of(alloc: Global, text: &str) -> anyhow::Result<BodyList>
    ensures { IfOk result (λ list. list ≢ []) }
{
    let (count, digits) = number_and_rest(text)?;
    let Some(body) = Bytes::copy_of(alloc, &bytes_of(alloc, digits)?)? else {
        bail!("no byte");
    };
    let mut list = BodyList::new(alloc);
    for _ in 0..count {
        list.push(body.share()?)?;
    }
    if list.is_empty() {
        bail!("no body");
    }
    Ok(list)
}

fn task_of(alloc: Global, text: &str) -> anyhow::Result<Task>
    ensures { IfOk result (λ task. HasBody task) }
{
    let (word, rest) = word_and_rest(text);
    match word {
        "takeover" => Ok(Task::Takeover),
        "log" => Ok(Task::Log(bodies_of(alloc, rest)?)),
        "roll" => Ok(Task::Roll),
        "purge" => Ok(Task::Purge { min: rest.parse()? }),
        "close" => Ok(Task::Close),
        _ => Err(anyhow!("no task")),
    }
}

fn begin(alloc: Global, writer: &mut Writer, text: &str, told: &mut String) -> anyhow::Result<()> {
    let begun = writer.begin(task_of(alloc, text)?);
    written(writeln!(told, "{begun:?}"))
}

fn put_request(
    alloc: Global,
    node: usize,
    request: &Request,
    told: &mut String,
) -> Result<(), OutOfMemory> {
    let mut text = Vec::new(alloc);
    print_request(request, &mut text)?;
    text.truncate(SHOWN);
    let text = String::from_utf8_lossy(alloc, &text)?;
    writeln!(told, "  {node} {text}")
}

fn heard_of(alloc: Global, reply: &str, request: &Request) -> Result<Heard, OutOfMemory> {
    match read_reply(alloc, reply.as_bytes(), request)? {
        Some(reply) => Ok(Heard::Answer(reply)),
        None => Ok(Heard::Silent),
    }
}

// The writer's next call, which hears that reply; none where it has no call.
fn hear(
    alloc: Global,
    writer: &mut Writer,
    reply: &str,
    told: &mut String,
) -> Result<Option<Turn>, OutOfMemory> {
    let Some((node, request)) = writer.next(alloc)? else {
        return Ok(None);
    };
    put_request(alloc, node, request.get(), told)?;
    let heard = heard_of(alloc, reply, request.get())?;
    Ok(Some(writer.hear(node, heard)))
}

fn hear_each(
    alloc: Global,
    writer: &mut Writer,
    rest: &str,
    told: &mut String,
) -> anyhow::Result<()> {
    let (count, reply) = number_and_rest(rest)?;
    let mut turn = None;
    for _ in 0..count {
        turn = hear(alloc, writer, reply, told)?;
    }
    written(match turn {
        Some(turn) => writeln!(told, "{turn:?}"),
        None => told.push_str("no call\n"),
    })
}

fn put_round(alloc: Global, writer: &mut Writer, told: &mut String) -> Result<(), AllocError> {
    match writer.round(alloc)? {
        Some(calls) => {
            put_request(alloc, calls.nodes().len(), calls.request().get(), told)?;
            writeln!(told, "{:?}", calls.nodes())
        }
        None => told.push_str("no round\n"),
    }
}
