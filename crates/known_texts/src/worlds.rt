//! Worlds of nodes and actors, event by event.
ghost use Rattle.std.specs.Prelude.{◌<◌, ◌≢◌, [], length, IfOk};

use anyhow::{anyhow, bail};
use case_files::{are_alike, bytes_of, drive, number_and_rest, reply_text, word_and_rest};
use journal_core::{BodyList, Bytes, Heard, SharedRequest};
use journal_history::{LentAsk, ListedLine, NodeAnswer, Stop};
use journal_step::PlainNode;
use journal_text::print_request;
use run_safety::{Event, Fate};
use run_world::{Seen, World};
use std::alloc::{AllocError, Global};
use writer_core::Task;

/// Events, a line each, at a world of as many nodes and actors as the first line says. Each is told
/// with what is seen of it; then for each node what it listed, by a node in memory that takes it,
/// and whether both are in one state.
///
/// - `takeover ACTOR` and `log ACTOR HEX` begin a task; `calls ACTOR COUNT FATE` makes so many of
///   its calls, or all that are left.
/// - `kill NODE`, `restart NODE`, and `arm NODE`: the third request from then on stops it.
/// - `late ACTOR NODE LINE`: what node 1 listed in that line, from 0, comes once more to the node.
/// - `checkpoint ACTOR` and `stop ACTOR`.
pub fn tell_world(alloc: Global, input: &[u8], told: &mut String) -> anyhow::Result<()> {
    let text = str::from_utf8(input)?;
    let (first, events) = text.split_once('\n').ok_or(anyhow!("no world"))?;
    let (nodes, actors) = number_and_rest(first)?;
    let mut world = World::new(alloc, nodes as usize, actors.parse()?)?;
    match take_all(alloc, &mut world, events, told) {
        Ok(plains) => tell_ends(alloc, world, plains, told),
        Err(error) => Err(error),
    }
}

// Takes the events, and tells what each node listed.
fn take_all(
    alloc: Global,
    world: &mut World<PlainNode>,
    events: &str,
    told: &mut String,
) -> anyhow::Result<Vec<PlainNode>> {
    take_events(alloc, world, events, told)?;
    driven(alloc, world, told)
}

fn take_events(
    alloc: Global,
    world: &mut World<PlainNode>,
    events: &str,
    told: &mut String,
) -> anyhow::Result<()> {
    for line in events.lines() {
        writeln!(told, "{line}")?;
        let seen = take_event(alloc, world, line, told)?;
        let put = put_seen(alloc, &seen, told);
        drop(seen);
        put?;
    }
    Ok(())
}

fn take_event(
    alloc: Global,
    world: &mut World<PlainNode>,
    line: &str,
    told: &mut String,
) -> anyhow::Result<Seen> {
    let (word, rest) = word_and_rest(line);
    let (number, rest) = number_and_rest(rest)?;
    match word {
        "kill" | "restart" | "arm" => happen(alloc, world, word, number as usize),
        _ => match u32::try_from(number) {
            Ok(actor) => act(alloc, world, word, actor, rest, told),
            Err(_) => bail!("no such actor"),
        },
    }
}

fn put_seen(alloc: Global, seen: &Seen, told: &mut String) -> Result<(), AllocError> {
    match seen {
        Seen::Heard(Heard::Answer(reply)) => {
            told.push_str(&reply_text(alloc, reply)?)?;
            told.push_str("\n")
        }
        Seen::Heard(Heard::Silent) => told.push_str("silent\n"),
        Seen::Done => told.push_str("done\n"),
        Seen::Idle => told.push_str("idle\n"),
        Seen::NotNext => told.push_str("not next\n"),
        Seen::OutOfMemory => Err(AllocError),
    }
}

// What happens to a node.
fn happen(
    alloc: Global,
    world: &mut World<PlainNode>,
    word: &str,
    node: usize,
) -> anyhow::Result<Seen> {
    if node < 1 || node > world.nodes() {
        bail!("no such node");
    }
    Ok(match word {
        "kill" => world.step(alloc, Event::Kill { node }),
        "restart" => world.step(alloc, Event::Restart { node }),
        _ => world.step(
            alloc,
            Event::Arm {
                node,
                calls: 3,
                stop: Stop::Effects { keep: 0 },
            },
        ),
    })
}

// What an actor does, or what becomes of a request of it.
fn act(
    alloc: Global,
    world: &mut World<PlainNode>,
    word: &str,
    actor: u32,
    rest: &str,
    told: &mut String,
) -> anyhow::Result<Seen> {
    if actor as usize >= world.actors() {
        bail!("no such actor");
    }
    match word {
        "takeover" => {
            let task = Task::Takeover;
            Ok(world.step(alloc, Event::Begin { actor, task }))
        }
        "log" => begin_log(alloc, world, actor, rest),
        "calls" => call_each(alloc, world, actor, rest, told),
        "late" => come_late(alloc, world, actor, rest),
        "checkpoint" => Ok(world.step(alloc, Event::Checkpoint { actor })),
        "stop" => Ok(world.step(alloc, Event::GiveUp { actor })),
        _ => bail!("no event"),
    }
}

// One edit of these bytes.
fn one_edit(alloc: Global, digits: &str) -> anyhow::Result<BodyList>
    ensures { IfOk result (λ bodies. bodies ≢ []) }
{
    let Some(body) = Bytes::copy_of(alloc, &bytes_of(alloc, digits)?)? else {
        bail!("no byte");
    };
    let mut bodies = BodyList::new(alloc);
    bodies.push(body)?;
    Ok(bodies)
}

fn begin_log(
    alloc: Global,
    world: &mut World<PlainNode>,
    actor: u32,
    digits: &str,
) -> anyhow::Result<Seen>
    requires { actor < length world.old.actors }
{
    let task = Task::Log(one_edit(alloc, digits)?);
    Ok(world.step(alloc, Event::Begin { actor, task }))
}

fn fate_of(word: &str) -> anyhow::Result<Fate> {
    match word {
        "heard" => Ok(Fate::Heard),
        "muted" => Ok(Fate::Muted),
        "dropped" => Ok(Fate::Dropped),
        _ => Err(anyhow!("no fate")),
    }
}

// `COUNT FATE`: all calls but the last are told.
fn call_each(
    alloc: Global,
    world: &mut World<PlainNode>,
    actor: u32,
    rest: &str,
    told: &mut String,
) -> anyhow::Result<Seen> {
    let (count, word) = number_and_rest(rest)?;
    let fate = fate_of(word)?;
    for _ in 0..count {
        let seen = call_next(alloc, world, actor, fate, told)?;
        if matches!(seen, Seen::NotNext) {
            break;
        }
        let put = put_seen(alloc, &seen, told);
        drop(seen);
        put?;
    }
    Ok(Seen::Done)
}

// The actor's next call, told before what is seen of it; `NotNext` where it has none.
fn call_next(
    alloc: Global,
    world: &mut World<PlainNode>,
    actor: u32,
    fate: Fate,
    told: &mut String,
) -> anyhow::Result<Seen> {
    if actor as usize >= world.actors() {
        bail!("no such actor");
    }
    let Some((node, request)) = world.next_call(alloc, actor)? else {
        return Ok(Seen::NotNext);
    };
    if node < 1 || node > world.nodes() {
        bail!("no such node");
    }
    put_call(alloc, node, &request, told)?;
    let event = Event::Call {
        actor,
        node,
        request,
        fate,
    };
    Ok(world.step(alloc, event))
}

fn put_call(
    alloc: Global,
    node: usize,
    request: &SharedRequest,
    told: &mut String,
) -> Result<(), AllocError> {
    let mut text = Vec::new(alloc);
    print_request(request.get(), &mut text)?;
    let text = String::from_utf8_lossy(alloc, &text)?;
    write!(told, "  {node} {text}: ")
}

// What was asked in that line of node 1's history, a request.
fn asked(world: &World<PlainNode>, line: usize) -> anyhow::Result<SharedRequest> {
    if world.nodes() < 1 {
        bail!("no node");
    }
    let Some(line) = world.history(1).get(line) else {
        bail!("no such line");
    };
    match line.lend(&NodeAnswer::OK).ask {
        LentAsk::Act { request, .. } => Ok(request.share()?),
        _ => Err(anyhow!("no request")),
    }
}

// `NODE LINE`.
fn come_late(
    alloc: Global,
    world: &mut World<PlainNode>,
    actor: u32,
    rest: &str,
) -> anyhow::Result<Seen> {
    let (node, line) = number_and_rest(rest)?;
    let node = node as usize;
    let request = asked(world, line.parse()?)?;
    if actor as usize >= world.actors() || node < 1 || node > world.nodes() {
        bail!("no such actor or node");
    }
    let event = Event::Late {
        actor,
        node,
        request,
        stop: None,
    };
    Ok(world.step(alloc, event))
}

// A node in memory that took what a node listed, which is told.
fn driven_node(
    alloc: Global,
    number: usize,
    history: &[ListedLine],
    told: &mut String,
) -> anyhow::Result<PlainNode> {
    writeln!(told, "node {number}")?;
    let mut plain = PlainNode::new(alloc);
    drive(alloc, &mut plain, history, told)?;
    Ok(plain)
}

// Such a node for each node.
fn driven(
    alloc: Global,
    world: &World<PlainNode>,
    told: &mut String,
) -> anyhow::Result<Vec<PlainNode>> {
    let mut plains = Vec::new(alloc);
    for node in 1..=world.nodes() {
        plains.push(driven_node(alloc, node, world.history(node), told)?)?;
    }
    Ok(plains)
}

// Whether each node is in one state with the other.
fn tell_alike(
    alloc: Global,
    nodes: &mut [PlainNode],
    plains: &mut [PlainNode],
    told: &mut String,
) -> anyhow::Result<()> {
    for (node, plain) in nodes.iter_mut().zip(plains.iter_mut()) {
        if are_alike(alloc, node, plain, told)? {
            told.push_str("alike\n")?;
        }
    }
    Ok(())
}

fn tell_ends(
    alloc: Global,
    world: World<PlainNode>,
    mut plains: Vec<PlainNode>,
    told: &mut String,
) -> anyhow::Result<()> {
    let mut nodes = world.into_nodes(alloc)?;
    let alike = tell_alike(alloc, &mut nodes, &mut plains, told);
    drop(nodes);
    drop(plains);
    alike
}
