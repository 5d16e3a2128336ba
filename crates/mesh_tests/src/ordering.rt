//! The epoch orders of known scripts and of a report, told as text.
use crate::plays::{mesh_of, order_of};
use journal_core::{OutOfMemory, Request};
use mesh::Mesh;
use report_judge::{Lists, Reading, read_report};
use run_safety::{Event, Fate};
use std::alloc::Global;
use std::test::Fail;

/// What an event did to a node: a word, the epoch of its request, or 0, and the node.
type Action = (&'static str, u64, usize);

/// The epoch that a request proposes, that of its head, or 0.
fn epoch_of(request: &Request) -> u64 {
    if let Request::NewEpoch { epoch } = request {
        return *epoch;
    }
    match request.head() {
        Some(head) => head.epoch(),
        None => 0,
    }
}

/// What an event did; none where it did nothing to a node.
fn action_of(event: &Event) -> Option<Action> {
    match event {
        Event::Call {
            node,
            request,
            fate,
            ..
        } => {
            let word = match fate {
                Fate::Heard => "heard",
                Fate::Muted => "muted",
                Fate::Stopped { .. } => "stopped",
                Fate::Dropped => "dropped",
            };
            Some((word, epoch_of(request.get()), *node))
        }
        Event::Late { node, request, .. } => Some(("late", epoch_of(request.get()), *node)),
        Event::Kill { node } => Some(("kill", 0, *node)),
        Event::Restart { node } => Some(("restart", 0, *node)),
        _ => None,
    }
}

/// The events as text: of each run of events of one kind under one epoch the word, the epoch, and
/// the nodes in order.
fn text_of(alloc: Global, events: &[Event]) -> Result<String, OutOfMemory> {
    let mut text = String::new(alloc);
    let mut before = ("", 0);
    for event in events {
        let Some((word, epoch, node)) = action_of(event) else {
            continue;
        };
        if before.0 != word || before.1 != epoch {
            let mark = if text.is_empty() { "" } else { "; " };
            text.push_str(format!(in alloc; "{mark}{word} {epoch}:")?.as_str())?;
        }
        text.push_str(format!(in alloc; " {node}")?.as_str())?;
        before = (word, epoch);
    }
    Ok(text)
}

/// Scripts and a report, each with its epoch order: what one owner asked stands in the order of its record,
/// writers stand epoch by epoch, kills and restarts stay after what moved their node, a late copy
/// of a used serial has no place and one after a restart has one, and a proposal that lost stands
/// before the one that won.
const ORDERS: &[(&str, &str)] = &[
    (
        "raw 3\nwriter a\ntakeover a\nlog a 0a\nlog a 0b\nlog a 0c\n",
        "heard 1: 1 2 3 1 2 3 1 2 3 1 2 3 1 2 3 1 2 3",
    ),
    (
        "raw 3\nwriter a\nwriter b\ntakeover a\nlog a 0a\ndrop a 2 1\ndrop a 3 1\nlog a 0b\n\
takeover b\nlog b 0c\nlog a 0d\ntakeover a\nlog b 0e\nlog a 0f\n",
        "heard 1: 1 2 3 1 2 3 1 2 3 1 2 3 1; \
heard 2: 1 2 3 1 2 3 1 1 2 3 1 2 3 1 2 3 1 2 3 1 2 3; \
heard 3: 1 2 3 1 2 3 1 1 2 3 1 2 3 1 2 3 1 2 3 1 2 3",
    ),
    (
        "raw 3\nwriter a\ntakeover a\nkill 3\nlog a 0a\nrestart 3\nroll a\nlog a 0b\n\
stop 1 1 1\nlog a 0c\nkill 2\nlog a 0d\nrestart 1\nrestart 2\ntakeover a\nlog a 0e\n",
        "heard 1: 1 2 3 1 2 3 1 2 3; kill 0: 3; restart 0: 3; heard 1: 1 2 1 2 1 2 1 2 3 1 2 3 1 2 3; stopped 1: 1; restart 0: 1; \
heard 1: 2; kill 0: 2; restart 0: 2; heard 1: 3 3; heard 2: 1 2 3 1 2 3 3 1 2 3 1 2 3 1 2 3 1 2 3 1 2 3",
    ),
    (
        "raw 3\nwriter a\ntakeover a\nlog a 0a\nlate a 1 3\nroll a\nlate a 2 5\nmute a 3 1\n\
log a 0b\npurge a 4\nlog a 0c\nclose a\nlate a 1 99\n",
        "heard 1: 1 2 3 1 2 3 1 2 3 1 2 3 1 2 3 1 2 3 1 2 3 1 2 3 1 2; muted 1: 3; heard 1: 1 2 3 1 2 1 2 1 2",
    ),
    (
        "raw 1\nwriter a\ntakeover a\nkill 1\nrestart 1\nlate a 1 3\n",
        "heard 1: 1 1 1; kill 0: 1; restart 0: 1; late 1: 1",
    ),
    (
        "raw 3\nwriter a\nwriter b\ndrop a 1 2\ndrop a 2 2\ntakeover a\ndrop b 3 1\ntakeover b\n",
        "heard 1: 3 1 2 1 2 3 1 2 3",
    ),
    (CROSSED, "heard 1: 1 2; heard 2: 1 2"),
];

/// A report of two takeovers that cross: at node 1 the second one came after the first had proposed
/// there, and at node 2 before the first had asked. No order of all lines fits both.
const CROSSED: &str =
    "nodes 2\nnode 1\na state -> state 0\na new 1 -> new none\nb state -> state 1\nb new 2 -> new none\n\
node 2\nb state -> state 0\na state -> state 0\na new 1 -> new none\nb new 2 -> new none\n\
actor a\n1 state -> state 0\n2 state -> state 0\n1 new 1 -> new none\n2 new 1 -> new none\n\
actor b\n1 state -> state 1\n2 state -> state 0\n1 new 2 -> new none\n2 new 2 -> new none\nend\n";

/// The mesh of a report, or of the play of a script.
fn mesh_told(alloc: Global, text: &str) -> Result<Mesh, Fail> {
    if !text.starts_with("nodes ") {
        return mesh_of(alloc, text.as_bytes());
    }
    let Reading::Read(lists) = read_report(alloc, text.as_bytes())? else {
        return Err("no report".into());
    };
    let Lists { mesh, ends } = lists;
    drop(ends);
    Ok(mesh)
}

/// The epoch order of a mesh, as text; empty where it doesn't agree.
fn order_text(alloc: Global, mesh: &Mesh) -> Result<String, OutOfMemory> {
    match order_of(alloc, mesh)? {
        Some(events) => text_of(alloc, &events),
        None => Ok(String::new(alloc)),
    }
}

#[test]
fn events_stand_in_the_order_of_the_epochs(rt: HostRuntime) -> Result<(), Fail> {
    for (text, wanted) in ORDERS {
        let mesh = mesh_told(rt.alloc(), text)?;
        let told = order_text(rt.alloc(), &mesh);
        drop(mesh);
        assert!(rt; told?.as_str() == *wanted, "{text}");
    }
    Ok(())
}
