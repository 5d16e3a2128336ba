//! Lists of known and of random plays agree, and fresh nodes that take their epoch orders come to
//! the states of their nodes. What is mixed of two plays doesn't agree.
use crate::draws::{Draws, draw_script};
use crate::plays::{mesh_of, play_text};
use crate::replayed::is_replayed;
use journal_core::OutOfMemory;
use mesh::Mesh;
use mesh_judge::agrees;
use std::alloc::Global;
use std::process::Abort;
use std::test::Fail;

const FIRST: &str = "raw 3\nwriter a\ntakeover a\nlog a 0a\nlog a 0b\nlog a 0c\n";

const SHORTER: &str = "raw 3\nwriter a\ntakeover a\nlog a 0a\nlog a 0b\n";

/// A log of the record that ends a segment, a roll and a close look alike at first.
const ENDS: &str =
    "raw 3\nwriter a\ntakeover a\nlog a 17\nroll a\nlog a 17\nlog a 17\nclose a\ntakeover a\nlog a 17\n";

const LOSSES: &str =
    "raw 3\nwriter a\nwriter b\nmute a 1 2\ntakeover a\ndrop a 2 1\nlog a 0a\nlate a 1 3\n\
stop 3 1 1\nlog a 0b\nkill 1\ntakeover b\nrestart 1\nrestart 3\ntakeover b\nlate a 1 3\nlog b 0c\npurge b 2\nclose b\nlate b 1 99\n";

const CUT: &str =
    "raw 3\nwriter a\nwriter b\ntakeover a\nlog a 0a\ncut 1 1 3 old\nlog a 0b\nrestart 1\ntakeover b\nlog b 0c\n";

/// The text's play leaves lists that agree, with an epoch order that leads fresh nodes to its
/// nodes' states.
fn is_played(rt: &impl Abort, alloc: Global, text: &str) -> Result<(), Fail> {
    let played = play_text(alloc, text.as_bytes())?;
    let replayed = is_replayed(alloc, &played);
    drop(played);
    assert!(rt; replayed?, "{text}");
    Ok(())
}

/// Thirty rolls that no majority hears, each before a takeover. What fails in its first round may
/// have been a log, a roll or a close; so many doubts don't pile up.
fn failing_rolls(alloc: Global) -> Result<String, OutOfMemory> {
    let mut text = format!(in alloc; "raw 3\nwriter a\ntakeover a\n")?;
    for _ in 0..30 {
        text.push_str("kill 2\nkill 3\nroll a\nrestart 2\nrestart 3\ntakeover a\n")?;
    }
    Ok(text)
}

#[test]
fn lists_of_plays_agree(rt: HostRuntime) -> Result<(), Fail> {
    for text in [FIRST, ENDS, LOSSES, CUT] {
        is_played(&rt, rt.alloc(), text)?;
    }
    is_played(&rt, rt.alloc(), failing_rolls(rt.alloc())?.as_str())
}

#[test]
fn lists_of_random_plays_agree(rt: HostRuntime) -> Result<(), Fail> {
    let mut draws = Draws::new(17);
    for _ in 0..100 {
        let text = draw_script(rt.alloc(), &mut draws, true)?;
        is_played(&rt, rt.alloc(), text.as_str())?;
    }
    Ok(())
}

/// The histories of one play beside the records of another.
fn mixed(alloc: Global, at_nodes: &str, at_callers: &str) -> Result<Mesh, Fail> {
    let Mesh {
        nodes,
        histories,
        ..
    } = mesh_of(alloc, at_nodes.as_bytes())?;
    let Mesh { records, plan, .. } = mesh_of(alloc, at_callers.as_bytes())?;
    Ok(Mesh {
        nodes,
        histories,
        records,
        plan,
    })
}

#[test]
fn lists_of_two_plays_do_not_agree(rt: HostRuntime) -> Result<(), Fail> {
    for (a, b) in [
        (FIRST, SHORTER),
        (SHORTER, FIRST),
        (ENDS, FIRST),
        (FIRST, LOSSES),
    ] {
        let mesh = mixed(rt.alloc(), a, b)?;
        assert!(rt; !agrees(rt.alloc(), &mesh)?);
    }
    Ok(())
}
