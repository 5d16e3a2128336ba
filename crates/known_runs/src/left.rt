//! The nodes that a script leaves by the very functions that `play` and `run` call: whether the
//! files on their disks are the states that their histories lead to, and which they are.
use crate::case::Case;
use crate::telling::tell_files;
use anyhow::bail;
use base_disk::MemDisk;
use case_files::{are_alike, drive};
use disk_node::JournalNode;
use journal_core::Node;
use journal_history::{HistoryList, ListedLine};
use journal_step::PlainNode;
use play_model::Played;
use play_script::{ReadScript, read_script};
use play_threads::FreePass;
use qj_cli::{play_soundly, run_soundly};
use std::alloc::Global;
use std::sync::Wait;
use std::thread::Threads;

/// Tells of each node its files, and whether one that is opened on them answers as a node in memory
/// that took what it listed.
pub fn tell_left<R: Print + Threads + Wait + Sync + AllocGlobal>(
    rt: &R,
    case: &Case,
) -> anyhow::Result<()> {
    let Played { mesh, nodes, .. } = played_of(rt, case)?;
    let told = tell_nodes(rt, nodes, mesh.histories.as_slice());
    drop(mesh);
    told
}

/// What the case's script leaves, by `run` or by `play`.
fn played_of<R: Threads + Wait + Sync + AllocGlobal>(
    rt: &R,
    case: &Case,
) -> anyhow::Result<Played<JournalNode<MemDisk>>> {
    let ReadScript::Script(script) = read_script(rt.alloc(), &case.input) else {
        bail!("no script");
    };
    let played = if case.words.iter().any(|word| word.as_str() == "run") {
        run_soundly(rt, rt.alloc(), false, &script, &FreePass)
    } else {
        play_soundly(rt.alloc(), &script)
    };
    drop(script);
    Ok(played?)
}

fn tell_nodes<R: Print + AllocGlobal>(
    rt: &R,
    nodes: Vec<JournalNode<MemDisk>>,
    histories: &[HistoryList],
) -> anyhow::Result<()> {
    let mut told = Ok(());
    for (node, history) in nodes.into_iter().zip(histories) {
        if told.is_ok() {
            told = tell_node(rt, node, history.as_slice());
        }
    }
    told
}

fn tell_node<R: Print + AllocGlobal>(
    rt: &R,
    node: JournalNode<MemDisk>,
    history: &[ListedLine],
) -> anyhow::Result<()> {
    let mut disk = node.into_disk();
    let told = tell_files(rt, &mut disk);
    let Ok(mut node) = JournalNode::open(rt.alloc(), disk) else {
        bail!("a node isn't opened on its files");
    };
    let compared = compare(rt.alloc(), &mut node, history);
    drop(node);
    told?;
    println!(rt; "node {}", compared?)?;
    Ok(())
}

/// `alike`, where the node answers as one in memory that took what was listed; else how it doesn't.
fn compare(
    alloc: Global,
    node: &mut JournalNode<MemDisk>,
    history: &[ListedLine],
) -> anyhow::Result<String> {
    let mut plain = PlainNode::new(alloc);
    let mut told = String::new(alloc);
    drive(alloc, &mut plain, history, &mut told)?;
    told.clear();
    let _was_up = plain.kill();
    let _is_up = plain.restart(alloc);
    if are_alike(alloc, node, &mut plain, &mut told)? {
        told.push_str("alike")?;
    }
    Ok(told)
}
