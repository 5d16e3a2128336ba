//! The play of a script's text, and whether what it leaves agrees.
ghost use Rattle.play_script.specs.Grammar.{IsScript};

use base_disk::MemDisk;
use journal_core::OutOfMemory;
use journal_step::PlainNode;
use mesh::Mesh;
use mesh_judge::{agrees, order_events};
use play_actor::{PlayedOn, ScriptActor, plain_nodes, play_on};
use play_model::{Played, scripts_are_playable};
use play_script::{ReadScript, Script, read_script};
use run_safety::Event;
use std::alloc::Global;
use std::test::Fail;

/// What the play of a script over plain nodes leaves, with its actors' images.
fn play_plain(alloc: Global, script: &Script) -> Result<PlayedOn<PlainNode>, OutOfMemory>
    requires { IsScript script.now }
{
    scripts_are_playable();
    let nodes = plain_nodes(alloc, script.nodes())?;
    play_on::<ScriptActor, PlainNode>(alloc, nodes, script)
}

/// What the play of the text's script leaves, with its actors' images.
fn play_text_on(alloc: Global, text: &[u8]) -> Result<PlayedOn<PlainNode>, Fail> {
    let ReadScript::Script(script) = read_script(alloc, text) else {
        return Err("no script".into());
    };
    let played = play_plain(alloc, &script);
    drop(script);
    Ok(played?)
}

/// What the play of the text's script leaves.
pub(crate) fn play_text(alloc: Global, text: &[u8]) -> Result<Played<PlainNode>, Fail> {
    let PlayedOn { played, images } = play_text_on(alloc, text)?;
    drop(images);
    Ok(played)
}

/// A disk of images for each actor of such a play.
pub(crate) fn images_of(alloc: Global, text: &[u8]) -> Result<Vec<MemDisk>, Fail> {
    let PlayedOn { played, images } = play_text_on(alloc, text)?;
    drop(played);
    Ok(images)
}

/// The nodes of such a play.
pub(crate) fn nodes_of(alloc: Global, text: &[u8]) -> Result<Vec<PlainNode>, Fail> {
    let Played { mesh, ends, nodes } = play_text(alloc, text)?;
    drop(mesh);
    drop(ends);
    Ok(nodes)
}

/// The mesh of such a play.
pub(crate) fn mesh_of(alloc: Global, text: &[u8]) -> Result<Mesh, Fail> {
    let Played { mesh, ends, nodes } = play_text(alloc, text)?;
    drop(ends);
    drop(nodes);
    Ok(mesh)
}

/// The epoch order of a mesh; none where it doesn't agree.
pub(crate) fn order_of(alloc: Global, mesh: &Mesh) -> Result<Option<Vec<Event>>, OutOfMemory> {
    if !agrees(alloc, mesh)? {
        return Ok(None);
    }
    Ok(Some(order_events(alloc, mesh)?))
}
