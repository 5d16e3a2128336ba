//! What is due of a script whose nodes are mirrored, before any of it is written.
ghost use Rattle.std.specs.Prelude.{◌≡◌, IfOk, IfErr, Some, map};
ghost use Rattle.std.specs.List.{All};
ghost use Rattle.journal_core.specs.Segments.{AreSound};
ghost use Rattle.writer_calls.specs.States.{IsTold};
ghost use Rattle.play_model.specs.Plays.{states_after};
ghost use Rattle.cli_commands.specs.Uses.{read_from, written_to};
ghost use Rattle.qj_cli.specs.Plays.{IsReadingFault};
ghost use Rattle.qj_cli.specs.Mirrors.{text_of_mesh, GivesMirrored, Mirrors};

use crate::playing::read_source;
use crate::plays::play_leaving;
use base_outside::{Sink, Source};
use cli_commands::{CommandFault, Status, write_due};
use journal_core::OutOfMemory;
use journal_step::PlainNode;
use mesh::Mesh;
use play_laws::finals_are_on_line;
use play_model::Played;
use play_report::print_mirror;
use std::alloc::Global;
use std::mem;
use writer_calls::{MirroredNodes, mirror_nodes};

/// The segments of nodes without files stand by rising start, and their txids are within range.
pub(crate) fn know_segments(nodes: &[PlainNode])
    ensures { All (λ s. AreSound s.segments) nodes.now }
{
    for node in nodes {
        let _ = node.state().segments.as_slice();
    }
}

/// One pass of a fresh mirror over the nodes that a play left, as text. Nothing of it is given
/// back: the process ends once the text is written.
fn text_of_nodes(alloc: Global, mesh: &Mesh, nodes: Vec<PlainNode>) -> Result<Vec<u8>, OutOfMemory>
    requires told { All (λ s. IsTold (Some s)) nodes.items }
    requires states { map (λ s. Some s) nodes.items ≡ states_after mesh.now.histories }
    ensures { IfOk result (λ text. text.items ≡ text_of_mesh mesh.now) }
{
    let MirroredNodes { mirror, synced } = mirror_nodes(alloc, nodes)?;
    let lines = mirror.lines(alloc)?;
    let text = print_mirror(alloc, &synced.heard, lines.as_slice(), &synced.missing);
    mem::forget(mirror);
    text
}

/// Reads the source, plays its script in order, and tells what a mirror of its nodes holds. Neither
/// the script nor the lists and the images that it left are given back.
fn due_of_source<S: Source>(alloc: Global, source: &mut S) -> Result<Vec<u8>, CommandFault>
    ensures text { IfOk result (λ text. GivesMirrored (read_from S.left S.faults source.old source.new) Status.Ok text.items) }
    ensures fault { IfErr result (IsReadingFault (read_from S.left S.faults source.old source.new)) }
{
    finals_are_on_line();
    let script = read_source(alloc, source)?;
    let Ok(left) = play_leaving(alloc, &script) else {
        return Err(CommandFault::OutOfMemory);
    };
    let Played { mesh, ends, nodes } = left.played;
    know_segments(&nodes);
    let text = text_of_nodes(alloc, &mesh, nodes);
    mem::forget(mesh);
    mem::forget(ends);
    mem::forget(left.images);
    mem::forget(script);
    match text {
        Ok(text) => Ok(text),
        Err(_) => Err(CommandFault::OutOfMemory),
    }
}

/// Plays the script that the source gives, all lines in order, and writes what one pass of a fresh
/// mirror over its nodes tells, or why there is no script.
pub fn mirror_script<S: Source, K: Sink>(alloc: Global, source: &mut S, sink: &mut K) -> Status
    ensures { Mirrors (read_from S.left S.faults source.old source.new) (written_to K.taken K.faults K.kept_back sink.old sink.new) result }
{
    let due = due_of_source(alloc, source);
    write_due(alloc, sink, &due)
}
