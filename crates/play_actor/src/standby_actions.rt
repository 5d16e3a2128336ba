//! What a standby of a script does: it tails, saves its namespace, and begins again.
ghost use Rattle.std.specs.Prelude.{◌≡◌, ◌≢◌, false, OnOk, IfOk};
ghost use Rattle.caller.specs.Callers.{AreLater};
ghost use Rattle.writer_core.specs.Writer.{is_writing};
ghost use Rattle.play_names.specs.ResultLists.{tail_texts};
ghost use Rattle.play_standby.specs.Standbys.{held};
ghost use Rattle.play_model.specs.Lines.{DoTail, Saves, Reloads};
ghost use Rattle.play_model.specs.Actions.{IsIdleActor, TakesAction};
ghost use Rattle.play_actor.specs.Nodes.{kept_node, kept_resting, is_bad_entry, broken_if};

use crate::actions::say_all;
use crate::name_node::NameNode;
use crate::role::Resting;
use caller::{Caller, CopyWire};
use journal_core::{Bytes, OutOfMemory};
use play_names::{Tailed, one_number, tail_results};
use play_standby::SavedImages;
use std::alloc::{AllocError, Global};

/// Reads and applies what it lacks.
pub(crate) fn take_tail<W: CopyWire>(
    alloc: Global,
    resting: Resting,
    images: SavedImages,
    caller: &mut Caller<W>,
) -> Result<NameNode, OutOfMemory>
    requires idle { IsIdleActor caller.old.log.nodes (kept_resting resting.writer images resting.standby caller.old.log) }
    requires rests { is_writing resting.writer.phase ≡ false }
    ensures takes { IfOk result (λ new. TakesAction caller.old.log.nodes DoTail (kept_resting resting.writer images resting.standby caller.old.log) (kept_node new caller.new.log)) }
    ensures later { OnOk result (AreLater W.WireModel caller.old caller.new) }
{
    let mut resting = resting;
    let tailed = resting.standby.tail(alloc, caller, None);
    say_all(caller, tailed_texts(alloc, &tailed)?)?;
    Ok(tailed_node(resting, images, &tailed))
}

/// What a tail says at its end; an `Err` where memory was wanting in it.
fn tailed_texts(alloc: Global, tailed: &Tailed) -> Result<Vec<Bytes>, OutOfMemory>
    ensures texts { IfOk result (λ texts. texts.items ≡ tail_texts tailed.now) }
    ensures memory { OnOk result (tailed.now ≢ Tailed.OutOfMemory) }
{
    match tailed {
        Tailed::OutOfMemory => Err(AllocError),
        ended => tail_results(alloc, ended),
    }
}

/// What it is after a tail: one that met a bad entry does nothing more.
fn tailed_node(resting: Resting, images: SavedImages, tailed: &Tailed) -> NameNode
    requires { is_writing resting.writer.phase ≡ false }
    ensures writer { result.writer ≡ resting.writer }
    ensures holding { result.holding ≡ broken_if (is_bad_entry tailed.now) (held images resting.standby) }
{
    if matches!(tailed, Tailed::BadEntry { .. }) {
        NameNode::broken(resting, images)
    } else {
        NameNode::resting(resting, images)
    }
}

/// Saves its namespace as an image.
pub(crate) fn take_checkpoint<W: CopyWire>(
    alloc: Global,
    resting: Resting,
    images: SavedImages,
    caller: &mut Caller<W>,
) -> Result<NameNode, OutOfMemory>
    requires idle { IsIdleActor caller.old.log.nodes (kept_resting resting.writer images resting.standby caller.old.log) }
    requires rests { is_writing resting.writer.phase ≡ false }
    ensures takes { IfOk result (λ new. TakesAction caller.old.log.nodes Saves (kept_resting resting.writer images resting.standby caller.old.log) (kept_node new caller.new.log)) }
    ensures later { OnOk result (AreLater W.WireModel caller.old caller.new) }
{
    let mut images = images;
    images.save(alloc, &resting.standby)?;
    let position = resting.standby.position();
    say_all(caller, one_number(alloc, b"checkpoint", position)?)?;
    Ok(NameNode::resting(resting, images))
}

/// Begins again from its newest image, or empty.
pub(crate) fn take_reload<W: CopyWire>(
    alloc: Global,
    resting: Resting,
    images: SavedImages,
    caller: &mut Caller<W>,
) -> Result<NameNode, OutOfMemory>
    requires idle { IsIdleActor caller.old.log.nodes (kept_resting resting.writer images resting.standby caller.old.log) }
    requires rests { is_writing resting.writer.phase ≡ false }
    ensures takes { IfOk result (λ new. TakesAction caller.old.log.nodes Reloads (kept_resting resting.writer images resting.standby caller.old.log) (kept_node new caller.new.log)) }
    ensures later { OnOk result (AreLater W.WireModel caller.old caller.new) }
{
    let mut resting = resting;
    let mut images = images;
    images.load(alloc, &mut resting.standby)?;
    let position = resting.standby.position();
    say_all(caller, one_number(alloc, b"reload", position)?)?;
    Ok(NameNode::resting(resting, images))
}
