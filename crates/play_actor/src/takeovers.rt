//! A name node of a script takes over.
ghost use Rattle.std.specs.Prelude.{◌≡◌, false, OnOk, IfOk};
ghost use Rattle.caller.specs.Callers.{AreLater};
ghost use Rattle.writer_core.specs.declared.task.Task.TheVariants as task;
ghost use Rattle.writer_core.specs.Writer.{is_writing};
ghost use Rattle.play_names.specs.Holding.{reload_image};
ghost use Rattle.play_standby.specs.Standbys.{held};
ghost use Rattle.play_standby.specs.EntryAnswers.{HasMemory};
ghost use Rattle.play_model.specs.Lines.{Does};
ghost use Rattle.play_model.specs.Actions.{IsIdleActor, TakesAction};
ghost use Rattle.play_actor.specs.Nodes.{kept_node, kept_resting, kept_active, IsServing};
ghost use Rattle.play_actor.specs.Entries.{texts_entered, writer_entered, holding_entered, StandsSo};

use crate::actions::say_all;
use crate::name_node::NameNode;
use crate::role::Resting;
use caller::{Caller, CopyWire};
use journal_core::{Bytes, OutOfMemory};
use play_names::{aborted_text, behind_text, numbered_text, numbered_twice, once};
use play_standby::{Active, Entered, SavedImages};
use std::alloc::{AllocError, Global};

/// A takeover by a standby.
pub(crate) fn take_takeover<W: CopyWire>(
    alloc: Global,
    resting: Resting,
    images: SavedImages,
    caller: &mut Caller<W>,
) -> Result<NameNode, OutOfMemory>
    requires idle { IsIdleActor caller.old.log.nodes (kept_resting resting.writer images resting.standby caller.old.log) }
    ensures takes { IfOk result (λ new. TakesAction caller.old.log.nodes (Does task.Takeover) (kept_resting resting.writer images resting.standby caller.old.log) (kept_node new caller.new.log)) }
    ensures later { OnOk result (AreLater W.WireModel caller.old caller.new) }
{
    let (writer, standby) = resting.into_parts();
    let entered = Active::enter(writer, standby, alloc, caller);
    let texts = entered_texts(alloc, &entered)?;
    let node = entered_node(alloc, entered, images)?;
    say_all(caller, texts)?;
    Ok(node)
}

/// A takeover by one that is active: it gives up its segment, and begins anew.
pub(crate) fn take_takeover_again<W: CopyWire>(
    alloc: Global,
    active: Active,
    images: SavedImages,
    caller: &mut Caller<W>,
) -> Result<NameNode, OutOfMemory>
    requires idle { IsIdleActor caller.old.log.nodes (kept_active images active caller.old.log) }
    requires serving { IsServing active }
    ensures takes { IfOk result (λ new. TakesAction caller.old.log.nodes (Does task.Takeover) (kept_active images active caller.old.log) (kept_node new caller.new.log)) }
    ensures later { OnOk result (AreLater W.WireModel caller.old caller.new) }
{
    let (standby, writer) = active.quit(alloc)?;
    take_takeover(alloc, Resting { writer, standby }, images, caller)
}

/// What a takeover says; an `Err` where memory was wanting in it.
fn entered_texts(alloc: Global, entered: &Entered) -> Result<Vec<Bytes>, OutOfMemory>
    ensures texts { IfOk result (λ texts. texts.items ≡ texts_entered entered.now) }
    ensures memory { OnOk result (HasMemory entered.now) }
{
    match entered {
        Entered::Active { epoch, first, .. } => {
            once(alloc, numbered_twice(alloc, b"takeover", *epoch, *first)?)
        }
        Entered::Aborted { causes, .. } => {
            once(alloc, aborted_text(alloc, b"takeover ", causes.as_slice())?)
        }
        Entered::EpochLimit { told, .. } => {
            once(alloc, numbered_text(alloc, b"takeover limit", *told)?)
        }
        Entered::Behind { txid, causes, .. } => {
            once(
                alloc,
                behind_text(alloc, b"takeover behind", *txid, causes.as_slice())?,
            )
        }
        Entered::Purged { first, .. } => {
            once(alloc, numbered_text(alloc, b"takeover purged", *first)?)
        }
        Entered::BadEntry { .. } => Ok(Vec::new(alloc)),
        Entered::OutOfMemory { .. } => Err(AllocError),
    }
}

/// What it is after a takeover.
fn entered_node(
    alloc: Global,
    entered: Entered,
    images: SavedImages,
) -> Result<NameNode, OutOfMemory>
    requires { StandsSo entered }
    ensures writer { IfOk result (λ node. node.writer ≡ writer_entered entered) }
    ensures holding { IfOk result (λ node. node.holding ≡ holding_entered images entered) }
{
    match entered {
        Entered::Active { active, .. } => Ok(NameNode::serving(active, images)),
        Entered::Aborted {
            writer,
            standby,
            ..
        } => begin_again(alloc, Resting { writer, standby }, images),
        Entered::EpochLimit {
            writer,
            standby,
            ..
        } => Ok(NameNode::resting(Resting { writer, standby }, images)),
        Entered::Behind {
            writer,
            standby,
            ..
        } => Ok(NameNode::resting(Resting { writer, standby }, images)),
        Entered::Purged {
            writer,
            standby,
            ..
        } => Ok(NameNode::resting(Resting { writer, standby }, images)),
        Entered::BadEntry {
            writer,
            standby,
            ..
        } => Ok(NameNode::broken(Resting { writer, standby }, images)),
        Entered::OutOfMemory { .. } => Err(AllocError),
    }
}

/// It begins again from its newest image, or empty.
pub(crate) fn begin_again(
    alloc: Global,
    resting: Resting,
    images: SavedImages,
) -> Result<NameNode, OutOfMemory>
    requires { is_writing resting.writer.phase ≡ false }
    ensures writer { IfOk result (λ node. node.writer ≡ resting.writer) }
    ensures holding { IfOk result (λ node. node.holding ≡ reload_image (held images resting.standby)) }
{
    let mut resting = resting;
    let mut images = images;
    images.load(alloc, &mut resting.standby)?;
    Ok(NameNode::resting(resting, images))
}
