//! The rounds of an active name node of a script: rolls, closes and trims, and how each ends.
ghost use Rattle.std.specs.Prelude.{◌≡◌, ◌≢◌, [], false, OnOk, IfOk};
ghost use Rattle.caller.specs.Callers.{AreLater};
ghost use Rattle.writer_core.specs.Writer.{is_writing};
ghost use Rattle.writer_core.specs.declared.task.Task.TheVariants as task;
ghost use Rattle.play_standby.specs.Actives.{is_open};
ghost use Rattle.play_model.specs.Lines.{Does, Trims};
ghost use Rattle.play_model.specs.Actions.{IsIdleActor, TakesAction};
ghost use Rattle.play_actor.specs.Nodes.{kept_node, kept_active, held_after, IsServing};
ghost use Rattle.play_actor.specs.Rounds.{texts_rolled, texts_closed, texts_purging, held_closed, IsSaidOf};

use crate::actions::say_all;
use crate::name_node::NameNode;
use crate::role::Resting;
use crate::takeovers::begin_again;
use caller::{Caller, CopyWire};
use journal_core::{Bytes, OutOfMemory};
use play_names::{aborted_text, numbered_text, once, one_word};
use play_standby::{Active, Left, SavedImages};
use std::alloc::{AllocError, Global};
use writer_calls::{Closed, Purging, Rolled};

/// The open segment ends, and the next one begins.
pub(crate) fn take_roll<W: CopyWire>(
    alloc: Global,
    active: Active,
    images: SavedImages,
    caller: &mut Caller<W>,
) -> Result<NameNode, OutOfMemory>
    requires idle { IsIdleActor caller.old.log.nodes (kept_active images active caller.old.log) }
    requires serving { IsServing active }
    ensures takes { IfOk result (λ new. TakesAction caller.old.log.nodes (Does task.Roll) (kept_active images active caller.old.log) (kept_node new caller.new.log)) }
    ensures later { OnOk result (AreLater W.WireModel caller.old caller.new) }
{
    let mut active = active;
    let rolled = active.roll(alloc, caller);
    let texts = rolled_texts(alloc, &rolled)?;
    end_round(alloc, active, images, caller, texts)
}

/// The open segment ends, and the epoch is given up.
pub(crate) fn take_close<W: CopyWire>(
    alloc: Global,
    active: Active,
    images: SavedImages,
    caller: &mut Caller<W>,
) -> Result<NameNode, OutOfMemory>
    requires idle { IsIdleActor caller.old.log.nodes (kept_active images active caller.old.log) }
    requires serving { IsServing active }
    ensures takes { IfOk result (λ new. TakesAction caller.old.log.nodes (Does task.Close) (kept_active images active caller.old.log) (kept_node new caller.new.log)) }
    ensures later { OnOk result (AreLater W.WireModel caller.old caller.new) }
{
    let Left {
        standby,
        writer,
        closed,
    } = active.leave(alloc, caller)?;
    let texts = closed_texts(alloc, &closed)?;
    let node = closed_node(alloc, Resting { writer, standby }, images, &closed)?;
    say_all(caller, texts)?;
    Ok(node)
}

/// What it is after a close: where a round was aborted it begins again from its newest image.
fn closed_node(
    alloc: Global,
    resting: Resting,
    images: SavedImages,
    closed: &Closed,
) -> Result<NameNode, OutOfMemory>
    requires { is_writing resting.writer.phase ≡ false }
    ensures writer { IfOk result (λ node. node.writer ≡ resting.writer) }
    ensures holding { IfOk result (λ node. node.holding ≡ held_closed closed.now images resting.standby) }
{
    match closed {
        Closed::Aborted { .. } => begin_again(alloc, resting, images),
        Closed::Closed { .. } | Closed::NotActive | Closed::OutOfMemory => {
            Ok(NameNode::resting(resting, images))
        }
    }
}

/// A purge of what its two newest images make needless, but for `extra` edits more.
pub(crate) fn take_trim<W: CopyWire>(
    alloc: Global,
    active: Active,
    images: SavedImages,
    caller: &mut Caller<W>,
    extra: u64,
) -> Result<NameNode, OutOfMemory>
    requires idle { IsIdleActor caller.old.log.nodes (kept_active images active caller.old.log) }
    requires serving { IsServing active }
    ensures takes { IfOk result (λ new. TakesAction caller.old.log.nodes (Trims extra) (kept_active images active caller.old.log) (kept_node new caller.new.log)) }
    ensures later { OnOk result (AreLater W.WireModel caller.old caller.new) }
{
    let mut active = active;
    let mut images = images;
    let Some(min) = images.min_to_keep(alloc, extra)? else {
        say_all(caller, one_word(alloc, b"trim noimage")?)?;
        return Ok(NameNode::serving(active, images));
    };
    let purging = active.purge(alloc, caller, min);
    let texts = purging_texts(alloc, min, &purging)?;
    end_round(alloc, active, images, caller, texts)
}

/// The results of a round are listed; what it is then. Where the round was aborted it begins again
/// from its newest image.
pub(crate) fn end_round<W: CopyWire>(
    alloc: Global,
    active: Active,
    images: SavedImages,
    caller: &mut Caller<W>,
    texts: Vec<Bytes>,
) -> Result<NameNode, OutOfMemory>
    requires { active.bodies ≡ [] }
    ensures writer { IfOk result (λ node. node.writer ≡ active.writer) }
    ensures holding { IfOk result (λ node. node.holding ≡ held_after (is_open active) images active) }
    ensures said { OnOk result (IsSaidOf caller.old.log caller.new.log texts.items) }
    ensures later { OnOk result (AreLater W.WireModel caller.old caller.new) }
{
    let node = after_round(alloc, active, images)?;
    say_all(caller, texts)?;
    Ok(node)
}

/// What it is after a round.
fn after_round(alloc: Global, active: Active, images: SavedImages) -> Result<NameNode, OutOfMemory>
    requires { active.bodies ≡ [] }
    ensures writer { IfOk result (λ node. node.writer ≡ active.writer) }
    ensures holding { IfOk result (λ node. node.holding ≡ held_after (is_open active) images active) }
{
    if active.is_open() {
        return Ok(NameNode::serving(active, images));
    }
    let (standby, writer) = active.quit(alloc)?;
    begin_again(alloc, Resting { writer, standby }, images)
}

/// What a roll says; an `Err` where memory was wanting in it.
fn rolled_texts(alloc: Global, rolled: &Rolled) -> Result<Vec<Bytes>, OutOfMemory>
    ensures texts { IfOk result (λ texts. texts.items ≡ texts_rolled rolled.now) }
    ensures memory { OnOk result (rolled.now ≢ Rolled.OutOfMemory) }
{
    match rolled {
        Rolled::Rolled { start } => once(alloc, numbered_text(alloc, b"roll", *start)?),
        Rolled::Aborted { causes } => {
            once(alloc, aborted_text(alloc, b"roll ", causes.as_slice())?)
        }
        Rolled::NotActive => one_word(alloc, b"roll inactive"),
        Rolled::OutOfMemory => Err(AllocError),
    }
}

/// What a close says; an `Err` where memory was wanting in it.
fn closed_texts(alloc: Global, closed: &Closed) -> Result<Vec<Bytes>, OutOfMemory>
    ensures texts { IfOk result (λ texts. texts.items ≡ texts_closed closed.now) }
    ensures memory { OnOk result (closed.now ≢ Closed.OutOfMemory) }
{
    match closed {
        Closed::Closed { last } => once(alloc, numbered_text(alloc, b"close", *last)?),
        Closed::Aborted { causes } => {
            once(alloc, aborted_text(alloc, b"close ", causes.as_slice())?)
        }
        Closed::NotActive => one_word(alloc, b"close inactive"),
        Closed::OutOfMemory => Err(AllocError),
    }
}

/// What a trim says, which was a purge up to `min`; an `Err` where memory was wanting in it.
fn purging_texts(alloc: Global, min: u64, purging: &Purging) -> Result<Vec<Bytes>, OutOfMemory>
    ensures texts { IfOk result (λ texts. texts.items ≡ texts_purging min purging.now) }
    ensures memory { OnOk result (purging.now ≢ Purging.OutOfMemory) }
{
    match purging {
        Purging::Done => once(alloc, numbered_text(alloc, b"trim", min)?),
        Purging::Aborted { causes } => {
            once(alloc, aborted_text(alloc, b"trim ", causes.as_slice())?)
        }
        Purging::NotActive => one_word(alloc, b"trim inactive"),
        Purging::OutOfMemory => Err(AllocError),
    }
}
