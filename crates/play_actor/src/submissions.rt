//! An active name node of a script submits edits one after the other, and logs those that are
//! admitted as one batch.
ghost use Rattle.std.specs.Prelude.{◌≡◌, ◌≢◌, true, OnOk, IfOk};
ghost use Rattle.caller.specs.Callers.{AreLater};
ghost use Rattle.play_standby.specs.Actives.{is_open};
ghost use Rattle.play_model.specs.Lines.{Submits};
ghost use Rattle.play_names.specs.DueTexts.{dues_of};
ghost use Rattle.play_model.specs.Actions.{IsIdleActor, TakesAction};
ghost use Rattle.play_actor.specs.Nodes.{kept_node, kept_active, IsServing};
ghost use Rattle.play_actor.specs.Rounds.{texts_synced};
ghost use Rattle.play_actor.specs.Submitting.{AreSubmitted, FitsSynced};

use crate::name_node::NameNode;
use crate::rounds::end_round;
use crate::submitted::due_by;
use caller::{Caller, CopyWire};
use edit_ops::{Edit, EditList};
use journal_core::{Bytes, OutOfMemory};
use play_names::{EditDue, aborted_text, bytes_of, logged_results, lost_results};
use play_standby::{Active, SavedImages, Synced};
use std::alloc::{AllocError, Global};

/// Edits are submitted in order, and those that are admitted logged.
pub(crate) fn take_edits<W: CopyWire>(
    alloc: Global,
    active: Active,
    images: SavedImages,
    caller: &mut Caller<W>,
    edits: &EditList,
) -> Result<NameNode, OutOfMemory>
    requires idle { IsIdleActor caller.old.log.nodes (kept_active images active caller.old.log) }
    requires serving { IsServing active }
    ensures takes { IfOk result (λ new. TakesAction caller.old.log.nodes (Submits edits.now) (kept_active images active caller.old.log) (kept_node new caller.new.log)) }
    ensures later { OnOk result (AreLater W.WireModel caller.old caller.new) }
{
    let mut active = active;
    let dues = submit_all(alloc, &mut active, edits.as_slice())?;
    let synced = active.sync(alloc, caller);
    let texts = synced_texts(alloc, &dues, &synced)?;
    end_round(alloc, active, images, caller, texts)
}

/// Submits edits one after the other; what becomes of each.
fn submit_all(
    alloc: Global,
    active: &mut Active,
    edits: &[Edit],
) -> Result<Vec<EditDue>, OutOfMemory>
    requires { is_open active.old ≡ true }
    ensures { IfOk result (λ dues. AreSubmitted active.old edits.now active.new (dues_of dues.items)) }
{
    let next = active.position() + 1;
    let mut dues = Vec::with_capacity(alloc, edits.len())?;
    for edit in edits {
        let answer = active.submit(alloc, edit);
        let Some(due) = due_by(answer, next) else {
            return Err(AllocError);
        };
        dues.push(due)?;
    }
    Ok(dues)
}

/// What the round of edits says of each; an `Err` where memory was wanting in it.
fn synced_texts(alloc: Global, dues: &[EditDue], synced: &Synced) -> Result<Vec<Bytes>, OutOfMemory>
    requires { FitsSynced synced.now }
    ensures texts { IfOk result (λ texts. texts.items ≡ texts_synced (dues_of dues.now) synced.now) }
    ensures memory { OnOk result (synced.now ≢ Synced.OutOfMemory) }
{
    match synced {
        Synced::Acked { first, .. } => logged_results(alloc, *first, dues),
        Synced::Nothing => logged_results(alloc, 0, dues),
        Synced::Aborted { causes } => {
            let text = aborted_text(alloc, b"", causes.as_slice())?;
            lost_results(alloc, &text, dues)
        }
        Synced::Ended => lost_results(alloc, &bytes_of(alloc, b"inactive")?, dues),
        Synced::OutOfMemory => Err(AllocError),
    }
}
