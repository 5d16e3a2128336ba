//! The replay of a batch: each body decoded, admitted and applied in order.
ghost use Rattle.std.specs.Prelude.{◌≡◌, ◌≤◌, ◌-◌, ◌<◌, ◌^◌, ◌≢◌, true, Some, None, Err, IfOk, IfErr, OnOk, OnErr};
ghost use Rattle.journal_core.specs.Views.{last_txid};
ghost use Rattle.edit_codec.specs.Decoding.{HasOpcode};
ghost use Rattle.ns_tree.specs.Space.{AreRising};
ghost use Rattle.ns_edits.specs.declared.entry_error.EntryError.TheVariants as errors;
ghost use Rattle.ns_edits.specs.Admit.{admit_of};
ghost use Rattle.ns_edits.specs.Apply.{is_free};
ghost use Rattle.ns_edits.specs.Decoded.{decoded};
ghost use Rattle.ns_edits.specs.EntryErrors.{IsEntryError};
ghost use Rattle.ns_edits.specs.Replay.{edit_entered, entered, IsReplayed};

use crate::admitting::admit;
use crate::applying::apply;
use crate::entry_error::EntryError;
use crate::replayed::Replayed;
use base_words::{Bytes, OutOfMemory};
use edit_codec::{Decoded, decode};
use edit_ops::Edit;
use journal_core::Batch;
use ns_tree::Namespace;
use std::alloc::{AllocError, Global};

/// Applies the bodies of a batch in order, each at its txid, up to the first that doesn't decode or
/// isn't admitted. The batch begins after all that was applied before.
pub fn replay(alloc: Global, ns: &mut Namespace, batch: &Batch) -> Replayed
    requires first { 1 ≤ batch.now.first }
    requires last { last_txid batch.now < 2 ^ 64 }
    requires later { AreRising 0 (batch.now.first - 1) ns.old.calls }
    ensures { IsReplayed ns.old batch.now result ns.new }
{
    let bodies = batch.bodies().as_slice();
    for i in 0..bodies.len() {
        let txid = batch.first() + i as u64;
        match enter(alloc, ns, &bodies[i], txid) {
            Ok(()) => {}
            Err(EntryError::Bad) => return Replayed::BadEntry { txid },
            Err(EntryError::Memory) => return Replayed::OutOfMemory { applied: i as u64 },
        }
    }
    Replayed::Done
}

/// Decodes, admits and applies the body of this txid; an `Err` changes nothing.
#[tactic(auto, unfolding(crate::specs::Replay::entered))]
fn enter(alloc: Global, ns: &mut Namespace, body: &Bytes, txid: u64) -> Result<(), EntryError>
    requires positive { 1 ≤ txid }
    requires later { AreRising 0 (txid - 1) ns.old.calls }
    ensures ok { OnOk result (entered txid body.now ns.old ≡ Some ns.new) }
    ensures why { IfErr result (λ e. IsEntryError e (entered txid body.now ns.old)) }
    ensures err { OnErr result (ns.new ≡ ns.old) }
{
    match edit_of(alloc, body.as_slice())? {
        Some(edit) => enter_edit(alloc, ns, edit, txid),
        None => Err(EntryError::Bad),
    }
}

/// Admits and applies an edit; an `Err` changes nothing. Memory is wanted only for an edit that is
/// admitted, and adds something.
fn enter_edit(alloc: Global, ns: &mut Namespace, edit: Edit, txid: u64) -> Result<(), EntryError>
    requires positive { 1 ≤ txid }
    requires later { AreRising 0 (txid - 1) ns.old.calls }
    ensures ok { OnOk result (edit_entered (Some edit) txid ns.old ≡ Some ns.new) }
    ensures why { IfErr result (λ e. IsEntryError e (edit_entered (Some edit) txid ns.old)) }
    ensures err { OnErr result (ns.new ≡ ns.old) }
    ensures memory { result ≡ Err errors.Memory → admit_of ns.old edit ≡ None }
    ensures free { is_free edit.op ≡ true → result ≢ Err errors.Memory }
{
    match admit(ns, &edit) {
        Ok(()) => {
            apply(alloc, ns, edit, txid)?;
            Ok(())
        }
        Err(_) => Err(EntryError::Bad),
    }
}

/// The edit of which the bytes are the record, or none where they don't decode.
fn edit_of(alloc: Global, bytes: &[u8]) -> Result<Option<Edit>, OutOfMemory>
    ensures edit { IfOk result (λ edit. edit ≡ decoded bytes.now) }
    ensures memory { OnErr result (HasOpcode bytes.now) }
{
    match decode(alloc, bytes) {
        Decoded::Edit(edit) => Ok(Some(edit)),
        Decoded::OutOfMemory => Err(AllocError),
        Decoded::UnknownOpcode { .. } => Ok(None),
        Decoded::Short { .. } => Ok(None),
        Decoded::Trailing { .. } => Ok(None),
        Decoded::BadField { .. } => Ok(None),
    }
}
