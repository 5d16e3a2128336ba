//! What the answer to a read or a fetch says.
ghost use Rattle.std.specs.Prelude.{◌≡◌, ◌≢◌, ◌<◌, ◌==◌, ◌∷◌, [], Some, None, Option, IfOk, drop, length, nat_le};
ghost use Rattle.journal_core.specs.Views.{last_txid};
ghost use Rattle.journal_core.specs.Limits.{max_number};
ghost use Rattle.journal_text.specs.ReplyReading.{batch_of, batch_by, bodies_by, edits_in};

use crate::head_words::take_number;
use crate::words::Words;
use journal_core::{Batch, BodyList, MAX_NUMBER, OutOfMemory, Reply, ToldBatch};
use std::alloc::Global;

/// The reply that tells a batch, where it begins there and ends within the limit of txids.
fn told_batch(alloc: Global, from: u64, batch: Batch) -> Result<Option<Reply>, OutOfMemory>
    ensures { IfOk result (λ reply. reply ≡ batch_by (batch.first == from) (nat_le (last_txid batch) max_number) batch) }
{
    if batch.first() != from {
        return Ok(None);
    }
    if batch.last_within(MAX_NUMBER).is_none() {
        return Ok(None);
    }
    let told = ToldBatch::of(alloc, batch)?;
    Ok(Some(Reply::Edits(told)))
}

/// The reply that tells these bodies, where there are any.
#[tactic(auto, using(crate::proofs::EditLaws::bodies_some))]
fn told_bodies(
    alloc: Global,
    from: u64,
    first: u64,
    bodies: BodyList,
) -> Result<Option<Reply>, OutOfMemory>
    ensures { IfOk result (λ reply. reply ≡ bodies_by from first (Some bodies)) }
{
    if bodies.is_empty() {
        return Ok(None);
    }
    told_batch(alloc, from, Batch::new(first, bodies))
}

/// The edits from that txid on, from the words after the first.
#[tactic(auto, unfolding(crate::specs::ReplyReading::edits_in))]
pub(crate) fn read_edits(
    alloc: Global,
    from: u64,
    words: &mut Words,
) -> Result<Option<Reply>, OutOfMemory>
    ensures { IfOk result (λ reply. reply ≡ edits_in from words.old) }
{
    let Some(first) = take_number(words) else {
        return Ok(None);
    };
    let Some(bodies) = words.bodies(alloc)? else {
        return Ok(None);
    };
    told_bodies(alloc, from, first, bodies)
}
