//! Calls from bytes, one after the other, into a namespace.
ghost use Rattle.std.specs.Prelude.{◌≡◌, ◌∷◌, [], ◌+◌, ◌^◌, ◌≤◌, None, length, IfOk};
ghost use Rattle.ns_tree.specs.Space.{txid_of, AreRising};
ghost use Rattle.ns_image.specs.Reading.{Gives, last_txid, new_call_at, call_at, repeated, calls_at};

use crate::fields::{client_of, long_of, whole32_of, word_of};
use crate::image_cause::ImageCause;
use crate::image_fault::{ReadError, wrong_at};
use edit_ops::Call;
use ns_tree::{Namespace, Noted};

/// The most calls that are remembered.
const MOST_CALLS: u32 = 1024;

// The txid of the last of the calls, 0 where there is none.
fn last_txid(calls: &[Noted]) -> u64
    ensures { result ≡ last_txid calls.now }
{
    if calls.is_empty() {
        return 0;
    }
    calls[calls.len() - 1].txid
}

// A call that isn't remembered yet.
#[tactic(auto, unfolding(crate::specs::Reading::new_call_at))]
fn new_call_of<'a>(namespace: &Namespace, bytes: &'a [u8]) -> Result<(Call, &'a [u8]), ReadError>
    ensures read { Gives (λ x. (x.0, x.1.now)) result (new_call_at namespace.now.calls bytes.now) }
    ensures new { IfOk result (λ x. txid_of x.0 namespace.now.calls ≡ None) }
{
    let (client, rest) = client_of(bytes)?;
    let (number, rest) = whole32_of(rest)?;
    let call = Call { client, number };
    match namespace.repeated(&call) {
        Some(_) => Err(wrong_at(ImageCause::Field, bytes)),
        None => Ok((call, rest)),
    }
}

// One call more.
#[tactic(auto, unfolding(crate::specs::Reading::call_at))]
fn add_call<'a>(
    namespace: &mut Namespace,
    txid: u64,
    bytes: &'a [u8],
) -> Result<&'a [u8], ReadError>
    requires few { length namespace.old.calls + 1 ≤ 1024 }
    requires most { txid ≤ 2 ^ 62 }
    requires rising { AreRising 0 txid namespace.old.calls }
    ensures calls { Gives (λ rest. (namespace.new.calls, rest.now)) result (call_at txid namespace.old.calls bytes.now) }
    ensures rows { namespace.new.pairs ≡ namespace.old.pairs }
    ensures rising { IfOk result (λ rest. AreRising 0 txid namespace.new.calls) }
    ensures one { IfOk result (λ rest. length namespace.new.calls ≡ length namespace.old.calls + 1) }
{
    let last = last_txid(namespace.calls());
    let (call, rest) = new_call_of(namespace, bytes)?;
    let (at, rest) = long_of(rest, last + 1, txid)?;
    namespace.note(call, at);
    Ok(rest)
}

// So many calls more.
fn add_calls<'a>(
    namespace: &mut Namespace,
    count: u32,
    txid: u64,
    bytes: &'a [u8],
) -> Result<&'a [u8], ReadError>
    requires few { count ≤ 1024 }
    requires most { txid ≤ 2 ^ 62 }
    requires none { namespace.old.calls ≡ [] }
    ensures calls { Gives (λ rest. (namespace.new.calls, rest.now)) result (repeated (call_at txid) count [] bytes.now) }
    ensures rows { namespace.new.pairs ≡ namespace.old.pairs }
{
    let mut rest = bytes;
    for _ in 0..count {
        rest = add_call(namespace, txid, rest)?;
    }
    Ok(rest)
}

// The calls of an image of this layout.
#[tactic(auto, unfolding(crate::specs::Reading::calls_at))]
pub(crate) fn calls_of<'a>(
    namespace: &mut Namespace,
    layout: u32,
    txid: u64,
    bytes: &'a [u8],
) -> Result<&'a [u8], ReadError>
    requires most { txid ≤ 2 ^ 62 }
    requires none { namespace.old.calls ≡ [] }
    ensures calls { Gives (λ rest. (namespace.new.calls, rest.now)) result (calls_at layout txid bytes.now) }
    ensures rows { namespace.new.pairs ≡ namespace.old.pairs }
{
    if layout == 1 {
        return Ok(bytes);
    }
    let (count, rest) = word_of(bytes, 0, MOST_CALLS, ImageCause::Field)?;
    add_calls(namespace, count, txid, rest)
}
