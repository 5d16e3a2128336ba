//! Whether two requests are the same.
ghost use Rattle.std.specs.Prelude.{◌≡◌};
ghost use Rattle.journal_core.specs.declared.request.Request.TheVariants.{NewEpoch, Start, Journal, Finalize, Prepare, Fetch, Accept, Purge, Read};
ghost use Rattle.journal_history.specs.Same.{same_nats, same_bodies, same_batch, same_head, same_request};

use journal_core::{Batch, Bytes, Head, Request};

fn same_bytes(a: &[u8], b: &[u8]) -> bool
    ensures { result ≡ same_nats a.now b.now }
{
    a == b
}

#[tactic(auto, using(crate::proofs::SameCode::lengths_differ))]
fn same_bodies(a: &[Bytes], b: &[Bytes]) -> bool
    ensures { result ≡ same_bodies a.now b.now }
{
    if a.len() != b.len() {
        return false;
    }
    for i in 0..a.len() {
        if !same_bytes(a[i].as_slice(), b[i].as_slice()) {
            return false;
        }
    }
    true
}

/// Both are the same edits from the same txid on.
pub fn same_batch(a: &Batch, b: &Batch) -> bool
    ensures { result ≡ same_batch a.now b.now }
{
    a.first() == b.first() && same_bodies(a.bodies().as_slice(), b.bodies().as_slice())
}

fn same_head(a: &Head, b: &Head) -> bool
    ensures { result ≡ same_head a.now b.now }
{
    a.epoch() == b.epoch() && (a.serial() == b.serial() && a.committed() == b.committed())
}

fn is_promise(epoch: u64, other: &Request) -> bool
    ensures { result ≡ same_request (NewEpoch epoch) other.now }
{
    match other {
        Request::NewEpoch { epoch: b } => epoch == *b,
        _ => false,
    }
}

fn is_start(head: &Head, start: u64, other: &Request) -> bool
    ensures { result ≡ same_request (Start head.now start) other.now }
{
    match other {
        Request::Start { head: k, start: b } => same_head(head, k) && start == *b,
        _ => false,
    }
}

fn is_journal(head: &Head, start: u64, batch: &Batch, other: &Request) -> bool
    ensures { result ≡ same_request (Journal head.now start batch.now) other.now }
{
    match other {
        Request::Journal {
            head: k,
            start: b,
            batch: edits,
        } => same_head(head, k) && (start == *b && same_batch(batch, edits)),
        _ => false,
    }
}

fn is_finalize(head: &Head, start: u64, end: u64, other: &Request) -> bool
    ensures { result ≡ same_request (Finalize head.now start end) other.now }
{
    match other {
        Request::Finalize {
            head: k,
            start: b,
            end: last,
        } => same_head(head, k) && (start == *b && end == *last),
        _ => false,
    }
}

fn is_prepare(head: &Head, start: u64, other: &Request) -> bool
    ensures { result ≡ same_request (Prepare head.now start) other.now }
{
    match other {
        Request::Prepare { head: k, start: b } => same_head(head, k) && start == *b,
        _ => false,
    }
}

fn is_fetch(head: &Head, start: u64, from: u64, other: &Request) -> bool
    ensures { result ≡ same_request (Fetch head.now start from) other.now }
{
    match other {
        Request::Fetch {
            head: k,
            start: b,
            from: first,
        } => same_head(head, k) && (start == *b && from == *first),
        _ => false,
    }
}

fn is_accept(head: &Head, batch: &Batch, other: &Request) -> bool
    ensures { result ≡ same_request (Accept head.now batch.now) other.now }
{
    match other {
        Request::Accept {
            head: k,
            batch: edits,
        } => same_head(head, k) && same_batch(batch, edits),
        _ => false,
    }
}

fn is_purge(head: &Head, min: u64, other: &Request) -> bool
    ensures { result ≡ same_request (Purge head.now min) other.now }
{
    match other {
        Request::Purge { head: k, min: b } => same_head(head, k) && min == *b,
        _ => false,
    }
}

fn is_read(from: u64, other: &Request) -> bool
    ensures { result ≡ same_request (Read from) other.now }
{
    match other {
        Request::Read { from: b } => from == *b,
        _ => false,
    }
}

/// Both are the same request.
pub fn same(a: &Request, b: &Request) -> bool
    ensures { result ≡ same_request a.now b.now }
{
    match a {
        Request::State => matches!(b, Request::State),
        Request::NewEpoch { epoch } => is_promise(*epoch, b),
        Request::Start { head, start } => is_start(head, *start, b),
        Request::Journal { head, start, batch } => is_journal(head, *start, batch, b),
        Request::Finalize { head, start, end } => is_finalize(head, *start, *end, b),
        Request::Prepare { head, start } => is_prepare(head, *start, b),
        Request::Fetch { head, start, from } => is_fetch(head, *start, *from, b),
        Request::Accept { head, batch } => is_accept(head, batch, b),
        Request::Purge { head, min } => is_purge(head, *min, b),
        Request::Read { from } => is_read(*from, b),
        Request::Manifest => matches!(b, Request::Manifest),
    }
}
