//! The greatest numbers and sizes that a node takes.
ghost use Rattle.std.specs.Prelude.{◌≡◌, [], ◌∷◌, false, length, nat_lt};
ghost use Rattle.std.specs.List.{list_any};
ghost use Rattle.journal_core.specs.Views.{last_txid};
ghost use Rattle.journal_core.specs.Limits.{limit_of, numbers_of, head_numbers, bodies_of, is_large, overfills, max_number, max_body};

use crate::batch::Batch;
use crate::head::Head;
use crate::request::Request;

/// The greatest number that a request may say, 2^62.
pub const MAX_NUMBER: u64 = 4611686018427387904;

/// The most bytes of a body.
pub const MAX_BODY: usize = 4096;

/// The most bodies of a journal request.
pub const MAX_BATCH: usize = 256;

/// The most edits of a segment.
pub const MAX_SEGMENT: u64 = 16384;

/// A number of the head passes the limit.
fn head_passes(head: &Head) -> bool
    ensures { result ≡ list_any (λ n. nat_lt max_number n) (head_numbers head.now) }
{
    head.epoch() > MAX_NUMBER || head.serial() > MAX_NUMBER || head.committed() > MAX_NUMBER
}

/// The first or the last txid of the batch passes the limit.
fn batch_passes(batch: &Batch) -> bool
    ensures { result ≡ list_any (λ n. nat_lt max_number n) (batch.now.first ∷ last_txid batch.now ∷ []) }
{
    batch.first() > MAX_NUMBER || batch.last_within(MAX_NUMBER).is_none()
}

impl Request {
    /// A number of the request, or the last txid of its batch, passes the limit.
    fn number_passes(&self) -> bool
        ensures { result ≡ list_any (λ n. nat_lt max_number n) (numbers_of self.now) }
    {
        match self {
            Request::State | Request::Manifest => false,
            Request::NewEpoch { epoch } => *epoch > MAX_NUMBER,
            Request::Read { from } => *from > MAX_NUMBER,
            Request::Start { head, start } | Request::Prepare { head, start } => {
                *start > MAX_NUMBER || head_passes(head)
            }
            Request::Journal { head, start, batch } => {
                *start > MAX_NUMBER || batch_passes(batch) || head_passes(head)
            }
            Request::Finalize { head, start, end } => {
                *start > MAX_NUMBER || *end > MAX_NUMBER || head_passes(head)
            }
            Request::Fetch { head, start, from } => {
                *start > MAX_NUMBER || *from > MAX_NUMBER || head_passes(head)
            }
            Request::Accept { head, batch } => batch_passes(batch) || head_passes(head),
            Request::Purge { head, min } => *min > MAX_NUMBER || head_passes(head),
        }
    }

    /// A body is too long.
    fn body_passes(&self) -> bool
        ensures { result ≡ list_any (λ body. nat_lt max_body (length body)) (bodies_of self.now) }
    {
        match self {
            Request::Journal { batch, .. } | Request::Accept { batch, .. } => {
                batch.bodies().any_longer(MAX_BODY)
            }
            _ => false,
        }
    }

    /// Its batch has too many bodies for one request.
    fn is_large(&self) -> bool
        ensures { result ≡ is_large self.now }
    {
        match self {
            Request::Journal { batch, .. } => batch.bodies().len() > MAX_BATCH,
            _ => false,
        }
    }

    /// It would make a segment of too many edits.
    fn overfills(&self) -> bool
        requires { list_any (λ n. nat_lt max_number n) (numbers_of self.now) ≡ false }
        ensures { result ≡ overfills self.now }
    {
        match self {
            Request::Journal { start, batch, .. } => *start + MAX_SEGMENT <= batch.last(),
            Request::Accept { batch, .. } => batch.bodies().len() as u64 > MAX_SEGMENT,
            _ => false,
        }
    }

    /// The first limit that it passes, if any.
    #[tactic(auto, unfolding(crate::specs::Limits::limit_of))]
    pub fn limit(&self) -> Option<u64>
        ensures { result ≡ limit_of self.now }
    {
        if self.number_passes() {
            return Some(MAX_NUMBER);
        }
        if self.body_passes() {
            return Some(MAX_BODY as u64);
        }
        if self.is_large() {
            return Some(MAX_BATCH as u64);
        }
        if self.overfills() {
            return Some(MAX_SEGMENT);
        }
        None
    }
}
