//! The last txid of a journal round that was done.
ghost use Rattle.std.specs.Prelude.{◌≡◌, ◌+◌, ◌<◌, ◌≤◌, ◌^◌, max, map};
ghost use Rattle.std.specs.List.{fold};
ghost use Rattle.play_report.specs.Summary.{no_tally, ok_heard, is_ok, request_heard, tally_record, last_in};
ghost use Rattle.journal_core.specs.Views.{last_txid};

use journal_core::{Batch, Head, Reply, Request};
use journal_history::{LentRecord, ListedRecord, RecordList, Told};

/// The journal round under way in a record, how many nodes answered it with Ok, and the greatest
/// last txid of the rounds that were done so far.
#[derive(Clone, Copy)]
pub struct Tally {
    pub epoch: u64,
    pub serial: u64,
    pub oks: u64,
    pub last: u128,
}

/// The txid of a batch's last body.
fn last_of(batch: &Batch) -> u128
    ensures { result ≡ last_txid batch.now }
{
    u128::from(batch.first()) + batch.bodies().len() as u128 - 1
}

/// What was heard is Ok.
fn is_ok(told: &Told) -> bool
    ensures { result ≡ is_ok told.now }
{
    match told {
        Told::Reply(Reply::Ok) => true,
        _ => false,
    }
}

impl Tally {
    /// Before the first round.
    fn new() -> Tally
        ensures { result ≡ no_tally }
    {
        Tally {
            epoch: 0,
            serial: 0,
            oks: 0,
            last: 0,
        }
    }

    /// A node answered a journal with Ok.
    #[tactic(auto, unfolding(crate::specs::Summary::ok_heard))]
    fn hear(self, nodes: usize, head: &Head, batch: &Batch) -> Tally
        requires { self.oks + 1 < 2 ^ 64 }
        ensures heard { result ≡ ok_heard nodes head.now batch.now self }
        ensures more { result.oks ≤ self.oks + 1 }
    {
        let (epoch, serial) = (head.epoch(), head.serial());
        let goes_on = self.epoch == epoch && self.serial == serial;
        let oks = if goes_on { self.oks + 1 } else { 1 };
        let is_done = oks > nodes as u64 / 2;
        let last = if is_done {
            self.last.max(last_of(batch))
        } else {
            self.last
        };
        Tally {
            epoch,
            serial,
            oks,
            last,
        }
    }

    /// A node answered a request with Ok.
    fn hear_request(self, nodes: usize, request: &Request) -> Tally
        requires { self.oks + 1 < 2 ^ 64 }
        ensures heard { result ≡ request_heard nodes request.now self }
        ensures more { result.oks ≤ self.oks + 1 }
    {
        match request {
            Request::Journal { head, batch, .. } => self.hear(nodes, head, batch),
            _ => self,
        }
    }

    /// One more line of the record.
    fn take(self, nodes: usize, line: &ListedRecord) -> Tally
        requires { self.oks + 1 < 2 ^ 64 }
        ensures taken { result ≡ tally_record nodes self line.now }
        ensures more { result.oks ≤ self.oks + 1 }
    {
        match line.lend(&Told::OK) {
            LentRecord::Call { request, told, .. } => {
                if is_ok(told) {
                    self.hear_request(nodes, request.get())
                } else {
                    self
                }
            }
            LentRecord::Late { .. } => self,
            LentRecord::Operator { .. } => self,
            LentRecord::Outcome { .. } => self,
        }
    }
}

/// The greatest last txid of the journal rounds that were done in a record, or 0.
#[tactic(auto, unfolding(crate::specs::Summary::last_in))]
fn last_in(nodes: usize, lines: &[ListedRecord]) -> u128
    ensures { result ≡ last_in nodes lines.now }
{
    let mut tally = Tally::new();
    for line in lines {
        tally = tally.take(nodes, line);
    }
    tally.last
}

/// The greatest last txid of the journal rounds that were done, or 0.
pub(crate) fn last_done(nodes: usize, records: &[RecordList]) -> u128
    ensures { result ≡ fold max 0 (map (last_in nodes) records.now) }
{
    let mut last = 0;
    for record in records {
        last = last_in(nodes, record.as_slice()).max(last);
    }
    last
}
