//! The list of the last 1,024 calls, and the marks by which most calls are seen not to stand in it.
ghost use Rattle.std.specs.Prelude.{◌≡◌, ◌-◌, ◌≤◌, ◌<◌, ◌^◌, None, false, length, drop, vec_capacity, [], ◌++◌, ◌∷◌, IfOk};
ghost use Rattle.ns_tree.specs.Path.{same_text};
ghost use Rattle.ns_tree.specs.Space.{same_call, txid_of, noted, last_calls, AreRising};
ghost use Rattle.ns_tree.specs.Marks.{mark_of};

use crate::inode::Noted;
use base_words::OutOfMemory;
use edit_ops::Call;
use std::alloc::Global;
use std::marker::Model;

/// The most calls that are kept.
const MOST_CALLS: usize = 1024;

/// So many calls have room: those that are kept, and as many that have gone.
const ROOM: usize = 2048;

/// How many marks there are.
const MARKS: usize = 8192;

/// The last calls whose edits were applied, each with its edit's txid, the oldest first.
#[derive(Drop)]
pub struct RetryList {
    /// Calls that have gone, and then the list.
    items: Vec<Noted>,
    /// How many have gone.
    gone: usize,
    /// For each mark a txid that no call of the list with this mark is above.
    marks: Vec<u64>,
}

impl Model for RetryList {
    ghost use Rattle.std.specs.Prelude.{◌≡◌, ◌≤◌, ◌-◌, ◌^◌, List, drop, length, vec_capacity};
    ghost use Rattle.ns_tree.specs.declared.inode.Noted.{Noted};
    ghost use Rattle.ns_tree.specs.Space.{AreRising};
    ghost use Rattle.ns_tree.specs.Marks.{AreMarked};

    ghost Value = { List Noted };

    ghost view = { λ l. drop l.gone l.items.items };

    ghost invariant = { λ l. record {
      gone : l.gone ≤ length l.items.items;
      few : length l.items.items - l.gone ≤ 1024;
      room : 2048 ≤ vec_capacity l.items;
      rising : AreRising 0 (2 ^ 64 - 1) (drop l.gone l.items.items);
      marks : length l.marks.items ≡ 8192;
      marked : AreMarked l.marks.items (drop l.gone l.items.items);
    } };
}

impl RetryList {
    /// No calls.
    pub fn new(alloc: Global) -> Result<RetryList, OutOfMemory>
        ensures { IfOk result (λ calls. calls ≡ []) }
    {
        Ok(RetryList {
            items: Vec::with_capacity(alloc, ROOM)?,
            gone: 0,
            marks: vec![in alloc; 0; MARKS]?,
        })
    }

    /// The calls in order.
    pub fn as_slice(&self) -> &[Noted]
        ensures { result.now ≡ self.now }
    {
        &self.items[self.gone..]
    }

    /// The txid of a call of the list.
    pub fn find(&self, call: &Call) -> Option<u64>
        ensures { result ≡ txid_of call.now self.now }
    {
        if self.may_have(call) {
            find_call(self.as_slice(), call)
        } else {
            None
        }
    }

    /// Whether the call's mark doesn't tell that it isn't in the list.
    fn may_have(&self, call: &Call) -> bool
        ensures { result ≡ false → txid_of call.now self.now ≡ None }
    {
        let calls = self.as_slice();
        if calls.is_empty() {
            return false;
        }
        calls[0].txid <= self.marks[mark_of(call)]
    }

    /// Puts a call last; the first one goes where there were 1,024. Takes no memory.
    pub fn note(&mut self, call: Call, txid: u64)
        requires positive { 1 ≤ txid }
        requires later { AreRising 0 (txid - 1) self.old }
        ensures { self.new ≡ noted call txid self.old }
    {
        self.marks[mark_of(&call)] = txid;
        self.gone = put_last(&mut self.items, self.gone, Noted { call, txid });
    }
}

/// Puts a call last in a list of which so many calls have gone, and tells how many have gone then.
fn put_last(calls: &mut Vec<Noted>, gone: usize, noted: Noted) -> usize
    requires gone { gone ≤ length calls.old.items }
    requires few { length calls.old.items - gone ≤ 1024 }
    requires room { 2048 ≤ vec_capacity calls.old }
    ensures list { drop result calls.new.items ≡ last_calls (drop gone calls.old.items ++ noted ∷ []) }
    ensures gone { result ≤ length calls.new.items }
    ensures few { length calls.new.items - result ≤ 1024 }
    ensures room { 2048 ≤ vec_capacity calls.new }
{
    let gone = make_room(calls, gone);
    match calls.push(noted) {
        Ok(()) => {}
        Err(_) => unreachable!(),
    }
    if calls.len() - gone > MOST_CALLS {
        gone + 1
    } else {
        gone
    }
}

/// Has room for one more call: where there is none, those that have gone leave. Tells how many have
/// gone then.
fn make_room(calls: &mut Vec<Noted>, gone: usize) -> usize
    requires gone { gone ≤ length calls.old.items }
    requires few { length calls.old.items - gone ≤ 1024 }
    requires room { 2048 ≤ vec_capacity calls.old }
    ensures list { drop result calls.new.items ≡ drop gone calls.old.items }
    ensures gone { result ≤ length calls.new.items }
    ensures few { length calls.new.items - result ≤ 1024 }
    ensures space { length calls.new.items < 2048 }
    ensures room { 2048 ≤ vec_capacity calls.new }
{
    if calls.len() < ROOM {
        return gone;
    }
    calls.drain(..gone);
    0
}

/// The mark of a call: calls that follow one another have marks that do.
fn mark_of(call: &Call) -> usize
    ensures mark { result ≡ mark_of call.now }
    ensures bound { result < 8192 }
{
    (call.number as usize + 256 * call.client[14] as usize + call.client[15] as usize) % MARKS
}

/// The txid of a call, looked for one by one.
fn find_call(calls: &[Noted], call: &Call) -> Option<u64>
    ensures { result ≡ txid_of call.now calls.now }
{
    for noted in calls {
        if is_same_call(&noted.call, call) {
            return Some(noted.txid);
        }
    }
    None
}

fn is_same_call(a: &Call, b: &Call) -> bool
    ensures { result ≡ same_call a.now b.now }
{
    a.number == b.number && is_same_client(&a.client, &b.client)
}

fn is_same_client(a: &[u8; 16], b: &[u8; 16]) -> bool
    ensures { result ≡ same_text a.now b.now }
{
    a.as_slice() == b.as_slice()
}
