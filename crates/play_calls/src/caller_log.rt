//! A caller's record and its marks.
ghost use Rattle.std.specs.Prelude.{◌≡◌, ◌≤◌, ◌<◌, ◌+◌, ◌++◌, [], ℕ, OnOk, OnErr, IfOk, IsSome, Some, true, false, length, map, slice_index_or};
ghost use Rattle.journal_core.specs.Limits.{max_number};
ghost use Rattle.journal_history.specs.declared.mark.MarkKind.TheVariants as kind;
ghost use Rattle.journal_history.specs.declared.record.Record.TheVariants.{Call, Operator, Outcome};
ghost use Rattle.mesh.specs.Marks.{next_number, IsAsMarked, IsMarked, AreCopied};
ghost use Rattle.mesh.specs.Matches.{AreWithin};
ghost use Rattle.play_calls.specs.declared.calls_to.CallsTo.{CallsTo};
ghost use Rattle.play_calls.specs.Deliveries.{delivery};
ghost use Rattle.play_calls.specs.Indexes.{IsIndex};
ghost use Rattle.play_calls.specs.Logs.{new_log, with_line, lose_call, copy_call, earlier_call};

use crate::calls_to::CallsTo;
use crate::delivery::Delivery;
use journal_core::{Bytes, OutOfMemory, SharedRequest};
use journal_history::{ActorPlan, ListedRecord, Mark, MarkKind, NodeAsk, Record, RecordList, Told};
use std::alloc::{AllocError, Global};
use std::marker::Model;

/// What a caller has listed of its calls, its marks, and an index of both by node. It is let go by
/// one call wherever it is, which keeps proofs short.
pub struct CallerLog {
    past: RecordList,
    marks: ActorPlan,
    calls: Vec<CallsTo>,
    // false once memory ran out: the index may then differ from the record and the marks
    is_whole: bool,
}

impl Drop for CallerLog {
    fn drop(self) {
        let CallerLog {
            past,
            marks,
            calls,
            is_whole: _,
        } = self;
        drop(past);
        drop(marks);
        drop(calls);
    }
}

impl Model for CallerLog {
    ghost use Rattle.std.specs.Prelude.{◌≡◌, true, length};
    ghost use Rattle.play_calls.specs.Indexes.{AreIndexes};
    ghost use Rattle.play_calls.specs.Logs.{LogView, GoesBy};

    ghost Value = { LogView };

    ghost view = { λ l. record { nodes = length l.calls.items; past = l.past; marks = l.marks; whole = l.is_whole } };

    ghost invariant = { λ l. l.is_whole ≡ true → AreIndexes l.past l.marks l.calls.items × GoesBy (length l.calls.items) l.marks l.past };
}

/// As many nodes without calls.
fn no_calls(alloc: Global, nodes: usize) -> Result<Vec<CallsTo>, OutOfMemory>
    ensures count { IfOk result (λ calls. length calls.items ≡ nodes) }
    ensures each { IfOk result (λ calls. (i : ℕ) (d : CallsTo) → i < nodes → IsIndex (i + 1) [] [] (slice_index_or calls.items i d)) }
{
    let mut calls = Vec::with_capacity(alloc, nodes)?;
    for _ in 0..nodes {
        calls.push(CallsTo::new(alloc))?;
    }
    Ok(calls)
}

impl CallerLog {
    /// Nothing listed, nothing marked.
    pub fn new(alloc: Global, nodes: usize) -> Result<CallerLog, OutOfMemory>
        ensures { IfOk result (λ log. log ≡ new_log nodes true) }
    {
        Ok(CallerLog {
            past: RecordList::new(alloc),
            marks: ActorPlan::new(alloc),
            calls: no_calls(alloc, nodes)?,
            is_whole: true,
        })
    }

    /// Whether memory sufficed so far: then the record goes by the marks.
    pub fn is_whole(&self) -> bool
        ensures whole { result ≡ self.now.whole }
        ensures marked { self.now.whole ≡ true → IsMarked self.now.marks [] self.now.past }
    {
        self.is_whole
    }

    /// How many nodes there are.
    pub fn nodes(&self) -> usize
        ensures { result ≡ self.now.nodes }
    {
        self.calls.len()
    }

    /// What was listed.
    pub fn records(&self) -> &[ListedRecord]
        ensures { result.now ≡ self.now.past }
    {
        self.past.as_slice()
    }

    /// How the next call to this node goes. Takes no memory; an `Err` tells that it was wanted
    /// before.
    pub fn delivery(&self, node: usize) -> Result<Delivery, OutOfMemory>
        requires low { 1 ≤ node }
        requires high { node ≤ self.now.nodes }
        ensures goes { IfOk result (λ d. d ≡ delivery self.now.marks node (next_number node self.now.past)) }
        ensures whole { OnOk result (self.now.whole ≡ true) }
        ensures memory { OnErr result (self.now.whole ≡ false) }
    {
        if !self.is_whole {
            return Err(AllocError);
        }
        Ok(self.calls[node - 1].delivery())
    }

    /// Lists a call and what it was told, which is as the marks say.
    pub fn call(
        &mut self,
        node: usize,
        request: SharedRequest,
        told: Told,
    ) -> Result<(), OutOfMemory>
        requires low { 1 ≤ node }
        requires high { node ≤ self.old.nodes }
        requires as_marked { IsAsMarked self.old.marks node (next_number node self.old.past) told }
        ensures ok { OnOk result (self.new ≡ with_line self.old (Call node request told)) }
        ensures whole { OnOk result (self.new.whole ≡ true) }
        ensures err { OnErr result (self.new ≡ record self.old { whole = false }) }
    {
        if !self.is_whole {
            return Err(AllocError);
        }
        self.is_whole = false;
        let place = self.past.as_slice().len();
        self.calls[node - 1].push(place)?;
        self.past.push(Record::Call {
            node,
            request,
            told,
        })?;
        self.is_whole = true;
        Ok(())
    }

    /// Lists what the operator did to a node, and whether it took place.
    pub fn operate(&mut self, node: usize, ask: NodeAsk, done: bool) -> Result<(), OutOfMemory>
        requires low { 1 ≤ node }
        requires high { node ≤ self.old.nodes }
        ensures ok { OnOk result (self.new ≡ with_line self.old (Operator node ask done)) }
        ensures err { OnErr result (self.new ≡ record self.old { whole = false }) }
    {
        let is_whole = self.is_whole;
        self.is_whole = false;
        self.past.push(Record::Operator { node, ask, done })?;
        self.is_whole = is_whole;
        Ok(())
    }

    /// Memory was lacking elsewhere: the nodes have taken what isn't listed.
    pub fn spoil(&mut self)
        ensures { self.new ≡ record self.old { whole = false } }
    {
        self.is_whole = false;
    }

    /// Lists a result.
    pub fn say(&mut self, text: Bytes) -> Result<(), OutOfMemory>
        ensures ok { OnOk result (self.new ≡ with_line self.old (Outcome text)) }
        ensures err { OnErr result (self.new ≡ record self.old { whole = false }) }
    {
        let is_whole = self.is_whole;
        self.is_whole = false;
        self.past.push(Record::Outcome { text })?;
        self.is_whole = is_whole;
        Ok(())
    }

    /// The `next`-th next call to this node isn't delivered.
    pub fn drop_next(&mut self, node: usize, next: u64) -> Result<(), OutOfMemory>
        requires low { 1 ≤ node }
        requires high { node ≤ self.old.nodes }
        requires from_one { 1 ≤ next }
        requires in_range { next ≤ max_number }
        ensures ok { OnOk result (self.new ≡ lose_call self.old node next kind.Dropped) }
        ensures err { OnErr result (self.new ≡ record self.old { whole = false }) }
    {
        if !self.is_whole {
            return Err(AllocError);
        }
        self.is_whole = false;
        let number = self.calls[node - 1].drop_next(next)?;
        self.marks.push(Mark {
            node,
            number,
            kind: MarkKind::Dropped,
        })?;
        self.is_whole = true;
        Ok(())
    }

    /// The reply to the `next`-th next call to this node is lost.
    pub fn mute_next(&mut self, node: usize, next: u64) -> Result<(), OutOfMemory>
        requires low { 1 ≤ node }
        requires high { node ≤ self.old.nodes }
        requires from_one { 1 ≤ next }
        requires in_range { next ≤ max_number }
        ensures ok { OnOk result (self.new ≡ lose_call self.old node next kind.Muted) }
        ensures err { OnErr result (self.new ≡ record self.old { whole = false }) }
    {
        if !self.is_whole {
            return Err(AllocError);
        }
        self.is_whole = false;
        let number = self.calls[node - 1].mute_next(next)?;
        self.marks.push(Mark {
            node,
            number,
            kind: MarkKind::Muted,
        })?;
        self.is_whole = true;
        Ok(())
    }

    /// What the call with this number to this node asked, if there was one. Where memory sufficed
    /// so far it is wanted only then.
    pub fn earlier(&self, node: usize, number: u64) -> Result<Option<SharedRequest>, OutOfMemory>
        requires low { 1 ≤ node }
        requires high { node ≤ self.now.nodes }
        requires from_one { 1 ≤ number }
        ensures request { IfOk result (λ request. request ≡ earlier_call self.now node number) }
        ensures whole { OnOk result (self.now.whole ≡ true) }
        ensures memory { OnErr result (self.now.whole ≡ true → IsSome (earlier_call self.now node number)) }
    {
        if !self.is_whole {
            return Err(AllocError);
        }
        let request = self.calls[node - 1].earlier(self.past.as_slice(), number)?;
        Ok(request)
    }

    /// Lists a copy of the call with this number to this node, and marks that call.
    pub fn copy(
        &mut self,
        node: usize,
        number: u64,
        request: SharedRequest,
    ) -> Result<(), OutOfMemory>
        requires low { 1 ≤ node }
        requires high { node ≤ self.old.nodes }
        requires from_one { 1 ≤ number }
        requires made { earlier_call self.old node number ≡ Some request }
        ensures ok { OnOk result (self.new ≡ copy_call self.old node number request) }
        ensures err { OnErr result (self.new.whole ≡ false) }
        ensures err_nodes { OnErr result (self.new.nodes ≡ self.old.nodes) }
    {
        let is_whole = self.is_whole;
        self.is_whole = false;
        self.past.push(Record::Late { node, request })?;
        self.marks.push(Mark {
            node,
            number,
            kind: MarkKind::Late,
        })?;
        self.is_whole = is_whole;
        Ok(())
    }

    /// The record and the marks. Unless memory was lacking the record goes by the marks.
    pub fn into_parts(self) -> (RecordList, ActorPlan)
        ensures records { result.0 ≡ self.past }
        ensures plan { result.1 ≡ self.marks }
        ensures marked { self.whole ≡ true → IsMarked self.marks [] self.past }
        ensures copied { self.whole ≡ true → AreCopied self.marks self.past }
        ensures within { self.whole ≡ true → AreWithin self.nodes self.past }
    {
        let CallerLog {
            past,
            marks,
            calls: _,
            is_whole: _,
        } = self;
        (past, marks)
    }
}
