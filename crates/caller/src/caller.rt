//! A caller.
ghost use Rattle.std.specs.Prelude.{◌≡◌, ◌≤◌, [], true, IfOk, OnOk, OnErr, IsSome};
ghost use Rattle.journal_core.specs.Limits.{max_number};
ghost use Rattle.journal_core.specs.Peers.{FitsHeard};
ghost use Rattle.journal_history.specs.declared.record.Record.TheVariants.{Operator, Outcome};
ghost use Rattle.mesh.specs.Makers.{heard_of, IsOperation};
ghost use Rattle.mesh.specs.Marks.{IsMarked};
ghost use Rattle.play_calls.specs.Logs.{new_log, with_line, lose_call, mark_kind, earlier_call, IsCopied};
ghost use Rattle.caller.specs.Callers.{CallGoes, IsTold, IsCalledOver, AreLater};

use crate::wire::{CopyWire, OperatedWire, Wire};
use journal_core::{Bytes, Heard, OutOfMemory, Peers, SharedRequest};
use journal_history::{ListedRecord, NodeAsk, Told};
use play_calls::{CallerLog, Delivery, heard_of};
use std::alloc::Global;
use std::marker::Model;

/// A caller of the nodes that a wire leads to: what it lists of its calls, each of which is lost as
/// its marks say. Contracts see the wire and the list.
#[derive(Drop)]
pub struct Caller<W: Wire> {
    wire: W,
    log: CallerLog,
}

impl<W: Wire> Model for Caller<W> {
    ghost use Rattle.std.specs.Prelude.{◌≡◌};
    ghost use Rattle.caller.specs.Callers.{CallerView};

    ghost Value = { CallerView W };

    ghost view = { λ c. record { wire = c.wire; log = c.log } };

    ghost invariant = { λ c. c.log.nodes ≡ W.nodes c.wire };
}

/// The call goes over the wire, where it is delivered; what its caller is told. What is heard of
/// that fits the request.
#[tactic(auto, using(crate::proofs::CallLaws::tells))]
fn deliver<W: Wire>(
    alloc: Global,
    wire: &mut W,
    delivery: Delivery,
    node: usize,
    request: &SharedRequest,
) -> Result<Told, OutOfMemory>
    requires low { 1 ≤ node }
    requires high { node ≤ W.nodes wire.old }
    ensures told { IfOk result (λ told. IsTold delivery told) }
    ensures fits { IfOk result (λ told. FitsHeard request.now (heard_of told)) }
    ensures goes { IfOk result (λ told. CallGoes W.WireModel node request.now told wire.old wire.new) }
    ensures nodes { W.nodes wire.new ≡ W.nodes wire.old }
{
    match delivery {
        Delivery::NotDelivered => {
            wire.skip(node)?;
            Ok(Told::Dropped)
        }
        Delivery::ReplyLost => {
            let _ = wire.carry(alloc, node, request)?;
            Ok(Told::Muted)
        }
        Delivery::Delivered => match wire.carry(alloc, node, request)? {
            Heard::Answer(reply) => Ok(Told::Reply(reply)),
            Heard::Silent => Ok(Told::Silent),
        },
    }
}

/// A call over the wire, listed with what it was told.
fn call_over<W: Wire>(
    alloc: Global,
    wire: &mut W,
    log: &mut CallerLog,
    node: usize,
    request: SharedRequest,
) -> Result<Heard, OutOfMemory>
    requires low { 1 ≤ node }
    requires high { node ≤ log.old.nodes }
    requires there { log.old.nodes ≡ W.nodes wire.old }
    ensures called { IfOk result (λ heard. IsCalledOver W.WireModel node request heard log.old wire.old log.new wire.new) }
    ensures fits { IfOk result (λ heard. FitsHeard request heard) }
    ensures unlisted { OnErr result (log.new.past ≡ log.old.past) }
    ensures nodes { log.new.nodes ≡ log.old.nodes }
    ensures there { log.new.nodes ≡ W.nodes wire.new }
{
    let delivery = log.delivery(node)?;
    let told = deliver(alloc, wire, delivery, node, &request)?;
    let heard = heard_of(alloc, &told)?;
    log.call(node, request, told)?;
    Ok(heard)
}

/// Those of the nodes that a round asks whose next calls are delivered.
fn reached_of(alloc: Global, log: &CallerLog, asked: &[usize]) -> Result<Vec<usize>, OutOfMemory> {
    let mut nodes = Vec::new(alloc);
    for node in asked {
        let node = *node;
        if 1 <= node && node <= log.nodes() && log.delivery(node)? != Delivery::NotDelivered {
            nodes.push(node)?;
        }
    }
    Ok(nodes)
}

impl<W: Wire> Caller<W> {
    /// A caller over this wire that listed and marked this.
    pub fn of(wire: W, log: CallerLog) -> Caller<W>
        requires { log.nodes ≡ W.nodes wire }
        ensures { result ≡ record { wire = wire; log = log } }
    {
        Caller { wire, log }
    }

    /// Whether memory sufficed so far: then the record goes by the marks.
    pub fn is_whole(&self) -> bool
        ensures whole { result ≡ self.now.log.whole }
        ensures marked { self.now.log.whole ≡ true → IsMarked self.now.log.marks [] self.now.log.past }
    {
        self.log.is_whole()
    }

    /// The wire.
    pub fn wire(&self) -> &W
        ensures { result.now ≡ self.now.wire }
    {
        &self.wire
    }

    /// What was listed.
    pub fn records(&self) -> &[ListedRecord]
        ensures { result.now ≡ self.now.log.past }
    {
        self.log.records()
    }

    /// Marks the `next`-th next call to this node: its reply is lost, or it isn't delivered.
    pub fn lose_next(&mut self, node: usize, next: u64, mute: bool) -> Result<(), OutOfMemory>
        requires low { 1 ≤ node }
        requires high { node ≤ self.old.log.nodes }
        requires from_one { 1 ≤ next }
        requires in_range { next ≤ max_number }
        ensures marked { OnOk result (self.new.log ≡ lose_call self.old.log node next (mark_kind mute)) }
        ensures later { OnOk result (AreLater W.WireModel self.old self.new) }
    {
        if mute {
            self.log.mute_next(node, next)
        } else {
            self.log.drop_next(node, next)
        }
    }

    /// Lists a result.
    pub fn say(&mut self, text: Bytes) -> Result<(), OutOfMemory>
        ensures said { OnOk result (self.new.log ≡ with_line self.old.log (Outcome text)) }
        ensures later { OnOk result (AreLater W.WireModel self.old self.new) }
    {
        self.log.say(text)
    }

    /// The wire, and what was listed and marked.
    pub fn into_parts(self) -> (W, CallerLog)
        ensures wire { result.0 ≡ self.wire }
        ensures log { result.1 ≡ self.log }
        ensures nodes { result.1.nodes ≡ W.nodes result.0 }
    {
        let Caller { wire, log } = self;
        (wire, log)
    }
}

impl<W: Wire + Drop> Caller<W> {
    /// A caller over this wire who made no call.
    pub fn new(alloc: Global, wire: W) -> Result<Caller<W>, OutOfMemory>
        ensures { IfOk result (λ c. c ≡ record { wire = wire; log = new_log (W.nodes wire) true }) }
    {
        let log = CallerLog::new(alloc, wire.count())?;
        Ok(Caller { wire, log })
    }
}

impl<W: CopyWire> Caller<W> {
    /// A copy of the call with this number to this node reaches the node; false where there was no
    /// such call. Where memory sufficed so far it is wanted only of a call that there was.
    pub fn copy(&mut self, alloc: Global, node: usize, number: u64) -> Result<bool, OutOfMemory>
        requires low { 1 ≤ node }
        requires high { node ≤ self.old.log.nodes }
        requires from_one { 1 ≤ number }
        ensures copied { IfOk result (λ made. IsCopied (earlier_call self.old.log node number) self.old.log node number made self.new.log) }
        ensures later { OnOk result (AreLater W.WireModel self.old self.new) }
        ensures memory { OnErr result (self.old.log.whole ≡ true → IsSome (earlier_call self.old.log node number)) }
    {
        let Some(request) = self.log.earlier(node, number)? else {
            return Ok(false);
        };
        self.wire.copy(alloc, node, &request)?;
        self.log.copy(node, number, request)?;
        Ok(true)
    }
}

impl<W: OperatedWire> Caller<W> {
    /// What the operator does to a node, listed; whether it took place.
    pub fn operate(&mut self, node: usize, asked: NodeAsk) -> Result<bool, OutOfMemory>
        requires low { 1 ≤ node }
        requires high { node ≤ self.old.log.nodes }
        requires operation { IsOperation asked }
        ensures ok { IfOk result (λ done. self.new.log ≡ with_line self.old.log (Operator node asked done)) }
        ensures later { OnOk result (AreLater W.WireModel self.old self.new) }
    {
        let done = self.wire.operate(node, &asked)?;
        self.log.operate(node, asked, done)?;
        Ok(done)
    }
}

impl<W: Wire> Peers for Caller<W> {
    ghost use Rattle.play_calls.specs.Logs.{calls_in};
    ghost use Rattle.caller.specs.LaterLaws.{AreCalled, called_none, called_on};

    ghost calls = { λ c. calls_in c.log.past };

    ghost nodes = { λ c. c.log.nodes };

    ghost called = { λ old new. AreCalled W.WireModel old new };

    fn nodes(&self) -> usize {
        self.log.nodes()
    }

    fn call(
        &mut self,
        alloc: Global,
        node: usize,
        request: SharedRequest,
    ) -> Result<Heard, OutOfMemory> {
        call_over(alloc, &mut self.wire, &mut self.log, node, request)
    }

    fn has_ahead(&self) -> bool {
        self.wire.has_ahead()
    }

    fn announce(
        &mut self,
        alloc: Global,
        asked: &[usize],
        request: &SharedRequest,
    ) -> Result<(), OutOfMemory> {
        let reached = reached_of(alloc, &self.log, asked)?;
        self.wire.ready(alloc, &reached, request)
    }

    ghost called_none = { λ c. called_none W.WireModel W.readies_none c };

    ghost called_on = { λ r s t a b. called_on W.WireModel W.readies_on r s t a b };
}
