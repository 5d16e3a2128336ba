//! The desk of a caller: its ends of all lines.
ghost use Rattle.std.specs.Prelude.{◌≡◌, [], ◌≤◌, true, false, List, map, length, vec_capacity, Ok, IfOk};
ghost use Rattle.std.specs.List.{All};
ghost use Rattle.journal_core.specs.Peers.{FitsHeard};
ghost use Rattle.play_pipes.specs.Calls.{Answer, gained};
ghost use Rattle.play_pipes.specs.Desks.{AreNodes, HasPut, HasHeard};

use crate::end::End;
use crate::line::Line;
use journal_core::{Heard, OutOfMemory, SharedRequest};
use std::alloc::{AllocError, Global};
use std::marker::Model;
use std::sync::Wait;

/// Puts the request into the pipe of each of these nodes, in order; how many of them it reached
/// before memory was wanting.
fn put_all<L: Line, R: Wait>(
    rt: &R,
    ends: &mut Vec<End<L>>,
    nodes: &[usize],
    request: &SharedRequest,
) -> usize
    requires nodes { AreNodes (length ends.old.items) nodes.now }
    requires rest { All (λ e. e.waiting ≡ []) ends.old.items }
    ensures few { result ≤ length nodes.now }
    ensures put { HasPut nodes.now request.now result ends.old.items ends.new.items }
{
    let mut count = 0;
    for k in 0..nodes.len() {
        let Ok(share) = request.share() else {
            return count;
        };
        let node = nodes[k];
        ends[node - 1].put(rt, share);
        count = k + 1;
    }
    count
}

/// What was asked: this request, of the first of these nodes, so many.
#[derive(Drop)]
struct Asked<'a> {
    nodes: &'a [usize],
    count: usize,
    request: &'a SharedRequest,
}

/// Takes the answers of those that were asked, in order, and whether memory was wanting for any.
fn hear_all<L: Line, R: Wait>(
    rt: &R,
    alloc: Global,
    ends: &mut Vec<End<L>>,
    asked: &Asked<'_>,
    heards: Vec<Heard>,
) -> (Vec<Heard>, bool)
    requires empty { heards.items ≡ [] }
    requires room { asked.now.count ≤ vec_capacity heards }
    requires nodes { AreNodes (length ends.old.items) asked.now.nodes.now }
    requires few { asked.now.count ≤ length asked.now.nodes.now }
    requires ready { HasHeard asked.now.nodes.now asked.now.request.now asked.now.count [] ends.old.items ends.old.items }
    ensures fits { All (λ heard. FitsHeard asked.now.request.now heard) result.0.items }
    ensures heard { (answers : List Answer) × (length answers ≡ asked.now.count) × HasHeard asked.now.nodes.now asked.now.request.now asked.now.count answers ends.old.items ends.new.items × (result.1 ≡ false → answers ≡ map (λ h. Ok h) result.0.items) }
{
    let mut heards = heards;
    let mut lacking = false;
    for k in 0..asked.count {
        let node = asked.nodes[k];
        let Ok(heard) = ends[node - 1].hear(rt, alloc, asked.request) else {
            lacking = true;
            continue;
        };
        heards.push_reserved(heard);
    }
    (heards, lacking)
}

/// A caller's ends of all lines, node by node. Contracts see it as the calls that each line had
/// made before, and those that it made since, with what was heard of each.
#[derive(Drop)]
pub struct Desk<L: Line> {
    ends: Vec<End<L>>,
}

impl<L: Line> Model for Desk<L> {
    ghost use Rattle.std.specs.Prelude.{◌≡◌, [], map};
    ghost use Rattle.std.specs.List.{All};
    ghost use Rattle.play_pipes.specs.Desks.{DeskView};

    ghost Value = { DeskView };

    ghost view = { λ d. record { starts = map (λ e. e.start) d.ends.items; lists = map (λ e. e.told) d.ends.items } };

    ghost invariant = { λ d. All (λ e. e.waiting ≡ []) d.ends.items };
}

impl<L: Line> Desk<L> {
    /// A desk with these ends, at each of which nothing is asked.
    pub(crate) fn new(ends: Vec<End<L>>) -> Desk<L>
        requires { All (λ e. e.waiting ≡ []) ends.items }
        ensures { result ≡ record { starts = map (λ e. e.start) ends.items; lists = map (λ e. e.told) ends.items } }
    {
        Desk { ends }
    }

    /// Its ends.
    pub(crate) fn into_ends(self) -> Vec<End<L>>
        ensures starts { map (λ e. e.start) result.items ≡ self.starts }
        ensures lists { map (λ e. e.told) result.items ≡ self.lists }
        ensures rest { All (λ e. e.waiting ≡ []) result.items }
    {
        let Desk { ends } = self;
        ends
    }

    /// For how many nodes it has a line.
    pub fn nodes(&self) -> usize
        ensures lists { result ≡ length self.now.lists }
        ensures starts { result ≡ length self.now.starts }
    {
        self.ends.len()
    }

    /// Asks each of these nodes, by rising numbers from 1: the request goes into all their pipes,
    /// and then the answers are taken in order. `OutOfMemory` where memory was wanting for any; the
    /// others' calls are listed all the same.
    pub fn call_all<R: Wait>(
        &mut self,
        rt: &R,
        alloc: Global,
        nodes: &[usize],
        request: &SharedRequest,
    ) -> Result<Vec<Heard>, OutOfMemory>
        requires { AreNodes (length self.old.lists) nodes.now }
        ensures fits { IfOk result (λ heards. All (λ heard. FitsHeard request.now heard) heards.items) }
        ensures starts { self.new.starts ≡ self.old.starts }
        ensures lists { (answers : List Answer) × (self.new.lists ≡ gained nodes.now request.now answers self.old.lists) × IfOk result (λ heards. (answers ≡ map (λ h. Ok h) heards.items) × (length heards.items ≡ length nodes.now)) }
    {
        let heards = Vec::with_capacity(alloc, nodes.len())?;
        let count = put_all(rt, &mut self.ends, nodes, request);
        let asked = Asked {
            nodes,
            count,
            request,
        };
        let (heards, lacking) = hear_all(rt, alloc, &mut self.ends, &asked, heards);
        if lacking || count < nodes.len() {
            return Err(AllocError);
        }
        Ok(heards)
    }
}
