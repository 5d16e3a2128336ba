//! The report as a whole.
ghost use Rattle.std.specs.Prelude.{◌≡◌, ◌≢◌, IfNone, IfSome};
ghost use Rattle.ns_tree.specs.declared.end.End.{End};
ghost use Rattle.play_report.specs.Text.{node_text, nodes_text, actor_text, ended_text, actors_text, operator_text, text_of};

use crate::entries::{put_history, put_record};
use crate::expected::parting_of;
use crate::lasts::{put_last, put_numbered};
use crate::taker::{Printable, Taker};
use journal_history::{HistoryList, ListedLine, ListedRecord, RecordList};
use mesh::Mesh;
use ns_tree::{End, EndList};

/// A node's number, and its history.
#[tactic(auto, unfolding(crate::specs::Text::node_text))]
fn put_node<T: Taker>(out: &mut T, ends: &[End], node: u64, lines: &[ListedLine])
    ensures { T.adds out.old out.new (node_text ends.now node lines.now) }
{
    put_numbered(out, b"node", node);
    put_history(out, ends, lines);
}

/// The nodes in order, from number 1 on.
fn put_nodes<T: Taker>(out: &mut T, ends: &[End], histories: &[HistoryList])
    ensures { T.adds out.old out.new (nodes_text ends.now 1 histories.now) }
{
    for (index, history) in histories.iter().enumerate() {
        put_node(out, ends, index as u64 + 1, history.as_slice());
    }
}

/// A caller's name, and its record.
#[tactic(auto, unfolding(crate::specs::Text::actor_text))]
fn put_actor<T: Taker>(out: &mut T, name: &[u8], lines: &[ListedRecord])
    ensures { T.adds out.old out.new (actor_text name.now lines.now) }
{
    out.put(b"actor ");
    out.put(name);
    out.put(b"\n");
    put_record(out, lines);
}

/// An actor's name, its record, and what it holds at last.
#[tactic(auto, unfolding(crate::specs::Text::ended_text))]
fn put_ended<T: Taker>(out: &mut T, end: &End, lines: &[ListedRecord])
    ensures { T.adds out.old out.new (ended_text end.now lines.now) }
{
    put_actor(out, end.name.as_slice(), lines);
    put_last(out, &end.last);
}

/// The operator's record, where it isn't empty.
#[tactic(auto, unfolding(crate::specs::Text::operator_text))]
fn put_operator<T: Taker>(out: &mut T, records: &[RecordList])
    ensures { T.adds out.old out.new (operator_text records.now) }
{
    let [record, ..] = records else {
        return;
    };
    let lines = record.as_slice();
    if lines.is_empty() {
        return;
    }
    put_actor(out, b"ops", lines);
}

/// The actors in order of declaration, and then the operator.
fn put_actors<T: Taker>(out: &mut T, ends: &[End], records: &[RecordList])
    ensures { T.adds out.old out.new (actors_text ends.now records.now) }
{
    let mut rest = records;
    for end in ends {
        let Some((record, others)) = rest.split_first() else {
            return;
        };
        put_ended(out, end, record.as_slice());
        rest = others;
    }
    put_operator(out, rest);
}

/// All of a report.
#[tactic(auto, unfolding(crate::specs::Text::text_of))]
fn put_report<T: Taker>(out: &mut T, mesh: &Mesh, ends: &[End])
    ensures { T.adds out.old out.new (text_of mesh.now ends.now) }
{
    put_numbered(out, b"nodes", mesh.nodes as u64);
    put_nodes(out, ends, mesh.histories.as_slice());
    put_actors(out, ends, mesh.records.as_slice());
    out.put(b"end\n");
}

/// The report of what a play leaves: each node's history, and each actor's record and then the
/// operator's; the record of an actor with names ends with its position and its namespace's rows.
/// There is one end per actor.
#[derive(Drop)]
pub struct ReportText<'a> {
    pub mesh: &'a Mesh,
    pub ends: &'a EndList,
}

impl Printable for ReportText<'_> {
    ghost text = { λ r. text_of r.mesh.now r.ends.now };

    fn print<T: Taker>(&self, out: &mut T) {
        put_report(out, self.mesh, self.ends.as_slice());
    }
}

/// Where these bytes part from the report of what a play leaves, if they do: how many of them are
/// as the report's. It takes no memory.
pub fn parting(mesh: &Mesh, ends: &EndList, bytes: &[u8]) -> Option<usize>
    ensures same { IfNone result (bytes.now ≡ text_of mesh.now ends.now) }
    ensures parts { IfSome result (λ at. bytes.now ≢ text_of mesh.now ends.now) }
{
    parting_of(&ReportText { mesh, ends }, bytes)
}
