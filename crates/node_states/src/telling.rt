//! The lines of turns.
ghost use Rattle.std.specs.Prelude.{◌≡◌, ◌+◌, ◌++◌, ◌<◌, ◌^◌, [], length, map, codes, slice_get, slice_index_or, Some, None, IfOk, OnOk};
ghost use Rattle.std.specs.Option.{option_copied};
ghost use Rattle.journal_core.specs.declared.node_state.NodeState.{NodeState};
ghost use Rattle.std.specs.List.{flat_map};
ghost use Rattle.mesh.specs.Agree.{Agrees};
ghost use Rattle.ns_tree.specs.declared.end.End.{End};
ghost use Rattle.journal_history.specs.Listed.{shown_line};
ghost use Rattle.play_report.specs.Text.{caller_name};
ghost use Rattle.node_states.specs.Fields.{key_text, quoted, plain, array_text};
ghost use Rattle.node_states.specs.Asks.{ask_text};
ghost use Rattle.node_states.specs.Answers.{answer_text};
ghost use Rattle.node_states.specs.Lines.{record_at};
ghost use Rattle.node_states.specs.Steps.{history_line, left_at, states_then, fresh_states};
ghost use Rattle.node_states.specs.Texts.{way_word, front_text, asked_text, moved_text, node_line_text, listed_text, recorded_text, turn_text, turns_text, head_text, states_text};
ghost use Rattle.node_states.specs.Turns.{turns};

use crate::answers::put_answer;
use crate::asks::put_ask;
use crate::fields::{put_first, put_key, put_number, put_plain};
use crate::lines::record_at;
use crate::node_line::NodeLine;
use crate::record_texts::{put_end, put_front, put_node, put_record_line, way_word};
use crate::state_texts::put_moved;
use crate::turn::Turn;
use crate::turns::turns_of;
use journal_core::OutOfMemory;
use journal_history::{HistoryList, LentLine, ListedLine, NodeAnswer};
use journal_step::PlainNode;
use ns_tree::End;
use play_report::caller_name;
use report_judge::Lists;
use std::alloc::Global;

/// The lines so far, and the nodes as they stand then.
#[derive(Drop)]
struct Telling {
    text: Vec<u8>,
    nodes: Vec<PlainNode>,
}

/// What was asked of a node, and what it answered.
fn put_listed(
    out: &mut Vec<u8>,
    ends: &[End],
    number: u64,
    line: &NodeLine,
    listed: LentLine<'_>,
) -> Result<(), OutOfMemory>
    requires { line.now.index + 1 < 2 ^ 64 }
    ensures { OnOk result (out.new.items ≡ out.old.items ++ (front_text number (caller_name ends.now (shown_line listed.entry).caller) (way_word (shown_line listed.entry).ask line.now.reach.is_muted (shown_line listed.entry).answer)
        ++ (asked_text (line.now.index + 1) (ask_text (shown_line listed.entry).ask) ++ (key_text (codes "answer") ++ answer_text (shown_line listed.entry).answer)))) }
{
    let name = caller_name(ends, listed.caller as usize);
    let way = way_word(listed.ask, line.reach.is_muted, listed.answer);
    put_front(out, number, name, way)?;
    put_node(out, line.index as u64 + 1)?;
    put_ask(out, listed.ask)?;
    put_key(out, b"answer")?;
    put_answer(out, listed.answer)
}

/// The line of a history.
fn history_line<'a>(histories: &'a [HistoryList], line: &NodeLine) -> Option<&'a ListedLine>
    ensures { option_copied result ≡ slice_get (slice_index_or histories.now line.now.index []) line.now.line }
{
    match histories.get(line.index) {
        Some(history) => history.as_slice().get(line.line),
        None => None,
    }
}

/// A line moves its node, if it does; its state then, and what became of its segments.
#[tactic(auto, unfolding(crate::specs::Texts::moved_text))]
fn put_left(
    alloc: Global,
    telling: &mut Telling,
    line: &NodeLine,
    listed: LentLine<'_>,
) -> Result<(), OutOfMemory>
    requires { line.now.index < length telling.old.nodes.items }
    ensures text { (s : NodeState) → slice_get telling.old.nodes.items line.now.index ≡ Some s
        → OnOk result (telling.new.text.items ≡ telling.old.text.items ++ moved_text line.now.is_moving s (shown_line listed.entry)) }
    ensures nodes { (s : NodeState) → slice_get telling.old.nodes.items line.now.index ≡ Some s
        → OnOk result (telling.new.nodes.items ≡ left_at telling.old.nodes.items line.now (Some s) (Some (shown_line listed.entry))) }
{
    if !line.is_moving {
        return Ok(());
    }
    put_moved(
        alloc,
        &mut telling.text,
        &mut telling.nodes[line.index],
        listed,
    )
}

/// The line of a history.
#[tactic(auto, unfolding(crate::specs::Texts::node_line_text, crate::specs::Texts::turn_text, crate::specs::Steps::states_then))]
fn put_node_line(
    alloc: Global,
    telling: &mut Telling,
    lists: &Lists,
    number: u64,
    line: &NodeLine,
) -> Result<(), OutOfMemory>
    ensures text { OnOk result (telling.new.text.items ≡ telling.old.text.items ++ turn_text lists.now.mesh lists.now.ends number telling.old.nodes.items (Turn.OfNode line.now)) }
    ensures nodes { OnOk result (telling.new.nodes.items ≡ states_then lists.now.mesh telling.old.nodes.items (Turn.OfNode line.now)) }
{
    let Some(listed) = history_line(lists.mesh.histories.as_slice(), line) else {
        return Ok(());
    };
    if line.index >= telling.nodes.len() {
        return Ok(());
    }
    let ok = NodeAnswer::OK;
    let lent = listed.lend(&ok);
    put_listed(&mut telling.text, lists.ends.as_slice(), number, line, lent)?;
    put_left(alloc, telling, line, lent)?;
    put_end(&mut telling.text)
}

/// The line of a caller's record that reached no node.
fn put_caller_line(
    out: &mut Vec<u8>,
    lists: &Lists,
    number: u64,
    caller: usize,
    line: usize,
) -> Result<(), OutOfMemory>
    ensures { OnOk result (out.new.items ≡ out.old.items ++ recorded_text (caller_name lists.now.ends caller) number (slice_get (record_at lists.now.mesh.records caller) line)) }
{
    let record = record_at(lists.mesh.records.as_slice(), caller);
    let Some(listed) = record.get(line) else {
        return Ok(());
    };
    let name = caller_name(lists.ends.as_slice(), caller);
    put_record_line(out, name, number, listed)
}

/// The line of a turn, which may move a node.
#[tactic(auto, unfolding(crate::specs::Texts::turn_text, crate::specs::Steps::states_then))]
fn put_turn(
    alloc: Global,
    telling: &mut Telling,
    lists: &Lists,
    number: u64,
    turn: &Turn,
) -> Result<(), OutOfMemory>
    ensures text { OnOk result (telling.new.text.items ≡ telling.old.text.items ++ turn_text lists.now.mesh lists.now.ends number telling.old.nodes.items turn.now) }
    ensures nodes { OnOk result (telling.new.nodes.items ≡ states_then lists.now.mesh telling.old.nodes.items turn.now) }
{
    match turn {
        Turn::OfNode(line) => put_node_line(alloc, telling, lists, number, line),
        Turn::OfCaller { caller, line } => {
            put_caller_line(&mut telling.text, lists, number, *caller, *line)
        }
    }
}

/// The lines of turns, numbered from 1.
fn put_turns(
    alloc: Global,
    telling: &mut Telling,
    lists: &Lists,
    turns: &[Turn],
) -> Result<(), OutOfMemory>
    ensures { OnOk result (telling.new.text.items ≡ telling.old.text.items ++ turns_text lists.now.mesh lists.now.ends 1 telling.old.nodes.items turns.now) }
{
    for (index, turn) in turns.iter().enumerate() {
        put_turn(alloc, telling, lists, index as u64 + 1, turn)?;
    }
    Ok(())
}

/// Names between quotes, each after a comma.
#[tactic(auto, using(crate::proofs::TellingLaws::names))]
fn put_other_names(out: &mut Vec<u8>, ends: &[End]) -> Result<(), OutOfMemory>
    ensures { OnOk result (out.new.items ≡ out.old.items ++ flat_map (λ other. codes "," ++ other) (map (λ e. quoted (plain e.name)) ends.now)) }
{
    for end in ends {
        out.extend_from_slice(b",")?;
        put_plain(out, end.name.as_slice())?;
    }
    Ok(())
}

/// An array of the actors' names.
fn put_names(out: &mut Vec<u8>, ends: &[End]) -> Result<(), OutOfMemory>
    ensures { OnOk result (out.new.items ≡ out.old.items ++ array_text (map (λ e. quoted (plain e.name)) ends.now)) }
{
    let Some((first, others)) = ends.split_first() else {
        return out.extend_from_slice(b"[]");
    };
    out.extend_from_slice(b"[")?;
    put_plain(out, first.name.as_slice())?;
    put_other_names(out, others)?;
    out.extend_from_slice(b"]")
}

/// The line before all events.
#[tactic(auto, unfolding(crate::specs::Texts::head_text))]
fn put_head(out: &mut Vec<u8>, nodes: u64, ends: &[End]) -> Result<(), OutOfMemory>
    ensures { OnOk result (out.new.items ≡ out.old.items ++ head_text nodes ends.now) }
{
    put_first(out, b"event", 0)?;
    put_number(out, b"nodes", nodes)?;
    put_key(out, b"actors")?;
    put_names(out, ends)?;
    put_end(out)
}

/// That many fresh nodes.
#[tactic(auto, using(std::proofs::lemmas::List::replicate_more))]
fn fresh_nodes(alloc: Global, count: usize) -> Result<Vec<PlainNode>, OutOfMemory>
    ensures { IfOk result (λ nodes. nodes.items ≡ fresh_states count) }
{
    let mut nodes = Vec::new(alloc);
    for _ in 0..count {
        nodes.push(PlainNode::new(alloc))?;
    }
    Ok(nodes)
}

/// All lines that tell the states of lists that agree.
#[tactic(auto, unfolding(crate::specs::Texts::states_text))]
pub(crate) fn states_text(alloc: Global, lists: &Lists) -> Result<Vec<u8>, OutOfMemory>
    requires { Agrees lists.now.mesh }
    ensures { IfOk result (λ text. text.items ≡ states_text lists.now.mesh lists.now.ends) }
{
    let turns = turns_of(alloc, &lists.mesh)?;
    let mut telling = Telling {
        text: Vec::new(alloc),
        nodes: fresh_nodes(alloc, lists.mesh.nodes)?,
    };
    put_head(
        &mut telling.text,
        lists.mesh.nodes as u64,
        lists.ends.as_slice(),
    )?;
    put_turns(alloc, &mut telling, lists, &turns)?;
    Ok(telling.text)
}
