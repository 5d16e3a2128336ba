//! Late marks and late copies agree in whatever order they stand, and a wrong mark is told.
use crate::plays::mesh_of;
use journal_core::OutOfMemory;
use journal_history::{ActorPlan, Mark, MarkKind, Plan};
use mesh::Mesh;
use mesh_judge::agrees;
use std::alloc::Global;
use std::test::Fail;

/// Copies of five calls to two nodes; the last two asked the same of one node.
const COPIES: &[u8] =
    b"raw 2\nwriter a\ntakeover a\nlog a 0a\nlate a 1 3\nlate a 2 2\nlog a 0b\nlate a 2 4\ntakeover a\n\
late a 1 1\nlate a 1 7\nlog a 0c\n";

/// The marks from the last to the first, but for the one that is left out.
fn turned(alloc: Global, marks: &[Mark], left_out: Option<Mark>) -> Result<ActorPlan, OutOfMemory> {
    let mut turned = ActorPlan::new(alloc);
    for mark in marks.iter().rev() {
        if Some(*mark) != left_out {
            turned.push(*mark)?;
        }
    }
    Ok(turned)
}

/// The plan's marks turned round, with one left out, and one more.
fn plan_turned(
    alloc: Global,
    plan: &Plan,
    left_out: Option<Mark>,
    more: Option<Mark>,
) -> Result<Plan, OutOfMemory> {
    let mut marks = Vec::new(alloc);
    for actor in plan.as_slice() {
        marks.extend_from_slice(actor.as_slice())?;
    }
    if let Some(mark) = more {
        marks.push(mark)?;
    }
    let mut whole = Plan::new(alloc);
    whole.push(turned(alloc, &marks, left_out)?)?;
    Ok(whole)
}

/// The mesh of the copies, with its marks turned round, one left out, and one more.
fn mesh_turned(alloc: Global, left_out: Option<Mark>, more: Option<Mark>) -> Result<Mesh, Fail> {
    let mut mesh = mesh_of(alloc, COPIES)?;
    match plan_turned(alloc, &mesh.plan, left_out, more) {
        Ok(plan) => {
            mesh.plan = plan;
            Ok(mesh)
        }
        Err(error) => Err(error.into()),
    }
}

fn late(node: usize, number: u64) -> Option<Mark> {
    Some(Mark {
        node,
        number,
        kind: MarkKind::Late,
    })
}

/// No call of the play is muted.
const MUTED: Mark = Mark {
    node: 2,
    number: 2,
    kind: MarkKind::Muted,
};

/// Each copy wants a mark of its own of what it asked, each mark of a call that was made wants a
/// copy of its own, and no call that was heard has a mark that mutes it.
#[test]
fn copies_have_marks_and_marks_copies(rt: HostRuntime) -> Result<(), Fail> {
    let alloc = rt.alloc();
    for (left_out, more, wanted) in [
        (None, None, true),
        (late(1, 3), None, false),
        (late(2, 2), None, false),
        (late(1, 1), None, false),
        (late(1, 7), None, false),
        (None, late(1, 1), false),
        (None, late(2, 3), false),
        (None, late(2, 99), true),
        (None, Some(MUTED), false),
    ] {
        let mesh = mesh_turned(alloc, left_out, more)?;
        let told = agrees(alloc, &mesh);
        drop(mesh);
        assert!(rt; told? == wanted);
    }
    Ok(())
}
