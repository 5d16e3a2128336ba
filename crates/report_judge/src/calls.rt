//! A line of a node that its caller doesn't list so, or the other way round.
ghost use Rattle.std.specs.Prelude.{IfOk, MatchOption};
ghost use Rattle.mesh_judge.specs.declared.part.Part.TheVariants as part;
ghost use Rattle.mesh_judge.specs.Broken.{Keeps};
ghost use Rattle.mesh_judge.specs.Matching.{IsUnlike};
ghost use Rattle.mesh_judge.specs.Parts.{IsSized, RecordsWithin, HistoriesWithin};
ghost use Rattle.report_judge.specs.Places.{IsBrokenAt};

use crate::place::{ListOf, Place};
use journal_core::OutOfMemory;
use mesh::Mesh;
use mesh_judge::{Unlike, unlike_line};
use std::alloc::Global;

/// The place of such a line.
fn place_at(unlike: Unlike, mesh: &Mesh) -> Place
    requires { IsUnlike mesh.now unlike }
    ensures { IsBrokenAt part.Calls mesh.now result.list result.line }
{
    match unlike {
        Unlike::AtNode { node, line } => Place {
            list: ListOf::Node(node),
            line,
        },
        Unlike::AtCaller { caller, line } => Place {
            list: ListOf::Caller(caller),
            line,
        },
    }
}

/// The first line of a node that its caller doesn't list so, or of a caller that the node lacks, or
/// none where both list the same.
pub(crate) fn unlike_place(alloc: Global, mesh: &Mesh) -> Result<Option<Place>, OutOfMemory>
    requires sized { IsSized mesh.now }
    requires within { RecordsWithin mesh.now }
    requires callers { HistoriesWithin mesh.now }
    ensures { IfOk result (λ found. MatchOption found (Keeps part.Calls mesh.now) (λ p. IsBrokenAt part.Calls mesh.now p.list p.line)) }
{
    match unlike_line(alloc, mesh)? {
        Some(unlike) => Ok(Some(place_at(unlike, mesh))),
        None => Ok(None),
    }
}
