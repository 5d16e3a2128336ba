//! A late copy of no call before it.
ghost use Rattle.std.specs.Prelude.{◌<◌, ℕ, [], IfOk, MatchOption};
ghost use Rattle.mesh.specs.Agree.{operator_of, record_of};
ghost use Rattle.mesh_judge.specs.declared.part.Part.TheVariants as part;
ghost use Rattle.mesh_judge.specs.Plans.{AreCalled};
ghost use Rattle.report_judge.specs.Places.{IsBrokenAt};

use crate::fronts::lines_of;
use crate::place::{ListOf, Place};
use journal_core::OutOfMemory;
use mesh::Mesh;
use mesh_judge::uncalled_line;
use std::alloc::Global;

/// The first late copy of no call before it, or none where each stands behind its call.
pub(crate) fn uncalled_copy(alloc: Global, mesh: &Mesh) -> Result<Option<Place>, OutOfMemory>
    ensures { IfOk result (λ found. MatchOption found ((c : ℕ) → c < operator_of mesh.now → AreCalled [] (record_of mesh.now c)) (λ p. IsBrokenAt part.Marks mesh.now p.list p.line)) }
{
    let records = mesh.records.as_slice();
    for caller in 0..mesh.plan.as_slice().len() {
        let uncalled = uncalled_line(alloc, lines_of(records, caller))?;
        if let Some(line) = uncalled {
            let list = ListOf::Caller(caller);
            return Ok(Some(Place { list, line }));
        }
    }
    Ok(None)
}
