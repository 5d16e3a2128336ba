//! A report is judged.
ghost use Rattle.std.specs.Prelude.{◌<◌, ℕ, IfOk};
ghost use Rattle.mesh.specs.Agree.{operator_of};
ghost use Rattle.report_judge.specs.Judged.{JudgesLists, Judges, Places, IsJust};
ghost use Rattle.report_judge.specs.Reads.{IsMarkedIfAny};
ghost use Rattle.report_judge.specs.Complete.{Completes};

use crate::answer::{Lists, Reading};
use crate::judgement::Judgement;
use crate::place::finding_of;
use crate::whole::read_report;
use journal_core::OutOfMemory;
use mesh::{epoch_order_is_a_run, epoch_order_is_safe};
use mesh_judge::broken_part;
use std::alloc::Global;

/// What the lists of a report are judged.
pub fn judge_lists(alloc: Global, lists: &Lists) -> Result<Judgement, OutOfMemory>
    requires { (c : ℕ) → c < operator_of lists.now.mesh → IsMarkedIfAny lists.now.mesh c }
    ensures { IfOk result (λ j. JudgesLists lists.now j) }
{
    Ok(match broken_part(alloc, &lists.mesh)? {
        Some(part) => Judgement::Disagrees(finding_of(alloc, lists, part)?),
        None => Judgement::Agrees,
    })
}

/// Judges a report: whether it is that of lists that agree, with some marks, of lists that don't,
/// with whatever marks, with the first part that they break and where, or none, with the first line
/// that breaks a rule. Each of the three is told just where it is so. What its result lines claim
/// isn't judged, and neither is what positions and rows tell. `OutOfMemory` where there isn't memory
/// for the lists, for the texts of their requests, or to judge them.
#[tactic(auto, using(crate::proofs::Judgements::judged, crate::proofs::Judgements::placed, crate::proofs::Judgements::completed, crate::proofs::Verdicts::just))]
pub fn judge(alloc: Global, bytes: &[u8]) -> Result<Judgement, OutOfMemory>
    ensures judged { IfOk result (λ j. Judges bytes.now j) }
    ensures placed { IfOk result (λ j. Places bytes.now j) }
    ensures complete { IfOk result (λ j. Completes bytes.now j) }
    ensures just { IfOk result (λ j. IsJust bytes.now j) }
{
    epoch_order_is_a_run();
    epoch_order_is_safe();
    match read_report(alloc, bytes)? {
        Reading::Read(lists) => judge_lists(alloc, &lists),
        Reading::Bad { line, rule } => Ok(Judgement::Bad { line, rule }),
    }
}
