//! A report gets one verdict, and lists that agree are told to.
ghost use Rattle.report_judge.specs.Judged.{VerdictsExclude, AgreementIsTold};

/// No report is told to agree that is told to be bad, or to break a part.
#[tactic(auto, using(crate::proofs::Verdicts::exclude))]
pub fn verdicts_exclude_each_other()
    ensures { VerdictsExclude }
{}

/// The report of lists within the limits that agree is told to agree; what is told not to is the
/// report of no such lists.
#[tactic(auto, using(crate::proofs::Verdicts::agreement_told))]
pub fn agreement_is_told()
    ensures { AgreementIsTold }
{}
