//! A worked report, computed by the check.
ghost use Rattle.std.specs.Prelude.{◌≡◌, Some, None};
ghost use Rattle.report_judge.specs.Reading.{lists_of};
ghost use Rattle.report_judge.specs.Worked.{worked_report, other_report, worked_lists};

/// The lists in a report of one node and one actor; in other bytes there are none.
pub fn lists_are_in_the_bytes()
    ensures report { lists_of worked_report ≡ Some worked_lists }
    ensures other { lists_of other_report ≡ None }
{}
