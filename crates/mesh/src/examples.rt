//! Worked meshes, computed by the check.
ghost use Rattle.std.specs.Prelude.{◌≡◌, List, []};
ghost use Rattle.journal_history.specs.Moving.{Placed};
ghost use Rattle.run_safety.specs.Run.{IsRun};
ghost use Rattle.mesh.specs.Agree.{Agrees};
ghost use Rattle.mesh.specs.Marks.{IsMarked, AreCopied};
ghost use Rattle.mesh.specs.Order.{epoch_order};
ghost use Rattle.mesh.specs.Traces.{IsTrace};
ghost use Rattle.mesh.specs.Examples.{crossed, crossed_order, empty_log, empty_order, tailed, tailed_order, two_marks, copied_once, copied_early};

/// Two takeovers that crossed at two nodes: all lists agree, no one order of all lines fits them,
/// and there is an epoch order.
pub fn shows_crossed_takeovers()
    ensures agrees { Agrees crossed }
    ensures no_order { (t : List Placed) → IsTrace crossed t → ⊥ }
    ensures epochs { epoch_order crossed ≡ crossed_order }
{}

/// A log without a body moves its node, but no run has it, so lists with one don't agree.
pub fn refuses_log_without_body()
    ensures order { epoch_order empty_log ≡ empty_order }
    ensures run { IsRun 1 empty_order → ⊥ }
    ensures agrees { Agrees empty_log → ⊥ }
{}

/// A caller that tails another one's log: all lists agree, and its reads aren't in the epoch order.
pub fn shows_tailing_caller()
    ensures agrees { Agrees tailed }
    ensures epochs { epoch_order tailed ≡ tailed_order }
{}

/// Two calls that ask the same are marked to be copied. One copy isn't enough, and two are none
/// where the second comes before the second call.
pub fn refuses_copies_without_a_mark_each()
    ensures few { AreCopied two_marks copied_once → ⊥ }
    ensures early { IsMarked two_marks [] copied_early → ⊥ }
{}
