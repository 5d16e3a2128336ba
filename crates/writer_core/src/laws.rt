//! Laws of the writer's rounds.
ghost use Rattle.writer_core.specs.Calls.{RoundsAreJudged, MajoritiesMeet};
ghost use Rattle.writer_core.specs.RoundCalls.{CallsAreNamed};
ghost use Rattle.writer_core.specs.Serials.{SerialsAreRounds};
ghost use Rattle.writer_core.specs.Heed.{OkAnswersDecide, OkAnswersLead};
ghost use Rattle.writer_core.specs.Left.{WritersAreLive, SomeoneIsCalled, CallsRunOut};
ghost use Rattle.writer_core.specs.Room.{RoomIsExact};
ghost use Rattle.writer_core.specs.Minorities.{AbortsAreMinorities, MinoritiesAbort};

/// The answers of a round, heard one by one, are the round judged whole.
pub fn rounds_are_judged()
    ensures { RoundsAreJudged }
{}

/// Two majorities share a node.
pub fn majorities_meet()
    ensures { MajoritiesMeet }
{}

/// A writer that is reached from a new one is live: some node isn't left out, and a round that is
/// under way has a call to make.
pub fn writers_are_live()
    ensures { WritersAreLive }
{}

/// While a round is under way some node is to be called.
pub fn someone_is_called()
    ensures { SomeoneIsCalled }
{}

/// Each answer leaves fewer calls to make.
pub fn calls_run_out()
    ensures { CallsRunOut }
{}

/// The serial of the round under way is the number of the round.
pub fn serials_are_rounds()
    ensures { SerialsAreRounds }
{}

/// Answers that aren't of the Ok kind enter nowhere.
pub fn ok_answers_decide()
    ensures { OkAnswersDecide }
{}

/// `next` names the calls of a round in order, whatever is heard between.
pub fn calls_are_named()
    ensures { CallsAreNamed }
{}

/// The requests of an epoch, and whom they go to, depend on the answers of the Ok kind alone.
pub fn ok_answers_lead()
    ensures { OkAnswersLead }
{}

/// A batch fits the open segment exactly where `room` says so.
pub fn room_is_exact()
    ensures { RoomIsExact }
{}

/// The causes of an aborted round tell of no majority that answered with the Ok kind.
pub fn aborts_are_minorities()
    ensures { AbortsAreMinorities }
{}

/// A round that no majority answers with the Ok kind is aborted at its last answer.
pub fn minorities_abort()
    ensures { MinoritiesAbort }
{}
