//! Laws of the node step, of stops, kills and restarts, each proved for every state and every
//! request.
ghost use Rattle.journal_core.specs.Laws.{EventsAreParts, SoundStays, OpenSegmentIsLed, PromiseNeverFalls, AnsweredIsPromised, FinalStays, HeaderNeverFalls, NewestNeverFalls, RefusedAtOnceIsIdle, RefusedAfterLeavesFront, QuestionsAreIdle, StepIsItsEffects, StopAfterNothingIsKill, StopAfterAllIsStep};

/// All that happens to a node is done in parts: the front of a request, single durable effects,
/// what follows the last of them, going down, and coming up. So what each part keeps is kept by
/// every step, stop, kill and restart.
pub fn events_are_parts()
    ensures { EventsAreParts }
{}

/// What holds of every node, whatever happens to it: no epoch is above the promise, segments stand
/// by rising start, a final one holds an edit, and the open one is led by the promise.
pub fn sound_stays()
    ensures { SoundStays }
{}

/// The open segment of every node is in progress, and its header epoch is the promise.
pub fn open_segment_is_led()
    ensures { OpenSegmentIsLed }
{}

/// A promise never falls.
pub fn promise_never_falls()
    ensures { PromiseNeverFalls }
{}

/// An answer that isn't a refusal leaves the promise at the request's epoch.
pub fn answered_is_promised()
    ensures { AnsweredIsPromised }
{}

/// A final segment stands as it is, until a purge removes it.
pub fn final_stays()
    ensures { FinalStays }
{}

/// The header epoch of a segment never falls while it stands.
pub fn header_never_falls()
    ensures { HeaderNeverFalls }
{}

/// The newest start of a segment that holds an edit never falls, where an acceptance brings an
/// edit.
pub fn newest_never_falls()
    ensures { NewestNeverFalls }
{}

/// What is refused before the front changes nothing.
pub fn refused_at_once_is_idle()
    ensures { RefusedAtOnceIsIdle }
{}

/// What is refused after the front leaves what the front did, and nothing else.
pub fn refused_after_leaves_front()
    ensures { RefusedAfterLeavesFront }
{}

/// State, read and manifest change nothing.
pub fn questions_are_idle()
    ensures { QuestionsAreIdle }
{}

/// A step's effects make all the change to what is durable.
pub fn step_is_its_effects()
    ensures { StepIsItsEffects }
{}

/// A stop after no effect is a kill.
pub fn stop_after_nothing_is_kill()
    ensures { StopAfterNothingIsKill }
{}

/// A stop after all effects is the step, and a node that goes down.
pub fn stop_after_all_is_step()
    ensures { StopAfterAllIsStep }
{}
