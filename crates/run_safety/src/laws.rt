//! What holds of every run of the journal world. Each law is the contract of a function that does
//! nothing.
ghost use Rattle.run_safety.specs.Laws.{PrefixIsRun, MajoritiesShareANode, PromiseNeverFalls, UnmovedLeavesStates, EveryRunIsSafe, ChosenOnce, ChosenIsOnLine, LineGoesOn, ServedIsOnLine, KnownCommittedIsOnLine, CarriedCommittedIsOnLine, KnownCommittedIsChosen, CarriedCommittedIsChosen};
ghost use Rattle.run_safety.specs.Keeps.{OfEveryRun, OfEveryStory, KeepsParts};
ghost use Rattle.run_safety.specs.Parts.{PromisesHold, AnswersArePromised, OneOwnerAnEpoch, WrittenOnce, StartsAreChained, SegmentsAreChained, StartsAreNext, ChosenSurvives, StartsAreAbove, FinalisedIsChosen, NewestNeverFalls, RecoveryIsWhole, LineHasAuthors, LineIsPutByJournals, OpenedOrAccepted, ProposalsAreTold, OnlyPurgesRemove, FinalCopiesHaveAll, FinalCopiesAreKept, OpeningsHaveACause, FinalisedStays, EpochsArePromised, OneProposalAnEpoch, ProposerIsOwner, AcceptedIsTheValue, PurgesKeepTheirSegment};

/// What stood first in a run is a run.
pub fn prefix_is_run()
    ensures { PrefixIsRun }
{}

/// Two majorities of the same nodes share a node.
pub fn majorities_share_a_node()
    ensures { MajoritiesShareANode }
{}

/// A node's promise never falls, whatever comes.
pub fn promise_never_falls()
    ensures { PromiseNeverFalls }
{}

/// An entry that does not move its node leaves the states of all nodes.
pub fn unmoved_leaves_states()
    ensures { UnmovedLeavesStates }
{}

/// Every run is safe: each acknowledged edit is on the line, below each higher epoch's first start,
/// and in each higher epoch's recovered log that reaches back to it; final segments with one start
/// are equal.
pub fn every_run_is_safe()
    ensures { EveryRunIsSafe }
{}

/// All bodies that were chosen at one txid are equal, whatever the epochs.
pub fn chosen_once()
    ensures { ChosenOnce }
{}

/// Each chosen body is on the line.
pub fn chosen_is_on_line()
    ensures { ChosenIsOnLine }
{}

/// The line of a run begins with the line of what stood first in it.
pub fn line_goes_on()
    ensures { LineGoesOn }
{}

/// Each edit that a node serves is the line's at its txid.
pub fn served_is_on_line()
    ensures { ServedIsOnLine }
{}

/// Each txid up to the one that a node knows to be committed is on the line.
pub fn known_committed_is_on_line()
    ensures { KnownCommittedIsOnLine }
{}

/// Each txid up to the one that a request carries as committed is on the line.
pub fn carried_committed_is_on_line()
    ensures { CarriedCommittedIsOnLine }
{}

/// Each txid up to the one that a node knows to be committed is chosen, under an epoch that its
/// promise isn't below.
pub fn known_committed_is_chosen()
    ensures { OfEveryRun KnownCommittedIsChosen }
{}

/// Each txid up to the one that a request carries as committed is chosen, under an epoch that isn't
/// above the request's.
pub fn carried_committed_is_chosen()
    ensures { OfEveryRun CarriedCommittedIsChosen }
{}

/// After whatever came, a node's promise bounds its writer epoch and each header that it holds, and
/// its open segment has the promise.
pub fn promises_hold()
    ensures { PromisesHold }
{}

/// A request that a node answered without a refusal leaves a promise of at least its epoch.
pub fn answers_are_promised()
    ensures { OfEveryRun AnswersArePromised }
{}

/// All requests with a head of one epoch belong to one takeover.
pub fn one_owner_an_epoch()
    ensures { OfEveryStory OneOwnerAnEpoch }
{}

/// Under one epoch a txid is written once, in one segment.
pub fn written_once()
    ensures { OfEveryRun WrittenOnce }
{}

/// Each segment that is begun starts at 1 or right after the end of a finalise that was done under
/// its epoch or a lower one.
pub fn starts_are_chained()
    ensures { OfEveryRun StartsAreChained }
{}

/// So does each segment with an edit that a node held.
pub fn segments_are_chained()
    ensures { OfEveryRun SegmentsAreChained }
{}

/// Between the start of a segment for which a finalise was done and its end no other segment
/// begins: so each start comes right after the end of the start before it.
pub fn starts_are_next()
    ensures { OfEveryRun StartsAreNext }
{}

/// What is chosen stands in each segment of a higher epoch that does not begin above it.
pub fn chosen_survives()
    ensures { OfEveryRun ChosenSurvives }
{}

/// A higher epoch begins its segments above what is chosen.
pub fn starts_are_above()
    ensures { OfEveryRun StartsAreAbove }
{}

/// All of a segment for which a finalise came is chosen, under its epoch or a lower one.
pub fn finalised_is_chosen()
    ensures { OfEveryRun FinalisedIsChosen }
{}

/// The newest start of a node never falls.
pub fn newest_never_falls()
    ensures { NewestNeverFalls }
{}

/// What is accepted is the whole segment that the node of the best prepare answer held when it
/// answered.
pub fn recovery_is_whole()
    ensures { OfEveryRun RecoveryIsWhole }
{}

/// What is on the line has an author: an epoch whose owner journaled all from its first start to
/// there, as it stands on the line.
pub fn line_has_authors()
    ensures { OfEveryRun LineHasAuthors }
{}

/// What is on the line was put there by a `journal` request whose whole batch up to it stands on
/// the line.
pub fn line_is_put_by_journals()
    ensures { OfEveryRun LineIsPutByJournals }
{}

/// No epoch both opens a segment and recovers it.
pub fn segments_are_opened_or_accepted()
    ensures { OfEveryRun OpenedOrAccepted }
{}

/// Where a body is chosen, each majority that answered a proposal of a higher epoch tells a start
/// that isn't below its segment's.
pub fn proposals_are_told()
    ensures { OfEveryRun ProposalsAreTold }
{}

/// A segment goes from a node by a purge alone, whose committed txid it doesn't pass; the newest
/// with an edit stays.
pub fn only_purges_remove()
    ensures { OfEveryRun OnlyPurgesRemove }
{}

/// A final copy of a segment has all that any node held of it under the same epoch.
pub fn final_copies_have_all()
    ensures { OfEveryRun FinalCopiesHaveAll }
{}

/// What a node holds of a segment under a higher epoch than that of a final copy is that copy.
pub fn final_copies_are_kept()
    ensures { OfEveryRun FinalCopiesAreKept }
{}

/// A takeover leaves its recovery out only where a majority told that there is nothing to recover;
/// each later segment comes right after a finalise that was done under the same epoch.
pub fn openings_have_a_cause()
    ensures { OfEveryRun OpeningsHaveACause }
{}

/// A node that answered a finalise with Ok holds the segment, final and to that end, unless a later
/// start has an acknowledged edit under an epoch that isn't above the node's promise.
pub fn finalised_stays()
    ensures { OfEveryRun FinalisedStays }
{}

/// A proposal that a node took was above its promise, is its promise then, and bounds it from below
/// ever after.
pub fn epochs_are_promised()
    ensures { OfEveryRun EpochsArePromised }
{}

/// Proposals of one epoch that majorities took are one takeover's, and so are all requests with a
/// head of that epoch.
pub fn one_proposal_an_epoch()
    ensures one { OfEveryStory OneProposalAnEpoch }
    ensures owner { OfEveryStory ProposerIsOwner }
{}

/// What a node holds of a segment under an epoch that recovered it is the batch that was accepted.
pub fn accepted_is_the_value()
    ensures { OfEveryRun AcceptedIsTheValue }
{}

/// A purge removes copies of segments before the one that it is sent from, or copies of that one in
/// progress that end within its committed txid: no final copy of it, and none of a later segment.
pub fn purges_keep_their_segment()
    ensures { OfEveryStory PurgesKeepTheirSegment }
{}

/// Every run keeps all of these parts: promises, owners, values, the chain of starts, survival,
/// finalised segments, the newest start, what a purge spares and what a recovery takes over.
pub fn every_run_keeps_its_parts()
    ensures { OfEveryRun KeepsParts }
{}
