//! Worked examples of the definitions, computed by the check.
ghost use Rattle.writer_core.specs.Examples.{FirstTakeover, ThreeLogs, LostMajority, Recovery, SecondBest, NoFetch, FourOfNine, ProposedTwice, RollPurgeClose, EpochLimit, TooLong, FullSegment};
ghost use Rattle.writer_core.specs.RankExamples.{BestAnswers};

/// A first takeover over three nodes, with its requests.
pub fn first_takeover()
    ensures { FirstTakeover }
{}

/// Three logs, and what the nodes hold then.
pub fn three_logs()
    ensures { ThreeLogs }
{}

/// A log that no majority answers aborts, with a cause for each node.
pub fn lost_majority()
    ensures { LostMajority }
{}

/// A second writer recovers an edit that one node holds.
pub fn recovery()
    ensures { Recovery }
{}

/// The best answer is final, else of the latest epoch, else the longest.
pub fn best_answers()
    ensures { BestAnswers }
{}

/// A fetch that isn't answered, and the next best node.
pub fn second_best()
    ensures { SecondBest }
{}

/// Two of three fetches aren't answered.
pub fn no_fetch()
    ensures { NoFetch }
{}

/// Five of nine nodes are enough, and four aren't.
pub fn four_of_nine()
    ensures { FourOfNine }
{}

/// Two writers propose the same epoch.
pub fn proposed_twice()
    ensures { ProposedTwice }
{}

/// A roll, a purge and a close, with their requests.
pub fn roll_purge_close()
    ensures { RollPurgeClose }
{}

/// There is no epoch above the greatest number.
pub fn epoch_limit()
    ensures { EpochLimit }
{}

/// The limits of a log.
pub fn too_long()
    ensures { TooLong }
{}

/// The limit of a segment.
pub fn full_segment()
    ensures { FullSegment }
{}
