//! What holds of every mesh that follows a script with names, in any linear order of its moving
//! entries; and of the actors of every script.
ghost use Rattle.play_laws.specs.Linear.{ReadsAreOnLine, ActorsHoldReplays, LogsAreAdmitted, LineReplays, NoneBreaks, LineCallsApart};
ghost use Rattle.play_laws.specs.Finals.{FinalsAreOnLine};
ghost use Rattle.play_laws.specs.EndReads.{EndReadsAreOnLine};
ghost use Rattle.play_laws.specs.ImagesLeft.{ImagesAreLeft};
ghost use Rattle.play_laws.specs.Laws.{EpochOrderIsLinear, PlayIsLinear, NamesAreSafe, EpochOrderIsSafe, PlaysAreSafe, NamesAreKept, EditsHaveOneResult, ResultsTellAcknowledged};

/// The epoch order of every mesh that agrees is linear, and so is the order in which the entries of
/// a play came.
pub fn orders_are_linear()
    ensures epochs { EpochOrderIsLinear }
    ensures play { PlayIsLinear }
{}

/// Acknowledged edits survive, finalised segments agree, and each actor ends with the replay of the
/// first entries of the line.
pub fn names_are_safe()
    ensures { NamesAreSafe }
{}

/// So it is in the epoch order of every mesh that agrees.
pub fn epoch_order_is_safe()
    ensures { EpochOrderIsSafe }
{}

/// What a read gave stands on the line.
pub fn reads_are_on_line()
    ensures { ReadsAreOnLine }
{}

/// At every moment an actor and its images hold replays of the first entries of the line.
pub fn actors_hold_replays()
    ensures { ActorsHoldReplays }
{}

/// What an actor logs is admitted after the replay of all that stands on the line before it.
pub fn logs_are_admitted()
    ensures { LogsAreAdmitted }
{}

/// The line replays, up to each of its txids.
pub fn line_replays()
    ensures { LineReplays }
{}

/// No actor meets a bad entry.
pub fn none_breaks()
    ensures { NoneBreaks }
{}

/// Two entries of the line with one call have at least 1,024 entries with a call between them.
pub fn line_calls_apart()
    ensures { LineCallsApart }
{}

/// Each play of a script with names is safe, in the order in which its entries came and in the
/// order of the epochs.
pub fn plays_are_safe()
    ensures { PlaysAreSafe }
{}

/// What an actor logs is admitted, nobody meets a bad entry, images are those of the line, the line
/// replays, and two of its entries with one call are far apart: in the epoch order of every mesh
/// that agrees.
pub fn names_are_kept()
    ensures { NamesAreKept }
{}

/// Each edit of a log line has one result line, with names or without.
pub fn edits_have_one_result()
    ensures { EditsHaveOneResult }
{}

/// What a result line claims is acknowledged, and so stands on the line.
pub fn results_tell_acknowledged()
    ensures { ResultsTellAcknowledged }
{}

/// The images that the actors of a play leave, a disk for each, are the line's in the order of the
/// epochs, and the newest of each is that of the greatest txid that it told of a checkpoint.
pub fn images_are_left()
    ensures { ImagesAreLeft }
{}

/// Each edit of a final segment that a node has at the end of its history stands on the line.
pub fn finals_are_on_line()
    ensures { FinalsAreOnLine }
{}

/// What a read of a node gives at the end of its history stands on the line.
pub fn end_reads_are_on_line()
    ensures { EndReadsAreOnLine }
{}
