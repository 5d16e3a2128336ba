//! What a replay keeps, and what it is a function of.
ghost use Rattle.ns_edits.specs.Keeps.{EntriesStaySound, OneReplay, OnlyRecordsDecode, RecordsDecode, ReplayedCallsApart, ReplaySplits, SpacesStaySound};

/// The record of an edit decodes to that edit.
pub fn records_decode()
    ensures { RecordsDecode }
{}

/// Bytes that decode to an edit are its record.
pub fn only_records_decode()
    ensures { OnlyRecordsDecode }
{}

/// A log replays as its front does, and then the rest.
pub fn replay_splits()
    ensures { ReplaySplits }
{}

/// What a log replays to is determined by it.
pub fn replay_is_one()
    ensures { OneReplay }
{}

/// Two entries of a log that replays, with one call, have at least 1,024 entries with a call
/// between them.
pub fn calls_are_apart()
    ensures { ReplayedCallsApart }
{}

/// An entry of any kind keeps a namespace sound: in the order of a walk, each pair within its
/// grammar and limits under a directory that is there, and the retry list as it must be.
pub fn entries_stay_sound()
    ensures { EntriesStaySound }
{}

/// A log keeps a namespace sound.
pub fn spaces_stay_sound()
    ensures { SpacesStaySound }
{}
