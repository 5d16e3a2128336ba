//! Worked holdings, computed when the crate is checked.
ghost use Rattle.play_names.specs.Examples.{EditsAreToldApart, ATailCatchesUp, ImagesAreKept};

/// One edit is to be logged, another is there by then, a third repeats the first, and the last has
/// no parent.
pub fn edits_are_told_apart()
    ensures { EditsAreToldApart }
{}

/// What a tail is given is applied, and a pass in which no node has more is its last.
pub fn a_tail_catches_up()
    ensures { ATailCatchesUp }
{}

/// The two newest images are kept, and what is before the older of them may be purged.
pub fn images_are_kept()
    ensures { ImagesAreKept }
{}
