//! What holds of the edits that a ring keeps.
ghost use Rattle.disk_recent.specs.Laws.{AreNewest, KeepInTurn, KeepTheLast, KeepWhatFits, TakeNoMore};

/// The edits that are kept are the newest ones.
pub fn kept_are_newest()
    ensures { AreNewest }
{}

/// What is kept when edits come one by one is what is kept of all of them.
pub fn pushes_keep_in_turn()
    ensures { KeepInTurn }
{}

/// An edit is kept where it and all later ones take no more than that.
pub fn what_fits_is_kept()
    ensures { KeepWhatFits }
{}

/// The last edit is kept.
pub fn the_last_is_kept()
    ensures { KeepTheLast }
{}

/// What is kept takes no more than that, but for a lone edit.
pub fn kept_take_no_more()
    ensures { TakeNoMore }
{}
