//! Worked examples, computed by the check.
ghost use Rattle.std.specs.Prelude.{◌≡◌, [], Some};
ghost use Rattle.writer_calls.specs.Examples.{one_down};
ghost use Rattle.play_names.specs.Tails.{Ends, Caught, PurgedFrom};
ghost use Rattle.play_standby.specs.Standbys.{empty_standby, held};
ghost use Rattle.play_boot.specs.Nodes.{begun_of, image_of, EndsAt};
ghost use Rattle.play_boot.specs.Examples.{standby_at, two_images, trimmed};

/// Of two images the newer one counts, and with none a standby is empty at 0.
pub fn a_boot_begins_with_the_newest_image()
    ensures begun { begun_of two_images ≡ standby_at 9 }
    ensures image { image_of two_images ≡ Some 9 }
    ensures none { begun_of [] ≡ empty_standby }
{}

/// From an image at the end of the log, of which one node is down, a tail has caught up after a
/// pass.
pub fn an_image_at_the_end_is_caught_up()
    ensures { EndsAt one_down (standby_at 3) (Ends Caught (held [] (standby_at 3))) }
{}

/// Without an image the log is out of reach where it begins later.
pub fn a_trimmed_log_is_out_of_reach()
    ensures { EndsAt trimmed empty_standby (Ends (PurgedFrom 4) (held [] empty_standby)) }
{}
