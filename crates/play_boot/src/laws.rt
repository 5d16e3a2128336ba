//! Laws of bootstraps.
ghost use Rattle.play_boot.specs.Laws.{ABootReloads, CopiesAreLoaded};
ghost use Rattle.play_boot.specs.Nodes.{TailsEndOnce};

/// What a standby begins with is what a name node with the same images reloads.
pub fn a_boot_reloads()
    ensures { ABootReloads }
{}

/// What is loaded of a copy is what was loaded of the image itself.
pub fn copies_are_loaded()
    ensures { CopiesAreLoaded }
{}

/// Over nodes that answer by their states a tail has one end.
pub fn tails_end_once()
    ensures { TailsEndOnce }
{}
