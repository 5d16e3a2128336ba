//! Worked examples of what a crash may leave, computed when the crate is checked.
ghost use Rattle.std.specs.Prelude.{◌≡◌, Some, None, codes};
ghost use Rattle.base_disk.specs.Files.{Torn, Cut};
ghost use Rattle.base_disk.specs.FileView.{at_rest, created, written, shortened, crashed};
ghost use Rattle.base_disk.specs.declared.disk.Choice.TheVariants.{Old, New, Fill};

/// Of a synced file `ab` three bytes are written from offset 1 on.
pub fn crash_after_a_write()
    ensures old { crashed Old (written 1 (codes "xyz") (at_rest (codes "ab"))) ≡ Some (codes "ab") }
    ensures new { crashed New (written 1 (codes "xyz") (at_rest (codes "ab"))) ≡ Some (codes "axyz") }
    ensures fill { crashed (Fill 63) (written 1 (codes "xyz") (at_rest (codes "ab"))) ≡ Some (codes "a???") }
{}

/// A file that was never synced is written, cut and written again.
pub fn crash_of_a_new_file()
    ensures old { crashed Old (written 1 (codes "z") (shortened 1 (created (codes "ab")))) ≡ None }
    ensures new { crashed New (written 1 (codes "z") (shortened 1 (created (codes "ab")))) ≡ Some (codes "az") }
    ensures fill { crashed (Fill 63) (written 1 (codes "z") (shortened 1 (created (codes "ab")))) ≡ Some (codes "??") }
{}

/// A write that was cut short leaves any bytes in its range, and the others as they were.
pub fn torn_write()
    ensures within { Torn 1 2 (Some (codes "abcd")) (Some (codes "a?!d")) }
    ensures shorter { Torn 1 2 (Some (codes "a")) (Some (codes "a?")) }
    ensures absent { Torn 0 2 None None }
    ensures before { Torn 1 2 (Some (codes "abcd")) (Some (codes "??cd")) → ⊥ }
    ensures behind { Torn 1 2 (Some (codes "abcd")) (Some (codes "abc?")) → ⊥ }
    ensures gone { Torn 1 2 (Some (codes "abcd")) None → ⊥ }
{}

/// A cut that was stopped leaves some length between.
pub fn stopped_cut()
    ensures between { Cut 1 (Some (codes "abc")) (Some (codes "ab")) }
    ensures too_short { Cut 1 (Some (codes "abc")) (Some (codes "")) → ⊥ }
    ensures changed { Cut 1 (Some (codes "abc")) (Some (codes "ax")) → ⊥ }
{}
