//! Laws of the records of edits.
ghost use Rattle.std.specs.Prelude.{◌≡◌, ◌++◌, List, ℕ};
ghost use Rattle.edit_ops.specs.Records.{EditView, record_of};
ghost use Rattle.edit_ops.specs.Grammar.{IsEdit};

/// No record begins another: what follows a record has no part in it, and each edit has one record.
pub fn no_record_begins_another()
    ensures { (a b : EditView) (x y : List ℕ) → IsEdit a → IsEdit b → record_of a ++ x ≡ record_of b ++ y → (a ≡ b) × (x ≡ y) }
{}
