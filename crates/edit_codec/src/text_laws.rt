//! Laws of the texts of edits.
ghost use Rattle.std.specs.Prelude.{◌≡◌, List, ℕ};
ghost use Rattle.edit_ops.specs.Records.{EditView};
ghost use Rattle.edit_codec.specs.EditTexts.{IsText};
ghost use Rattle.edit_codec.specs.SaidTexts.{EditsPassTheTest, WhatPassesIsOfAnEdit, TextsOfEditsAreWords};

/// Two edits with one text in a script are one.
pub fn texts_tell_edits()
    ensures { (a b : EditView) (text : List ℕ) → IsText text a → IsText text b → a ≡ b }
{}

/// The test of texts passes those of edits in a script, and no others.
pub fn texts_are_tested()
    ensures edits { EditsPassTheTest }
    ensures others { WhatPassesIsOfAnEdit }
{}

/// The text of an edit in a script is words of bytes from 0x21 to 0x7E with one space between two.
pub fn texts_are_words()
    ensures { TextsOfEditsAreWords }
{}
