//! Worked examples, computed when the crate is checked.
ghost use Rattle.std.specs.Prelude.{◌≡◌, ◌≢◌, ◌∷◌, [], Some, None, codes, option_map, option_and_then};
ghost use Rattle.serde_json.specs.Data.{array, item, no_items, number, unsigned};
ghost use Rattle.serde_json.specs.Find.{get, at};
ghost use Rattle.serde_json.specs.Read.{read, of_json};
ghost use Rattle.edit_ops.specs.Records.{record_of};
ghost use Rattle.list_oev.specs.Entries.{entry};
ghost use Rattle.list_oev.specs.Examples.{start_mark};
ghost use Rattle.list_back.specs.Pieces.{segment_bytes};
ghost use Rattle.list_back.specs.Examples.{start_text, turned_text, point_text, power_text, open_text, empty_text};

/// The mark of a start at the txid 1 is read of its text and of one with another order, a space and
/// a key twice; a number with a point is no txid; an array that isn't closed is no JSON. The
/// segments of the mark and of no edits.
pub fn known_texts_are_read()
    ensures start { read start_text ≡ option_map (λ d. array (item d no_items)) (of_json (entry 1 start_mark)) }
    ensures turned { read turned_text ≡ read start_text }
    ensures open { read open_text ≡ None }
    ensures empty { read empty_text ≡ Some (array no_items) }
    ensures segment { segment_bytes 1 1 (record_of start_mark ∷ []) ≡ 81 ∷ 74 ∷ 83 ∷ 71 ∷ 0 ∷ 0 ∷ 0 ∷ 1 ∷ 0 ∷ 0 ∷ 0 ∷ 0 ∷ 0 ∷ 0 ∷ 0 ∷ 1 ∷ 0 ∷ 0 ∷ 0 ∷ 0 ∷ 0 ∷ 0 ∷ 0 ∷ 1
        ∷ 165 ∷ 0 ∷ 0 ∷ 0 ∷ 15 ∷ 0 ∷ 0 ∷ 0 ∷ 0 ∷ 0 ∷ 0 ∷ 0 ∷ 1 ∷ 0 ∷ 0 ∷ 0 ∷ 1 ∷ 0 ∷ 1 ∷ 24 ∷ [] }
    ensures nothing { segment_bytes 1 1 [] ≡ 81 ∷ 74 ∷ 83 ∷ 71 ∷ 0 ∷ 0 ∷ 0 ∷ 1 ∷ 0 ∷ 0 ∷ 0 ∷ 0 ∷ 0 ∷ 0 ∷ 0 ∷ 1 ∷ 0 ∷ 0 ∷ 0 ∷ 0 ∷ 0 ∷ 0 ∷ 0 ∷ 1 ∷ [] }
    ensures point { option_and_then (λ d. option_and_then (get (codes "txid")) (at 0 d)) (read point_text) ≢ Some (number (unsigned 1)) }
    ensures power { option_and_then (λ d. option_and_then (get (codes "txid")) (at 0 d)) (read power_text) ≢ Some (number (unsigned 1)) }
{}
