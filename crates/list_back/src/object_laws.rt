//! What is read of the lines that were written for values.
ghost use Rattle.std.specs.Prelude.{◌≡◌, ◌≤◌, Some, IsUtf8};
ghost use Rattle.json.specs.Json.{Json};
ghost use Rattle.json.specs.Tree.{HasNumbers, depth};
ghost use Rattle.list_text.specs.Values.{json_line};
ghost use Rattle.list_back.specs.Texts.{HasTexts};
ghost use Rattle.serde_json.specs.Data.{Data};
ghost use Rattle.serde_json.specs.Read.{read, of_json, max_depth};

/// The line of a value whose numbers are numbers and whose texts are UTF-8 is UTF-8, and is read as
/// that value, where it doesn't nest too deep.
pub fn lines_are_read()
    ensures text { (j : Json) → HasTexts j → IsUtf8 (json_line j) }
    ensures value { (j : Json) (d : Data) → HasNumbers j → depth j ≤ max_depth → of_json j ≡ Some d → read (json_line j) ≡ Some d }
{}
