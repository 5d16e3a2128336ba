//! Worked examples of edits as JSON, computed when the crate is checked.
ghost use Rattle.std.specs.Prelude.{◌≡◌, [], ◌∷◌, codes};
ghost use Rattle.list_oev.specs.Entries.{entry_lines};
ghost use Rattle.list_oev.specs.Examples.{start_mark, called_mkdir, odd_names};

/// No edit, the mark of a start, a directory that a client's call made, and names that need
/// escapes.
pub fn known_edits_have_entries()
    ensures none { entry_lines 1 [] ≡ codes "[]\n" }
    ensures start { entry_lines 1 (start_mark ∷ []) ≡ codes "[{\"op\":\"OP_START_LOG_SEGMENT\",\"txid\":1}]\n" }
    ensures called { entry_lines 2 (called_mkdir ∷ [])
        ≡ codes "[{\"callid\":7,\"clientid\":\"000000000000000000000000000000aa\",\"group\":\"g\",\"op\":\"OP_MKDIR\",\"path\":\"/u\",\"permission\":493,\"time\":10,\"txid\":2,\"user\":\"u\"}]\n" }
    ensures two { entry_lines 3 (start_mark ∷ odd_names ∷ [])
        ≡ codes "[{\"op\":\"OP_START_LOG_SEGMENT\",\"txid\":3},{\"dst\":\"/\\\\\",\"op\":\"OP_RENAME_OLD\",\"src\":\"/\\\"\",\"time\":5,\"txid\":4}]\n" }
{}
