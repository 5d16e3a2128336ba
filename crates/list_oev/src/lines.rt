//! The line of an edit.
ghost use Rattle.std.specs.Prelude.{◌≡◌, ◌++◌, true, OnOk};
ghost use Rattle.list_oev.specs.Lines.{line};

use base_words::{OutOfMemory, put_decimal};
use edit_codec::edit_text;
use edit_ops::Edit;

// Appends the txid and the text of an edit as a line.
fn put_line(out: &mut Vec<u8>, txid: u64, edit: &Edit) -> Result<(), OutOfMemory>
    ensures { OnOk result (out.new.items ≡ out.old.items ++ line txid edit.now) }
{
    put_decimal(out, txid)?;
    out.push(b' ')?;
    edit_text(edit, true, out)?;
    out.push(b'\n')?;
    Ok(())
}

/// Appends the txid and the text of an edit as a line, and drops the edit.
pub(crate) fn put_owned_line(out: &mut Vec<u8>, txid: u64, edit: Edit) -> Result<(), OutOfMemory>
    ensures { OnOk result (out.new.items ≡ out.old.items ++ line txid edit) }
{
    put_line(out, txid, &edit)
}
