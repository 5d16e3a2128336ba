//! Edits as texts.
ghost use Rattle.std.specs.Prelude.{◌≡◌, ◌++◌, false, OnOk, OnErr};
ghost use Rattle.std.specs.List.{flat_map, AllByRecursion};
ghost use Rattle.edit_ops.specs.Kinds.{is_mark};
ghost use Rattle.edit_ops.specs.Fields.{IsGood};
ghost use Rattle.edit_ops.specs.Records.{kind_of, fields_of, call_fields};
ghost use Rattle.edit_codec.specs.Forms.{written};
ghost use Rattle.edit_codec.specs.EditTexts.{first_word, call_text, text_of};
ghost use Rattle.edit_codec.specs.Spaced.{spaced};

use crate::field::{Field, Form, put_fields};
use crate::writing::put_op;
use base_words::OutOfMemory;
use edit_ops::{Call, Edit, Op};

// Appends the words of a call, and a space; an `Err` changes nothing.
fn put_call(out: &mut Vec<u8>, call: &Call) -> Result<(), OutOfMemory>
    requires { AllByRecursion IsGood (call_fields (Some call.now)) }
    ensures ok { OnOk result (out.new.items ≡ out.old.items ++ call_text (Some call.now)) }
    ensures err { OnErr result (out.new.items ≡ out.old.items) }
{
    let before = out.len();
    out.extend_from_slice(b"call")?;
    let mut added = put_fields(
        out,
        Form::Script,
        &[Field::Client(&call.client), Field::CallNumber(call.number)],
    );
    if added.is_ok() {
        added = out.extend_from_slice(b" ");
    }
    if added.is_err() {
        out.truncate(before);
    }
    added
}

// Appends a word, and the fields of an edit after it; an `Err` changes nothing.
fn put_line(out: &mut Vec<u8>, form: Form, word: &str, op: &Op) -> Result<(), OutOfMemory>
    requires { AllByRecursion IsGood (fields_of op.now) }
    ensures ok { OnOk result (out.new.items ≡ out.old.items ++ (word.now ++ flat_map (written form) (fields_of op.now))) }
    ensures err { OnErr result (out.new.items ≡ out.old.items) }
{
    let before = out.len();
    out.extend_from_slice(word.as_bytes())?;
    let added = put_op(out, form, op);
    if added.is_err() {
        out.truncate(before);
    }
    added
}

// Appends what an edit does, as words; an `Err` changes nothing.
fn put_words(out: &mut Vec<u8>, op: &Op, listing: bool) -> Result<(), OutOfMemory>
    requires { AllByRecursion IsGood (fields_of op.now) }
    ensures ok { OnOk result (out.new.items
        ≡ out.old.items ++ (first_word listing (kind_of op.now) ++ flat_map (spaced listing) (fields_of op.now))) }
    ensures err { OnErr result (out.new.items ≡ out.old.items) }
{
    if listing {
        put_line(out, Form::Listing, op.kind().name(), op)
    } else {
        put_line(out, Form::Script, op.kind().verb(), op)
    }
}

/// Appends the text of the edit: as in a script, or with `listing` as in the listing of edits. An
/// `Err` changes nothing. A script has no marks of segments.
pub fn edit_text(edit: &Edit, listing: bool, out: &mut Vec<u8>) -> Result<(), OutOfMemory>
    requires { listing ≡ false → is_mark (kind_of edit.now.op) ≡ false }
    ensures ok { OnOk result (out.new.items ≡ out.old.items ++ text_of listing edit.now) }
    ensures err { OnErr result (out.new.items ≡ out.old.items) }
{
    let before = out.len();
    if let Some(call) = &edit.call {
        put_call(out, call)?;
    }
    let added = put_words(out, &edit.op, listing);
    if added.is_err() {
        out.truncate(before);
    }
    added
}
