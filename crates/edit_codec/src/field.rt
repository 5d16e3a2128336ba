//! The fields of an edit, lent from it, and how they are written, one or many.
ghost use Rattle.std.specs.Prelude.{◌≡◌, ◌++◌, map, OnOk, OnErr, ◌<◌, ◌^◌, length, ◌∷◌, false};
ghost use Rattle.std.specs.List.{flat_map, AllByRecursion};
ghost use Rattle.std.specs.Int.{w16, to_be_bytes};
ghost use Rattle.std.specs.Fmt.{decimal, digits};
ghost use Rattle.base_words.specs.Hex.{hex_text};
ghost use Rattle.edit_ops.specs.Fields.{IsGood, field_bytes, path, Number_, Text_};
ghost use Rattle.edit_codec.specs.Spaced.{spaced};
ghost use Rattle.edit_codec.specs.Forms.{written};
ghost use Rattle.edit_codec.specs.Shown.{shown};

use base_words::{Name, OutOfMemory, put_decimal, put_digits, put_hex};

/// A field of an edit's record.
#[derive(Clone, Copy)]
pub enum Field<'a> {
    Path(&'a [u8]),
    Owner(&'a [u8]),
    NewOwner(&'a [u8]),
    Replication(u16),
    Permission(u16),
    NumberCount(u16),
    PathCount(u16),
    Number(u64),
    Flag(bool),
    Client(&'a [u8; 16]),
    CallNumber(u32),
}

/// How fields are written: as bytes, or as words of a script or of a listing.
#[derive(Clone, Copy)]
pub enum Form {
    Record,
    Script,
    Listing,
}

// Appends a text after its length; an `Err` changes nothing.
fn put_text(out: &mut Vec<u8>, text: &[u8]) -> Result<(), OutOfMemory>
    requires { length text.now < 2 ^ 16 }
    ensures ok { OnOk result (out.new.items ≡ out.old.items ++ (to_be_bytes w16 (length text.now) ++ text.now)) }
    ensures err { OnErr result (out.new.items ≡ out.old.items) }
{
    let before = out.len();
    out.extend_from_slice(&(text.len() as u16).to_be_bytes())?;
    let added = out.extend_from_slice(text);
    if added.is_err() {
        out.truncate(before);
    }
    added
}

// Appends a field as bytes; an `Err` changes nothing.
fn put_bytes(out: &mut Vec<u8>, field: Field<'_>) -> Result<(), OutOfMemory>
    requires { IsGood (shown field) }
    ensures ok { OnOk result (out.new.items ≡ out.old.items ++ field_bytes (shown field.entry)) }
    ensures err { OnErr result (out.new.items ≡ out.old.items) }
{
    match field {
        Field::Path(text) | Field::Owner(text) | Field::NewOwner(text) => put_text(out, text),
        Field::Replication(n)
        | Field::Permission(n)
        | Field::NumberCount(n)
        | Field::PathCount(n) => out.extend_from_slice(&n.to_be_bytes()),
        Field::Number(n) => out.extend_from_slice(&n.to_be_bytes()),
        Field::Flag(set) => out.extend_from_slice(&[u8::from(set)]),
        Field::Client(bytes) => out.extend_from_slice(bytes),
        Field::CallNumber(n) => out.extend_from_slice(&n.to_be_bytes()),
    }
}

// Appends a word after a space; an `Err` changes nothing.
fn put_word(out: &mut Vec<u8>, word: &[u8]) -> Result<(), OutOfMemory>
    ensures ok { OnOk result (out.new.items ≡ out.old.items ++ 32 ∷ word.now) }
    ensures err { OnErr result (out.new.items ≡ out.old.items) }
{
    let before = out.len();
    out.push(b' ')?;
    let added = out.extend_from_slice(word);
    if added.is_err() {
        out.truncate(before);
    }
    added
}

// Appends a number in a base after a space; an `Err` changes nothing.
fn put_number(out: &mut Vec<u8>, number: u64) -> Result<(), OutOfMemory>
    ensures ok { OnOk result (out.new.items ≡ out.old.items ++ 32 ∷ decimal number) }
    ensures err { OnErr result (out.new.items ≡ out.old.items) }
{
    let before = out.len();
    out.push(b' ')?;
    let added = put_decimal(out, number);
    if added.is_err() {
        out.truncate(before);
    }
    added
}

// Appends a permission as octal digits after a space; an `Err` changes nothing.
fn put_permission(out: &mut Vec<u8>, permission: u16) -> Result<(), OutOfMemory>
    ensures ok { OnOk result (out.new.items ≡ out.old.items ++ 32 ∷ digits 8 false permission) }
    ensures err { OnErr result (out.new.items ≡ out.old.items) }
{
    let before = out.len();
    out.push(b' ')?;
    let added = put_digits(out, u64::from(permission), 8);
    if added.is_err() {
        out.truncate(before);
    }
    added
}

// Appends a client's id as hexadecimal digits after a space; an `Err` changes nothing.
#[tactic(auto, using(base_words::proofs::AppendLaws::cuts))]
fn put_client(out: &mut Vec<u8>, client: &[u8; 16]) -> Result<(), OutOfMemory>
    ensures ok { OnOk result (out.new.items ≡ out.old.items ++ 32 ∷ hex_text client.now) }
    ensures err { OnErr result (out.new.items ≡ out.old.items) }
{
    let before = out.len();
    out.push(b' ')?;
    let added = put_hex(out, client);
    if added.is_err() {
        out.truncate(before);
    }
    added
}

// Appends the word of a field after a space; an `Err` changes nothing.
fn put_said(out: &mut Vec<u8>, listing: bool, field: Field<'_>) -> Result<(), OutOfMemory>
    ensures ok { OnOk result (out.new.items ≡ out.old.items ++ spaced listing (shown field.entry)) }
    ensures err { OnErr result (out.new.items ≡ out.old.items) }
{
    match field {
        Field::Path(text) | Field::Owner(text) => {
            if listing && text.is_empty() {
                put_word(out, b"-")
            } else {
                put_word(out, text)
            }
        }
        Field::NewOwner(text) => {
            if text.is_empty() {
                put_word(out, b"-")
            } else {
                put_word(out, text)
            }
        }
        Field::Replication(n) => put_number(out, u64::from(n)),
        Field::Permission(n) => put_permission(out, n),
        Field::NumberCount(_) | Field::PathCount(_) => Ok(()),
        Field::Number(n) => put_number(out, n),
        Field::Flag(true) => put_word(out, b"yes"),
        Field::Flag(false) => put_word(out, b"no"),
        Field::Client(bytes) => put_client(out, bytes),
        Field::CallNumber(n) => put_number(out, u64::from(n)),
    }
}

/// Appends a field in this form; an `Err` changes nothing.
pub fn put_field(out: &mut Vec<u8>, form: Form, field: Field<'_>) -> Result<(), OutOfMemory>
    requires { IsGood (shown field) }
    ensures ok { OnOk result (out.new.items ≡ out.old.items ++ written form (shown field.entry)) }
    ensures err { OnErr result (out.new.items ≡ out.old.items) }
{
    match form {
        Form::Record => put_bytes(out, field),
        Form::Script => put_said(out, false, field),
        Form::Listing => put_said(out, true, field),
    }
}

/// Appends fields in this form, one after the other; an `Err` changes nothing.
pub fn put_fields(out: &mut Vec<u8>, form: Form, fields: &[Field<'_>]) -> Result<(), OutOfMemory>
    requires { AllByRecursion IsGood (map shown fields.now) }
    ensures ok { OnOk result (out.new.items ≡ out.old.items ++ flat_map (written form) (map shown fields.now)) }
    ensures err { OnErr result (out.new.items ≡ out.old.items) }
{
    let before = out.len();
    for field in fields {
        if let Err(error) = put_field(out, form, *field) {
            out.truncate(before);
            return Err(error);
        }
    }
    Ok(())
}

/// Appends numbers in this form, one after the other; an `Err` changes nothing.
pub fn put_numbers(out: &mut Vec<u8>, form: Form, numbers: &[u64]) -> Result<(), OutOfMemory>
    requires { AllByRecursion IsGood (map Number_ numbers.now) }
    ensures ok { OnOk result (out.new.items ≡ out.old.items ++ flat_map (written form) (map Number_ numbers.now)) }
    ensures err { OnErr result (out.new.items ≡ out.old.items) }
{
    let before = out.len();
    for number in numbers {
        if let Err(error) = put_field(out, form, Field::Number(*number)) {
            out.truncate(before);
            return Err(error);
        }
    }
    Ok(())
}

/// Appends paths in this form, one after the other; an `Err` changes nothing.
pub fn put_paths(out: &mut Vec<u8>, form: Form, paths: &[Name]) -> Result<(), OutOfMemory>
    requires { AllByRecursion IsGood (map (Text_ path) paths.now) }
    ensures ok { OnOk result (out.new.items ≡ out.old.items ++ flat_map (written form) (map (Text_ path) paths.now)) }
    ensures err { OnErr result (out.new.items ≡ out.old.items) }
{
    let before = out.len();
    for path in paths {
        if let Err(error) = put_field(out, form, Field::Path(path.as_slice())) {
            out.truncate(before);
            return Err(error);
        }
    }
    Ok(())
}
