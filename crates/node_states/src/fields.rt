//! Members of objects as JSON writes them, each added at the end of a text.
ghost use Rattle.std.specs.Prelude.{◌≡◌, ◌++◌, OnOk};
ghost use Rattle.node_states.specs.Fields.{key_text, number_text, first_text, limit_text, flag_text, quoted, word_text, is_plain, plain_byte, plain, kind_text, closed};

use base_words::put_decimal;
use journal_core::OutOfMemory;

/// A key.
#[tactic(auto, unfolding(crate::specs::Fields::key_text))]
pub(crate) fn put_key(out: &mut Vec<u8>, key: &[u8]) -> Result<(), OutOfMemory>
    ensures { OnOk result (out.new.items ≡ out.old.items ++ key_text key.now) }
{
    out.extend_from_slice(b",\"")?;
    out.extend_from_slice(key)?;
    out.extend_from_slice(b"\":")?;
    Ok(())
}

/// A number.
#[tactic(auto, unfolding(crate::specs::Fields::number_text))]
pub(crate) fn put_number(out: &mut Vec<u8>, key: &[u8], number: u64) -> Result<(), OutOfMemory>
    ensures { OnOk result (out.new.items ≡ out.old.items ++ number_text key.now number) }
{
    put_key(out, key)?;
    put_decimal(out, number)
}

/// An object's begin, whose first member is a number.
#[tactic(auto, unfolding(crate::specs::Fields::first_text))]
pub(crate) fn put_first(out: &mut Vec<u8>, key: &[u8], number: u64) -> Result<(), OutOfMemory>
    ensures { OnOk result (out.new.items ≡ out.old.items ++ first_text key.now number) }
{
    out.extend_from_slice(b"{\"")?;
    out.extend_from_slice(key)?;
    out.extend_from_slice(b"\":")?;
    put_decimal(out, number)
}

/// A number, -1 for none.
#[tactic(auto, unfolding(crate::specs::Fields::limit_text))]
pub(crate) fn put_limit(
    out: &mut Vec<u8>,
    key: &[u8],
    limit: Option<u64>,
) -> Result<(), OutOfMemory>
    ensures { OnOk result (out.new.items ≡ out.old.items ++ limit_text key.now limit) }
{
    put_key(out, key)?;
    match limit {
        None => out.extend_from_slice(b"-1"),
        Some(number) => put_decimal(out, number),
    }
}

/// A truth value.
#[tactic(auto, unfolding(crate::specs::Fields::flag_text))]
pub(crate) fn put_flag(out: &mut Vec<u8>, key: &[u8], set: bool) -> Result<(), OutOfMemory>
    ensures { OnOk result (out.new.items ≡ out.old.items ++ flag_text key.now set) }
{
    put_key(out, key)?;
    if set {
        out.extend_from_slice(b"true")
    } else {
        out.extend_from_slice(b"false")
    }
}

/// A word between quotes.
#[tactic(auto, unfolding(crate::specs::Fields::quoted))]
pub(crate) fn put_quoted(out: &mut Vec<u8>, word: &[u8]) -> Result<(), OutOfMemory>
    ensures { OnOk result (out.new.items ≡ out.old.items ++ quoted word.now) }
{
    out.extend_from_slice(b"\"")?;
    out.extend_from_slice(word)?;
    out.extend_from_slice(b"\"")?;
    Ok(())
}

/// A word.
#[tactic(auto, unfolding(crate::specs::Fields::word_text))]
pub(crate) fn put_word(out: &mut Vec<u8>, key: &[u8], word: &[u8]) -> Result<(), OutOfMemory>
    ensures { OnOk result (out.new.items ≡ out.old.items ++ word_text key.now word.now) }
{
    put_key(out, key)?;
    put_quoted(out, word)
}

/// An object's begin, whose first member tells its kind.
#[tactic(auto, unfolding(crate::specs::Fields::kind_text))]
pub(crate) fn put_kind(out: &mut Vec<u8>, word: &[u8]) -> Result<(), OutOfMemory>
    ensures { OnOk result (out.new.items ≡ out.old.items ++ kind_text word.now) }
{
    out.extend_from_slice(b"{\"is\":")?;
    put_quoted(out, word)
}

/// An object's end.
#[tactic(auto, unfolding(crate::specs::Fields::closed))]
pub(crate) fn close(out: &mut Vec<u8>) -> Result<(), OutOfMemory>
    ensures { OnOk result (out.new.items ≡ out.old.items ++ closed) }
{
    out.extend_from_slice(b"}")
}

/// An object that has its kind alone.
pub(crate) fn put_bare(out: &mut Vec<u8>, word: &[u8]) -> Result<(), OutOfMemory>
    ensures { OnOk result (out.new.items ≡ out.old.items ++ (kind_text word.now ++ closed)) }
{
    put_kind(out, word)?;
    close(out)
}

/// The last number of an object.
pub(crate) fn put_last(out: &mut Vec<u8>, key: &[u8], number: u64) -> Result<(), OutOfMemory>
    ensures { OnOk result (out.new.items ≡ out.old.items ++ (number_text key.now number ++ closed)) }
{
    put_number(out, key, number)?;
    close(out)
}

/// A byte as it stands between quotes.
fn plain_byte(byte: u8) -> u8
    ensures { result ≡ plain_byte byte }
{
    if (32..=126).contains(&byte) && !(byte == b'"' || byte == b'\\') {
        byte
    } else {
        b'?'
    }
}

/// A text of any bytes between quotes: what isn't printable, a quote and a backslash stand as a
/// question mark.
#[tactic(auto, using(crate::proofs::FieldLaws::plains), unfolding(crate::specs::Fields::quoted))]
pub(crate) fn put_plain(out: &mut Vec<u8>, text: &[u8]) -> Result<(), OutOfMemory>
    ensures { OnOk result (out.new.items ≡ out.old.items ++ quoted (plain text.now)) }
{
    out.extend_from_slice(b"\"")?;
    for byte in text {
        out.push(plain_byte(*byte))?;
    }
    out.extend_from_slice(b"\"")?;
    Ok(())
}
