//! A tagged line, read and written.
ghost use Rattle.std.specs.Prelude.{◌≡◌, ◌≢◌, ◌<◌, ◌^◌, ◌∷◌, ◌++◌, [], ℕ, List, MatchOption, IfSome, OnOk, decimal};
ghost use Rattle.pipe_seats.specs.Tagged.{tagged, IsTagged, IsSigned, IsEnded, BeginsWithNumber};

use base_words::{OutOfMemory, put, put_decimal, split_word};
use journal_text::number_word;

/// What a line says: which life of its writer wrote it, as which of its calls, and the text.
#[derive(Clone, Copy)]
pub struct TaggedLine<'a> {
    pub life: u64,
    pub call: u64,
    pub text: &'a [u8],
}

/// What follows the number sign.
fn strip_sign(line: &[u8]) -> Option<&[u8]>
    ensures { MatchOption result (IsSigned line.now → ⊥) (λ rest. line.now ≡ 35 ∷ rest.now) }
{
    match line {
        [b'#', rest @ ..] => Some(rest),
        _ => None,
    }
}

/// What stands before the point at the end.
#[tactic(auto, using(crate::proofs::LineParts::ends))]
fn strip_end(text: &[u8]) -> Option<&[u8]>
    ensures { MatchOption result (IsEnded text.now → ⊥) (λ front. text.now ≡ front.now ++ 32 ∷ 46 ∷ []) }
{
    if text.len() < 2 {
        return None;
    }
    let (front, end) = text.split_at(text.len() - 2);
    if end == b" .".as_slice() {
        return Some(front);
    }
    None
}

/// A number, and what follows the space after it.
#[tactic(auto, using(crate::proofs::LineParts::numbers))]
fn split_number(text: &[u8]) -> Option<(u64, &[u8])>
    ensures number { MatchOption result (BeginsWithNumber text.now → ⊥) (λ p. text.now ≡ decimal p.0 ++ 32 ∷ p.1.now) }
    ensures wide { IfSome result (λ p. p.0 < 2 ^ 64) }
{
    let Some((word, rest)) = split_word(text) else {
        return None;
    };
    let Some(number) = number_word(word, 0) else {
        return None;
    };
    Some((number, rest))
}

/// What a line says, without its line feed; `None` where it is no tagged line.
#[tactic(auto, using(crate::proofs::LineParts::lines))]
pub fn read_tagged(line: &[u8]) -> Option<TaggedLine<'_>>
    ensures { MatchOption result (IsTagged line.now → ⊥) (λ t. line.now ≡ tagged t.life t.call t.text.now) }
{
    let Some(after_sign) = strip_sign(line) else {
        return None;
    };
    let Some((life, after_life)) = split_number(after_sign) else {
        return None;
    };
    let Some((call, after_call)) = split_number(after_life) else {
        return None;
    };
    let Some(text) = strip_end(after_call) else {
        return None;
    };
    Some(TaggedLine { life, call, text })
}

/// Adds a tagged line, without its line feed. An `Err` is lack of memory; what stood there still
/// stands at the front.
#[tactic(auto, using(crate::proofs::LineParts::written))]
pub fn put_tagged(out: &mut Vec<u8>, life: u64, call: u64, text: &[u8]) -> Result<(), OutOfMemory>
    ensures ok { OnOk result (out.new.items ≡ out.old.items ++ tagged life call text.now) }
{
    put(out, b"#")?;
    put_decimal(out, life)?;
    put(out, b" ")?;
    put_decimal(out, call)?;
    put(out, b" ")?;
    put(out, text)?;
    put(out, b" .")
}
