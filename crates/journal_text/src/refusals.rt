//! Why a request is refused.
ghost use Rattle.std.specs.Prelude.{◌≡◌, ◌∷◌, [], Some, None, Option, drop, unwrap_or};
ghost use Rattle.journal_text.specs.ReplyReading.{all_refusals, same_field, is_told, refusal_among, field_in, refusal_in};

use crate::head_words::{is_text, take_end, take_number};
use crate::words::{Words, number_word};
use journal_core::Refusal;

/// Whether both tell no number, or both the same.
fn same_field(a: Option<u64>, b: Option<u64>) -> bool
    ensures { result ≡ same_field a b }
{
    match (a, b) {
        (None, None) => true,
        (Some(a), Some(b)) => a == b,
        (Some(_), None) | (None, Some(_)) => false,
    }
}

/// Whether the cause tells this number, this name and this field.
fn is_told(number: u64, name: &[u8], field: Option<u64>, refusal: &Refusal) -> bool
    ensures { result ≡ is_told number name.now field refusal.now }
{
    refusal.number() == number
        && is_text(name, refusal.name())
        && same_field(refusal.field(), field)
}

/// The cause that tells this number, this name and this field.
#[tactic(auto, using(crate::proofs::RefusalLaws::among_steps))]
fn refusal_with(number: u64, name: &[u8], field: Option<u64>) -> Option<Refusal>
    ensures { result ≡ refusal_among (all_refusals (unwrap_or field 0)) number name.now field }
{
    let told = field.unwrap_or(0);
    let all = [
        Refusal::Down,
        Refusal::Limit { number: told },
        Refusal::EpochRefused { promised: told },
        Refusal::OldSerial { seen: told },
        Refusal::NotWriter { writer: told },
        Refusal::NoOpenSegment,
        Refusal::WrongSegment { opened: told },
        Refusal::WrongTxid { expected: told },
        Refusal::SegmentFinal { end: told },
        Refusal::SegmentHasEdits { end: told },
        Refusal::NoSegment,
        Refusal::OtherEpoch { epoch: told },
        Refusal::LengthDiffers { end: told },
        Refusal::Purged { first: told },
        Refusal::NotHere { last: told },
        Refusal::DiskFault,
        Refusal::BadFile,
    ];
    for refusal in &all {
        if is_told(number, name, field, refusal) {
            return Some(*refusal);
        }
    }
    None
}

/// The number that a cause tells, if it tells one, to the end of the line.
fn read_field(words: &mut Words) -> Option<Option<u64>>
    ensures { result ≡ field_in words.old }
{
    let Some(word) = words.next() else {
        return Some(None);
    };
    let Some(number) = number_word(word, 0) else {
        return None;
    };
    if take_end(words) {
        return Some(Some(number));
    }
    None
}

/// The cause of a refusal, from the words after the first; lack of memory is none, since no node
/// tells it so.
#[tactic(auto, unfolding(crate::specs::ReplyReading::refusal_in))]
pub(crate) fn read_refusal(words: &mut Words) -> Option<Refusal>
    ensures { result ≡ refusal_in words.old }
{
    let Some(number) = take_number(words) else {
        return None;
    };
    let Some(name) = words.next() else {
        return None;
    };
    let Some(field) = read_field(words) else {
        return None;
    };
    refusal_with(number, name, field)
}
