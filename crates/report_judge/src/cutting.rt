//! A line at its first space, and at its arrow.
ghost use Rattle.std.specs.Prelude.{◌≡◌, MatchOption, Some, None};
ghost use Rattle.report_judge.specs.Cuts.{cut_in, has_arrow, arrow_in};

use memchr::memchr;

/// Whether the byte `>` stands in the line. Each line of a history has one, and no line beside a
/// history.
#[tactic(auto, using(crate::proofs::CutLaws::finds))]
pub(crate) fn has_arrow(line: &[u8]) -> bool
    ensures { result ≡ has_arrow line.now }
{
    memchr(b'>', line).is_some()
}

/// What stands before and after the arrow, the first `>` of which is the line's first; `None` where
/// the line has no such arrow.
#[tactic(auto, using(crate::proofs::CutLaws::arrows))]
pub(crate) fn cut_arrow(line: &[u8]) -> Option<(&[u8], &[u8])>
    ensures { MatchOption result (arrow_in line.now ≡ None) (λ p. arrow_in line.now ≡ Some (p.0.now, p.1.now)) }
{
    let at = memchr(b'>', line)?;
    if at < 2 || line.len() < at + 2 {
        return None;
    }
    let (asked, rest) = line.split_at(at - 2);
    let (mark, told) = rest.split_at(4);
    if mark == b" -> ".as_slice() {
        Some((asked, told))
    } else {
        None
    }
}

/// What stands before and after the first byte of this kind; `None` where there is none.
#[tactic(auto, using(crate::proofs::CutLaws::finds))]
pub(crate) fn cut_at(byte: u8, text: &[u8]) -> Option<(&[u8], &[u8])>
    ensures { MatchOption result (cut_in byte text.now ≡ None) (λ p. cut_in byte text.now ≡ Some (p.0.now, p.1.now)) }
{
    match memchr(byte, text) {
        Some(at) => Some((&text[..at], &text[at + 1..])),
        None => None,
    }
}
