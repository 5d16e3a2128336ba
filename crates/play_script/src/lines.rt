//! Texts, line by line.
ghost use Rattle.std.specs.Prelude.{◌≡◌, ◌+◌, ◌++◌, ◌∷◌, ◌<◌, IfSome, IfNone, length};
ghost use Rattle.std.specs.List.{list_all};
ghost use Rattle.play_script.specs.Lines.{Lacks, is_line, is_plain};
ghost use Rattle.play_script.specs.Grammar.{is_silent};

use memchr::memchr;

/// The most bytes of a line, its LF not counted.
pub const LONGEST_LINE: usize = 16_384;

/// The first line, without its LF, and what follows it.
#[tactic(auto, using(crate::proofs::LineLaws::cuts))]
pub fn split_line(text: &[u8]) -> Option<(&[u8], &[u8])>
    ensures spelled { IfSome result (λ p. text.now ≡ p.0.now ++ 10 ∷ p.1.now) }
    ensures first { IfSome result (λ p. Lacks 10 p.0.now) }
    ensures shorter { IfSome result (λ p. length p.1.now < length text.now) }
    ensures none { IfNone result (Lacks 10 text.now) }
{
    match memchr(b'\n', text) {
        Some(at) => Some((&text[..at], &text[at + 1..])),
        None => None,
    }
}

fn is_plain(b: u8) -> bool
    ensures { result ≡ is_plain b }
{
    32 <= b && b <= 126
}

/// All bytes are looked at, whatever the first says: that is faster than to stop.
fn are_plain(line: &[u8]) -> bool
    ensures { result ≡ list_all is_plain line.now }
{
    let mut plain = true;
    for b in line {
        plain = is_plain(*b) && plain;
    }
    plain
}

/// The bytes that a line may have.
#[tactic(auto, unfolding(crate::specs::Lines::is_line))]
pub fn is_line(line: &[u8]) -> bool
    ensures { result ≡ is_line line.now }
{
    are_plain(line) && line.len() <= LONGEST_LINE
}

/// An empty line or a comment, which says nothing.
pub fn is_silent(line: &[u8]) -> bool
    ensures { result ≡ is_silent line.now }
{
    match line {
        [] => true,
        [first, ..] => *first == b'#',
    }
}
