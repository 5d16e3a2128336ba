//! A text is counted.
ghost use Rattle.std.specs.Prelude.{◌≡◌, ◌≤◌, ◌<◌, true, false, length};
ghost use Rattle.play_report.specs.Counts.{counts, counts_none, counts_more};
ghost use Rattle.play_report.specs.Limit.{longest_report};

use crate::taker::{Printable, Taker};

/// The most bytes of a report.
pub const LONGEST_REPORT: usize = 268_435_456;

/// How many bytes came, as far as they are no more than a report may have.
#[derive(Drop)]
struct Counted {
    count: u64,
}

impl Taker for Counted {
    ghost adds = { λ x y a. counts x.count y.count a };

    fn is_done(&self) -> bool {
        self.count > LONGEST_REPORT as u64
    }

    fn put(&mut self, piece: &[u8]) {
        self.count = self.count.saturating_add(piece.len() as u64);
    }

    ghost adds_none = { λ x. counts_none x.count };

    ghost adds_more = { λ x y z a b. counts_more x.count y.count z.count a b };
}

/// Whether a text has no more bytes than a report may have. It is printed to be counted, and
/// nothing of it is kept.
pub fn is_within_limit<P: Printable>(text: &P) -> bool
    ensures within { result ≡ true → length (P.text text.now) ≤ longest_report }
    ensures longer { result ≡ false → longest_report < length (P.text text.now) }
{
    let mut counted = Counted { count: 0 };
    text.print(&mut counted);
    counted.count <= LONGEST_REPORT as u64
}
