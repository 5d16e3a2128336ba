//! The columns of a row, read one by one.
ghost use Rattle.std.specs.Prelude.{◌≡◌, ◌<◌, ◌^◌, ◌∷◌, [], false, None, Some, drop, MatchOption};
ghost use Rattle.journal_text.specs.ReplyReading.{head_number, head_word};
ghost use Rattle.report_judge.specs.Rows.{columns_in, head_small, head_wide, head_quota, is_refused, wide_from};

use crate::cutting::cut_at;
use journal_text::number_word;
use std::marker::Model;

/// More bytes than a file has.
const MOST_SIZE: u128 = 1 << 96;

/// The columns that are left of a row's text. Contracts see them as a list.
#[derive(Drop)]
pub(crate) struct Columns<'a> {
    rest: Option<&'a [u8]>,
}

impl<'a> Model for Columns<'a> {
    ghost use Rattle.std.specs.Prelude.{List, ℕ};
    ghost use Rattle.std.specs.Option.{option_copied};
    ghost use Rattle.report_judge.specs.Rows.{columns_left};

    ghost Value = { List (List ℕ) };

    ghost view = { λ c. columns_left (option_copied c.rest) };
}

/// Whether the byte can't stand behind the digits of this number: it is no digit, or one too many.
fn is_refused(size: u128, byte: u8) -> bool
    ensures refused { result ≡ is_refused size byte }
    ensures room { result ≡ false → size < 2 ^ 96 }
{
    byte < b'0' || b'9' < byte || size >= MOST_SIZE
}

/// A number of 128 bits in decimal.
#[tactic(auto, using(crate::proofs::ColumnLaws::sizes))]
fn size_of(column: &[u8]) -> Option<u128>
    ensures { result ≡ wide_from 0 column.now }
{
    let mut size: u128 = 0;
    for byte in column {
        if is_refused(size, *byte) {
            return None;
        }
        size = size * 10 + (*byte % 16) as u128;
    }
    Some(size)
}

impl<'a> Columns<'a> {
    /// Those of a row's text.
    pub(crate) fn of(text: &'a [u8]) -> Columns<'a>
        ensures { result ≡ columns_in text.now }
    {
        Columns { rest: Some(text) }
    }

    /// The next one.
    #[tactic(auto, using(crate::proofs::ColumnLaws::columns))]
    pub(crate) fn next(&mut self) -> Option<&'a [u8]>
        ensures { MatchOption result ((self.old ≡ []) × (self.new ≡ [])) (λ column. self.old ≡ column.now ∷ self.new) }
    {
        let text = self.rest?;
        match cut_at(b'\t', text) {
            Some((column, rest)) => {
                self.rest = Some(rest);
                Some(column)
            }
            None => {
                self.rest = None;
                Some(text)
            }
        }
    }

    /// The next one, as its bytes.
    pub(crate) fn next_text(&mut self) -> Option<&'a [u8]>
        ensures text { MatchOption result (head_word self.old ≡ None) (λ column. head_word self.old ≡ Some column.now) }
        ensures rest { self.new ≡ drop 1 self.old }
    {
        self.next()
    }

    /// The next one, as a number of 64 bits.
    pub(crate) fn next_number(&mut self) -> Option<u64>
        ensures number { result ≡ head_number self.old }
        ensures rest { self.new ≡ drop 1 self.old }
    {
        number_word(self.next()?, 0)
    }

    /// The next one, as a number of 16 bits.
    pub(crate) fn next_small(&mut self) -> Option<u16>
        ensures number { result ≡ head_small self.old }
        ensures rest { self.new ≡ drop 1 self.old }
    {
        let number = self.next_number()?;
        if number > 65_535 {
            return None;
        }
        Some(number as u16)
    }

    /// The next one, as a number of 128 bits.
    pub(crate) fn next_size(&mut self) -> Option<u128>
        ensures number { result ≡ head_wide self.old }
        ensures rest { self.new ≡ drop 1 self.old }
    {
        size_of(self.next()?)
    }

    /// The next one, as a quota: -1 is none, which is 0.
    pub(crate) fn next_quota(&mut self) -> Option<u64>
        ensures number { result ≡ head_quota self.old }
        ensures rest { self.new ≡ drop 1 self.old }
    {
        let column = self.next()?;
        if column == b"-1".as_slice() {
            return Some(0);
        }
        number_word(column, 0)
    }
}
