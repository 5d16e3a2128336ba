//! The entries of a frame in turn.
ghost use Rattle.std.specs.Prelude.{◌≡◌, ◌+◌, drop, IfSome, false};
ghost use Rattle.journal_core.specs.Views.{BatchView};
ghost use Rattle.disk_frame.specs.Frames.{is_bad_body};
ghost use Rattle.disk_frame.specs.Faults.{Spells};
ghost use Rattle.disk_frame.specs.Answers.{IsWholeFrame};
ghost use Rattle.disk_frame.specs.Entries.{EntriesView, Gives};

use crate::checking::split_entry;
use crate::entry::Entry;
use std::marker::Model;

/// The entries of a frame that are still to come, each lent from the bytes.
#[derive(Drop)]
pub struct Entries<'a> {
    rest: &'a [u8],
    left: u64,
    txid: u64,
    place: usize,
}

impl<'a> Model for Entries<'a> {
    ghost use Rattle.disk_frame.specs.Entries.{EntriesView, bodies_in, AreEntries};

    ghost Value = { EntriesView };

    ghost view = { λ e. record { txid = e.txid; place = e.place; bodies = bodies_in e.left e.rest.now } };

    ghost invariant = { λ e. AreEntries e.left e.rest.now e.txid e.place };
}

impl<'a> Entries<'a> {
    /// Those of the frame at the place `at`, of which `check_frame` told this count and this length
    /// where the txid `first` is the next one. The first entry begins 17 bytes after the seal.
    pub fn of(bytes: &'a [u8], at: usize, first: u64, count: u64, length: usize) -> Entries<'a>
        requires { IsWholeFrame first (drop at bytes.now) count length }
        ensures { (b : BatchView) → Spells (drop at bytes.now) b → result ≡ record { txid = b.first; place = at + 17; bodies = b.bodies } }
    {
        let (_, behind) = bytes.split_at(at + 17);
        let (rest, _) = behind.split_at(length - 17);
        Entries {
            rest,
            left: count,
            txid: first,
            place: at + 17,
        }
    }

    /// The next one; none where no more are to come.
    pub fn next_entry(&mut self) -> Option<Entry<'a>>
        ensures gives { Gives self.old result self.new }
        ensures good { IfSome result (λ entry. is_bad_body entry.body.now ≡ false) }
    {
        if self.left == 0 {
            return None;
        }
        let (body, rest) = split_entry(self.rest)?;
        let entry = Entry {
            txid: self.txid,
            place: self.place + 2,
            body,
        };
        self.place = entry.place + body.len();
        self.rest = rest;
        self.left -= 1;
        self.txid += 1;
        Some(entry)
    }
}
