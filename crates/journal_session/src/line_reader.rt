//! A source, line by line.
ghost use Rattle.std.specs.Prelude.{◌≡◌, ◌≢◌, ◌≤◌, ◌<◌, ◌+◌, ◌⊎◌, ◌++◌, ◌∷◌, [], IfOk, IfSome, IfNone, OnOk, OnErr, length, take, drop};
ghost use Rattle.std.specs.Io.KnownBytes.{ReadConsumes};
ghost use Rattle.base_outside.specs.Faults.{CountsFaults, Rose};
ghost use Rattle.journal_session.specs.Lines.{IsLine, longest_line, longest_input};
ghost use Rattle.journal_session.specs.Reader.{IsRead, IsCut, IsCutLast, IsNextLine};

use crate::more::More;
use crate::next::Next;
use base_outside::{Failed, Source};
use base_words::OutOfMemory;
use memchr::memchr;
use std::alloc::Global;
use std::marker::Model;

/// The most bytes of a line, its LF not counted.
pub const LONGEST_LINE: usize = 1_048_576;

/// The most bytes of an input, its LFs counted.
pub const LONGEST_INPUT: usize = 1_073_741_824;

/// How many bytes are asked for in one read.
const PIECE: usize = 65_536;

/// Takes lines from what was read of a source. Contracts see the bytes that were read and not
/// taken, how many were taken, and the line that was taken last.
pub struct LineReader {
    // from `at` on it has the bytes that weren't taken, and from `start` to `end` the line that was
    // taken last
    buffer: Vec<u8>,
    start: usize,
    end: usize,
    at: usize,
    taken: usize,
    piece: Vec<u8>,
}

impl Drop for LineReader {
    fn drop(self) {
        let LineReader {
            buffer,
            start: _,
            end: _,
            at: _,
            taken: _,
            piece,
        } = self;
        drop(buffer);
        drop(piece);
    }
}

impl Model for LineReader {
    ghost use Rattle.std.specs.Prelude.{◌≡◌, ◌≤◌, ◌+◌, ◌-◌, drop, take, length, vec_len};
    ghost use Rattle.journal_session.specs.Lines.{longest_input};
    ghost use Rattle.journal_session.specs.Reader.{LineReaderView};

    ghost Value = { LineReaderView };

    ghost view = { λ r. record { held = drop r.at r.buffer.items; taken = r.taken; line = take (r.end - r.start) (drop r.start r.buffer.items) } };

    ghost invariant = { λ r. (r.start ≤ r.end) × (r.end ≤ r.at) × (r.at ≤ length r.buffer.items) × (r.taken + length (drop r.at r.buffer.items) ≤ longest_input) × (vec_len r.piece ≡ 65536) };
}

/// The first place of an LF, where none stands before `searched`.
fn find_end(bytes: &[u8], searched: usize) -> Option<usize>
    requires within { searched ≤ length bytes.now }
    requires lacks { IsLine (take searched bytes.now) }
    ensures place { IfSome result (λ at. at < length bytes.now) }
    ensures one { IfSome result (λ at. IsLine (take at bytes.now)) }
    ensures ended { IfSome result (λ at. bytes.now ≡ take at bytes.now ++ 10 ∷ drop (at + 1) bytes.now) }
    ensures none { IfNone result (IsLine bytes.now) }
{
    let (_, rest) = bytes.split_at(searched);
    match memchr(b'\n', rest) {
        Some(at) => Some(searched + at),
        None => None,
    }
}

/// Drops so many bytes from the front.
fn drop_front(bytes: &mut Vec<u8>, count: usize)
    requires { count ≤ length bytes.old.items }
    ensures { bytes.new.items ≡ drop count bytes.old.items }
{
    if count == 0 {
        return;
    }
    let length = bytes.len();
    bytes.copy_within(count..length, 0);
    bytes.truncate(length - count);
}

/// Drops so many bytes from the front, and adds these at the end. An `Err` adds none.
fn keep(buffer: &mut Vec<u8>, taken: usize, bytes: &[u8]) -> Result<(), OutOfMemory>
    requires { taken ≤ length buffer.old.items }
    ensures ok { OnOk result (buffer.new.items ≡ drop taken buffer.old.items ++ bytes.now) }
    ensures err { OnErr result (buffer.new.items ≡ drop taken buffer.old.items) }
{
    drop_front(buffer, taken);
    buffer.extend_from_slice(bytes)
}

/// Reads at most `most` bytes to the front of the piece.
fn read_piece<S: Source>(source: &mut S, piece: &mut [u8], most: usize) -> Result<usize, Failed>
    requires some { 0 < most }
    requires room { 0 < length piece.old }
    ensures bound { IfOk result (λ n. (n ≤ most) × (n ≤ length piece.new)) }
    ensures bytes { ReadConsumes (S.left source.old) (S.left source.new) result piece.new }
    ensures cause { CountsFaults (S.faults source.old) (S.faults source.new) result }
{
    let count = most.min(piece.len());
    source.read(&mut piece[..count])
}

impl LineReader {
    /// A reader that holds nothing.
    pub fn new(alloc: Global) -> Result<LineReader, OutOfMemory>
        ensures held { IfOk result (λ reader. reader.held ≡ []) }
        ensures taken { IfOk result (λ reader. reader.taken ≡ 0) }
    {
        Ok(LineReader {
            buffer: Vec::new(alloc),
            start: 0,
            end: 0,
            at: 0,
            taken: 0,
            piece: vec![in alloc; 0; PIECE]?,
        })
    }

    /// Counts what is taken from here on: an input that has no bound is read line by line, and what
    /// was taken before doesn't count.
    pub fn count_anew(&mut self)
        ensures held { self.new.held ≡ self.old.held }
        ensures line { self.new.line ≡ self.old.line }
        ensures taken { self.new.taken ≡ 0 }
    {
        self.taken = 0;
    }

    /// The line that was taken last.
    pub fn line(&self) -> &[u8]
        ensures bytes { result.now ≡ self.now.line }
    {
        let (_, rest) = self.buffer.split_at(self.start);
        let (line, _) = rest.split_at(self.end - self.start);
        line
    }

    /// Takes the next line, without its LF. The source is read only where no whole line is held.
    pub fn next_line<S: Source>(&mut self, source: &mut S) -> Next
        ensures next { IsNextLine result self.new.line self.old self.new (S.left source.old) (S.left source.new) }
        ensures within { self.new.taken + length self.new.held ≤ longest_input }
        ensures only_if_needed { IsLine self.old.held ⊎ (S.left source.new ≡ S.left source.old) }
        ensures fault { result ≡ Next.ReadFault → Rose (S.faults source.old) (S.faults source.new) }
        ensures no_fault { result ≢ Next.ReadFault → S.faults source.new ≡ S.faults source.old }
    {
        match find_end(self.held_line(), 0) {
            Some(at) => self.take_line(at),
            None => self.read_line(source),
        }
    }

    /// Reads until a whole line is held, and takes it.
    fn read_line<S: Source>(&mut self, source: &mut S) -> Next
        requires { IsLine self.old.held }
        ensures next { IsNextLine result self.new.line self.old self.new (S.left source.old) (S.left source.new) }
        ensures within { self.new.taken + length self.new.held ≤ longest_input }
        ensures fault { result ≡ Next.ReadFault → Rose (S.faults source.old) (S.faults source.new) }
        ensures no_fault { result ≢ Next.ReadFault → S.faults source.new ≡ S.faults source.old }
    {
        loop {
            let searched = self.held_line().len();
            if LONGEST_LINE < searched {
                return Next::LongLine;
            }
            match self.read_more(source) {
                More::Bytes => {
                    if let Some(at) = find_end(self.held_line(), searched) {
                        return self.take_line(at);
                    }
                }
                More::End => return self.take_last(),
                More::LongInput => return Next::LongInput,
                More::ReadFault => return Next::ReadFault,
                More::OutOfMemory => return Next::OutOfMemory,
            }
        }
    }

    /// The bytes that were read and not taken.
    fn held_line(&self) -> &[u8]
        ensures bytes { result.now ≡ self.now.held }
        ensures within { self.now.taken + length self.now.held ≤ longest_input }
    {
        let (_, held) = self.buffer.split_at(self.at);
        held
    }

    /// Takes the line that ends at that place of what is held, where an LF stands.
    fn take_line(&mut self, at: usize) -> Next
        requires place { at < length self.old.held }
        requires one { IsLine (take at self.old.held) }
        requires ended { self.old.held ≡ take at self.old.held ++ 10 ∷ drop (at + 1) self.old.held }
        ensures cut { IsCut result self.new.line self.old self.new }
        ensures within { self.new.taken + length self.new.held ≤ longest_input }
    {
        let text = &self.held_line()[..at];
        if LONGEST_LINE < text.len() {
            return Next::LongLine;
        }
        self.start = self.at;
        self.end = self.at + at;
        self.at += at + 1;
        self.taken += at + 1;
        Next::Line
    }

    /// Takes all that is held as the last line.
    fn take_last(&mut self) -> Next
        ensures cut { IsCutLast result self.new.line self.old self.new }
        ensures within { self.new.taken + length self.new.held ≤ longest_input }
    {
        let count = self.held_line().len();
        if count == 0 {
            return Next::End;
        }
        self.start = self.at;
        self.end = self.at + count;
        self.at += count;
        self.taken += count;
        Next::Last
    }

    /// Reads some bytes, at most as many as the input may still have. Where it may have none, a
    /// byte that comes is one too many.
    fn read_more<S: Source>(&mut self, source: &mut S) -> More
        ensures read { IsRead result self.old self.new (S.left source.old) (S.left source.new) }
        ensures within { self.new.taken + length self.new.held ≤ longest_input }
        ensures fault { result ≡ More.ReadFault → Rose (S.faults source.old) (S.faults source.new) }
        ensures no_fault { result ≢ More.ReadFault → S.faults source.new ≡ S.faults source.old }
    {
        let room = LONGEST_INPUT - self.taken - self.held_line().len();
        let Ok(count) = read_piece(source, &mut self.piece, room.max(1)) else {
            return More::ReadFault;
        };
        if count == 0 {
            return More::End;
        }
        if room == 0 {
            return More::LongInput;
        }
        let kept = keep(&mut self.buffer, self.at, &self.piece[..count]);
        self.start = 0;
        self.end = 0;
        self.at = 0;
        match kept {
            Ok(()) => More::Bytes,
            Err(_) => More::OutOfMemory,
        }
    }
}
