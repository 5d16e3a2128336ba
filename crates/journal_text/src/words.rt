//! The words of a line.
ghost use Rattle.std.specs.Prelude.{◌≡◌, ◌∷◌, [], ℕ, List, length, drop, true, is_some, MatchOption, IfSome, OnSome, ◌≤◌, ◌*◌, IfOk, OnErr};
ghost use Rattle.std.specs.Option.{option_copied};
ghost use Rattle.base_words.specs.Words.{words_of};
ghost use Rattle.journal_text.specs.Reading.{number_in, numbers_in, put_first, body_in, bodies_in};
ghost use Rattle.journal_text.specs.Words.{words_left, with_head};

use base_words::{Bytes, OutOfMemory, number_of, read_hex, split_word};
use journal_core::{BodyList, Head, MAX_BODY};
use std::alloc::Global;
use std::marker::Model;

/// The words that are left of a line. Contracts see them as a list.
#[derive(Drop)]
pub struct Words<'a> {
    rest: Option<&'a [u8]>,
}

impl<'a> Model for Words<'a> {
    ghost use Rattle.std.specs.Prelude.{List, ℕ};
    ghost use Rattle.std.specs.Option.{option_copied};
    ghost use Rattle.journal_text.specs.Words.{words_left};

    ghost Value = { List (List ℕ) };

    ghost view = { λ w. words_left (option_copied w.rest) };
}

/// The word as a number of 64 bits, no less than that, without a leading zero.
pub fn number_word(word: &[u8], least: u64) -> Option<u64>
    ensures number { result ≡ number_in least word.now }
    ensures least { IfSome result (λ n. least ≤ n) }
{
    number_of(word, least, u64::MAX)
}

/// The most bytes of a tiny body and of a short one, for which smaller rooms are made.
const TINY_BODY: usize = 32;

const SHORT_BODY: usize = 256;

/// The word as a body, by way of a room for its bytes. Takes no memory where it is none.
#[tactic(auto, using(crate::proofs::BodyLaws::bodies))]
fn copy_body(alloc: Global, word: &[u8], room: &mut [u8]) -> Result<Option<Bytes>, OutOfMemory>
    requires fits { length word.now ≤ 2 * length room.old }
    requires most { length room.old ≤ 4096 }
    ensures body { IfOk result (λ body. body ≡ body_in word.now) }
    ensures memory { OnErr result (is_some (body_in word.now) ≡ true) }
{
    if word.is_empty() {
        return Ok(None);
    }
    if !read_hex(word, room) {
        return Ok(None);
    }
    Bytes::copy_of(alloc, &room[..word.len() / 2])
}

/// The word as a body of one to 4,096 bytes. Takes no memory where it is none.
#[tactic(auto, using(crate::proofs::BodyLaws::bodies))]
fn read_body(alloc: Global, word: &[u8]) -> Result<Option<Bytes>, OutOfMemory>
    ensures body { IfOk result (λ body. body ≡ body_in word.now) }
    ensures memory { OnErr result (is_some (body_in word.now) ≡ true) }
{
    if word.len() <= 2 * TINY_BODY {
        return copy_body(alloc, word, &mut [0; TINY_BODY]);
    }
    if word.len() <= 2 * SHORT_BODY {
        return copy_body(alloc, word, &mut [0; SHORT_BODY]);
    }
    if word.len() <= 2 * MAX_BODY {
        return copy_body(alloc, word, &mut [0; MAX_BODY]);
    }
    Ok(None)
}

/// Whether the word is a body of one to 4,096 bytes; `room` is for its bytes.
fn is_body(word: &[u8], room: &mut [u8]) -> bool
    requires { length room.old ≡ 4096 }
    ensures { result ≡ is_some (body_in word.now) }
{
    if word.is_empty() || word.len() > 2 * MAX_BODY {
        return false;
    }
    read_hex(word, room)
}

/// The words of a text as bodies of one to 4,096 bytes in hexadecimal; `None` where one of them is
/// none. An `Err` is want of memory, which is taken only where each word is a body.
pub fn read_bodies(alloc: Global, text: &[u8]) -> Result<Option<BodyList>, OutOfMemory>
    ensures bodies { IfOk result (λ bodies. bodies ≡ bodies_in (words_of text.now)) }
    ensures memory { OnErr result (is_some (bodies_in (words_of text.now)) ≡ true) }
{
    let mut words = Words::of(text);
    words.bodies(alloc)
}

impl<'a> Words<'a> {
    /// Those of a line.
    pub fn of(line: &'a [u8]) -> Words<'a>
        ensures { result ≡ words_of line.now }
    {
        Words { rest: Some(line) }
    }

    /// The next one.
    pub fn next(&mut self) -> Option<&'a [u8]>
        ensures { MatchOption result ((self.old ≡ []) × (self.new ≡ [])) (λ word. self.old ≡ word.now ∷ self.new) }
    {
        let text = self.rest?;
        match split_word(text) {
            Some((word, rest)) => {
                self.rest = Some(rest);
                Some(word)
            }
            None => {
                self.rest = None;
                Some(text)
            }
        }
    }

    /// Those after the first one of a line.
    pub(crate) fn after_first(line: &'a [u8]) -> Words<'a>
        ensures { result ≡ drop 1 (words_of line.now) }
    {
        match split_word(line) {
            Some((_, rest)) => Words { rest: Some(rest) },
            None => Words { rest: None },
        }
    }

    /// The next one as a number, no less than that.
    pub(crate) fn number(&mut self, least: u64) -> Option<u64>
        ensures numbers { (ls : List ℕ) → numbers_in (least ∷ ls) self.old ≡ put_first result (numbers_in ls self.new) }
        ensures least { IfSome result (λ n. least ≤ n) }
        ensures rest { OnSome result (self.new ≡ drop 1 self.old) }
    {
        let word = self.next()?;
        number_word(word, least)
    }

    /// The next three as a head.
    pub(crate) fn head(&mut self) -> Option<Head>
        ensures numbers { (ls : List ℕ) → numbers_in (1 ∷ 1 ∷ 0 ∷ ls) self.old ≡ with_head result (numbers_in ls self.new) }
        ensures rest { OnSome result (self.new ≡ drop 3 self.old) }
    {
        let epoch = self.number(1)?;
        let serial = self.number(1)?;
        let committed = self.number(0)?;
        Head::new(epoch, serial, committed)
    }

    /// Whether all that are left are bodies.
    #[tactic(auto, using(crate::proofs::WordLaws::judges))]
    fn are_bodies(&self) -> bool
        ensures { result ≡ is_some (bodies_in self.now) }
    {
        if self.rest.is_none() {
            return true;
        }
        let mut words = Words { rest: self.rest };
        let mut room = [0; MAX_BODY];
        while let Some(word) = words.next() {
            if !is_body(word, &mut room) {
                return false;
            }
        }
        true
    }

    /// All that are left as bodies. Before the first is copied the others are judged, so no memory
    /// is taken where one of them is none.
    #[tactic(auto, using(crate::proofs::WordLaws::collects))]
    pub fn bodies(&mut self, alloc: Global) -> Result<Option<BodyList>, OutOfMemory>
        ensures bodies { IfOk result (λ bodies. bodies ≡ bodies_in self.old) }
        ensures count { IfOk result (λ bodies. IfSome bodies (λ list. length list ≡ length self.old)) }
        ensures memory { OnErr result (is_some (bodies_in self.old) ≡ true) }
    {
        let mut list = BodyList::new(alloc);
        while let Some(word) = self.next() {
            if list.is_empty() && !self.are_bodies() {
                return Ok(None);
            }
            let Some(body) = read_body(alloc, word)? else {
                return Ok(None);
            };
            list.push(body)?;
        }
        Ok(Some(list))
    }
}
