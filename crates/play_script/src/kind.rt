//! The kinds of line.
ghost use Rattle.std.specs.Prelude.{◌≡◌, ◌∷◌, true, false, MatchOption};
ghost use Rattle.base_words.specs.Words.{words_of, first_word};
ghost use Rattle.play_script.specs.Grammar.{declaration};
ghost use Rattle.play_script.specs.Rules.{kind_of, own_kind_of, bad_spacing};

use crate::call_word::CallWord;
use crate::node_word::NodeWord;
use crate::standby_word::StandbyWord;
use crate::task_word::TaskWord;
use base_words::{count_words, split_word};

/// A kind of line after the first, by its first word.
#[derive(Clone, Copy)]
pub enum Kind {
    /// `writer NAME`, or `name NAME` with namespaces
    Declare,
    /// `takeover A`, `roll A` or `close A`
    Task(TaskWord),
    /// `log A BODY ..`
    Log,
    /// `log A EDIT ; EDIT ; ..`
    Edits,
    /// `purge A MIN`
    Purge,
    /// `trim A EXTRA`
    Trim,
    /// `tail A`, `checkpoint A` or `reload A`
    Standby(StandbyWord),
    /// `drop A I K`, `mute A I K` or `late A I K`
    Call(CallWord),
    /// `kill I` or `restart I`
    Node(NodeWord),
    /// `stop I J K`
    Stop,
    /// `cut I J D CHOICE`
    Cut,
}

/// The first word of a declaration.
pub fn declaration(named: bool) -> &'static [u8]
    ensures { result.now ≡ declaration named }
{
    if named { b"name" } else { b"writer" }
}

/// The kind of line that a first word begins in scripts without namespaces alone.
#[tactic(auto, unfolding(crate::specs::Rules::own_kind_of))]
fn raw_kind_of(word: &[u8]) -> Option<Kind>
    ensures { result ≡ own_kind_of false word.now }
{
    if word == b"writer".as_slice() {
        Some(Kind::Declare)
    } else if word == b"log".as_slice() {
        Some(Kind::Log)
    } else if word == b"purge".as_slice() {
        Some(Kind::Purge)
    } else {
        None
    }
}

/// The kind of line that a first word begins in scripts with namespaces alone.
#[tactic(auto, unfolding(crate::specs::Rules::own_kind_of))]
fn names_kind_of(word: &[u8]) -> Option<Kind>
    ensures { result ≡ own_kind_of true word.now }
{
    if word == b"name".as_slice() {
        Some(Kind::Declare)
    } else if word == b"log".as_slice() {
        Some(Kind::Edits)
    } else if word == b"trim".as_slice() {
        Some(Kind::Trim)
    } else if word == b"tail".as_slice() {
        Some(Kind::Standby(StandbyWord::Tail))
    } else if word == b"checkpoint".as_slice() {
        Some(Kind::Standby(StandbyWord::Checkpoint))
    } else if word == b"reload".as_slice() {
        Some(Kind::Standby(StandbyWord::Reload))
    } else {
        None
    }
}

fn own_kind_of(named: bool, word: &[u8]) -> Option<Kind>
    ensures { result ≡ own_kind_of named word.now }
{
    if named {
        names_kind_of(word)
    } else {
        raw_kind_of(word)
    }
}

/// The kind of line that a first word begins in a script with namespaces or without.
#[tactic(auto, unfolding(crate::specs::Rules::kind_of, crate::specs::Rules::own_kind_of))]
pub fn kind_of(named: bool, word: &[u8]) -> Option<Kind>
    ensures { result ≡ kind_of named word.now }
{
    if word == b"takeover".as_slice() {
        Some(Kind::Task(TaskWord::Takeover))
    } else if word == b"roll".as_slice() {
        Some(Kind::Task(TaskWord::Roll))
    } else if word == b"close".as_slice() {
        Some(Kind::Task(TaskWord::Close))
    } else if word == b"drop".as_slice() {
        Some(Kind::Call(CallWord::Drop))
    } else if word == b"mute".as_slice() {
        Some(Kind::Call(CallWord::Mute))
    } else if word == b"late".as_slice() {
        Some(Kind::Call(CallWord::Late))
    } else if word == b"kill".as_slice() {
        Some(Kind::Node(NodeWord::Kill))
    } else if word == b"restart".as_slice() {
        Some(Kind::Node(NodeWord::Restart))
    } else if word == b"stop".as_slice() {
        Some(Kind::Stop)
    } else if word == b"cut".as_slice() {
        Some(Kind::Cut)
    } else {
        own_kind_of(named, word)
    }
}

/// A wrong number of words, or an empty one.
fn has_bad_spacing(kind: Kind, line: &[u8]) -> bool
    ensures { result ≡ bad_spacing kind (words_of line.now) }
{
    let Some(count) = count_words(line) else {
        return true;
    };
    match kind {
        Kind::Declare => count != 2,
        Kind::Task(_) => count != 2,
        Kind::Log => count < 3,
        Kind::Edits => count < 3,
        Kind::Purge => count != 3,
        Kind::Trim => count != 3,
        Kind::Standby(_) => count != 2,
        Kind::Call(_) => count != 4,
        Kind::Node(_) => count != 2,
        Kind::Stop => count != 4,
        Kind::Cut => count != 5,
    }
}

/// The words after the first, if there are as many words as the kind wants, and none is empty.
#[tactic(auto, using(crate::proofs::KindLaws::spacings))]
pub fn operands(kind: Kind, line: &[u8]) -> Option<&[u8]>
    ensures { MatchOption result (bad_spacing kind (words_of line.now) ≡ true)
        (λ rest. (bad_spacing kind (words_of line.now) ≡ false) × (words_of line.now ≡ first_word (words_of line.now) ∷ words_of rest.now)) }
{
    if has_bad_spacing(kind, line) {
        return None;
    }
    match split_word(line) {
        Some((_, rest)) => Some(rest),
        None => None,
    }
}
