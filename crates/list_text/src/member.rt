//! The members of an object, lent.
use base_words::Name;

/// A key, and a value that is no object. The bytes of texts are ASCII.
#[derive(Clone, Copy)]
pub enum Member<'a> {
    Number(&'a str, u64),
    /// -1 where there is none.
    Limit(&'a str, Option<u64>),
    Word(&'a str, &'a str),
    Text(&'a str, &'a [u8]),
    Flag(&'a str, bool),
    Numbers(&'a str, &'a [u64]),
    Texts(&'a str, &'a [Name]),
}
