//! The numbers of the rules.

/// A byte outside 0x20 to 0x7E, a last line without LF, or more than 16,384 bytes in a line.
pub const LINE_BYTES: u32 = 10;
/// The first line that says something isn't `raw N` or `names N` with N from 1 to 15.
pub const FIRST_LINE: u32 = 1;
/// A first word that begins no line here.
pub const FIRST_WORD: u32 = 2;
/// A wrong number of words, or a double, leading or trailing space.
pub const WORD_COUNT: u32 = 3;
/// A bad name in a declaration.
pub const BAD_NAME: u32 = 4;
/// A ninth actor.
pub const TOO_MANY_ACTORS: u32 = 11;
/// An actor that was declared before.
pub const DECLARED_AGAIN: u32 = 6;
/// An actor that wasn't declared before.
pub const UNKNOWN_ACTOR: u32 = 5;
/// A number or a node that isn't one, or isn't in its range.
pub const BAD_NUMBER: u32 = 7;
/// A body that isn't lower-case hexadecimal of 1 to 4,096 bytes.
pub const BAD_BODY: u32 = 8;
/// A text that isn't that of an edit.
pub const BAD_EDIT: u32 = 9;
