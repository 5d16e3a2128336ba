//! What a request line says.

use journal_core::Request;

/// What a line says.
#[derive(Drop)]
pub enum ReadRequest {
    /// A request.
    Read(Request),
    /// Not a request's text; the number of the first rule that it breaks: 2 an unknown word, 3 a
    /// wrong number of words, 7 a bad number, 8 a bad body.
    Bad { rule: u32 },
    /// Out of memory.
    OutOfMemory,
}
