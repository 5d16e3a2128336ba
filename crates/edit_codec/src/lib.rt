//! Edits as the bytes of records and as the words of a script, read and written.
#![tactic(auto)]

mod bad_text;
mod decoded;
mod decoding;
mod field;
mod laws;
mod reading_op;
mod reading_text;
mod record_source;
mod said_text;
mod text;
mod text_laws;
mod word_source;
mod writing;

pub use bad_text::BadText;
pub use decoded::Decoded;
pub use decoding::decode;
pub use field::{Field, Form, put_field, put_fields, put_numbers, put_paths};
pub use laws::no_record_begins_another;
pub use reading_op::{read_call, read_op};
pub use reading_text::read_text;
pub use record_source::{MOST_OWNER, MOST_PATH, RecordSource, is_printable};
pub use said_text::ReadText;
pub use text::edit_text;
pub use text_laws::{texts_are_tested, texts_are_words, texts_tell_edits};
pub use word_source::{WordSource, split_word};
pub use writing::{encode, encode_in, put_op};
