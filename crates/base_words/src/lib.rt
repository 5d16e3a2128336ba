//! Numbers, names and bytes as the formats write them, and the words of a line; lists by rising
//! start.
#![tactic(auto)]

mod bytes;
mod digits;
mod fields;
mod hex;
mod laws;
mod limits;
mod name;
mod numbers;
mod padded;
mod starts;
mod words;

pub use bytes::Bytes;
pub use digits::{put_decimal, put_digits, read_digits, read_number};
pub use fields::{get_u16, get_u32, get_u64, put_u16, put_u32, put_u64};
pub use hex::{hex_digit, put, put_hex, read_hex};
pub use laws::{fields_are_got_back, numbers_are_read_back, padded_numbers_are_read_back};
pub use limits::{MAX, OutOfMemory};
pub use name::Name;
pub use numbers::number_of;
pub use padded::{print19, read19};
pub use starts::{HasStart, place_in};
pub use words::{count_words, first_word, split_word, word_len};
