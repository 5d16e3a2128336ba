//! Files of cases: the cases that their lines make, and what all programs of cases share: the words
//! of their lines, steps at a node as texts, what nodes listed as such steps, and the questions
//! that tell whether two nodes are in one state.
//!
//! A case is a block of lines, and an empty line stands between two. Its first line is `case
//! TITLE`, with a title that no other case has. A line that begins with `#` is a remark, and says
//! nothing.
#![tactic(auto)]

mod asking;
mod case_text;
mod draws;
mod histories;
mod probe;
mod reading;
mod words;

pub use asking::{ask, reply_text, request_of, told_by};
pub use case_text::{CaseLine, CaseText};
pub use draws::Draws;
pub use histories::drive;
pub use probe::are_alike;
pub use reading::read_cases;
pub use words::{
    bytes_of, choice_of, number_and_rest, put_bytes, put_input, put_line, two_words, word_and_rest,
};
