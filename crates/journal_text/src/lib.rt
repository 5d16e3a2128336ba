//! The texts of requests and replies, printed and read; of replies exactly those that answer a
//! request.
#![tactic(auto)]

mod edits;
mod examples;
mod head_words;
mod laws;
mod prepared;
mod printing;
mod reading;
mod refusals;
mod replies;
mod reply_laws;
mod reply_reading;
mod request_line;
mod request_word;
mod requests;
mod words;

pub use examples::{a_session_is_printed, a_session_is_read};
pub use laws::texts_are_read;
pub use printing::put_bodies;
pub use reading::read_request;
pub use replies::{print_cause, print_reply};
pub use reply_laws::{only_texts_are_read, replies_are_read};
pub use reply_reading::read_reply;
pub use request_line::ReadRequest;
pub use request_word::RequestWord;
pub use requests::print_request;
pub use words::{Words, number_word, read_bodies};
