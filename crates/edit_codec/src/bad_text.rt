//! A text of no edit.
/// What is wrong with a text: it is that of no edit.
#[derive(Clone, Copy)]
pub struct BadText;
