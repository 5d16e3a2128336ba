//! A value that is the object of no edit.

/// What is wrong with a value: it is the object of no edit.
#[derive(Clone, Copy)]
pub struct BadObject;
