//! Rows of a namespace as text, and JSON written a member at a time.
#![tactic(auto)]

mod columns;
mod member;
mod permission;
mod row_text;
mod worked;
mod writing;

pub use columns::{Columns, columns_of, size_of};
pub use member::Member;
pub use row_text::{put_header, put_row, put_wide};
pub use worked::{known_permissions_have_letters, known_rows_have_texts};
pub use writing::{array_text, begun_array, close_object, open_object, put_members, put_object};
