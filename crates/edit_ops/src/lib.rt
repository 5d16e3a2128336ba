//! Edits: the 14 kinds, what each does, and the fields that each has.
#![tactic(auto)]

mod call;
mod edit;
mod edit_list;
mod field_fault;
mod keys;
mod kind;
mod lists;
mod op;
mod source;

pub use call::Call;
pub use edit::Edit;
pub use edit_list::EditList;
pub use field_fault::{FieldFault, ReadError};
pub use kind::{KINDS, OpKind};
pub use lists::{NameList, NumberList};
pub use op::Op;
pub use source::FieldSource;
