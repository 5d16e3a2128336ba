//! A namespace: directories and files by their paths, whose grammar and order it has, and the calls
//! that it remembers.
#![tactic(auto)]

mod appending;
mod branch;
mod end;
mod examples;
mod grammar;
mod inode;
mod invariant;
mod laws;
mod namespace;
mod path;
mod path_examples;
mod renamed_subtree;
mod retries;
mod retry_list;
mod tree;
mod under;

pub use end::{End, EndList, LastSpace, RowList};
pub use examples::{a_directory_goes, a_directory_has_names, a_directory_moves};
pub use grammar::{is_good_owner, is_good_path};
pub use inode::{Inode, Noted, Row};
pub use laws::{directories_come_right_before, walks_go_by_components};
pub use namespace::Namespace;
pub use path::{
    contains_slash, is_root_path, lies_at_or_under, lies_under, parent, part_from, path_moved,
    path_of, stem_of, walk_order,
};
pub use path_examples::{
    a_path_has_components, a_walk_goes_by_components, names_have_grammars, what_is_under_a_path,
};
