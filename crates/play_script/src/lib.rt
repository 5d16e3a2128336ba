//! Scripts: what each line is, and their text, read with the first broken rule, and printed; the
//! script that a number gives.
#![tactic(auto)]

mod answer;
mod call_word;
mod chance;
mod edits;
mod examples;
mod generating;
mod kind;
mod laws;
mod line_read;
mod line_reading;
mod lines;
mod made_edits;
mod made_examples;
mod making;
mod names;
mod naming;
mod node_word;
mod print;
mod reader;
mod reading;
mod rules;
mod said;
mod script;
mod script_line;
mod standby_word;
mod task_word;
mod words;

pub use answer::ReadScript;
pub use examples::{
    actors_are_told, comments_say_nothing, every_kind_is_spelled, first_lines_are_told,
    names_are_told, namespaces_are_spelled, numbers_are_told, one_writer_logs, words_are_told,
};
pub use generating::generate;
pub use laws::{script_has_its_text, scripts_break_no_rule, text_is_of_one_script};
pub use lines::split_line;
pub use made_examples::generated_scripts_are_spelled;
pub use names::NameSet;
pub use naming::{others_have_names, raw_line};
pub use print::print_script;
pub use reader::read_script;
pub use script::Script;
pub use script_line::ScriptLine;
pub use words::{choice_of, is_name};
