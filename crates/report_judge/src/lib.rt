//! Reports read back: the lists of which a text is the report, or the line that breaks a rule; and
//! the judge of whether these lists agree.
#![tactic(auto)]

mod actors;
mod answer;
mod answers;
mod asks;
mod calls;
mod columns;
mod copies;
mod cutting;
mod fronts;
mod histories;
mod history_line;
mod judgement;
mod judging;
mod kept;
mod last_space;
mod laws;
mod names;
mod place;
mod plan;
mod record_line;
mod records;
mod requests;
mod rows;
mod rules;
mod unread;
mod whole;
mod words;
mod worked;

pub use answer::{Lists, Reading};
pub use judgement::{Finding, Judgement};
pub use judging::{judge, judge_lists};
pub use laws::{agreement_is_told, verdicts_exclude_each_other};
pub use whole::read_report;
pub use words::{agrees_text, disagrees_text};
pub use worked::lists_are_in_the_bytes;
