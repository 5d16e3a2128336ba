//! What a node and a caller list, side by side: what reaches a node with its arming and what it
//! answers, line by line; a caller's record and the plan of its calls.
#![tactic(auto)]

mod arming;
pub mod cells;
mod equality;
mod fresh_cells;
mod history_line;
mod listed_line;
mod listed_record;
mod mark;
mod node_ask;
mod node_cell;
mod record;
mod shared_stop;
mod stop;

pub use arming::Arming;
pub use equality::{same, same_batch};
pub use fresh_cells::cells_of;
pub use history_line::{HistoryLine, HistoryList};
pub use listed_line::{LentLine, ListedLine};
pub use listed_record::{LentRecord, ListedRecord};
pub use mark::{ActorPlan, Mark, MarkKind, Plan};
pub use node_ask::{LentAsk, NodeAnswer, NodeAsk};
pub use node_cell::NodeCell;
pub use record::{Record, RecordList, Told};
pub use shared_stop::SharedStop;
pub use stop::Stop;
