//! Logger pipes: the calls of one caller at several lines, each made by a worker of its own; and
//! scripts played by threads whose calls go through pipes.
//!
//! A desk has a pipe for each node: two queues, of requests and of answers, with a worker at the far
//! end that makes the calls there. A round's request goes into the pipes of all its nodes before
//! the first answer is awaited. What comes out of a queue is what went in, in order, and each answer
//! has a receipt of its request. So a line that comes back lists what it listed before, and then
//! what the desk lists of its node, in order and each pair once.
#![tactic(auto)]

mod ahead;
mod answered;
mod ask;
mod desk;
mod desk_wire;
mod end;
mod gate_line;
mod kept;
mod line;
mod maker;
mod patience;
mod pipe;
mod pipe_lines;
mod pipe_work;
mod piping;
mod queue;
mod queues;
mod run;
mod start;
mod threads;
mod work;
mod worker;

pub use answered::Answered;
pub use ask::{Answer, Ask};
pub use desk::Desk;
pub use line::Line;
pub use piping::piped;
pub use queue::{InOrder, Item, Log, Queue, QueuePass, Source};
pub use run::run_piped_on;
pub use work::Work;
