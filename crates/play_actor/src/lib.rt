//! The program's actor: what it does with each line of a script, through its caller;
//! plays: nodes, and actors of any kind, taken through a script's lines in order.
#![tactic(auto)]

mod actions;
mod cluster;
mod name_node;
mod named_lines;
mod nodes_wire;
mod played_on;
mod player;
mod playing;
mod role;
mod rounds;
mod script_actor;
mod standby_actions;
mod submissions;
mod submitted;
mod takeovers;
mod unmoved;

pub use actions::{say_all, take_late, take_mark, take_task};
pub use played_on::PlayedOn;
pub use playing::{plain_nodes, play, play_on};
pub use script_actor::ScriptActor;
