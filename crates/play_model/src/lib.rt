//! What a play of a script is, step by step, and what holds of every play.
#![tactic(auto)]

mod actor;
mod actor_left;
mod declarations;
mod laws;
mod played;

pub use actor::Actor;
pub use actor_left::ActorLeft;
pub use declarations::actors_in;
pub use laws::{
    a_mesh_that_agrees_is_safe, a_mesh_that_agrees_shows_no_fault, a_play_agrees, a_play_follows,
    a_play_is_a_run, an_actor_does_its_tasks, answers_fix_the_record, each_edit_has_one_result,
    histories_are_local_runs, lines_one_by_one, one_script_has_one_play, scripts_are_playable,
};
pub use played::Played;
