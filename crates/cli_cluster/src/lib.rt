//! The commands of a cluster, whose nodes and name nodes are processes: their words, a node that is
//! served to clients, a name node, and the count of its folder's starts.
#![tactic(auto)]

mod cluster_command;
mod folder_actor;
mod image_start;
mod lead_command;
mod life;
mod serve_command;

pub use cluster_command::{ClusterCommand, NodeFolder, PipeFolder, read_cluster_command};
pub use folder_actor::{FolderActor, save_standby};
pub use image_start::begin_lead;
pub use lead_command::lead_cluster;
pub use life::count_start;
pub use serve_command::{ServeExit, serve_node_to};
