//! The commands of a cluster, read from the words.
ghost use Rattle.std.specs.Prelude.{◌≡◌, ◌∷◌, [], false, Some, codes, IfOk, MatchOption, MatchResult};
ghost use Rattle.journal_core.specs.Nodes.{most_nodes};
ghost use Rattle.cli_cluster.specs.Words.{asks_cluster, cluster_usage_of, after_counted, behind_clients, behind_nodes, behind_folder, folder_words, node_words, most_clients, AsksCluster, IsWithinTime};
ghost use Rattle.cli_commands.specs.Usage.{bytes_of};

use base_words::number_of;
use journal_core::MOST_NODES;

/// The most clients of a node.
const MOST_CLIENTS: u64 = 64;

/// The most seconds for which a name node waits for the replies of a round.
const MOST_SECONDS: u64 = 3600;

/// The folder of the pipes of a node's clients.
#[derive(Clone, Copy)]
pub enum PipeFolder<'a> {
    /// The one that the command has where none is said.
    Usual,
    /// One of this name.
    Named { name: &'a str },
}

/// The folder of the pipes to nodes, and for how many seconds the replies of a round are waited for:
/// so many as is usual, where that isn't said.
#[derive(Clone, Copy)]
pub enum NodeFolder<'a> {
    /// The one that the command has where none is said.
    Usual,
    /// One of this name.
    Named { name: &'a str },
    /// One of this name, and so many seconds.
    Timed { name: &'a str, seconds: u64 },
}

/// What the program is asked to do in a cluster.
#[derive(Clone, Copy)]
pub enum ClusterCommand<'a> {
    /// To serve a node to so many clients, over named pipes of this folder.
    Serve {
        clients: u64,
        folder: PipeFolder<'a>,
    },
    /// To be a name node over so many nodes, over named pipes of this folder.
    Lead {
        nodes: u64,
        folder: NodeFolder<'a>,
    },
}

/// The folder of clients' pipes that the words behind their number say; or the place of the first
/// wrong word.
fn read_clients(words: &[String]) -> Result<PipeFolder<'_>, u64>
    ensures { MatchResult result (λ f. bytes_of words.now ≡ folder_words f) (λ place. behind_clients (bytes_of words.now) ≡ Some place) }
{
    let Some((name, others)) = words.split_first() else {
        return Ok(PipeFolder::Usual);
    };
    if others.is_empty() {
        Ok(PipeFolder::Named {
            name: name.as_str(),
        })
    } else {
        Err(3)
    }
}

/// The folder of nodes' pipes, and the time, that the words behind their number say; or the place of
/// the first wrong word.
#[tactic(auto, using(crate::proofs::WordLaws::times), unfolding(crate::specs::Words::behind_folder))]
fn read_nodes(words: &[String]) -> Result<NodeFolder<'_>, u64>
    ensures said { MatchResult result (λ f. bytes_of words.now ≡ node_words f) (λ place. behind_nodes (bytes_of words.now) ≡ Some place) }
    ensures within { IfOk result (λ f. IsWithinTime f) }
{
    let Some((name, others)) = words.split_first() else {
        return Ok(NodeFolder::Usual);
    };
    let name = name.as_str();
    let Some((word, behind)) = others.split_first() else {
        return Ok(NodeFolder::Named { name });
    };
    let Some(seconds) = number_of(word.as_bytes(), 1, MOST_SECONDS) else {
        return Err(3);
    };
    if behind.is_empty() {
        Ok(NodeFolder::Timed { name, seconds })
    } else {
        Err(4)
    }
}

/// The command that the words behind `serve` ask for; or the place of the first wrong word.
#[tactic(auto, using(crate::proofs::WordLaws::served), unfolding(crate::specs::Words::after_counted))]
fn read_serve(words: &[String]) -> Result<ClusterCommand<'_>, u64>
    ensures { MatchResult result (AsksCluster (codes "serve" ∷ bytes_of words.now)) (λ place. after_counted most_clients behind_clients (bytes_of words.now) ≡ Some place) }
{
    let Some((word, others)) = words.split_first() else {
        return Err(1);
    };
    let Some(clients) = number_of(word.as_bytes(), 1, MOST_CLIENTS) else {
        return Err(1);
    };
    match read_clients(others) {
        Ok(folder) => Ok(ClusterCommand::Serve { clients, folder }),
        Err(place) => Err(place),
    }
}

/// The command that the words behind `lead` ask for; or the place of the first wrong word.
#[tactic(auto, using(crate::proofs::WordLaws::leads), unfolding(crate::specs::Words::after_counted))]
fn read_lead(words: &[String]) -> Result<ClusterCommand<'_>, u64>
    ensures { MatchResult result (AsksCluster (codes "lead" ∷ bytes_of words.now)) (λ place. after_counted most_nodes behind_nodes (bytes_of words.now) ≡ Some place) }
{
    let Some((word, others)) = words.split_first() else {
        return Err(1);
    };
    let Some(nodes) = number_of(word.as_bytes(), 1, MOST_NODES) else {
        return Err(1);
    };
    match read_nodes(others) {
        Ok(folder) => Ok(ClusterCommand::Lead { nodes, folder }),
        Err(place) => Err(place),
    }
}

/// The command of a cluster that the words ask for, where the first one is `serve` or `lead`; or
/// the place, from 0, of the first word that is missing or wrong then. `None` where no word or
/// another one stands first.
#[tactic(auto, unfolding(crate::specs::Words::cluster_usage_of))]
pub fn read_cluster_command(words: &[String]) -> Option<Result<ClusterCommand<'_>, u64>>
    ensures { MatchOption result (asks_cluster (bytes_of words.now) ≡ false)
        (λ read. MatchResult read (AsksCluster (bytes_of words.now)) (λ place. cluster_usage_of (bytes_of words.now) ≡ Some place)) }
{
    let Some((first, others)) = words.split_first() else {
        return None;
    };
    if first.as_str() == "serve" {
        return Some(read_serve(others));
    }
    if first.as_str() == "lead" {
        return Some(read_lead(others));
    }
    None
}
