//! A pass over nodes that are called directly, whose disks can't fail.
ghost use Rattle.std.specs.Prelude.{◌≡◌, [], IfOk, OnOk, map};
ghost use Rattle.std.specs.List.{All, flat_map};
ghost use Rattle.writer_calls.specs.Logs.{MirroredBy};
ghost use Rattle.writer_calls.specs.Mirrors.{lines_of, hold_lines};
ghost use Rattle.writer_calls.specs.States.{finals_at, told_at, mirror_of, IsGivenBy, IsTold};

use crate::direct::Direct;
use crate::mirror::Mirror;
use crate::synced::Synced;
use journal_core::{Node, OutOfMemory};
use std::alloc::Global;

/// A pass over nodes that are called directly, each of which tells its state and is steady: nothing
/// is missing, and no state changes. `OutOfMemory` as of `Mirror::sync`.
pub fn sync_steady<N: Node + Drop>(
    mirror: &mut Mirror,
    alloc: Global,
    peers: &mut Direct<N>,
) -> Result<Synced, OutOfMemory>
    requires steady { All (λ n. N.steady n) peers.old.nodes }
    requires told { All (λ n. IsTold (N.state n)) peers.old.nodes }
    ensures heard { IfOk result (λ s. s.heard.items ≡ map (λ n. told_at (N.state n)) peers.old.nodes) }
    ensures missing { IfOk result (λ s. s.missing.items ≡ []) }
    ensures lines { OnOk result (lines_of mirror.new ≡ hold_lines (lines_of mirror.old) (lines_of (flat_map finals_at (map (λ n. N.state n) peers.old.nodes)))) }

    // What is held then is given by a node at its txids, where it was before.
    ensures given { OnOk result (MirroredBy (IsGivenBy (map (λ n. N.state n) peers.old.nodes)) mirror.old
        → MirroredBy (IsGivenBy (map (λ n. N.state n) peers.old.nodes)) mirror.new) }

    ensures states { OnOk result (map (λ n. N.state n) peers.new.nodes ≡ map (λ n. N.state n) peers.old.nodes) }
{
    mirror.sync(alloc, peers)
}

/// What one pass over nodes made of a fresh mirror.
#[derive(Drop)]
pub struct MirroredNodes {
    /// What is held.
    pub mirror: Mirror,
    /// What each node told.
    pub synced: Synced,
}

/// A fresh mirror after a pass over these nodes, the first of them as node 1.
pub fn mirror_nodes<N: Node + Drop>(
    alloc: Global,
    nodes: Vec<N>,
) -> Result<MirroredNodes, OutOfMemory>
    requires steady { All (λ n. N.steady n) nodes.items }
    requires told { All (λ n. IsTold (N.state n)) nodes.items }
    ensures heard { IfOk result (λ m. m.synced.heard.items ≡ map (λ n. told_at (N.state n)) nodes.items) }
    ensures missing { IfOk result (λ m. m.synced.missing.items ≡ []) }
    ensures lines { IfOk result (λ m. lines_of m.mirror ≡ lines_of (mirror_of (map (λ n. N.state n) nodes.items))) }
    ensures given { IfOk result (λ m. MirroredBy (IsGivenBy (map (λ n. N.state n) nodes.items)) m.mirror) }
{
    let mut mirror = Mirror::new(alloc);
    let mut peers = Direct::new(alloc, nodes);
    let synced = sync_steady(&mut mirror, alloc, &mut peers)?;
    Ok(MirroredNodes { mirror, synced })
}
