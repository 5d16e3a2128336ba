//! A standby takes over.
ghost use Rattle.std.specs.Prelude.{◌≡◌, ◌≢◌, ◌≤◌, List};
ghost use Rattle.ns_edits.specs.Replay.{Image};
ghost use Rattle.writer_calls.specs.Led.{nodes_of};
ghost use Rattle.play_standby.specs.Entering.{IsTailedIn, IsTakenOver, StandsEntered, keeps_epoch};

use crate::standby::Standby;
use journal_core::Peers;
use play_names::Tailed;
use std::alloc::Global;
use writer_calls::{QuorumWriter, Taken};
use writer_core::CauseList;

/// What came of a takeover.
#[derive(Drop)]
pub(crate) enum TakenOver {
    /// The writer owns this epoch and holds an open segment with this start, and the standby stands
    /// right before it.
    Active { epoch: u64, first: u64 },
    /// In some round no majority answered with the Ok kind; one cause for each node in that round.
    Aborted { causes: CauseList },
    /// The greatest promise told is the greatest number, so there is no epoch above it.
    EpochLimit { told: u64 },
    /// The tail ended at this position, before the first segment; what came of each node in its
    /// last pass.
    Behind { txid: u64, causes: CauseList },
    /// The tail ended before the first segment, and some log begins later; the least first txid
    /// that was told.
    Purged { first: u64 },
    /// The entry of this txid doesn't decode or isn't admitted.
    BadEntry { txid: u64 },
    /// Memory was wanting.
    OutOfMemory,
}

/// A standby takes over as this writer: the writer's rounds, and then a tail up to the txid before
/// the first segment, which a standby with more than that begins empty at 0. Where the tail doesn't
/// get there the writer gives up, unless a bad entry was met; what the tail applied stays.
pub(crate) fn take_over<P: Peers>(
    alloc: Global,
    writer: &mut QuorumWriter,
    standby: &mut Standby,
    peers: &mut P,
) -> TakenOver
    requires some { 1 ≤ P.nodes peers.old }
    requires nodes { P.nodes peers.old ≡ nodes_of writer.old }
    ensures taken { (images : List Image)
        → IsTakenOver (P.nodes peers.old) images writer.old standby.old (P.calls peers.old) (P.calls peers.new) writer.new standby.new result }
    ensures stands { StandsEntered result writer.new standby.new }
    ensures nodes { nodes_of writer.new ≡ nodes_of writer.old }
    ensures peers { P.nodes peers.new ≡ P.nodes peers.old }
    ensures called { result ≢ TakenOver.OutOfMemory → P.called peers.old peers.new }
{
    match writer.takeover(alloc, peers) {
        Taken::Taken { epoch, first } => {
            let taken = tail_in(alloc, standby, peers, epoch, first);
            if keeps_epoch(&taken) {
                return taken;
            }
            writer.stop();
            taken
        }
        Taken::Aborted { causes } => TakenOver::Aborted { causes },
        Taken::EpochLimit { told } => TakenOver::EpochLimit { told },
        Taken::OutOfMemory => TakenOver::OutOfMemory,
    }
}

/// The writer keeps its epoch: the tail got there, or met a bad entry.
fn keeps_epoch(taken: &TakenOver) -> bool
    ensures { result ≡ keeps_epoch taken.now }
{
    matches!(taken, TakenOver::Active { .. } | TakenOver::BadEntry { .. })
}

/// The tail of a takeover.
fn tail_in<P: Peers>(
    alloc: Global,
    standby: &mut Standby,
    peers: &mut P,
    epoch: u64,
    first: u64,
) -> TakenOver
    requires { 1 ≤ P.nodes peers.old }
    ensures tailed { (images : List Image)
        → IsTailedIn (P.nodes peers.old) epoch first images standby.old (P.calls peers.old) (P.calls peers.new) standby.new result }
    ensures peers { P.nodes peers.new ≡ P.nodes peers.old }
    ensures called { result ≢ TakenOver.OutOfMemory → P.called peers.old peers.new }
{
    let last = first.saturating_sub(1);
    match standby.enter(alloc, last) {
        Ok(()) => {}
        Err(_) => return TakenOver::OutOfMemory,
    }
    match standby.tail(alloc, peers, Some(last)) {
        Tailed::Reached { .. } => TakenOver::Active { epoch, first },
        Tailed::Caught { .. } => unreachable!(),
        Tailed::Behind { txid, causes } => TakenOver::Behind { txid, causes },
        Tailed::Purged { first } => TakenOver::Purged { first },
        Tailed::BadEntry { txid } => TakenOver::BadEntry { txid },
        Tailed::OutOfMemory => TakenOver::OutOfMemory,
    }
}
