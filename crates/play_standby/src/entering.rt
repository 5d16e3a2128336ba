//! A standby enters the active role.
ghost use Rattle.std.specs.Prelude.{◌≡◌, ◌≢◌, ◌≤◌, List};
ghost use Rattle.ns_edits.specs.Replay.{Image};
ghost use Rattle.writer_calls.specs.Led.{nodes_of};
ghost use Rattle.play_standby.specs.Entering.{StandsEntered};
ghost use Rattle.play_standby.specs.EntryAnswers.{IsEntry, IsFresh, IsAnswer, HasMemory};

use crate::active::Active;
use crate::entered::Entered;
use crate::standby::Standby;
use crate::taking::{TakenOver, take_over};
use journal_core::Peers;
use std::alloc::Global;
use writer_calls::QuorumWriter;

impl Active {
    /// A standby takes over with this writer: the writer's rounds, and then a tail up to the txid
    /// before the first segment, which a standby with more than that begins empty at 0.
    pub fn enter<P: Peers>(
        writer: QuorumWriter,
        standby: Standby,
        alloc: Global,
        peers: &mut P,
    ) -> Entered
        requires some { 1 ≤ P.nodes peers.old }
        requires nodes { P.nodes peers.old ≡ nodes_of writer }
        ensures entered { (images : List Image) → IsEntry (P.nodes peers.old) images writer standby (P.calls peers.old) (P.calls peers.new) result }
        ensures fresh { IsFresh (P.nodes peers.old) result }
        ensures peers { P.nodes peers.new ≡ P.nodes peers.old }
        ensures called { HasMemory result → P.called peers.old peers.new }
    {
        let mut writer = writer;
        let mut standby = standby;
        let taken = take_over(alloc, &mut writer, &mut standby, peers);
        answer(alloc, writer, standby, taken)
    }
}

/// The answer to what came of the takeover.
fn answer(alloc: Global, writer: QuorumWriter, standby: Standby, taken: TakenOver) -> Entered
    requires { StandsEntered taken writer standby }
    ensures answer { IsAnswer writer standby taken result }
    ensures fresh { IsFresh (nodes_of writer) result }
    ensures memory { HasMemory result → taken ≢ TakenOver.OutOfMemory }
{
    match taken {
        TakenOver::Active { epoch, first } => Entered::Active {
            active: Active::of(alloc, writer, standby, first),
            epoch,
            first,
        },
        TakenOver::Aborted { causes } => Entered::Aborted {
            writer,
            standby,
            causes,
        },
        TakenOver::EpochLimit { told } => Entered::EpochLimit {
            writer,
            standby,
            told,
        },
        TakenOver::Behind { txid, causes } => Entered::Behind {
            writer,
            standby,
            txid,
            causes,
        },
        TakenOver::Purged { first } => Entered::Purged {
            writer,
            standby,
            first,
        },
        TakenOver::BadEntry { txid } => Entered::BadEntry {
            writer,
            standby,
            txid,
        },
        TakenOver::OutOfMemory => Entered::OutOfMemory { writer, standby },
    }
}
