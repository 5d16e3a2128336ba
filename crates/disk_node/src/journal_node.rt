//! A node of the journal over a disk.
ghost use Rattle.std.specs.Prelude.{◌≡◌, ◌≢◌, ◌≤◌, take, true, false};
ghost use Rattle.base_disk.specs.View.{LeavesOnly, AllLeave};
ghost use Rattle.journal_core.specs.declared.node_state.NodeState.{NodeState as AnyState};
ghost use Rattle.journal_core.specs.Step.{effects_of};
ghost use Rattle.journal_core.specs.Answers.{Answers, FitsRequest, Rose};
ghost use Rattle.journal_core.specs.Stops.{Stops, Kills, Restarts};
ghost use Rattle.disk_files.specs.Durable.{StandsAs};
ghost use Rattle.disk_recent.specs.Recent.{nothing};
ghost use Rattle.disk_node.specs.Acted.{IsActed};
ghost use Rattle.disk_node.specs.FileState.{state_of};
ghost use Rattle.disk_node.specs.Held.{StandsStopped};
ghost use Rattle.disk_node.specs.Node.{IsUp, told_state, AreSoundFrom};
ghost use Rattle.disk_node.specs.Opening.{StandsAsBefore};
ghost use Rattle.disk_node.specs.Clauses.{HasMoments, IsStable, IsCached, ReadsNone, IsSpared};

use crate::acting::{answer, go_down};
use crate::acting_stops::stop;
use crate::node_memory::NodeMemory;
use crate::node_opening::come_up;
use base_disk::Disk;
use journal_core::{NodeFail, Refusal, Reply, Request};
use std::alloc::Global;
use std::marker::Model;

/// A node that keeps its state in the files of its own disk. In memory it has its numbers, a table
/// of its segments and the newest edits of the one that it began last, the cached segment.
pub struct JournalNode<D: Disk> {
    pub(crate) disk: D,
    pub(crate) memory: NodeMemory,
}

/// A node is let go by one call wherever it is, which keeps proofs short.
impl<D: Disk + Drop> Drop for JournalNode<D> {
    fn drop(self) {
        let JournalNode { disk, memory } = self;
        drop(disk);
        drop(memory);
    }
}

impl<D: Disk> Model for JournalNode<D> {
    ghost use Rattle.disk_node.specs.Node.{NodeParts, IsWhole};

    ghost Value = { NodeParts D };

    ghost view = { λ n. record { disk = n.disk; memory = n.memory.numbers; rows = n.memory.table; recent = n.memory.recent } };

    ghost invariant = { λ n. IsWhole (D.tells n.disk) (D.view n.disk) n.memory.numbers n.memory.table n.memory.recent };
}

impl<D: Disk> JournalNode<D> {
    /// Its disk, as it is. Its files stand for the node's state, and of a node that is up each
    /// crash now leaves files that do.
    pub fn into_disk(self) -> D
        ensures disk { result ≡ self.disk }
        ensures stands { D.tells self.disk → StandsAs (D.view self.disk).seen (state_of (D.view self.disk).seen self.memory self.rows) }
        ensures lasting { D.tells self.disk → self.memory.up ≡ true → AllLeave (D.view self.disk) (λ c. StandsAs c (state_of (D.view self.disk).seen self.memory self.rows)) }
    {
        let JournalNode { disk, memory } = self;
        drop(memory);
        disk
    }

    /// Does nothing. Of a node that is up, over a disk that tells its bytes, the segments are sound,
    /// and each begins at 1 at least and at 2^62 at most.
    pub fn has_sound_segments(&self)
        ensures { D.tells self.now.disk → self.now.memory.up ≡ true → AreSoundFrom (state_of (D.view self.now.disk).seen self.now.memory self.now.rows) }
    {
        let _up = self.memory.numbers.up;
    }

    /// Answers one request. The reply is found before anything is done, and what the durable
    /// effects want of memory is taken before the first of them: want of it is answered OutOfMemory
    /// and changes nothing. Where the disk fails, or a disk call of the effects wants memory, the
    /// node goes down. A crash at any moment of the call leaves files that stand for the state
    /// after the first of the request's effects, some number of them, and one after an answer that
    /// is neither DiskFault nor OutOfMemory leaves all of them. Of a node that is down no disk call
    /// is made, and a read or a fetch of the cached segment's newest edits reads no file.
    pub fn act(&mut self, alloc: Global, request: &Request) -> Reply
        ensures step { Answers (told_state (D.is_told self.old.disk) (D.view self.old.disk).seen self.old.memory self.old.rows) request.now result (told_state (D.is_told self.new.disk) (D.view self.new.disk).seen self.new.memory self.new.rows) }
        ensures fits { FitsRequest request.now result }
        ensures acted { IsActed D.tells D.view self.old request.now result self.new }
        ensures moments { HasMoments D.DiskModel self.old.disk self.new.disk self.old.memory self.old.rows request.now }
        ensures stable { IsStable D.DiskModel self.old.disk self.new.disk self.old.memory self.old.rows request.now result }
        ensures idle { self.old.memory.up ≡ false → self.new.disk ≡ self.old.disk }
        ensures cached { IsCached D.DiskModel self.old.disk self.old.memory self.old.rows request.now result self.old.recent.start self.new.recent.start }
        ensures unread { ReadsNone D.DiskModel self.old.disk self.new.disk self.old.memory self.old.rows self.old.recent.start request.now }
        ensures later { D.faults self.old.disk ≤ D.faults self.new.disk }
        ensures fault { result ≡ Reply.Refused Refusal.DiskFault → Rose (D.faults self.old.disk) (D.faults self.new.disk) }
        ensures steady { D.steady self.old.disk → D.steady self.new.disk × (result ≢ Reply.Refused Refusal.DiskFault) }
        ensures spared { IsSpared D.DiskModel self.old.disk self.new.disk self.old.memory self.new.memory self.old.rows self.new.rows self.old.recent self.new.recent result }
    {
        answer(alloc, &mut self.disk, &mut self.memory, request)
    }

    /// Does the first durable effects of a request, at most `keep`, and goes down; answers how many
    /// it did. Lack of memory before the first of them changes nothing but that no segment is
    /// cached any more. A crash at any moment of the call leaves files that stand for the state
    /// after the first of these, some number of them. Of a node that is down no disk call is made,
    /// and no file is read.
    pub fn act_stopped(
        &mut self,
        alloc: Global,
        request: &Request,
        keep: u64,
    ) -> Result<u64, NodeFail>
        ensures stop { Stops (told_state (D.is_told self.old.disk) (D.view self.old.disk).seen self.old.memory self.old.rows) request.now keep result (told_state (D.is_told self.new.disk) (D.view self.new.disk).seen self.new.memory self.new.rows) }
        ensures moments { D.tells self.old.disk → (s : AnyState) → IsUp (D.view self.old.disk) self.old.memory self.old.rows s → LeavesOnly (D.view self.old.disk) (D.view self.new.disk) (StandsStopped s (take keep (effects_of s request.now))) }
        ensures idle { self.old.memory.up ≡ false → self.new.disk ≡ self.old.disk }
        ensures unread { D.reads self.new.disk ≡ D.reads self.old.disk }
        ensures later { D.faults self.old.disk ≤ D.faults self.new.disk }
        ensures fault { result ≡ Err NodeFail.DiskFault → Rose (D.faults self.old.disk) (D.faults self.new.disk) }
        ensures steady { D.steady self.old.disk → D.steady self.new.disk × (result ≢ Err NodeFail.DiskFault) }
    {
        self.memory.recent.clear();
        stop(alloc, &mut self.disk, &mut self.memory, request, keep)
    }

    /// Goes down; false where it already was, and then nothing changes.
    pub fn kill(&mut self) -> bool
        ensures kill { Kills (told_state (D.is_told self.old.disk) (D.view self.old.disk).seen self.old.memory self.old.rows) result (told_state (D.is_told self.new.disk) (D.view self.new.disk).seen self.new.memory self.new.rows) }
        ensures disk { self.new.disk ≡ self.old.disk }
    {
        if !self.memory.numbers.up {
            return false;
        }
        go_down(&mut self.memory.numbers, &self.memory.table);
        true
    }

    /// Comes up; false where it already was, and then nothing changes. What a crash left half done
    /// in its files is repaired. `DiskFault` comes where the disk failed, `OutOfMemory` for lack of
    /// memory, and `BadFile` only on a disk that doesn't tell its bytes; each leaves the node down.
    /// A crash at any moment of the call leaves files that stand for what a crash before it could
    /// have left. Of a node that is up no disk call is made; one that comes up has no cached
    /// segment.
    pub fn restart(&mut self, alloc: Global) -> Result<bool, NodeFail>
        ensures restart { Restarts (told_state (D.is_told self.old.disk) (D.view self.old.disk).seen self.old.memory self.old.rows) result (told_state (D.is_told self.new.disk) (D.view self.new.disk).seen self.new.memory self.new.rows) }
        ensures moments { D.tells self.old.disk → LeavesOnly (D.view self.old.disk) (D.view self.new.disk) (StandsAsBefore (D.view self.old.disk)) }
        ensures idle { self.old.memory.up ≡ true → self.new.disk ≡ self.old.disk }
        ensures cached { result ≡ Ok true → self.new.recent ≡ nothing }
        ensures later { D.faults self.old.disk ≤ D.faults self.new.disk }
        ensures fault { result ≡ Err NodeFail.DiskFault → Rose (D.faults self.old.disk) (D.faults self.new.disk) }
        ensures steady { D.steady self.old.disk → D.steady self.new.disk × (result ≢ Err NodeFail.DiskFault) }
    {
        if self.memory.numbers.up {
            return Ok(false);
        }
        self.memory.recent.clear();
        come_up(
            alloc,
            &mut self.disk,
            &mut self.memory.numbers,
            &mut self.memory.table,
        )
    }
}
