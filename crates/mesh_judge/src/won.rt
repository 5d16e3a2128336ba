//! The epochs that a caller owns.
ghost use Rattle.std.specs.Prelude.{◌≡◌, ◌<◌, ◌≤◌, ◌+◌, ◌*◌, ◌^◌, ◌∷◌, ◌||◌, ◌&&◌, ◌==◌, not, ℕ, List, nat_lt, IfOk, OnOk};
ghost use Rattle.std.specs.BTreeSet.{contains};
ghost use Rattle.std.specs.Ordering.{nat_cmp};
ghost use Rattle.journal_history.specs.declared.record.Record.{Record};
ghost use Rattle.mesh.specs.Owners.{wins, promised_to};
ghost use Rattle.mesh_judge.specs.Tallies.{promises_to, wins_on};

use journal_core::{MAX_NUMBER, OutOfMemory, Reply, Request};
use journal_history::{LentRecord, ListedRecord, Told};
use std::alloc::Global;
use std::collections::BTreeSet;

/// The epochs that a caller won so far, and the epoch that it proposes, with the promises of this
/// run of proposals.
#[derive(Drop)]
pub(crate) struct Tally {
    epoch: u64,
    promises: usize,
    won: BTreeSet<u64>,
}

/// Whether the node promised the epoch that was proposed to it.
fn is_promise(told: &Told) -> bool
    ensures { result ≡ promised_to told.now }
{
    match told {
        Told::Reply(Reply::NewEpoch { newest: None }) => true,
        Told::Reply(
            Reply::NewEpoch {
                newest: Some(start),
            },
        ) => 0 < *start && *start <= MAX_NUMBER,
        _ => false,
    }
}

impl Tally {
    /// The run of proposals ends: its epoch is won where more than half of the nodes promised it.
    fn close(&mut self, nodes: usize) -> Result<(), OutOfMemory>
        ensures won { OnOk result ((epoch : ℕ) → contains nat_cmp self.new.won epoch ≡ (contains nat_cmp self.old.won epoch || nat_lt nodes (2 * promises_to self.old epoch))) }
        ensures none { OnOk result (self.new.promises ≡ 0) }
        ensures same { OnOk result (self.new.epoch ≡ self.old.epoch) }
    {
        if self.promises > nodes / 2 {
            self.won.insert(self.epoch)?;
        }
        self.promises = 0;
        Ok(())
    }

    /// Proposals of this epoch come next: a run of proposals of another one ends.
    fn turn_to(&mut self, nodes: usize, epoch: u64) -> Result<(), OutOfMemory>
        ensures won { OnOk result ((other : ℕ) → contains nat_cmp self.new.won other ≡ (contains nat_cmp self.old.won other || (not (epoch == other) && nat_lt nodes (2 * promises_to self.old other)))) }
        ensures count { OnOk result (self.new.promises ≡ promises_to self.old epoch) }
        ensures epoch { OnOk result (self.new.epoch ≡ epoch) }
    {
        if epoch != self.epoch {
            self.close(nodes)?;
            self.epoch = epoch;
        }
        Ok(())
    }

    /// A proposal of this epoch, and what was told of it.
    fn propose(&mut self, nodes: usize, epoch: u64, told: &Told) -> Result<(), OutOfMemory>
        requires room { self.old.promises + 1 < 2 ^ 64 }
        ensures count { OnOk result (self.new.promises ≤ self.old.promises + 1) }
        ensures won { OnOk result ((node other : ℕ) (rest : List Record) → wins_on nodes self.new other rest ≡ wins_on nodes self.old other (Record.Call node (Request.NewEpoch epoch) told.now ∷ rest)) }
    {
        self.turn_to(nodes, epoch)?;
        if is_promise(told) {
            self.promises += 1;
        }
        Ok(())
    }

    /// The next line of the caller's record.
    fn take(&mut self, nodes: usize, line: &ListedRecord) -> Result<(), OutOfMemory>
        requires room { self.old.promises + 1 < 2 ^ 64 }
        ensures count { OnOk result (self.new.promises ≤ self.old.promises + 1) }
        ensures won { OnOk result ((epoch : ℕ) (rest : List Record) → wins_on nodes self.new epoch rest ≡ wins_on nodes self.old epoch (line.now ∷ rest)) }
    {
        match line.lend(&Told::OK) {
            LentRecord::Call { request, told, .. } => match request.get() {
                Request::NewEpoch { epoch } => self.propose(nodes, *epoch, told),
                _ => {
                    self.close(nodes)?;
                    Ok(())
                }
            },
            LentRecord::Late { .. } => Ok(()),
            LentRecord::Operator { .. } => Ok(()),
            LentRecord::Outcome { .. } => Ok(()),
        }
    }
}

/// The epochs that the caller of this record owns, among that many nodes.
pub(crate) fn won_epochs(
    alloc: Global,
    nodes: usize,
    lines: &[ListedRecord],
) -> Result<BTreeSet<u64>, OutOfMemory>
    ensures { IfOk result (λ won. (epoch : ℕ) → contains nat_cmp won epoch ≡ wins nodes epoch 0 lines.now) }
{
    let mut tally = Tally {
        epoch: 0,
        promises: 0,
        won: BTreeSet::new(alloc),
    };
    for line in lines {
        tally.take(nodes, line)?;
    }
    tally.close(nodes)?;
    Ok(tally.won)
}
