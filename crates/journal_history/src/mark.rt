//! The plan of a script: which calls are dropped, muted or copied.
ghost use Rattle.std.specs.Prelude.{◌≡◌, ◌++◌, [], ◌∷◌, List, OnOk, OnErr};
ghost use Rattle.journal_history.specs.declared.mark.Mark.{Mark};

use journal_core::OutOfMemory;
use std::alloc::Global;
use std::marker::Model;

/// What becomes of a marked call.
#[derive(Clone, Copy, PartialEq, Eq)]
pub enum MarkKind {
    /// It isn't delivered.
    Dropped,
    /// Its reply is lost.
    Muted,
    /// A copy of it comes late.
    Late,
}

/// An actor's call to a node, by its number from 1, and what becomes of it.
#[derive(Clone, Copy, PartialEq, Eq)]
pub struct Mark {
    pub node: usize,
    pub number: u64,
    pub kind: MarkKind,
}

/// The marks of one actor. It is let go by one call wherever it is, which keeps proofs short.
pub struct ActorPlan {
    items: Vec<Mark>,
}

impl Drop for ActorPlan {
    fn drop(self) {
        let ActorPlan { items } = self;
        drop(items);
    }
}

impl Model for ActorPlan {
    ghost use Rattle.std.specs.Prelude.{List};
    ghost use Rattle.journal_history.specs.declared.mark.Mark.{Mark};

    ghost Value = { List Mark };

    ghost view = { λ p. p.items.items };
}

impl ActorPlan {
    /// No marks.
    pub fn new(alloc: Global) -> ActorPlan
        ensures { result ≡ [] }
    {
        ActorPlan {
            items: Vec::new(alloc),
        }
    }

    /// The marks.
    pub fn as_slice(&self) -> &[Mark]
        ensures { result.now ≡ self.now }
    {
        self.items.as_slice()
    }

    /// One more mark.
    pub fn push(&mut self, mark: Mark) -> Result<(), OutOfMemory>
        ensures ok { OnOk result (self.new ≡ self.old ++ mark ∷ []) }
        ensures err { OnErr result (self.new ≡ self.old) }
    {
        self.items.push(mark)?;
        Ok(())
    }
}

/// The marks of each actor, in order of declaration. It is let go by one call wherever it is, which
/// keeps proofs short.
pub struct Plan {
    items: Vec<ActorPlan>,
}

impl Drop for Plan {
    fn drop(self) {
        let Plan { items } = self;
        drop(items);
    }
}

impl Model for Plan {
    ghost use Rattle.std.specs.Prelude.{List};
    ghost use Rattle.journal_history.specs.declared.mark.Mark.{Mark};

    ghost Value = { List (List Mark) };

    ghost view = { λ p. p.items.items };
}

impl Plan {
    /// No actors.
    pub fn new(alloc: Global) -> Plan
        ensures { result ≡ [] }
    {
        Plan {
            items: Vec::new(alloc),
        }
    }

    /// The actors' marks.
    pub fn as_slice(&self) -> &[ActorPlan]
        ensures { result.now ≡ self.now }
    {
        self.items.as_slice()
    }

    /// One more actor's marks.
    pub fn push(&mut self, marks: ActorPlan) -> Result<(), OutOfMemory>
        ensures ok { OnOk result (self.new ≡ self.old ++ marks ∷ []) }
        ensures err { OnErr result (self.new ≡ self.old) }
    {
        self.items.push(marks)?;
        Ok(())
    }
}
