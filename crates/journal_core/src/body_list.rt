//! Lists of bodies.
ghost use Rattle.std.specs.Prelude.{◌≡◌, ◌++◌, ◌==◌, [], ◌∷◌, List, ℕ, length, take, drop, IfOk, OnOk, OnErr, nat_lt};
ghost use Rattle.std.specs.List.{list_any};

use crate::OutOfMemory;
use base_words::Bytes;
use std::alloc::Global;
use std::marker::Model;

/// Bodies in order, each the body of one edit. It is let go by one call wherever it is, which keeps
/// proofs short.
pub struct BodyList {
    items: Vec<Bytes>,
}

impl Drop for BodyList {
    fn drop(self) {
        let BodyList { items } = self;
        drop(items);
    }
}

impl Model for BodyList {
    ghost use Rattle.std.specs.Prelude.{List, ℕ};

    ghost Value = { List (List ℕ) };

    ghost view = { λ l. l.items.items };
}

impl BodyList {
    /// No bodies.
    pub fn new(alloc: Global) -> BodyList
        ensures { result ≡ [] }
    {
        BodyList {
            items: Vec::new(alloc),
        }
    }

    /// The bodies.
    pub fn as_slice(&self) -> &[Bytes]
        ensures { result.now ≡ self.now }
    {
        self.items.as_slice()
    }

    /// How many there are.
    pub fn len(&self) -> usize
        ensures { result ≡ length self.now }
    {
        self.items.len()
    }

    /// There are none.
    pub fn is_empty(&self) -> bool
        ensures { result ≡ (length self.now == 0) }
    {
        self.items.is_empty()
    }

    /// Some body has more bytes than that.
    pub fn any_longer(&self, most: usize) -> bool
        ensures { result ≡ list_any (λ body. nat_lt most (length body)) self.now }
    {
        self.items.iter().any(|body| body.as_slice().len() > most)
    }

    /// One more body at the end.
    pub fn push(&mut self, body: Bytes) -> Result<(), OutOfMemory>
        ensures ok { OnOk result (self.new ≡ self.old ++ body ∷ []) }
        ensures err { OnErr result (self.new ≡ self.old) }
    {
        self.items.push(body)?;
        Ok(())
    }

    /// Drops what stands after the first bodies; takes no memory.
    pub fn truncate(&mut self, most: usize)
        ensures { self.new ≡ take most self.old }
    {
        self.items.truncate(most);
    }

    /// The bodies of another list at the end of this one.
    pub fn append(&mut self, bodies: BodyList) -> Result<(), OutOfMemory>
        ensures ok { OnOk result (self.new ≡ self.old ++ bodies) }
        ensures err { OnErr result (self.new ≡ self.old) }
    {
        let BodyList { mut items } = bodies;
        self.items.append(&mut items)?;
        Ok(())
    }

    /// The bodies of another list at the end of this one; their bytes are shared. An `Err` leaves
    /// all as it was.
    pub fn append_shared(&mut self, bodies: &BodyList) -> Result<(), OutOfMemory>
        ensures ok { OnOk result (self.new ≡ self.old ++ bodies.now) }
        ensures err { OnErr result (self.new ≡ self.old) }
    {
        let before = self.items.len();
        let pushed = push_shared(&mut self.items, &bodies.items);
        if pushed.is_err() {
            self.items.truncate(before);
        }
        pushed
    }

    /// A copy of this list; the bodies' bytes are shared. `OutOfMemory` where there is no room.
    pub fn share(&self, alloc: Global) -> Result<BodyList, OutOfMemory>
        ensures { IfOk result (λ l. l ≡ self.now) }
    {
        let mut items = Vec::with_capacity(alloc, self.items.len())?;
        push_shared(&mut items, &self.items)?;
        Ok(BodyList { items })
    }

    /// At most `most` bodies after the first `skip`; their bytes are shared.
    pub fn share_piece(
        &self,
        alloc: Global,
        skip: usize,
        most: usize,
    ) -> Result<BodyList, OutOfMemory>
        ensures { IfOk result (λ l. l ≡ take most (drop skip self.now)) }
    {
        let from = skip.min(self.items.len());
        let count = most.min(self.items.len() - from);
        let mut items = Vec::with_capacity(alloc, count)?;
        push_shared(&mut items, &self.items[from..from + count])?;
        Ok(BodyList { items })
    }
}

/// Adds bodies at the end; their bytes are shared. After an `Err` some of them stand there.
fn push_shared(items: &mut Vec<Bytes>, bodies: &[Bytes]) -> Result<(), OutOfMemory>
    ensures ok { OnOk result (items.new.items ≡ items.old.items ++ bodies.now) }
    ensures kept { take (length items.old.items) items.new.items ≡ items.old.items }
{
    for body in bodies {
        items.push(body.share()?)?;
    }
    Ok(())
}
