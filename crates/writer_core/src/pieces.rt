//! Bodies that come in pieces.
ghost use Rattle.std.specs.Prelude.{◌≡◌, ◌++◌, ◌+◌, ◌<◌, ◌^◌, [], true, length, IfOk, OnOk, take};

use journal_core::{BodyList, OutOfMemory};
use std::alloc::Global;
use std::marker::Model;

/// A list of bodies, kept as the pieces in which it came: a piece is added without a copy, and
/// without memory where its room was taken before.
#[derive(Drop)]
pub(crate) struct Pieces {
    first: BodyList,
    more: Vec<BodyList>,
    count: usize,
}

impl Model for Pieces {
    ghost use Rattle.std.specs.Prelude.{◌≡◌, ◌++◌, length, nat_lt, vec_len, vec_capacity};
    ghost use Rattle.std.specs.List.{flat_map};
    ghost use Rattle.writer_core.specs.PieceList.{PiecesView};

    ghost Value = { PiecesView };

    ghost view = { λ p. record { bodies = p.first ++ flat_map (λ l. l) p.more.items; room = nat_lt (vec_len p.more) (vec_capacity p.more) } };

    ghost invariant = { λ p. p.count ≡ length (p.first ++ flat_map (λ l. l) p.more.items) };
}

impl Pieces {
    /// No bodies.
    pub(crate) fn new(alloc: Global) -> Pieces
        ensures { result.bodies ≡ [] }
    {
        Pieces {
            first: BodyList::new(alloc),
            more: Vec::new(alloc),
            count: 0,
        }
    }

    /// How many bodies there are.
    pub(crate) fn len(&self) -> usize
        ensures { result ≡ length self.now.bodies }
    {
        self.count
    }

    /// These bodies alone.
    pub(crate) fn put(&mut self, bodies: BodyList)
        ensures { self.new.bodies ≡ bodies }
    {
        self.count = bodies.len();
        self.first = bodies;
        self.more.clear();
    }

    /// No bodies any more.
    pub(crate) fn clear(&mut self)
        ensures { self.new.bodies ≡ [] }
    {
        self.count = 0;
        self.first.truncate(0);
        self.more.clear();
    }

    /// Takes the room for one more piece.
    pub(crate) fn take_room(&mut self) -> Result<(), OutOfMemory>
        ensures bodies { self.new.bodies ≡ self.old.bodies }
        ensures room { OnOk result (self.new.room ≡ true) }
    {
        self.more.reserve(1)
    }

    /// One more piece at the end, or its first `most` bodies.
    pub(crate) fn add(&mut self, most: usize, piece: BodyList)
        requires room { self.old.room ≡ true }
        requires fits { length self.old.bodies + most < 2 ^ 64 }
        ensures { self.new.bodies ≡ self.old.bodies ++ take most piece }
    {
        let mut piece = piece;
        piece.truncate(most);
        self.count += piece.len();
        match self.more.push(piece) {
            Ok(()) => {}
            Err(_) => unreachable!(),
        }
    }

    /// All bodies as one list; their bytes are shared.
    pub(crate) fn share(&self, alloc: Global) -> Result<BodyList, OutOfMemory>
        ensures { IfOk result (λ l. l ≡ self.now.bodies) }
    {
        let mut all = self.first.share(alloc)?;
        for piece in &self.more {
            all.append(piece.share(alloc)?)?;
        }
        Ok(all)
    }
}
