//! A name node of a script.
ghost use Rattle.std.specs.Prelude.{◌≡◌, ◌≤◌, false, List, Some, IfOk, MatchOption};
ghost use Rattle.ns_edits.specs.Replay.{Image};
ghost use Rattle.writer_core.specs.Writer.{is_writing};
ghost use Rattle.play_names.specs.Holding.{Broken, with_work};
ghost use Rattle.play_names.specs.ImageDisks.{HoldsOn};
ghost use Rattle.play_standby.specs.Standbys.{held};
ghost use Rattle.play_actor.specs.Nodes.{new_name, begun_name, RestsAt, RestsNowhere, IsServing, standing};
ghost use Rattle.play_actor.specs.Roles.{writer_in, holding_in, StandsIn};
ghost use Rattle.play_actor.specs.Kinds.{IsActiveIn, IsNotActive, seen_name};

use crate::role::{Resting, Role};
use journal_core::OutOfMemory;
use ns_tree::{LastSpace, RowList};
use play_model::ActorLeft;
use play_standby::{Active, SavedImages, Standby};
use std::alloc::Global;
use std::marker::Model;
use writer_calls::QuorumWriter;

/// A name node of a script: what it is, and the images that it saved. Contracts see its writer and
/// what it holds.
pub(crate) struct NameNode {
    role: Role,
    images: SavedImages,
}

impl Model for NameNode {
    ghost use Rattle.play_actor.specs.Nodes.{NameView};
    ghost use Rattle.play_actor.specs.Roles.{writer_in, holding_in, StandsIn};

    ghost Value = { NameView };

    ghost view = { λ n. record { writer = writer_in n.role; holding = holding_in n.images n.role } };

    ghost invariant = { λ n. StandsIn n.role };
}

/// It is let go by one call wherever it is, which keeps proofs short.
impl Drop for NameNode {
    fn drop(self) {
        let NameNode { role: _, images: _ } = self;
    }
}

impl NameNode {
    /// A standby with an empty namespace at position 0, a writer of that many nodes, and no image.
    pub(crate) fn new(alloc: Global, nodes: usize) -> Result<NameNode, OutOfMemory>
        requires { 1 ≤ nodes }
        ensures { IfOk result (λ node. node ≡ new_name nodes) }
    {
        let writer = QuorumWriter::new(alloc, nodes)?;
        let standby = Standby::new(alloc)?;
        let images = SavedImages::new(alloc);
        Ok(NameNode::resting(Resting { writer, standby }, images))
    }

    /// A standby that stands here and has these images, with a writer of that many nodes.
    pub(crate) fn begun(
        alloc: Global,
        nodes: usize,
        standby: Standby,
        images: SavedImages,
    ) -> Result<NameNode, OutOfMemory>
        requires { 1 ≤ nodes }
        ensures { IfOk result (λ node. node ≡ begun_name nodes images standby) }
    {
        let writer = QuorumWriter::new(alloc, nodes)?;
        Ok(NameNode::resting(Resting { writer, standby }, images))
    }

    /// The standby, where it is one: it holds no segment then, and met no bad entry.
    #[tactic(auto, using(crate::proofs::StandingLaws::nowhere))]
    pub(crate) fn standby(&self) -> Option<&Standby>
        ensures { MatchOption result (RestsNowhere self.now) (λ standby. RestsAt self.now standby.now) }
    {
        match &self.role {
            Role::Standby(resting) => Some(&resting.standby),
            Role::Active(_) | Role::Broken(_) => None,
        }
    }

    /// The epoch of its open segment, where it is active.
    #[tactic(auto, using(crate::proofs::StandingLaws::activity))]
    pub(crate) fn epoch(&self) -> Option<u64>
        ensures { MatchOption result (IsNotActive (seen_name self.now)) (IsActiveIn (seen_name self.now)) }
    {
        match &self.role {
            Role::Active(active) => Some(active.epoch()),
            Role::Standby(_) | Role::Broken(_) => None,
        }
    }

    /// A standby. Takes no memory.
    pub(crate) fn resting(resting: Resting, images: SavedImages) -> NameNode
        requires { is_writing resting.writer.phase ≡ false }
        ensures { result ≡ record { writer = resting.writer; holding = held images resting.standby } }
    {
        NameNode {
            role: Role::Standby(resting),
            images,
        }
    }

    /// An active one. Takes no memory.
    pub(crate) fn serving(active: Active, images: SavedImages) -> NameNode
        requires { IsServing active }
        ensures { result ≡ record { writer = active.writer; holding = held images (standing active) } }
    {
        NameNode {
            role: Role::Active(active),
            images,
        }
    }

    /// One that met a bad entry. Takes no memory.
    pub(crate) fn broken(resting: Resting, images: SavedImages) -> NameNode
        ensures { result ≡ record { writer = resting.writer; holding = with_work Broken (held images resting.standby) } }
    {
        NameNode {
            role: Role::Broken(resting),
            images,
        }
    }

    /// What it is, and its images. Takes no memory.
    pub(crate) fn into_role(self) -> (Role, SavedImages)
        ensures writer { writer_in result.0 ≡ self.writer }
        ensures holding { holding_in result.1 result.0 ≡ self.holding }
        ensures stands { StandsIn result.0 }
    {
        let NameNode { role, images } = self;
        (role, images)
    }

    /// What it holds at last, its position and the rows of its namespace, and its images.
    pub(crate) fn into_left(self, alloc: Global) -> Result<ActorLeft, OutOfMemory>
        ensures last { IfOk result (λ left. left.last ≡ Some record { position = self.holding.position; rows = self.holding.space.pairs }) }
        ensures images { IfOk result (λ left. HoldsOn left.images self.holding.images) }
    {
        let (role, images) = self.into_role();
        let last = last_in(alloc, role)?;
        Ok(ActorLeft {
            last: Some(last),
            images: images.into_disk(),
        })
    }
}

/// What a name node of this role holds at last.
fn last_in(alloc: Global, role: Role) -> Result<LastSpace, OutOfMemory>
    requires { StandsIn role }
    ensures { IfOk result (λ last. (images : List Image) → last ≡ record { position = (holding_in images role).position; rows = (holding_in images role).space.pairs }) }
{
    match role {
        Role::Standby(resting) | Role::Broken(resting) => last_of(alloc, resting),
        Role::Active(active) => {
            let (standby, writer) = active.quit(alloc)?;
            last_of(alloc, Resting { writer, standby })
        }
    }
}

/// What a standby holds at last.
fn last_of(alloc: Global, resting: Resting) -> Result<LastSpace, OutOfMemory>
    ensures { IfOk result (λ last. last ≡ record { position = resting.standby.position; rows = resting.standby.space.pairs }) }
{
    let (_, standby) = resting.into_parts();
    let (namespace, position) = standby.into_parts();
    let rows = RowList::of(namespace.into_rows(alloc)?);
    Ok(LastSpace { position, rows })
}
