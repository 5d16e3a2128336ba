//! A node over a disk, to which a session puts its requests.
ghost use Rattle.std.specs.Prelude.{◌≡◌, true};
ghost use Rattle.base_disk.specs.View.{AllLeave};
ghost use Rattle.disk_files.specs.Durable.{StandsAs};
ghost use Rattle.disk_node.specs.FileState.{state_of};

use base_disk::Disk;
use disk_node::JournalNode;
use journal_core::{Reply, Request};
use journal_session::SessionNode;
use std::alloc::Global;
use std::marker::Model;

/// A node over a disk as a session asks it: of each answer it says what a crash at any moment of it
/// leaves in the files.
#[derive(Drop)]
pub(crate) struct ServedNode<D: Disk> {
    pub(crate) node: JournalNode<D>,
}

impl<D: Disk> Model for ServedNode<D> {
    ghost use Rattle.disk_node.specs.Node.{NodeParts};

    ghost Value = { NodeParts D };

    ghost view = { λ n. n.node };
}

impl<D: Disk> ServedNode<D> {
    /// Its disk, as it is. Its files stand for the node's state, and of a node that is up each
    /// crash now leaves files that do.
    pub(crate) fn into_disk(self) -> D
        ensures disk { result ≡ self.disk }
        ensures stands { D.tells self.disk → StandsAs (D.view self.disk).seen (state_of (D.view self.disk).seen self.memory self.rows) }
        ensures lasting { D.tells self.disk → self.memory.up ≡ true → AllLeave (D.view self.disk) (λ c. StandsAs c (state_of (D.view self.disk).seen self.memory self.rows)) }
    {
        self.node.into_disk()
    }
}

impl<D: Disk> SessionNode for ServedNode<D> {
    ghost use Rattle.disk_node.specs.Acted.{IsActed};
    ghost use Rattle.disk_node.specs.Node.{told_state};

    ghost state = { λ n. told_state (D.is_told n.disk) (D.view n.disk).seen n.memory n.rows };

    ghost faults = { λ n. D.faults n.disk };

    ghost steady = { λ n. D.steady n.disk };

    ghost asked = { IsActed D.tells D.view };

    fn ask(&mut self, alloc: Global, request: &Request) -> Reply {
        self.node.act(alloc, request)
    }
}
