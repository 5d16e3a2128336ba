//! A standby begins over nodes that are called directly.
ghost use Rattle.std.specs.Prelude.{◌≡◌, ◌≤◌, List, length, map};
ghost use Rattle.std.specs.List.{All};
ghost use Rattle.base_disk.specs.MemDisk.{CannotFail};
ghost use Rattle.writer_calls.specs.States.{IsTold};
ghost use Rattle.ns_edits.specs.Replay.{Image};
ghost use Rattle.play_names.specs.ImageDisks.{HoldsOn};
ghost use Rattle.play_boot.specs.Nodes.{HoldsSome, IsBootedOver};

use crate::booted::Booted;
use crate::bootstrapping::bootstrap;
use base_disk::{Choice, MemDisk};
use journal_core::Node;
use std::alloc::Global;
use writer_calls::Direct;

/// The disk as it is, with no call that is set to fail.
fn steadied(images: MemDisk) -> MemDisk
    ensures steady { CannotFail result }
    ensures images { (held : List Image) → HoldsOn images held → HoldsOn result held }
{
    let mut disk = images;
    disk.crash(Choice::New);
    disk
}

/// A fresh standby begins from the newest of these images, if there is one, on a fresh disk, and
/// tails over these nodes, the first of them as node 1, each of which tells its state and is
/// steady. No disk has a fault.
pub fn boot_nodes<N: Node + Drop>(alloc: Global, images: MemDisk, nodes: Vec<N>) -> Booted
    requires some { 1 ≤ length nodes.items }
    requires steady { All (λ n. N.steady n) nodes.items }
    requires told { All (λ n. IsTold (N.state n)) nodes.items }
    requires images { HoldsSome images }
    ensures { (held : List Image) → HoldsOn images held
        → IsBootedOver (map (λ n. N.state n) nodes.items) held result }
{
    let mut from = steadied(images);
    let mut to = MemDisk::new(alloc);
    let mut peers = Direct::new(alloc, nodes);
    bootstrap(alloc, &mut from, &mut to, &mut peers)
}
