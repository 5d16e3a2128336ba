//! A law of a checkpoint at every moment.
ghost use Rattle.std.specs.Prelude.{◌≡◌, ◌≢◌, ◌≤◌, ◌^◌, ℕ, List, Contains};
ghost use Rattle.base_disk.specs.Files.{Files};
ghost use Rattle.ns_tree.specs.Space.{Space};
ghost use Rattle.ns_store.specs.Images.{image_in};
ghost use Rattle.ns_store.specs.Lists.{older_than};
ghost use Rattle.play_standby.specs.Disks.{ListsBeside, IsInCheckpoint};

/// At every moment of a checkpoint each image is as it was but the one at its txid, and those that
/// are older than the two newest that count with it.
pub fn kept_images_stay()
    ensures { (txid other : ℕ) (space : Space) (txids : List ℕ) (seen old new : Files) → txid ≤ 2 ^ 62
        → other ≤ 2 ^ 62 → ListsBeside txid txids seen → other ≢ txid
        → (Contains (older_than 2 txids) other → ⊥)
        → IsInCheckpoint txid space (older_than 2 txids) old new
        → image_in new other ≡ image_in old other }
{}
