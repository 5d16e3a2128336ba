//! Laws of the images on a disk, and of what an active name node answers.
ghost use Rattle.std.specs.Prelude.{◌≡◌, ◌↔◌, ℕ, List, [], None, true, false};
ghost use Rattle.base_disk.specs.Files.{Files};
ghost use Rattle.journal_core.specs.declared.peer_call.PeerCall.{PeerCall};
ghost use Rattle.edit_ops.specs.Records.{EditView};
ghost use Rattle.ns_edits.specs.Replay.{Image};
ghost use Rattle.writer_calls.specs.declared.rolled.Rolled.{Rolled};
ghost use Rattle.writer_calls.specs.declared.rolled.Rolled.TheVariants as of_roll;
ghost use Rattle.writer_calls.specs.declared.purging.Purging.{Purging};
ghost use Rattle.writer_calls.specs.declared.purging.Purging.TheVariants as of_purge;
ghost use Rattle.writer_calls.specs.declared.closed.Closed.{Closed};
ghost use Rattle.writer_calls.specs.declared.closed.Closed.TheVariants as of_close;
ghost use Rattle.play_names.specs.Holding.{min_to_keep};
ghost use Rattle.ns_store.specs.Answers.{IsKeptFrom};
ghost use Rattle.ns_store.specs.declared.kept_answer.MinToKeep.{MinToKeep};
ghost use Rattle.play_standby.specs.Actives.{ActiveView, is_open};
ghost use Rattle.play_standby.specs.Acting.{IsSubmitted, IsSynced, IsRolled, IsPurging, IsClosed};
ghost use Rattle.play_standby.specs.Disks.{HoldsImages, IsMinOf};
ghost use Rattle.play_standby.specs.declared.submitted.Submitted.{Submitted};
ghost use Rattle.play_standby.specs.declared.submitted.Submitted.TheVariants as of_edit;
ghost use Rattle.play_standby.specs.declared.synced.Synced.{Synced};
ghost use Rattle.play_standby.specs.declared.synced.Synced.TheVariants as of_sync;

/// A disk without files holds no image.
pub fn a_new_disk_holds_no_image()
    ensures { (files : Files) → ((name : List ℕ) → files name ≡ None) → HoldsImages files [] }
{}

/// What the images on a disk tell of the first txid to keep is what a name node with these images
/// keeps.
pub fn images_tell_what_to_keep()
    ensures { (files : Files) (images : List Image) (extra : ℕ) (answer : MinToKeep)
        → HoldsImages files images → IsKeptFrom files extra answer
        → IsMinOf (min_to_keep extra images) answer }
{}

/// An active name node refuses an edit and a round exactly where no segment is open, and has nothing
/// to log exactly where one is open and no edit is pending.
pub fn refused_where_none_is_open()
    ensures submitted { (old new : ActiveView) (edit : EditView) (answer : Submitted)
        → IsSubmitted old edit new answer → (answer ≡ of_edit.Ended) ↔ (is_open old ≡ false) }
    ensures synced { (old new : ActiveView) (before after : List PeerCall) (answer : Synced)
        → IsSynced old before new after answer → (answer ≡ of_sync.Ended) ↔ (is_open old ≡ false) }
    ensures nothing { (old new : ActiveView) (before after : List PeerCall) (answer : Synced)
        → IsSynced old before new after answer → (answer ≡ of_sync.Nothing) ↔ ((is_open old ≡ true) × (old.bodies ≡ [])) }
    ensures rolled { (old new : ActiveView) (before after : List PeerCall) (answer : Rolled)
        → IsRolled old before new after answer → (answer ≡ of_roll.NotActive) ↔ (is_open old ≡ false) }
    ensures purged { (min : ℕ) (old new : ActiveView) (before after : List PeerCall) (answer : Purging)
        → IsPurging min old before new after answer → (answer ≡ of_purge.NotActive) ↔ (is_open old ≡ false) }
    ensures closed { (old new : ActiveView) (before after : List PeerCall) (answer : Closed)
        → IsClosed old before new after answer → (answer ≡ of_close.NotActive) ↔ (is_open old ≡ false) }
{}
