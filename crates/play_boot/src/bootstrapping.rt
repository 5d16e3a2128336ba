//! A fresh standby begins.
ghost use Rattle.std.specs.Prelude.{◌≡◌, ◌≢◌, ◌≤◌, List, ℕ, Some, Err, MatchResult, IfOk, IfErr};
ghost use Rattle.base_disk.specs.Calls.{Rests};
ghost use Rattle.base_disk.specs.DiskCalls.{IfTold, IsDiskRun};
ghost use Rattle.base_disk.specs.View.{LeavesOnly};
ghost use Rattle.ns_store.specs.Answers.{IsNewest};
ghost use Rattle.ns_store.specs.declared.newest_answer.Newest.TheVariants.{NoImage};
ghost use Rattle.play_names.specs.declared.tailed.Tailed.TheVariants.{Caught};
ghost use Rattle.play_standby.specs.Standbys.{empty_standby};
ghost use Rattle.writer_calls.specs.Logs.{made_since};
ghost use Rattle.play_boot.specs.Boots.{IsBooted, LeavesDisk, HasNoneOrCopy, TailsTo, from_result, to_result, booted_as, IsImageOf, ReadsAgree, IsBootedOf};
ghost use Rattle.play_boot.specs.Stages.{kept_result, IsFull, TailsNot, IsSmall, Keeps, KeepsNot, txid_of};

use crate::beginning::begin;
use crate::booted::Booted;
use crate::image_bytes::ImageBytes;
use base_disk::{Disk, DiskFail};
use journal_core::Peers;
use ns_store::{Newest, newest, save_bytes};
use play_names::Tailed;
use play_standby::Standby;
use std::alloc::Global;

/// Refuses a disk that has an image.
fn require_none<E: Disk>(alloc: Global, to: &mut E) -> Result<(), Booted>
    ensures call { IsDiskRun E.DiskModel to.old to.new (kept_result result) }
    ensures none { MatchResult result (λ _. E.tells to.old → IsNewest (E.view to.old).seen NoImage)
        (IsFull (E.tells to.old) (E.view to.old).seen) }
    ensures disk { IfTold E.DiskModel to.old to.new Rests }
{
    match newest(alloc, to) {
        Newest::NoImage => Ok(()),
        Newest::Image { txid } => Err(Booted::NotEmpty { txid }),
        Newest::DiskFault => Err(Booted::ToFault),
        Newest::OutOfMemory => Err(Booted::OutOfMemory),
    }
}

/// The standby tails to where the log ends.
fn tail_all<P: Peers>(alloc: Global, standby: &mut Standby, peers: &mut P) -> Result<(), Booted>
    requires some { 1 ≤ P.nodes peers.old }
    ensures tailed { MatchResult result
        (λ _. TailsTo (P.nodes peers.old) standby.old (P.calls peers.old) (P.calls peers.new) standby.new (Caught standby.new.position))
        (TailsNot (P.nodes peers.old) standby.old (P.calls peers.old) (P.calls peers.new) standby.new) }
    ensures nodes { P.nodes peers.new ≡ P.nodes peers.old }
    ensures called { result ≢ Err Booted.OutOfMemory → P.called peers.old peers.new }
{
    match standby.tail(alloc, peers, None) {
        Tailed::Caught { .. } => Ok(()),
        Tailed::Reached { .. } => unreachable!(),
        Tailed::Behind { txid, causes } => Err(Booted::Behind { txid, causes }),
        Tailed::Purged { first } => Err(Booted::Unreachable {
            have: standby.position(),
            first,
        }),
        Tailed::BadEntry { txid } => Err(Booted::BadEntry { txid }),
        Tailed::OutOfMemory => Err(Booted::OutOfMemory),
    }
}

/// Saves the image of these bytes; its txid.
fn save_image<E: Disk>(alloc: Global, to: &mut E, image: &ImageBytes) -> Result<Option<u64>, Booted>
    requires { IsSmall (Some image.now) }
    ensures call { IsDiskRun E.DiskModel to.old to.new (kept_result result) }
    ensures kept { IfTold E.DiskModel to.old to.new (Keeps (Some image.now) result) }
    ensures txid { IfOk result (λ txid. txid ≡ Some image.now.txid) }
    ensures refused { IfErr result KeepsNot }
{
    match save_bytes(alloc, to, image.txid, &image.bytes) {
        Ok(()) => Ok(Some(image.txid)),
        Err(DiskFail::Failed) => Err(Booted::ToFault),
        Err(DiskFail::OutOfMemory) => Err(Booted::OutOfMemory),
    }
}

/// Keeps the image that was read, if there was one; its txid.
fn keep<E: Disk>(
    alloc: Global,
    to: &mut E,
    image: Option<ImageBytes>,
) -> Result<Option<u64>, Booted>
    requires { IsSmall image }
    ensures call { IsDiskRun E.DiskModel to.old to.new (kept_result result) }
    ensures kept { IfTold E.DiskModel to.old to.new (Keeps image result) }
    ensures txid { IfOk result (λ txid. txid ≡ txid_of image) }
    ensures refused { IfErr result KeepsNot }
{
    match image {
        Some(image) => save_image(alloc, to, &image),
        None => Ok(None),
    }
}

/// The steps of a bootstrap of an empty standby; the txid of its image.
fn boot<D: Disk, E: Disk, P: Peers>(
    alloc: Global,
    standby: &mut Standby,
    from: &mut D,
    to: &mut E,
    peers: &mut P,
) -> Result<Option<u64>, Booted>
    requires some { 1 ≤ P.nodes peers.old }
    requires empty { standby.old ≡ empty_standby }
    ensures from_call { IsDiskRun D.DiskModel from.old from.new (from_result (booted_as standby.new result)) }
    ensures to_call { IsDiskRun E.DiskModel to.old to.new (to_result (booted_as standby.new result)) }
    ensures from_rests { IfTold D.DiskModel from.old from.new Rests }
    ensures booted { D.tells from.old → E.tells to.old
        → IsBooted (P.nodes peers.old) (D.view from.old).seen (E.view to.old).seen (P.calls peers.old) (P.calls peers.new) (booted_as standby.new result) }
    ensures disk { D.tells from.old → E.tells to.old → LeavesDisk (D.view from.old).seen (E.view to.old) (E.view to.new) (booted_as standby.new result) }
    ensures moments { D.tells from.old → E.tells to.old → IsNewest (E.view to.old).seen NoImage
        → LeavesOnly (E.view to.old) (E.view to.new) (HasNoneOrCopy (D.view from.old).seen) }
    ensures of_log { D.tells from.old → (log : List (List ℕ)) → IsImageOf log (D.view from.old).seen
        → ReadsAgree log (made_since (P.calls peers.old) (P.calls peers.new)) → IsBootedOf log (booted_as standby.new result) }
    ensures nodes { P.nodes peers.new ≡ P.nodes peers.old }
    ensures called { booted_as standby.new result ≢ Booted.OutOfMemory → P.called peers.old peers.new }
{
    require_none(alloc, to)?;
    let image = begin(alloc, standby, from)?;
    tail_all(alloc, standby, peers)?;
    keep(alloc, to, image)
}

/// A fresh standby takes the newest image of `from`, or begins empty at 0 where it has none, tails
/// as far as the nodes serve the log, and keeps that image on `to`. Refused where `to` has an
/// image. No file of `from` changes. After each refusal but a fault of `to` and lack of memory `to`
/// is as it was; a crash at any moment leaves `to` without an image, or with the whole one.
pub fn bootstrap<D: Disk, E: Disk, P: Peers>(
    alloc: Global,
    from: &mut D,
    to: &mut E,
    peers: &mut P,
) -> Booted
    requires some { 1 ≤ P.nodes peers.old }
    ensures from_call { IsDiskRun D.DiskModel from.old from.new (from_result result) }
    ensures to_call { IsDiskRun E.DiskModel to.old to.new (to_result result) }
    ensures from_rests { IfTold D.DiskModel from.old from.new Rests }

    // Which answer is due, and what `to` has then; and what a crash meanwhile leaves of it.
    ensures booted { D.tells from.old → E.tells to.old
        → IsBooted (P.nodes peers.old) (D.view from.old).seen (E.view to.old).seen (P.calls peers.old) (P.calls peers.new) result }
    ensures disk { D.tells from.old → E.tells to.old → LeavesDisk (D.view from.old).seen (E.view to.old) (E.view to.new) result }
    ensures moments { D.tells from.old → E.tells to.old → IsNewest (E.view to.old).seen NoImage
        → LeavesOnly (E.view to.old) (E.view to.new) (HasNoneOrCopy (D.view from.old).seen) }

    // Where the image is a log's, and each edit that was given is too, the namespace is the log's.
    ensures of_log { D.tells from.old → (log : List (List ℕ)) → IsImageOf log (D.view from.old).seen
        → ReadsAgree log (made_since (P.calls peers.old) (P.calls peers.new)) → IsBootedOf log result }

    ensures nodes { P.nodes peers.new ≡ P.nodes peers.old }
    ensures called { result ≢ Booted.OutOfMemory → P.called peers.old peers.new }
{
    let Ok(mut standby) = Standby::new(alloc) else {
        return Booted::OutOfMemory;
    };
    match boot(alloc, &mut standby, from, to, peers) {
        Ok(image) => Booted::Done { standby, image },
        Err(refused) => refused,
    }
}
