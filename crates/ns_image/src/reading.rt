//! Images from bytes.
ghost use Rattle.std.specs.Prelude.{◌≡◌, ◌-◌, ◌^◌, ◌≤◌, ◌==◌, true, false, is_ok, length, IfOk, IfErr, IsErrOf, OnOk, OnErr};
ghost use Rattle.ns_image.specs.declared.image_cause.ImageCause.TheVariants as causes;
ghost use Rattle.ns_image.specs.declared.image_fault.ReadError.TheVariants as errors;
ghost use Rattle.ns_image.specs.Reading.{Gives, wants_memory, Told, fault_at, head_at, told, reading_of};
ghost use Rattle.ns_image.specs.Rows.{GivesSome, HasRead};
ghost use Rattle.ns_image.specs.Laws.{IsWithin};

use crate::answer::{ReadImage, Unread};
use crate::calls::calls_of;
use crate::fields::{amount_of, word_of};
use crate::image_cause::ImageCause;
use crate::image_fault::{ImageFault, ReadError, wrong_at};
use crate::rows::{rows_of, tree_of};
use crate::sink::RowSink;
use base_words::OutOfMemory;
use ns_tree::Namespace;
use std::alloc::{AllocError, Global};

/// `QJIM`, with which an image begins.
pub(crate) const MAGIC: u32 = 0x514A_494D;

// What all of the bytes tell.
#[derive(Drop)]
struct Parts {
    layout: u32,
    namespace: Namespace,
    txid: u64,
}

/// The layout and the txid with which an image begins. Takes no memory.
#[tactic(auto, unfolding(crate::specs::Reading::head_at))]
fn head_of(bytes: &[u8]) -> Result<((u32, u64), &[u8]), ReadError>
    ensures read { Gives (λ x. ((x.0.0, x.0.1), x.1.now)) result (head_at bytes.now) }
    ensures txid { IfOk result (λ x. x.0.1 ≤ 2 ^ 62) }
    ensures memory { wants_memory result ≡ false }
{
    let (_, rest) = word_of(bytes, MAGIC, MAGIC, ImageCause::Magic)?;
    let (layout, rest) = word_of(rest, 1, 2, ImageCause::Layout)?;
    let (txid, rest) = amount_of(rest)?;
    Ok(((layout, txid), rest))
}

// Nothing is left.
fn end_of(rest: &[u8]) -> Result<(), ReadError>
    ensures ok { OnOk result ((length rest.now == 0) ≡ true) }
    ensures more { OnErr result ((length rest.now == 0) ≡ false) }
    ensures err { IfErr result (λ e. e ≡ errors.Fault (fault_at causes.Trailing rest.now)) }
{
    if !rest.is_empty() {
        return Err(wrong_at(ImageCause::Trailing, rest));
    }
    Ok(())
}

#[tactic(auto, unfolding(crate::specs::Reading::told))]
fn parts_of(alloc: Global, bytes: &[u8]) -> Result<Parts, ReadError>
    ensures told { Gives (λ x. record { layout = x.layout; space = x.namespace; txid = x.txid }) result (told bytes.now) }
    ensures head { wants_memory result ≡ true → is_ok (head_at bytes.now) ≡ true }
{
    let ((layout, txid), rest) = head_of(bytes)?;
    let (mut namespace, rest) = tree_of(alloc, rest)?;
    let rest = calls_of(&mut namespace, layout, txid, rest)?;
    end_of(rest)?;
    Ok(Parts {
        layout,
        namespace,
        txid,
    })
}

// What has taken the rows of an image; the calls after them are read and not kept.
#[tactic(auto, unfolding(crate::specs::Reading::told))]
fn sink_of<S: RowSink>(alloc: Global, bytes: &[u8]) -> Result<S, ReadError>
    ensures told { GivesSome (λ sink image. S.has_taken sink image.space.pairs) result (told bytes.now) }
    ensures head { wants_memory result ≡ true → is_ok (head_at bytes.now) ≡ true }
{
    let ((layout, txid), rest) = head_of(bytes)?;
    let (sink, rest) = rows_of::<S>(alloc, rest)?;
    let mut calls = Namespace::new(alloc)?;
    let rest = calls_of(&mut calls, layout, txid, rest)?;
    end_of(rest)?;
    Ok(sink)
}

// The first byte of a field that is wrong.
fn place_of(bytes: &[u8], fault: ImageFault) -> usize
    ensures { result ≡ length bytes.now - fault.left }
{
    bytes.len().saturating_sub(fault.left)
}

fn reading_in(alloc: Global, bytes: &[u8]) -> Result<ReadImage, OutOfMemory>
    ensures reading { IfOk result (λ read. read ≡ reading_of bytes.now) }
    ensures head { OnErr result (is_ok (head_at bytes.now) ≡ true) }
{
    match parts_of(alloc, bytes) {
        Ok(
            Parts {
                layout: _,
                namespace,
                txid,
            },
        ) => Ok(ReadImage::Image { namespace, txid }),
        Err(ReadError::Fault(fault)) => Ok(ReadImage::BadImage {
            place: place_of(bytes, fault),
            cause: fault.cause,
        }),
        Err(ReadError::Memory) => Err(AllocError),
    }
}

/// What the bytes tell: an image of layout 1 or 2, all of them, or the first fault from the left.
/// An `Err` is lack of memory alone, which is taken only where the magic, the layout and the txid
/// in front are right. The txid of an image is at most 2^62, and no call that its namespace
/// remembers is above it.
pub fn read_image(alloc: Global, bytes: &[u8]) -> Result<ReadImage, OutOfMemory>
    ensures reading { IfOk result (λ read. read ≡ reading_of bytes.now) }
    ensures within { IfOk result (λ read. IsWithin read) }
    ensures head { OnErr result (is_ok (head_at bytes.now) ≡ true) }
{
    reading_in(alloc, bytes)
}

/// What has taken the rows of the image that all of the bytes are, one by one: no more of them is
/// kept. Of other bytes it is the first fault from the left, as `read_image` tells it; a fault
/// before the rows takes no memory.
pub fn read_rows<S: RowSink>(alloc: Global, bytes: &[u8]) -> Result<S, Unread>
    ensures read { HasRead S.has_taken (reading_of bytes.now) result }
    ensures head { IsErrOf result Unread.OutOfMemory → is_ok (head_at bytes.now) ≡ true }
{
    match sink_of::<S>(alloc, bytes) {
        Ok(sink) => Ok(sink),
        Err(ReadError::Fault(fault)) => Err(Unread::BadBytes {
            place: place_of(bytes, fault),
            cause: fault.cause,
        }),
        Err(ReadError::Memory) => Err(Unread::OutOfMemory),
    }
}
