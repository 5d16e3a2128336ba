//! The listings of an image.
ghost use Rattle.std.specs.Prelude.{◌≡◌, ◌≢◌, ℕ, true, List, is_ok};
ghost use Rattle.ns_tree.specs.declared.inode.Row.{Row};
ghost use Rattle.ns_tree.specs.Space.{Space};
ghost use Rattle.ns_image.specs.declared.image_cause.ImageCause.{ImageCause};
ghost use Rattle.ns_image.specs.declared.image_cause.ImageCause.TheVariants as image;
ghost use Rattle.ns_image.specs.declared.answer.ReadImage.TheVariants as readings;
ghost use Rattle.ns_image.specs.Reading.{head_at, reading_of};
ghost use Rattle.list_oiv.specs.Delimited.{delimited};
ghost use Rattle.list_oiv.specs.Sizes.{sizes};
ghost use Rattle.list_oiv.specs.Entries.{rows_json};
ghost use Rattle.list_oiv.specs.Listed.{IsListed, IsAnswer, GivesText, GivesFault};

use crate::causes::cause_of;
use crate::entries::Entries;
use crate::image_listing::ImageListing;
use crate::lines::Lines;
use crate::row_text::RowText;
use crate::tally::Tally;
use ns_image::{ImageCause, Unread, read_rows};
use std::alloc::Global;

// The answer for bytes that aren't an image. Takes no memory.
fn fault_answer(place: usize, cause: ImageCause) -> ImageListing
    requires { cause ≢ image.Digest }
    ensures told { (tell : List Row → List ℕ) → IsAnswer tell (readings.BadImage place cause) result }
    ensures memory { result ≢ ImageListing.OutOfMemory }
{
    ImageListing::BadBytes {
        place: place as u64,
        cause: cause_of(cause),
    }
}

// The answer for the rows of an image.
fn text_answer<T: RowText>(alloc: Global, rows: T) -> ImageListing
    requires { (taken : List Row) × T.has_taken rows taken }
    ensures { (space : Space) (txid : ℕ) → T.has_taken rows space.pairs → IsAnswer T.tell (readings.Image space txid) result }
{
    match rows.text(alloc) {
        Ok(text) => ImageListing::Text(text),
        Err(_) => ImageListing::OutOfMemory,
    }
}

// What is told of the rows of an image. Where a fault comes later, what was made so far is let go.
fn answer<T: RowText>(alloc: Global, bytes: &[u8]) -> ImageListing
    ensures right { IsListed T.tell bytes.now result }
    ensures head { result ≡ ImageListing.OutOfMemory → is_ok (head_at bytes.now) ≡ true }
{
    match read_rows::<T>(alloc, bytes) {
        Ok(rows) => text_answer(alloc, rows),
        Err(Unread::BadBytes { place, cause }) => fault_answer(place, cause),
        Err(Unread::OutOfMemory) => ImageListing::OutOfMemory,
    }
}

/// The inodes of an image, a line each in the order of a walk, after a line with the names of the
/// columns: path, replication, times of modification and access, block size, how many blocks, size,
/// quotas of names and space, permission, user and group, between tabs. Bytes that aren't an image
/// are told by their first fault alone.
pub fn list_delimited(alloc: Global, bytes: &[u8]) -> ImageListing
    // The answer is right.
    ensures right { IsListed delimited bytes.now result }
    // An image is told by its text.
    ensures text { (space : Space) (txid : ℕ) → reading_of bytes.now ≡ readings.Image space txid → GivesText (delimited space.pairs) result }
    // Other bytes are told by their first fault.
    ensures fault { (place : ℕ) (cause : ImageCause) → reading_of bytes.now ≡ readings.BadImage place cause → GivesFault place cause result }
    // Bytes that don't begin as an image take no memory.
    ensures head { result ≡ ImageListing.OutOfMemory → is_ok (head_at bytes.now) ≡ true }
{
    answer::<Lines>(alloc, bytes)
}

/// How many files of an image there are of each size: of 0 bytes, of up to 1024, 1024^2, 1024^3 and
/// 1024^4, and of more; then how many files, directories, blocks and bytes there are in all. Bytes
/// that aren't an image are told by their first fault alone. No total is too large for its number:
/// blocks have 64 bits, bytes 128.
pub fn sizes(alloc: Global, bytes: &[u8]) -> ImageListing
    // The answer is right.
    ensures right { IsListed sizes bytes.now result }
    // An image is told by its text.
    ensures text { (space : Space) (txid : ℕ) → reading_of bytes.now ≡ readings.Image space txid → GivesText (sizes space.pairs) result }
    // Other bytes are told by their first fault.
    ensures fault { (place : ℕ) (cause : ImageCause) → reading_of bytes.now ≡ readings.BadImage place cause → GivesFault place cause result }
    // Bytes that don't begin as an image take no memory.
    ensures head { result ≡ ImageListing.OutOfMemory → is_ok (head_at bytes.now) ≡ true }
{
    answer::<Tally>(alloc, bytes)
}

/// The inodes of an image as one array of JSON on a line, an object each in the order of a walk.
/// The keys are the names of the columns, in the order of their bytes; no quota is -1. Bytes that
/// aren't an image are told by their first fault alone.
pub fn json(alloc: Global, bytes: &[u8]) -> ImageListing
    // The answer is right.
    ensures right { IsListed rows_json bytes.now result }
    // An image is told by its text.
    ensures text { (space : Space) (txid : ℕ) → reading_of bytes.now ≡ readings.Image space txid → GivesText (rows_json space.pairs) result }
    // Other bytes are told by their first fault.
    ensures fault { (place : ℕ) (cause : ImageCause) → reading_of bytes.now ≡ readings.BadImage place cause → GivesFault place cause result }
    // Bytes that don't begin as an image take no memory.
    ensures head { result ≡ ImageListing.OutOfMemory → is_ok (head_at bytes.now) ≡ true }
{
    answer::<Entries>(alloc, bytes)
}
