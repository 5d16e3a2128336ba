//! The listings of a segment's file.
ghost use Rattle.std.specs.Prelude.{◌≡◌, ℕ, List, Err, OnOk};
ghost use Rattle.edit_ops.specs.Records.{EditView};
ghost use Rattle.list_oev.specs.declared.segment_fault.SegmentFault.TheVariants.{Damage};
ghost use Rattle.list_oev.specs.declared.segment_listing.SegmentCause.{SegmentCause};
ghost use Rattle.list_oev.specs.Lines.{lines};
ghost use Rattle.list_oev.specs.Entries.{entry_tokens, entry_lines};
ghost use Rattle.list_oev.specs.Counts.{statistics};
ghost use Rattle.list_oev.specs.Segment.{IsSegment};
ghost use Rattle.list_oev.specs.Damage.{HasNoHeader, IsDamaged};
ghost use Rattle.list_oev.specs.Listed.{IsListed, GivesText, GivesDamage};
ghost use Rattle.list_oev.specs.Places.{IsFresh, IsRead};
ghost use Rattle.list_oev.specs.Steps.{IsListedSoFar, ListsNext, IsCountedSoFar, CountsNext};

use crate::counts::{count_owned, put_statistics};
use crate::edits::Edits;
use crate::entries::put_owned_entry;
use crate::lines::put_owned_line;
use crate::segment_fault::SegmentFault;
use crate::segment_listing::SegmentListing;
use json::Writer;
use list_text::{array_text, begun_array};
use std::alloc::Global;

// Appends the line of the next edit; whether there was one.
fn put_next(alloc: Global, edits: &mut Edits<'_>, out: &mut Vec<u8>) -> Result<bool, SegmentFault>
    ensures { (bytes : List ℕ) → IsListedSoFar lines bytes edits.old out.old.items → ListsNext lines bytes edits.old out.new.items result edits.new }
{
    match edits.next(alloc)? {
        Some((txid, edit)) => {
            put_owned_line(out, txid, edit)?;
            Ok(true)
        }
        None => Ok(false),
    }
}

// A line for each edit that is to come.
fn lines_of(alloc: Global, mut edits: Edits<'_>) -> Result<Vec<u8>, SegmentFault>
    requires { IsFresh edits.bytes edits }
    ensures { IsRead lines edits.entry.bytes result }
{
    let mut out = Vec::new(alloc);
    while put_next(alloc, &mut edits, &mut out)? {}
    Ok(out)
}

// Adds the next edit to an array of JSON; whether there was one.
fn put_next_entry(
    alloc: Global,
    edits: &mut Edits<'_>,
    writer: &mut Writer,
) -> Result<bool, SegmentFault>
    requires { IsListedSoFar entry_tokens edits.old.bytes edits.old writer.old.tokens }
    ensures lists { (bytes : List ℕ) → IsListedSoFar entry_tokens bytes edits.old writer.old.tokens → ListsNext entry_tokens bytes edits.old writer.new.tokens result edits.new }
    ensures before { OnOk result (writer.new.before ≡ writer.old.before) }
{
    match edits.next(alloc)? {
        Some((txid, edit)) => {
            put_owned_entry(alloc, writer, txid, edit)?;
            Ok(true)
        }
        None => Ok(false),
    }
}

// An array of JSON with the edits that are to come.
fn entries_of(alloc: Global, mut edits: Edits<'_>) -> Result<Vec<u8>, SegmentFault>
    requires { IsFresh edits.bytes edits }
    ensures { IsRead entry_lines edits.entry.bytes result }
{
    let mut writer = begun_array(alloc)?;
    while put_next_entry(alloc, &mut edits, &mut writer)? {}
    let text = array_text(writer)?;
    Ok(text)
}

// Counts the next edit, by its kind and in all; whether there was one.
fn count_next(
    alloc: Global,
    edits: &mut Edits<'_>,
    counts: &mut [u64; 128],
    total: &mut u64,
) -> Result<bool, SegmentFault>
    requires { IsCountedSoFar edits.old.bytes edits.old counts.old total.old }
    ensures { (bytes : List ℕ) → IsCountedSoFar bytes edits.old counts.old total.old → CountsNext bytes edits.old counts.new total.new result edits.new }
{
    match edits.next(alloc)? {
        Some((_, edit)) => {
            count_owned(counts, edit);
            *total += 1;
            Ok(true)
        }
        None => Ok(false),
    }
}

// How many edits of each kind are to come.
fn statistics_of(alloc: Global, mut edits: Edits<'_>) -> Result<Vec<u8>, SegmentFault>
    requires { IsFresh edits.bytes edits }
    ensures { IsRead (λ start. statistics) edits.entry.bytes result }
{
    let mut counts = [0u64; 128];
    let mut total = 0;
    while count_next(alloc, &mut edits, &mut counts, &mut total)? {}
    let mut out = Vec::new(alloc);
    put_statistics(&mut out, &counts, total)?;
    Ok(out)
}

// A line for each edit of the file.
fn lines_in(alloc: Global, bytes: &[u8]) -> Result<Vec<u8>, SegmentFault>
    ensures read { IsRead lines bytes.now result }
    ensures header { HasNoHeader bytes.now → result ≡ Err (Damage 0 SegmentCause.Header) }
{
    match Edits::of(bytes) {
        Some(edits) => lines_of(alloc, edits),
        None => Err(SegmentFault::no_header()),
    }
}

// How many edits of each kind the file has.
fn statistics_in(alloc: Global, bytes: &[u8]) -> Result<Vec<u8>, SegmentFault>
    ensures read { IsRead (λ start. statistics) bytes.now result }
    ensures header { HasNoHeader bytes.now → result ≡ Err (Damage 0 SegmentCause.Header) }
{
    match Edits::of(bytes) {
        Some(edits) => statistics_of(alloc, edits),
        None => Err(SegmentFault::no_header()),
    }
}

// An array of JSON with the edits of the file.
fn entries_in(alloc: Global, bytes: &[u8]) -> Result<Vec<u8>, SegmentFault>
    ensures read { IsRead entry_lines bytes.now result }
    ensures header { HasNoHeader bytes.now → result ≡ Err (Damage 0 SegmentCause.Header) }
{
    match Edits::of(bytes) {
        Some(edits) => entries_of(alloc, edits),
        None => Err(SegmentFault::no_header()),
    }
}

// The answer for a text, or for why there is none.
fn listing_of(read: Result<Vec<u8>, SegmentFault>) -> SegmentListing
    ensures right { (tell : ℕ → List EditView → List ℕ) (bytes : List ℕ) → IsRead tell bytes read → IsListed tell bytes result }
    ensures damage { (place : ℕ) (cause : SegmentCause) → read ≡ Err (Damage place cause) → result ≡ SegmentListing.BadBytes place cause }
{
    match read {
        Ok(text) => SegmentListing::Text(text),
        Err(SegmentFault::Memory) => SegmentListing::OutOfMemory,
        Err(SegmentFault::Damage { place, cause }) => SegmentListing::BadBytes {
            place: place as u64,
            cause,
        },
    }
}

/// The edits of a segment's file, a line each: the txid, `call` with the client and the number
/// where a client's call asked for the edit, the name of its kind, and its fields. A file that is
/// damaged is told as its first damage alone.
pub fn list(alloc: Global, bytes: &[u8]) -> SegmentListing
    // The answer is right.
    ensures right { IsListed lines bytes.now result }
    // A segment's file is told by its text.
    ensures text { (start : ℕ) (edits : List EditView) → IsSegment bytes.now start edits → GivesText (lines start edits) result }
    // A damaged file is told by its first damage.
    ensures damage { (place : ℕ) (cause : SegmentCause) → IsDamaged bytes.now place cause → GivesDamage place cause result }
    // Bytes without a header are told so, and take no memory.
    ensures header { HasNoHeader bytes.now → result ≡ SegmentListing.BadBytes 0 SegmentCause.Header }
{
    listing_of(lines_in(alloc, bytes))
}

/// How many edits of each kind a segment's file has: for each first byte of a record that occurs,
/// in their order, a line with `OP_` and the kind's name, that byte and how many there are; last
/// `total` and how many there are in all. A file that is damaged is told as its first damage alone.
pub fn stats(alloc: Global, bytes: &[u8]) -> SegmentListing
    // The answer is right.
    ensures right { IsListed (λ start. statistics) bytes.now result }
    // A segment's file is told by its text.
    ensures text { (start : ℕ) (edits : List EditView) → IsSegment bytes.now start edits → GivesText (statistics edits) result }
    // A damaged file is told by its first damage.
    ensures damage { (place : ℕ) (cause : SegmentCause) → IsDamaged bytes.now place cause → GivesDamage place cause result }
    // Bytes without a header are told so, and take no memory.
    ensures header { HasNoHeader bytes.now → result ≡ SegmentListing.BadBytes 0 SegmentCause.Header }
{
    listing_of(statistics_in(alloc, bytes))
}

/// The edits of a segment's file as one array of JSON on a line, an object each. Its keys stand in
/// the order of their bytes: `op`, which is `OP_` and the kind's name, `txid`, the fields of that
/// kind, and `callid` and `clientid` where a client's call asked for the edit. Numbers are decimal,
/// a permission too; a client is 32 lower-case hexadecimal digits. A file that is damaged is told
/// as its first damage alone.
pub fn json(alloc: Global, bytes: &[u8]) -> SegmentListing
    // The answer is right.
    ensures right { IsListed entry_lines bytes.now result }
    // A segment's file is told by its text.
    ensures text { (start : ℕ) (edits : List EditView) → IsSegment bytes.now start edits → GivesText (entry_lines start edits) result }
    // A damaged file is told by its first damage.
    ensures damage { (place : ℕ) (cause : SegmentCause) → IsDamaged bytes.now place cause → GivesDamage place cause result }
    // Bytes without a header are told so, and take no memory.
    ensures header { HasNoHeader bytes.now → result ≡ SegmentListing.BadBytes 0 SegmentCause.Header }
{
    listing_of(entries_in(alloc, bytes))
}
