//! What is due of a tool for a file, before any of it is written.
ghost use Rattle.std.specs.Prelude.{◌↔◌, ◌≤◌, ℕ, List, Some, IfOk, IfErr, length};
ghost use Rattle.edit_ops.specs.Records.{EditView};
ghost use Rattle.list_oev.specs.Segment.{IsSegment};
ghost use Rattle.list_oev.specs.Listed.{IsListed, GivesText};
ghost use Rattle.list_oiv.specs.Listed.{IsListed as IsImageListed};
ghost use Rattle.base_disk.specs.Calls.{Rests};
ghost use Rattle.base_disk.specs.DiskCalls.{IfTold, IsDiskRun};
ghost use Rattle.cli_commands.specs.Tools.{Oev, Oiv, Ls, Back as BackTool, shown};
ghost use Rattle.cli_commands.specs.Commands.{IsAllowedTool};
ghost use Rattle.cli_commands.specs.Uses.{written_to, done_to};
ghost use Rattle.cli_commands.specs.Listing.{longest_file, told_by, rows_told_by, IsListing, GivesListing, IsListFault, Lists};
ghost use Rattle.cli_commands.specs.Found.{IsShort, IsReadFault, GivesFound, IsFoundFault, answer_of};

use crate::command_fault::CommandFault;
use crate::found::{Found, LONGEST_FILE, find};
use crate::status::Status;
use crate::tool::{ImageTool, SegmentTool, Tool};
use crate::writing::write_due;
use base_disk::{Disk, DiskFail};
use base_outside::Sink;
use list_back::{Back, back};
use list_oev::{SegmentListing, json as segment_json, list, stats};
use list_oiv::{ImageListing, PathListing, json as image_json, list_delimited, list_path, sizes};
use std::alloc::Global;

/// What is told of the bytes of a segment's file.
fn segment_told(alloc: Global, of: SegmentTool, bytes: &[u8]) -> SegmentListing
    ensures right { IsListed (told_by of) bytes.now result }
    ensures text { (start : ℕ) (edits : List EditView) → IsSegment bytes.now start edits → GivesText (told_by of start edits) result }
{
    match of {
        SegmentTool::List => list(alloc, bytes),
        SegmentTool::Stats => stats(alloc, bytes),
        SegmentTool::Json => segment_json(alloc, bytes),
    }
}

/// What is told of the bytes of an image.
fn image_told(alloc: Global, of: ImageTool, bytes: &[u8]) -> ImageListing
    ensures { IsImageListed (rows_told_by of) bytes.now result }
{
    match of {
        ImageTool::Delimited => list_delimited(alloc, bytes),
        ImageTool::Sizes => sizes(alloc, bytes),
        ImageTool::Json => image_json(alloc, bytes),
    }
}

/// What is due of the bytes of a segment's file.
fn due_of_segment(alloc: Global, of: SegmentTool, bytes: &[u8]) -> Result<Vec<u8>, CommandFault>
    requires { length bytes.now ≤ longest_file }
    ensures text { IfOk result (λ text. IsListing (Oev of) (Some bytes.now) text.items) }
    ensures fault { IfErr result (IsReadFault (Oev of) bytes.now) }
{
    match segment_told(alloc, of, bytes) {
        SegmentListing::Text(text) => Ok(text),
        SegmentListing::BadBytes { place, cause } => Err(CommandFault::BadBytes { place, cause }),
        SegmentListing::OutOfMemory => Err(CommandFault::OutOfMemory),
    }
}

/// What is due of the bytes of an image.
fn due_of_image(alloc: Global, of: ImageTool, bytes: &[u8]) -> Result<Vec<u8>, CommandFault>
    requires { length bytes.now ≤ longest_file }
    ensures text { IfOk result (λ text. IsListing (Oiv of) (Some bytes.now) text.items) }
    ensures fault { IfErr result (IsReadFault (Oiv of) bytes.now) }
{
    match image_told(alloc, of, bytes) {
        ImageListing::Text(text) => Ok(text),
        ImageListing::BadBytes { place, cause } => Err(CommandFault::BadImage { place, cause }),
        ImageListing::OutOfMemory => Err(CommandFault::OutOfMemory),
    }
}

/// What is due of a path of the image that the bytes are.
fn due_of_path(alloc: Global, path: &str, bytes: &[u8]) -> Result<Vec<u8>, CommandFault>
    requires { length bytes.now ≤ longest_file }
    ensures text { IfOk result (λ text. IsListing (Ls path.now) (Some bytes.now) text.items) }
    ensures fault { IfErr result (IsReadFault (Ls path.now) bytes.now) }
{
    match list_path(alloc, bytes, path.as_bytes()) {
        PathListing::Text(text) => Ok(text),
        PathListing::NoPath => Err(CommandFault::NoPath),
        PathListing::BadBytes { place, cause } => Err(CommandFault::BadImage { place, cause }),
        PathListing::OutOfMemory => Err(CommandFault::OutOfMemory),
    }
}

/// What is due of the bytes of a listing as JSON: the segment of its edits from that txid on, under
/// that epoch.
fn due_of_listing(
    alloc: Global,
    start: u64,
    epoch: u64,
    bytes: &[u8],
) -> Result<Vec<u8>, CommandFault>
    requires numbers { IsAllowedTool (BackTool start epoch) }
    requires short { length bytes.now ≤ longest_file }
    ensures text { IfOk result (λ text. IsListing (BackTool start epoch) (Some bytes.now) text.items) }
    ensures fault { IfErr result (IsReadFault (BackTool start epoch) bytes.now) }
{
    match back(alloc, bytes, start, epoch) {
        Back::Segment(segment) => Ok(segment),
        Back::NotJson => Err(CommandFault::NotJson),
        Back::TooLong { number } => Err(CommandFault::TooManyEntries(number)),
        Back::BadEntry { index } => Err(CommandFault::BadEntry { index }),
        Back::OutOfMemory => Err(CommandFault::OutOfMemory),
    }
}

/// What is due of a file's bytes.
fn due_of_bytes(alloc: Global, tool: Tool<'_>, bytes: &[u8]) -> Result<Vec<u8>, CommandFault>
    requires tool { IsAllowedTool (shown tool) }
    requires short { length bytes.now ≤ longest_file }
    ensures text { IfOk result (λ text. IsListing (shown tool.entry) (Some bytes.now) text.items) }
    ensures fault { IfErr result (IsReadFault (shown tool.entry) bytes.now) }
{
    match tool {
        Tool::Oev(of) => due_of_segment(alloc, of, bytes),
        Tool::Oiv(of) => due_of_image(alloc, of, bytes),
        Tool::Ls { path } => due_of_path(alloc, path, bytes),
        Tool::Back { start, epoch } => due_of_listing(alloc, start, epoch, bytes),
    }
}

/// What is due of what was found under the name.
fn due_of_found(alloc: Global, tool: Tool<'_>, found: &Found) -> Result<Vec<u8>, CommandFault>
    requires tool { IsAllowedTool (shown tool) }
    requires short { IsShort found.now }
    ensures text { IfOk result (λ text. GivesFound (shown tool.entry) found.now text.items) }
    ensures fault { IfErr result (IsFoundFault (shown tool.entry) found.now) }
{
    match found {
        Found::Absent => Err(CommandFault::NoFile),
        Found::TooLong => Err(CommandFault::Limit(LONGEST_FILE)),
        Found::Bytes(bytes) => due_of_bytes(alloc, tool, bytes),
    }
}

/// Reads the file that has this name and tells what is due of it.
fn due_of_name<D: Disk>(
    alloc: Global,
    tool: Tool<'_>,
    name: &str,
    disk: &mut D,
) -> Result<Vec<u8>, CommandFault>
    requires { IsAllowedTool (shown tool) }
    ensures text { IfOk result (λ text. GivesListing (shown tool.entry) name.now (done_to D.tells D.view D.faults D.steady D.left disk.old disk.new) Status.Ok text.items) }
    ensures fault { IfErr result (IsListFault (shown tool.entry) name.now (done_to D.tells D.view D.faults D.steady D.left disk.old disk.new)) }
    ensures call { IsDiskRun D.DiskModel disk.old disk.new (answer_of result) }
    ensures rests { IfTold D.DiskModel disk.old disk.new Rests }
{
    match find(alloc, disk, name) {
        Ok(found) => due_of_found(alloc, tool, &found),
        Err(DiskFail::Failed) => Err(CommandFault::DiskFault),
        Err(DiskFail::OutOfMemory) => Err(CommandFault::OutOfMemory),
    }
}

/// Writes what the tool makes of the file that has this name.
pub fn list_file<K: Sink, D: Disk>(
    alloc: Global,
    tool: Tool<'_>,
    name: &str,
    sink: &mut K,
    disk: &mut D,
) -> Status
    requires { IsAllowedTool (shown tool) }
    ensures lists { Lists (shown tool.entry) name.now (done_to D.tells D.view D.faults D.steady D.left disk.old disk.new) (written_to K.taken K.faults K.kept_back sink.old sink.new) result }
    ensures tells { D.tells disk.old ↔ D.tells disk.new }
{
    let due = due_of_name(alloc, tool, name, disk);
    write_due(alloc, sink, &due)
}
