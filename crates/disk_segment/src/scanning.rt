//! The frames of a segment's file are scanned, window by window.
ghost use Rattle.std.specs.Prelude.{◌≡◌, ◌≢◌, ◌≤◌, ◌<◌, ◌+◌, ◌^◌, List, ℕ, Some, Ok, IfOk, IfSome, MatchBool, length, take, drop};
ghost use Rattle.base_disk.specs.Files.{bytes_of};
ghost use Rattle.base_disk.specs.Calls.{Rests};
ghost use Rattle.base_disk.specs.DiskCalls.{IfTold, IsDiskRun};
ghost use Rattle.disk_frame.specs.Answers.{IsScan};
ghost use Rattle.disk_segment.specs.Scans.{IsInside, IsWindowEnd, AreScanned, ScansFile};

use crate::asked::Asked;
use crate::file_scan::FileScan;
use crate::window_end::WindowEnd;
use base_disk::{Disk, DiskFail};
use disk_frame::{FrameCause, HEADER_LENGTH, Scan, read_header, scan_window};
use std::alloc::Global;

// As many bytes of a file are read at once. A header and the longest frame of a journal batch are
// fewer.
const WINDOW: u64 = 1_052_672;

// The bytes of a file from a place on, at most so many.
fn read_window<D: Disk>(
    alloc: Global,
    disk: &mut D,
    name: &str,
    at: u64,
    most: u64,
) -> Result<Vec<u8>, DiskFail>
    ensures call { IsDiskRun D.DiskModel disk.old disk.new result }
    ensures bytes { D.tells disk.old
        → IfOk result (λ v. v.items ≡ take most (drop at (bytes_of ((D.view disk.old).seen name.now)))) }
    ensures length { IfOk result (λ v. length v.items ≤ most) }
    ensures disk { IfTold D.DiskModel disk.old disk.new Rests }
    ensures shortages { D.shortages disk.old ≤ D.shortages disk.new }
{
    let mut window = vec![in alloc; 0u8; most as usize]?;
    let count = disk.read(name, at, &mut window)?;
    window.truncate(count);
    Ok(window)
}

// Whether the window ends where the next frame begins, or inside it.
fn is_inside(stop: Option<FrameCause>, taken: usize, window: usize) -> bool
    ensures { MatchBool result (IsInside stop taken window) (IsInside stop taken window → ⊥) }
{
    match stop {
        None => taken == window,
        Some(cause) => cause == FrameCause::Short,
    }
}

// Takes the frames of the next window, of at most `size` bytes, where the file has `rest` bytes
// after those that the scan has.
fn scan_next<D: Disk>(
    alloc: Global,
    disk: &mut D,
    asked: &Asked<'_>,
    scan: &mut Scan,
    rest: u64,
    size: u64,
) -> Result<WindowEnd, DiskFail>
    requires limit { asked.now.start + scan.old.count ≤ 2 ^ 62 + 1 }
    requires places { 24 + scan.old.whole_length + rest < 2 ^ 64 }

    ensures call { IsDiskRun D.DiskModel disk.old disk.new result }
    ensures told { D.tells disk.old → (bytes : List ℕ) → (D.view disk.old).seen asked.now.name.now ≡ Some bytes → length bytes ≡ 24 + scan.old.whole_length + rest
        → IsScan asked.now.start (drop 24 bytes) asked.now.skip asked.now.most scan.old → IfOk result (IsWindowEnd asked.now.start (drop 24 bytes) asked.now.skip asked.now.most scan.new) }
    ensures limit { asked.now.start + scan.new.count ≤ 2 ^ 62 + 1 }
    ensures later { scan.old.whole_length ≤ scan.new.whole_length }
    ensures places { scan.new.whole_length ≤ scan.old.whole_length + rest }
    ensures beyond { rest ≤ size → result ≢ Ok WindowEnd.Beyond }
    ensures disk { IfTold D.DiskModel disk.old disk.new Rests }
    ensures shortages { D.shortages disk.old ≤ D.shortages disk.new }
{
    let before = scan.whole_length;
    let at = HEADER_LENGTH as u64 + before as u64;
    let window = read_window(alloc, disk, asked.name, at, rest.min(size))?;
    let stop = scan_window(alloc, scan, &window, asked.start, asked.skip, asked.most)?;
    if size < rest && is_inside(stop, scan.whole_length - before, window.len()) {
        return Ok(WindowEnd::Beyond);
    }
    match stop {
        None => Ok(WindowEnd::Ended),
        Some(_) => Ok(WindowEnd::Bad),
    }
}

// The frames of a file of so many bytes that begins with a header; none where one is bad.
fn scan_frames<D: Disk>(
    alloc: Global,
    disk: &mut D,
    asked: &Asked<'_>,
    size: u64,
) -> Result<Option<Scan>, DiskFail>
    requires limit { asked.now.start ≤ 2 ^ 62 }
    requires header { 24 ≤ size }

    ensures call { IsDiskRun D.DiskModel disk.old disk.new result }
    ensures told { D.tells disk.old → (bytes : List ℕ)
        → (D.view disk.old).seen asked.now.name.now ≡ Some bytes → length bytes ≡ size
        → IfOk result (AreScanned asked.now.start (drop 24 bytes) asked.now.skip asked.now.most) }
    ensures limit { IfOk result (λ o. IfSome o (λ s. asked.now.start + s.count ≤ 2 ^ 62 + 1)) }
    ensures places { IfOk result (λ o. IfSome o (λ s. 24 + s.whole_length ≤ size)) }
    ensures disk { IfTold D.DiskModel disk.old disk.new Rests }
    ensures shortages { D.shortages disk.old ≤ D.shortages disk.new }
{
    let mut scan = Scan::new(alloc);
    let mut is_long = false;
    loop {
        let before = scan.whole_length;
        let rest = size - HEADER_LENGTH as u64 - before as u64;
        // A frame that is longer than a window is read with all that stands after it.
        let most = if is_long { rest } else { WINDOW };
        match scan_next(alloc, disk, asked, &mut scan, rest, most)? {
            WindowEnd::Ended => return Ok(Some(scan)),
            WindowEnd::Bad => return Ok(None),
            WindowEnd::Beyond => is_long = scan.whole_length == before,
        }
    }
}

/// What the file is, if it is that of a segment with the asked start. Each frame is checked. The
/// file is read in windows of about a mebibyte, and one with a longer frame from there on at once.
/// The segment's start is at most 2^62.
pub fn scan_file<D: Disk>(
    alloc: Global,
    disk: &mut D,
    asked: &Asked<'_>,
) -> Result<Option<FileScan>, DiskFail>
    requires { asked.now.start ≤ 2 ^ 62 }

    ensures call { IsDiskRun D.DiskModel disk.old disk.new result }
    ensures told { D.tells disk.old
        → IfOk result (ScansFile asked.now.start ((D.view disk.old).seen asked.now.name.now) asked.now.skip asked.now.most) }
    ensures limit { IfOk result (λ o. IfSome o (λ f. asked.now.start + f.scan.count ≤ 2 ^ 62 + 1)) }
    ensures places { IfOk result (λ o. IfSome o (λ f. 24 + f.scan.whole_length < 2 ^ 64)) }
    ensures disk { IfTold D.DiskModel disk.old disk.new Rests }
    ensures shortages { D.shortages disk.old ≤ D.shortages disk.new }
{
    let Some(size) = disk.length(asked.name)? else {
        return Ok(None);
    };
    let front = read_window(alloc, disk, asked.name, 0, HEADER_LENGTH as u64)?;
    let Some(header) = read_header(&front) else {
        return Ok(None);
    };
    if header.start != asked.start || size < HEADER_LENGTH as u64 {
        return Ok(None);
    }
    match scan_frames(alloc, disk, asked, size)? {
        Some(scan) => Ok(Some(FileScan {
            epoch: header.epoch,
            scan,
        })),
        None => Ok(None),
    }
}
