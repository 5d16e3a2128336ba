//! Frames, segments and images.
ghost use Rattle.ns_image.specs.Laws.{IsWithin};

use crate::shown::{put_bytes, put_fault, put_number, put_space};
use base_disk::{Disk, DiskFail, MemDisk};
use base_words::{MAX, OutOfMemory};
use disk_frame::{Framed, Scan, Scanned, frame_after, scan};
use journal_core::{Batch, BodyList};
use ns_image::{ReadImage, image_of, read_image};
use ns_store::{Loaded, load, save_bytes};
use std::alloc::{AllocError, Global};

/// The most edits of a scan.
const MOST: usize = 100;

/// Frames from the txid 1 on.
pub fn tell_frames(alloc: Global, bytes: &[u8], out: &mut Vec<u8>) -> Result<(), OutOfMemory> {
    match scan(alloc, bytes, 1, 0, MOST) {
        Scanned::Whole(whole) => put_scan(alloc, whole, out),
        Scanned::BadFrame { place, cause } => put_fault(alloc, place, &cause, out),
        Scanned::OutOfMemory => Err(AllocError),
    }
}

fn put_scan(alloc: Global, whole: Scan, out: &mut Vec<u8>) -> Result<(), OutOfMemory> {
    match put_whole(&whole, out) {
        Ok(()) => put_frame(alloc, whole.bodies, out),
        Err(error) => Err(error),
    }
}

// The bodies of a scan, and its length.
fn put_whole(whole: &Scan, out: &mut Vec<u8>) -> Result<(), OutOfMemory> {
    for body in whole.bodies.as_slice() {
        put_bytes(b"body", body.as_slice(), out)?;
        out.push(b'\n')?;
    }
    put_number(b"whole", whole.whole_length as u64, out)
}

// One frame of all bodies, where there are some.
fn put_frame(alloc: Global, bodies: BodyList, out: &mut Vec<u8>) -> Result<(), OutOfMemory> {
    if bodies.is_empty() {
        return Ok(());
    }
    let batch = Batch::new(1, bodies);
    if batch.last_within(MAX).is_none() {
        return Ok(());
    }
    match frame_after(alloc, b"", &batch) {
        Framed::Bytes(frame) => put_bytes(b"\nx", &frame, out),
        Framed::TooLong { number } => put_number(b"\ntoo long", number, out),
        Framed::OutOfMemory => Err(AllocError),
    }
}

/// The listing of a segment.
pub fn tell_edits(
    alloc: Global,
    listing: &list_oev::SegmentListing,
    out: &mut Vec<u8>,
) -> Result<(), OutOfMemory> {
    match listing {
        list_oev::SegmentListing::Text(text) => out.extend_from_slice(text),
        list_oev::SegmentListing::BadBytes { place, cause } => {
            put_fault(alloc, *place as usize, cause, out)
        }
        list_oev::SegmentListing::OutOfMemory => Err(AllocError),
    }
}

/// The listing of an image.
pub fn tell_rows(
    alloc: Global,
    listing: &list_oiv::ImageListing,
    out: &mut Vec<u8>,
) -> Result<(), OutOfMemory> {
    match listing {
        list_oiv::ImageListing::Text(text) => out.extend_from_slice(text),
        list_oiv::ImageListing::BadBytes { place, cause } => {
            put_fault(alloc, *place as usize, cause, out)
        }
        list_oiv::ImageListing::OutOfMemory => Err(AllocError),
    }
}

/// The bytes of an image.
pub fn tell_image(alloc: Global, bytes: &[u8], out: &mut Vec<u8>) -> Result<(), OutOfMemory> {
    let read = read_image(alloc, bytes)?;
    let told = put_image(alloc, &read, out);
    drop(read);
    told
}

fn put_image(alloc: Global, read: &ReadImage, out: &mut Vec<u8>) -> Result<(), OutOfMemory>
    requires { IsWithin read.now }
{
    match read {
        ReadImage::Image { namespace, txid } => {
            put_number(b"image", *txid, out)?;
            out.push(b'\n')?;
            put_space(alloc, namespace, out)?;
            put_bytes(b"x", &image_of(alloc, namespace, *txid)?, out)
        }
        ReadImage::BadImage { place, cause } => put_fault(alloc, *place, cause, out),
    }
}

// The files of the image 4.
const IMAGE: &str = "fsimage_0000000000000000004";

const DIGEST: &str = "fsimage_0000000000000000004.md5";

/// The text of the digest of an image without bytes.
pub fn tell_digest(alloc: Global, text: &[u8], out: &mut Vec<u8>) -> Result<(), OutOfMemory> {
    let mut disk = MemDisk::new(alloc);
    let told = load_with(alloc, &mut disk, text, out);
    drop(disk);
    told_of(told, out)
}

fn load_with(
    alloc: Global,
    disk: &mut MemDisk,
    text: &[u8],
    out: &mut Vec<u8>,
) -> Result<(), DiskFail> {
    disk.write_at(IMAGE, 0, b"")?;
    disk.write_at(DIGEST, 0, text)?;
    put_loaded(alloc, disk, out)
}

/// The bytes of an image that is saved.
pub fn tell_saved(alloc: Global, bytes: &[u8], out: &mut Vec<u8>) -> Result<(), OutOfMemory> {
    let mut disk = MemDisk::new(alloc);
    let told = load_saved(alloc, &mut disk, bytes, out);
    drop(disk);
    told_of(told, out)
}

fn load_saved(
    alloc: Global,
    disk: &mut MemDisk,
    bytes: &[u8],
    out: &mut Vec<u8>,
) -> Result<(), DiskFail> {
    save_bytes(alloc, disk, 4, bytes)?;
    let mut line = [0u8; 80];
    let count = disk.read(DIGEST, 0, &mut line)?;
    if let Some(line) = line.get(..count) {
        out.extend_from_slice(line)?;
    }
    put_loaded(alloc, disk, out)
}

fn told_of(told: Result<(), DiskFail>, out: &mut Vec<u8>) -> Result<(), OutOfMemory> {
    match told {
        Ok(()) => Ok(()),
        Err(DiskFail::Failed) => out.extend_from_slice(b"the disk failed"),
        Err(DiskFail::OutOfMemory) => Err(AllocError),
    }
}

// What is loaded of the image 4.
fn put_loaded(alloc: Global, disk: &mut MemDisk, out: &mut Vec<u8>) -> Result<(), DiskFail> {
    let loaded = load(alloc, disk, 4)?;
    let told = put_answer(alloc, &loaded, out);
    drop(loaded);
    Ok(told?)
}

fn put_answer(alloc: Global, loaded: &Loaded, out: &mut Vec<u8>) -> Result<(), OutOfMemory> {
    match loaded {
        Loaded::Image { namespace, txid } => {
            put_number(b"image", *txid, out)?;
            out.push(b'\n')?;
            put_space(alloc, namespace, out)
        }
        Loaded::NoImage => out.extend_from_slice(b"no image"),
        Loaded::DigestDiffers { stored, computed } => {
            put_bytes(b"stored", stored, out)?;
            put_bytes(b" computed", computed, out)
        }
        Loaded::BadImage { place, cause } => put_fault(alloc, *place, cause, out),
    }
}
