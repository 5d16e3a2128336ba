//! Images on a disk, by their lines.
ghost use Rattle.std.specs.Prelude.{◌≤◌};
ghost use Rattle.journal_core.specs.Limits.{max_number};

use crate::disk_calls::{put_digits, tell_done};
use crate::shown::written;
use anyhow::bail;
use base_disk::{DiskFail, UntoldDisk};
use base_words::MAX;
use case_files::{bytes_of, number_and_rest};
use ns_image::{ReadImage, image_of, read_image};
use ns_store::{
    Loaded, LoadedBytes, load, load_bytes, min_to_keep, newest, retain, save, save_bytes,
};
use ns_tree::Namespace;
use play_standby::{Standby, checkpoint};
use std::alloc::{AllocError, Global};
use std::fmt::Debug;

const CALLS: &[&str] = &[
    "save",
    "load",
    "newest",
    "keep",
    "least",
    "store",
    "restore",
    "checkpoint",
];

/// Whether the word is that of a call for images.
pub fn is_image_call(word: &str) -> bool {
    CALLS.iter().any(|call| *call == word)
}

// How the bytes of an image are found.
fn tell_bytes(
    alloc: Global,
    found: Result<LoadedBytes, DiskFail>,
    told: &mut String,
) -> Result<(), AllocError> {
    match found {
        Ok(LoadedBytes::Bytes(bytes)) => put_digits(alloc, &bytes, told),
        Ok(LoadedBytes::NoImage) => told.push_str("no image"),
        Ok(LoadedBytes::DigestDiffers { .. }) => told.push_str("another digest"),
        Ok(LoadedBytes::BadDigest) => told.push_str("no digest"),
        Err(_) => told.push_str("disk fault"),
    }
}

// An answer as it is shown.
fn tell_shown<T: Debug>(answer: &T, told: &mut String) -> anyhow::Result<()> {
    written(write!(told, "{answer:?}"))
}

// The bytes of an image are saved.
fn tell_saved(
    alloc: Global,
    disk: &mut UntoldDisk,
    txid: u64,
    digits: &str,
    told: &mut String,
) -> anyhow::Result<()>
    requires { txid ≤ max_number }
{
    let bytes = bytes_of(alloc, digits)?;
    tell_done(save_bytes(alloc, disk, txid, &bytes), told)
}

// The namespace of an image of these bytes is saved, at the txid that they tell.
fn store(
    alloc: Global,
    disk: &mut UntoldDisk,
    digits: &str,
    told: &mut String,
) -> anyhow::Result<()> {
    match read_image(alloc, &bytes_of(alloc, digits)?)? {
        ReadImage::Image { namespace, txid } => {
            let done = save(alloc, disk, &namespace, txid);
            drop(namespace);
            tell_done(done, told)
        }
        ReadImage::BadImage { .. } => bail!("no image"),
    }
}

// The image of the namespace that is loaded.
fn restore(
    alloc: Global,
    disk: &mut UntoldDisk,
    txid: u64,
    told: &mut String,
) -> Result<(), AllocError> {
    match load(alloc, disk, txid) {
        Ok(Loaded::Image { namespace, txid }) => {
            let image = image_of(alloc, &namespace, txid);
            drop(namespace);
            put_digits(alloc, &image?, told)
        }
        Ok(Loaded::NoImage) => told.push_str("no image"),
        Ok(_) => told.push_str("a bad image"),
        Err(_) => told.push_str("disk fault"),
    }
}

// A standby of no edits that stands at that txid saves its image, and keeps two.
fn save_standby(alloc: Global, disk: &mut UntoldDisk, txid: u64) -> Result<(), DiskFail>
    requires { txid ≤ max_number }
{
    let standby = Standby::of(Namespace::new(alloc)?, txid);
    let done = checkpoint(alloc, &standby, disk);
    drop(standby);
    done
}

/// Makes the call, and tells what it came to.
pub fn call_images(
    alloc: Global,
    disk: &mut UntoldDisk,
    word: &str,
    rest: &str,
    told: &mut String,
) -> anyhow::Result<()> {
    if word == "store" {
        return store(alloc, disk, rest, told);
    }
    let (number, digits) = number_and_rest(rest)?;
    if number > MAX {
        bail!("too great a number");
    }
    match word {
        "save" => tell_saved(alloc, disk, number, digits, told),
        "load" => written(tell_bytes(alloc, load_bytes(alloc, disk, number), told)),
        "restore" => written(restore(alloc, disk, number, told)),
        "keep" => tell_done(retain(alloc, disk, number), told),
        "least" => tell_shown(&min_to_keep(alloc, disk, number), told),
        "checkpoint" => tell_done(save_standby(alloc, disk, number), told),
        _ => tell_shown(&newest(alloc, disk), told),
    }
}
