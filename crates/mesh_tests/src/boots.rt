//! A standby boots over the nodes and from the images that a play leaves: from a damaged image,
//! onto a disk that has one, over disks of which each call fails in turn.
use crate::plays::{images_of, nodes_of};
use base_disk::{Choice, Disk, DiskFail, MemDisk, UntoldDisk};
use ns_image::ImageCause;
use ns_store::{LoadedBytes, Newest, load_bytes, newest, save_bytes};
use play_boot::{Booted, bootstrap};
use std::alloc::Global;
use std::test::Fail;
use writer_calls::Direct;

/// A name node saves an image at 3, and logs the entries from 4 to 6 after it.
const CHECKPOINT: &str =
    "names 1\nname a\ntakeover a\nlog a mkdir /a 1 755 u g\nclose a\ncheckpoint a\ntakeover a\nlog a mkdir /b 2 755 u g\nclose a\n";

/// Its image.
const IMAGE: &str = "fsimage_0000000000000000003";

/// The file of the digest of its image.
const DIGEST: &str = "fsimage_0000000000000000003.md5";

/// More calls than a bootstrap makes of one disk.
const ENOUGH: u64 = 40;

/// What came of a bootstrap.
#[derive(Clone, Copy)]
enum Came {
    Done { position: u64, image: Option<u64> },
    NotEmpty { txid: u64 },
    DigestDiffers,
    BadImage { place: usize, cause: ImageCause },
    FromFault,
    ToFault,
    Other,
}

/// What is told of what came.
fn came_of(booted: Booted) -> Came {
    match booted {
        Booted::Done { standby, image } => Came::Done {
            position: standby.position(),
            image,
        },
        Booted::NotEmpty { txid } => Came::NotEmpty { txid },
        Booted::DigestDiffers { .. } => Came::DigestDiffers,
        Booted::BadImage { place, cause } => Came::BadImage { place, cause },
        Booted::FromFault => Came::FromFault,
        Booted::ToFault => Came::ToFault,
        Booted::Unreachable { .. }
        | Booted::Behind { .. }
        | Booted::BadEntry { .. }
        | Booted::OutOfMemory => Came::Other,
    }
}

/// The donor's disk, and that of the standby. They are let go by one call wherever they are, which
/// keeps proofs short.
struct Disks {
    from: UntoldDisk,
    to: UntoldDisk,
}

impl Drop for Disks {
    fn drop(self) {
        let Disks { from, to } = self;
        drop(from);
        drop(to);
    }
}

/// The disk of the play's first actor, and one of no files.
fn disks_of(alloc: Global) -> Result<Disks, Fail> {
    let Some(from) = images_of(alloc, CHECKPOINT.as_bytes())?.pop() else {
        return Err("no actor".into());
    };
    Ok(Disks {
        from: UntoldDisk::new(from),
        to: UntoldDisk::new(MemDisk::new(alloc)),
    })
}

/// What comes of a bootstrap over these disks and the nodes of the play.
fn boot(alloc: Global, disks: &mut Disks) -> Result<Came, Fail> {
    let nodes = nodes_of(alloc, CHECKPOINT.as_bytes())?;
    if nodes.is_empty() {
        return Err("no node".into());
    }
    let mut peers = Direct::new(alloc, nodes);
    Ok(came_of(bootstrap(alloc, &mut disks.from, &mut disks.to, &mut peers)))
}

/// All is done.
fn is_done(came: Came) -> bool {
    matches!(
        came,
        Came::Done {
            position: 6,
            image: Some(3)
        }
    )
}

/// The bytes of the image at 3 on a disk; none where it isn't loaded.
fn image_on(alloc: Global, disk: &mut UntoldDisk) -> Option<Vec<u8>> {
    match load_bytes(alloc, disk, 3) {
        Ok(LoadedBytes::Bytes(bytes)) => Some(bytes),
        _ => None,
    }
}

/// The disk of the standby holds the donor's image.
fn is_copied(alloc: Global, disks: &mut Disks) -> bool {
    matches!(newest(alloc, &mut disks.to), Newest::Image { txid: 3 })
        && match (
            image_on(alloc, &mut disks.from),
            image_on(alloc, &mut disks.to),
        ) {
            (Some(one), Some(other)) => one.as_slice() == other.as_slice(),
            _ => false,
        }
}

/// The disk of the standby has no file.
fn is_untouched(disks: &mut Disks) -> bool {
    match disks.to.list() {
        Ok(names) => names.is_empty(),
        Err(_) => false,
    }
}

#[test]
fn an_image_is_copied_once(rt: HostRuntime) -> Result<(), Fail> {
    let mut disks = disks_of(rt.alloc())?;
    let came = boot(rt.alloc(), &mut disks)?;
    assert!(rt; is_done(came));
    assert!(rt; is_copied(rt.alloc(), &mut disks));
    let came = boot(rt.alloc(), &mut disks)?;
    assert!(rt; matches!(came, Came::NotEmpty { txid: 3 }));
    assert!(rt; is_copied(rt.alloc(), &mut disks));
    Ok(())
}

/// How the donor's images are damaged.
#[derive(Clone, Copy)]
enum Damage {
    /// A file begins with these bytes.
    Begins(&'static str, &'static [u8]),
    /// The newest image has these bytes, with their digest.
    Saved(&'static [u8]),
}

/// Damages the images of a disk in this way.
fn spoil(alloc: Global, disk: &mut UntoldDisk, by: Damage) -> Result<(), DiskFail> {
    match by {
        Damage::Begins(name, bytes) => disk.write_at(name, 0, bytes),
        Damage::Saved(bytes) => save_bytes(alloc, disk, 7, bytes),
    }
}

/// What comes of a bootstrap from damaged images; none where the standby's disk is touched.
fn boot_damaged(alloc: Global, by: Damage) -> Result<Option<Came>, Fail> {
    let mut disks = disks_of(alloc)?;
    spoil(alloc, &mut disks.from, by)?;
    let came = boot(alloc, &mut disks)?;
    Ok(is_untouched(&mut disks).then_some(came))
}

/// Images of which the bytes are none, each with its first fault.
const DAMAGED: &[(Damage, usize, ImageCause)] = &[
    (Damage::Begins(DIGEST, b"none"), 0, ImageCause::Digest),
    (Damage::Saved(b"QJI"), 0, ImageCause::Short),
    (Damage::Saved(b"QJIN"), 0, ImageCause::Magic),
    (
        Damage::Saved(b"QJIM\x00\x00\x00\x03"),
        4,
        ImageCause::Layout,
    ),
];

#[test]
fn a_damaged_image_stops_a_boot(rt: HostRuntime) -> Result<(), Fail> {
    let other = boot_damaged(rt.alloc(), Damage::Begins(IMAGE, b"QJIN"))?;
    assert!(rt; matches!(other, Some(Came::DigestDiffers)));
    for (by, wanted, why) in DAMAGED {
        let Some(Came::BadImage { place, cause }) = boot_damaged(rt.alloc(), *by)? else {
            return Err("the image isn't bad".into());
        };
        assert!(rt; place == *wanted && cause == *why);
    }
    Ok(())
}

#[test]
fn a_donor_that_fails_is_told(rt: HostRuntime) -> Result<(), Fail> {
    let mut done = false;
    for calls in 0..ENOUGH {
        let mut disks = disks_of(rt.alloc())?;
        disks.from.disk.stop_after(calls);
        let came = boot(rt.alloc(), &mut disks)?;
        let failed = matches!(came, Came::FromFault) && is_untouched(&mut disks);
        assert!(rt; is_done(came) || (failed && !done));
        done = is_done(came);
    }
    assert!(rt; done);
    Ok(())
}

/// A bootstrap whose own disk fails after so many calls and crashes then: it is done and the image
/// stays, or the disk has no image or the whole one.
fn is_whole_or_none(alloc: Global, calls: u64, choice: Choice) -> Result<bool, Fail> {
    let mut disks = disks_of(alloc)?;
    disks.to.disk.stop_after(calls);
    let came = boot(alloc, &mut disks)?;
    disks.to.disk.crash(choice);
    let copied = is_copied(alloc, &mut disks);
    let none = matches!(newest(alloc, &mut disks.to), Newest::NoImage);
    Ok(match came {
        Came::Done { .. } => is_done(came) && copied && calls > 9,
        Came::ToFault => none || copied,
        _ => false,
    })
}

#[test]
fn a_crash_leaves_the_image_whole_or_none(rt: HostRuntime) -> Result<(), Fail> {
    for calls in 0..ENOUGH {
        assert!(rt; is_whole_or_none(rt.alloc(), calls, Choice::Old)?);
        assert!(rt; is_whole_or_none(rt.alloc(), calls, Choice::New)?);
        assert!(rt; is_whole_or_none(rt.alloc(), calls, Choice::Fill(0xa5))?);
    }
    Ok(())
}
