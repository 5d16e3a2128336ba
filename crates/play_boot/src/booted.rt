//! What comes of a bootstrap.
use ns_image::ImageCause;
use play_standby::Standby;
use writer_core::CauseList;

/// What came of the bootstrap of a fresh standby.
#[derive(Drop)]
pub enum Booted {
    /// The standby has tailed to where the log ends, from the newest image of the other disk, or
    /// from nothing; the image's txid. Its own disk has that image then.
    Done {
        standby: Standby,
        image: Option<u64>,
    },
    /// Its own disk has an image already: the txid of the newest.
    NotEmpty {
        txid: u64,
    },
    /// The stored digest of the newest image isn't that of its bytes.
    DigestDiffers {
        stored: [u8; 16],
        computed: [u8; 16],
    },
    /// The bytes of the newest image are none, by their first fault; or the file of its digest
    /// holds none: `Digest` at 0.
    BadImage {
        place: usize,
        cause: ImageCause,
    },
    /// The edit after the position `have` isn't served any more: no node gave edits, and some log
    /// begins later. `first` is the least first txid that was told.
    Unreachable {
        have: u64,
        first: u64,
    },
    /// No node gave edits after this position, and too few told that there are none; what came of
    /// each node.
    Behind {
        txid: u64,
        causes: CauseList,
    },
    /// The entry of this txid doesn't decode or isn't admitted.
    BadEntry {
        txid: u64,
    },
    /// The disk of the images failed.
    FromFault,
    /// Its own disk failed.
    ToFault,
    /// Memory was wanting.
    OutOfMemory,
}
