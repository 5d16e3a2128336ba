//! The kinds of questions.
use crate::{backs, edits, files, names, sessions, texts, worlds, writers};
use base_words::OutOfMemory;
use std::alloc::Global;

/// How bytes are read.
#[derive(Clone, Copy)]
pub enum Kind {
    Decimal,
    Octal,
    Padded,
    Request,
    Script,
    Edit,
    Record,
    Frames,
    SegmentList,
    SegmentStats,
    SegmentJson,
    Back,
    BackJson,
    Image,
    ImageDelimited,
    ImageSizes,
    ImageJson,
    Digest,
    Saved,
    Names,
    Session,
    World,
    Writer,
}

/// The words of the kinds, each with what is asked.
const KINDS: &[(&str, Kind)] = &[
    // A number in decimal digits, in octal ones, and in nineteen digits.
    ("decimal", Kind::Decimal),
    ("octal", Kind::Octal),
    ("padded", Kind::Padded),
    // The line of a request, and a script: printed again, or the rule that it breaks (of a script
    // after the line).
    ("request", Kind::Request),
    ("script", Kind::Script),
    // The words of an edit: its record, its line in a listing, and its words again.
    ("edit", Kind::Edit),
    // The record of an edit: its line, its words, and the record again, or the first fault.
    ("record", Kind::Record),
    // Frames from the txid 1 on: their edits, and one frame of all of them, or the place and the
    // cause of the first fault.
    ("frames", Kind::Frames),
    // A segment's file, as each tool lists it.
    ("oev-list", Kind::SegmentList),
    ("oev-stats", Kind::SegmentStats),
    ("oev-json", Kind::SegmentJson),
    // The start and the epoch of a segment, a word each, and the listing of its edits as JSON: the
    // segment's bytes, and their listing again; or why there is none.
    ("back", Kind::Back),
    ("back-json", Kind::BackJson),
    // An image: its txid, its rows and calls, and its bytes in layout 2, or the place and the cause
    // of the first fault.
    ("image", Kind::Image),
    // An image, as each tool lists it.
    ("oiv-delimited", Kind::ImageDelimited),
    ("oiv-sizes", Kind::ImageSizes),
    ("oiv-json", Kind::ImageJson),
    // The file of the digest of the image 4, which has no bytes: what is loaded.
    ("digest", Kind::Digest),
    // The bytes of the image 4, which are saved: the file of its digest, and what is loaded.
    ("saved", Kind::Saved),
    // Lines of edits, of records (`x HEX`) and of questions (`? EDIT`): what the log of the first
    // two leaves of a new namespace, and which of the last are admitted there.
    ("names", Kind::Names),
    // Lines to a new node: requests, `stop COUNT REQUEST`, `cut CALLS CHOICE REQUEST` and
    // `restart`; at the end its state.
    ("session", Kind::Session),
    // Events at a world, and a writer call by call: `worlds.rt` and `writers.rt` have the lines.
    ("world", Kind::World),
    ("writer", Kind::Writer),
];

impl Kind {
    /// The kind of a word.
    pub fn of(word: &str) -> Option<Kind> {
        for (name, kind) in KINDS {
            if *name == word {
                return Some(*kind);
            }
        }
        None
    }

    /// Appends the answer of bytes. An `Err` is lack of memory, or says that a line of a world or
    /// of a writer is none.
    pub fn answer(self, alloc: Global, asked: &[u8], out: &mut Vec<u8>) -> anyhow::Result<()> {
        let mut told = String::new(alloc);
        match self {
            Kind::World => worlds::tell_world(alloc, asked, &mut told)?,
            Kind::Writer => writers::tell_writer(alloc, asked, &mut told)?,
            _ => self.tell(alloc, asked, out)?,
        }
        out.extend_from_slice(told.as_bytes())?;
        Ok(())
    }

    fn tell(self, alloc: Global, asked: &[u8], out: &mut Vec<u8>) -> Result<(), OutOfMemory> {
        match self {
            Kind::Decimal => texts::tell_decimal(asked, out),
            Kind::Octal => texts::tell_octal(asked, out),
            Kind::Padded => texts::tell_padded(asked, out),
            Kind::Request => texts::tell_request(alloc, asked, out),
            Kind::Script => texts::tell_script(alloc, asked, out),
            Kind::Edit => edits::tell_text(alloc, asked, out),
            Kind::Record => edits::tell_record(alloc, asked, out),
            Kind::Frames => files::tell_frames(alloc, asked, out),
            Kind::SegmentList => files::tell_edits(alloc, &list_oev::list(alloc, asked), out),
            Kind::SegmentStats => files::tell_edits(alloc, &list_oev::stats(alloc, asked), out),
            Kind::SegmentJson => files::tell_edits(alloc, &list_oev::json(alloc, asked), out),
            Kind::Back => backs::tell_back(alloc, asked, out),
            Kind::BackJson => backs::tell_back_json(alloc, asked, out),
            Kind::Image => files::tell_image(alloc, asked, out),
            Kind::ImageDelimited => {
                files::tell_rows(alloc, &list_oiv::list_delimited(alloc, asked), out)
            }
            Kind::ImageSizes => files::tell_rows(alloc, &list_oiv::sizes(alloc, asked), out),
            Kind::ImageJson => files::tell_rows(alloc, &list_oiv::json(alloc, asked), out),
            Kind::Digest => files::tell_digest(alloc, asked, out),
            Kind::Saved => files::tell_saved(alloc, asked, out),
            Kind::Names => names::tell_names(alloc, asked, out),
            Kind::Session => sessions::tell_session(alloc, asked, out),
            Kind::World | Kind::Writer => Ok(()),
        }
    }
}
