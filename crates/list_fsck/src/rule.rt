//! The rules of a folder.
ghost use Rattle.std.specs.Prelude.{◌≡◌};
ghost use Rattle.list_fsck.specs.Rules.{number_of};

/// A rule that the files of a folder keep, in the order in which they are tried.
#[derive(Clone, Copy)]
pub enum Rule {
    /// The name is that of a file of a node or of an image.
    KnownName,
    /// A number file and the record of an acceptance are in their grammars.
    Grammar,
    /// The epoch of the last writer isn't above the promised one.
    WriterPromised,
    /// The bytes of a segment's file are a header, frames one after the other, and a tail.
    SegmentBytes,
    /// A segment begins where its name says.
    Start,
    /// A final segment ends where its name says.
    Last,
    /// A final segment begins after the one before it, by their names.
    Apart,
    /// An image and the file of its digest are both there.
    Paired,
    /// An image has the digest that is stored of it.
    Digest,
    /// The file of a digest is in its grammar, and then the image's bytes are in theirs.
    ImageBytes,
}

impl Rule {
    /// The number that a report tells, from 1 to 10.
    pub fn number(self) -> u64
        ensures { result ≡ number_of self }
    {
        match self {
            Rule::KnownName => 1,
            Rule::SegmentBytes => 2,
            Rule::Last => 3,
            Rule::Apart => 4,
            Rule::Grammar => 5,
            Rule::Digest => 6,
            Rule::Paired => 7,
            Rule::WriterPromised => 8,
            Rule::Start => 9,
            Rule::ImageBytes => 10,
        }
    }
}
