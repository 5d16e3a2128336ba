//! Why the program ends without what it was asked for, and how it tells that.
ghost use Rattle.std.specs.Prelude.{◌≡◌, ◌≤◌, ◌+◌, ◌∷◌, ◌++◌, [], IfOk, codes, decimal, length};
ghost use Rattle.cli_commands.specs.Faults.{status_of, cause_word, image_cause_word, error_line, line_of};
ghost use Rattle.cli_commands.specs.Told.{IsBadFile};

use crate::status::Status;
use arrayvec::ArrayVec;
use base_words::Name;
use journal_core::OutOfMemory;
use list_oev::SegmentCause;
use list_oiv::ImageByteCause;
use std::alloc::{AllocError, Global};

/// Why the program ends without what it was asked for.
#[derive(Drop)]
pub enum CommandFault {
    /// The word at this place after the program's name, from 0, is missing or wrong.
    Usage(u64),
    /// This line of the script or of a node's requests, from 1, breaks this rule.
    BadScript { line: u64, rule: u64 },
    /// This line of the report, from 1, breaks this rule.
    BadReport { line: u64, rule: u64 },
    /// No file has the name.
    NoFile,
    /// The segment's file has this damage at this byte.
    BadBytes { place: u64, cause: SegmentCause },
    /// The image has this fault at this byte.
    BadImage { place: u64, cause: ImageByteCause },
    /// This file of a node isn't in its format.
    BadFile(Name),
    /// The image has nothing at the path.
    NoPath,
    /// The file is no array of JSON.
    NotJson,
    /// The array's value at this place, from 0, is the first that is the object of no edit at its
    /// txid.
    BadEntry { index: u64 },
    /// The array has more values than a segment may have entries, which are so many.
    TooManyEntries(u64),
    /// Something passed this number.
    Limit(u64),
    /// The source failed.
    ReadFault,
    /// The disk failed.
    DiskFault,
    /// Memory ran out.
    OutOfMemory,
}

impl From<AllocError> for CommandFault {
    ghost use Rattle.cli_commands.specs.declared.command_fault.CommandFault.TheVariants.{OutOfMemory as memory};

    ghost from_gives = { λ _ e. e ≡ memory };

    fn from(_: AllocError) -> Self {
        CommandFault::OutOfMemory
    }
}

/// A fault's line, which takes no memory.
pub type Line = ArrayVec<u8, 64>;

/// The status of a fault.
pub fn status_for(fault: &CommandFault) -> Status
    ensures { result ≡ status_of fault.now }
{
    match fault {
        CommandFault::Usage(_) => Status::Usage,
        CommandFault::BadScript { .. } => Status::BadScript,
        CommandFault::BadReport { .. } => Status::BadScript,
        CommandFault::NoFile => Status::BadBytes,
        CommandFault::BadBytes { .. } | CommandFault::BadImage { .. } | CommandFault::BadFile(_) =>
            Status::BadBytes,
        CommandFault::NoPath => Status::BadBytes,
        CommandFault::NotJson | CommandFault::BadEntry { .. } => Status::BadBytes,
        CommandFault::TooManyEntries(_) | CommandFault::Limit(_) => Status::Limit,
        CommandFault::ReadFault => Status::ReadFault,
        CommandFault::DiskFault => Status::DiskFault,
        CommandFault::OutOfMemory => Status::OutOfMemory,
    }
}

/// The word for what is wrong with the bytes of a segment's file.
fn word_for(cause: SegmentCause) -> &'static str
    ensures word { result.now ≡ cause_word cause }
    ensures short { length result.now ≤ 8 }
{
    match cause {
        SegmentCause::Header => "Header",
        SegmentCause::Short => "Short",
        SegmentCause::Length => "Length",
        SegmentCause::Count => "Count",
        SegmentCause::Body => "Body",
        SegmentCause::Order => "Order",
        SegmentCause::Opcode => "Opcode",
        SegmentCause::Trailing => "Trailing",
        SegmentCause::Field => "Field",
    }
}

/// The word for what is wrong with the bytes of an image.
fn image_word_for(cause: ImageByteCause) -> &'static str
    ensures word { result.now ≡ image_cause_word cause }
    ensures short { length result.now ≤ 8 }
{
    match cause {
        ImageByteCause::Short => "Short",
        ImageByteCause::Magic => "Magic",
        ImageByteCause::Layout => "Layout",
        ImageByteCause::Field => "Field",
        ImageByteCause::Order => "Order",
        ImageByteCause::NoParent => "NoParent",
        ImageByteCause::Trailing => "Trailing",
    }
}

/// Appends bytes, for which there is room.
fn put(line: &mut Line, bytes: &[u8])
    requires { length line.old.items + length bytes.now ≤ 64 }
    ensures { line.new.items ≡ line.old.items ++ bytes.now }
{
    let _ = line.try_extend_from_slice(bytes);
}

/// Appends a number, for which there is room.
fn put_number(line: &mut Line, number: u64)
    requires { length line.old.items + 20 ≤ 64 }
    ensures digits { line.new.items ≡ line.old.items ++ decimal number }
    ensures short { length (decimal number) ≤ 20 }
{
    let mut buffer = itoa::Buffer::new();
    put(line, buffer.format(number).as_bytes());
}

/// A line of the word and a number.
fn number_line(word: &str, number: u64) -> Line
    requires { length word.now ≤ 20 }
    ensures { result.items ≡ word.now ++ decimal number ++ 10 ∷ [] }
{
    let mut line = Line::new();
    put(&mut line, word.as_bytes());
    put_number(&mut line, number);
    put(&mut line, b"\n");
    line
}

/// That a line breaks a rule.
fn script_line(number: u64, rule: u64) -> Line
    ensures { result.items ≡ error_line (codes "BadScript " ++ decimal number ++ 32 ∷ decimal rule) }
{
    let mut line = Line::new();
    put(&mut line, b"error BadScript ");
    put_number(&mut line, number);
    put(&mut line, b" ");
    put_number(&mut line, rule);
    put(&mut line, b"\n");
    line
}

/// That a line of a report breaks a rule.
fn report_line(number: u64, rule: u64) -> Line
    ensures { result.items ≡ error_line (codes "BadReport " ++ decimal number ++ 32 ∷ decimal rule) }
{
    let mut line = Line::new();
    put(&mut line, b"error BadReport ");
    put_number(&mut line, number);
    put(&mut line, b" ");
    put_number(&mut line, rule);
    put(&mut line, b"\n");
    line
}

/// That bytes are bad at a place.
fn bytes_line(place: u64, word: &str) -> Line
    requires { length word.now ≤ 8 }
    ensures { result.items ≡ error_line (codes "BadBytes " ++ decimal place ++ 32 ∷ word.now) }
{
    let mut line = Line::new();
    put(&mut line, b"error BadBytes ");
    put_number(&mut line, place);
    put(&mut line, b" ");
    put(&mut line, word.as_bytes());
    put(&mut line, b"\n");
    line
}

/// A line without numbers.
fn plain_line(text: &str) -> Line
    requires { length text.now ≤ 64 }
    ensures { result.items ≡ text.now }
{
    let mut line = Line::new();
    put(&mut line, text.as_bytes());
    line
}

/// The line of a fault that isn't `BadFile`, which has a name in it.
pub fn line_for(fault: &CommandFault) -> Line
    ensures { (IsBadFile fault.now → ⊥) → result.items ≡ line_of fault.now }
{
    match fault {
        CommandFault::Usage(place) => number_line("error Usage ", *place),
        CommandFault::BadScript { line, rule } => script_line(*line, *rule),
        CommandFault::BadReport { line, rule } => report_line(*line, *rule),
        CommandFault::NoFile => plain_line("error BadBytes 0 NoFile\n"),
        CommandFault::BadBytes { place, cause } => bytes_line(*place, word_for(*cause)),
        CommandFault::BadImage { place, cause } => bytes_line(*place, image_word_for(*cause)),
        CommandFault::BadFile(_) => Line::new(),
        CommandFault::NoPath => plain_line("error BadBytes 0 NoPath\n"),
        CommandFault::NotJson => plain_line("error BadBytes 0 Json\n"),
        CommandFault::BadEntry { index } => bytes_line(*index, "Entry"),
        CommandFault::TooManyEntries(number) => number_line("error Limit ", *number),
        CommandFault::Limit(number) => number_line("error Limit ", *number),
        CommandFault::ReadFault => plain_line("error ReadFault\n"),
        CommandFault::DiskFault => plain_line("error DiskFault\n"),
        CommandFault::OutOfMemory => plain_line("error OutOfMemory\n"),
    }
}

/// The line of a bad file.
pub fn file_line(alloc: Global, name: &Name) -> Result<Vec<u8>, OutOfMemory>
    ensures { IfOk result (λ text. text.items ≡ error_line (codes "BadBytes 0 BadFile " ++ name.now)) }
{
    let mut text = b"error BadBytes 0 BadFile ".to_vec(alloc)?;
    text.extend_from_slice(name.as_slice())?;
    text.push(b'\n')?;
    Ok(text)
}
