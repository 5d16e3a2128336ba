//! The results of a play by their kinds.
ghost use Rattle.std.specs.Prelude.{◌≡◌, count_by};
ghost use Rattle.play_report.specs.Summary.{is_of_edit, is_digit, is_taken, is_of, is_result, results_of, word_of};

use journal_history::{LentRecord, ListedRecord, RecordList, Told};

/// What a line of a summary counts.
#[derive(Clone, Copy)]
pub enum ResultKind {
    /// What came of edits, whatever it was.
    Edits,
    /// Edits that were acknowledged.
    Acked,
    /// Edits that the namespace doesn't admit.
    Refused,
    /// Edits whose round was aborted.
    Aborted,
    /// Edits for a writer that isn't active.
    Inactive,
    /// Edits that would pass a limit.
    TooLong,
    /// Takeovers with an epoch.
    Takeovers,
}

/// The kinds in the order of a summary.
pub(crate) const ALL_KINDS: [ResultKind; 7] = [
    ResultKind::Edits,
    ResultKind::Acked,
    ResultKind::Refused,
    ResultKind::Aborted,
    ResultKind::Inactive,
    ResultKind::TooLong,
    ResultKind::Takeovers,
];

/// The word of a kind's line.
pub(crate) fn word_of(kind: ResultKind) -> &'static [u8]
    ensures { result.now ≡ word_of kind }
{
    match kind {
        ResultKind::Edits => b"edits",
        ResultKind::Acked => b"acked",
        ResultKind::Refused => b"refused",
        ResultKind::Aborted => b"aborted",
        ResultKind::Inactive => b"inactive",
        ResultKind::TooLong => b"toolong",
        ResultKind::Takeovers => b"takeovers",
    }
}

/// What came of an edit.
fn is_of_edit(text: &[u8]) -> bool
    ensures { result ≡ is_of_edit text.now }
{
    text.starts_with(b"acked ")
        || text.starts_with(b"refused ")
        || text.starts_with(b"aborted ")
        || text.starts_with(b"inactive")
        || text.starts_with(b"toolong ")
        || text.starts_with(b"repeated ")
}

/// A takeover with an epoch.
fn is_taken(text: &[u8]) -> bool
    ensures { result ≡ is_taken text.now }
{
    text.starts_with(b"takeover ") && text.get(9).copied().unwrap_or(0).is_ascii_digit()
}

fn is_of(kind: ResultKind, text: &[u8]) -> bool
    ensures { result ≡ is_of kind text.now }
{
    match kind {
        ResultKind::Edits => is_of_edit(text),
        ResultKind::Acked => text.starts_with(b"acked "),
        ResultKind::Refused => text.starts_with(b"refused "),
        ResultKind::Aborted => text.starts_with(b"aborted "),
        ResultKind::Inactive => text.starts_with(b"inactive"),
        ResultKind::TooLong => text.starts_with(b"toolong "),
        ResultKind::Takeovers => is_taken(text),
    }
}

/// The line is a result of that kind.
fn is_result(kind: ResultKind, line: &ListedRecord) -> bool
    ensures { result ≡ is_result kind line.now }
{
    match line.lend(&Told::OK) {
        LentRecord::Outcome { text } => is_of(kind, text.as_slice()),
        LentRecord::Call { .. } => false,
        LentRecord::Late { .. } => false,
        LentRecord::Operator { .. } => false,
    }
}

/// How many results of that kind a record has.
fn count_in(kind: ResultKind, lines: &[ListedRecord]) -> u64
    ensures { result ≡ count_by (is_result kind) lines.now }
{
    lines.iter().filter(|line| is_result(kind, *line)).count() as u64
}

/// How many results of that kind all records have.
pub(crate) fn count_results(kind: ResultKind, records: &[RecordList]) -> u128
    ensures { result ≡ results_of kind records.now }
{
    let _count = records.len();
    let mut sum: u128 = 0;
    for record in records {
        sum += u128::from(count_in(kind, record.as_slice()));
    }
    sum
}
