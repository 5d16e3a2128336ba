//! The text of a row.
ghost use Rattle.std.specs.Prelude.{◌≡◌, ◌++◌, ◌∷◌, map, decimal, OnOk, Option};
ghost use Rattle.std.specs.List.{flat_map};
ghost use Rattle.list_text.specs.Columns.{columns_of, shown};
ghost use Rattle.list_text.specs.Texts.{quota_text, tabbed, texts, row_text, header, column_text};

use crate::columns::{Columns, columns_of};
use base_words::{OutOfMemory, put_decimal};
use ns_tree::Row;

/// A column after the path.
#[derive(Clone, Copy)]
pub enum Column<'a> {
    Number(u64),
    /// The bytes of a file.
    Size(u128),
    /// A quota, printed as -1 where there is none.
    Quota(Option<u64>),
    Text(&'a [u8]),
}

/// Appends a number of 128 bits as decimal digits.
pub fn put_wide(out: &mut Vec<u8>, number: u128) -> Result<(), OutOfMemory>
    ensures { OnOk result (out.new.items ≡ out.old.items ++ decimal number) }
{
    let mut buffer = itoa::Buffer::new();
    out.extend_from_slice(buffer.format(number).as_bytes())
}

// Appends a quota.
fn put_quota(out: &mut Vec<u8>, quota: Option<u64>) -> Result<(), OutOfMemory>
    ensures { OnOk result (out.new.items ≡ out.old.items ++ quota_text quota) }
{
    match quota {
        None => out.extend_from_slice(b"-1"),
        Some(number) => put_decimal(out, number),
    }
}

// Appends the text of a column.
fn put_text(out: &mut Vec<u8>, column: Column<'_>) -> Result<(), OutOfMemory>
    ensures { OnOk result (out.new.items ≡ out.old.items ++ column_text column.entry) }
{
    match column {
        Column::Number(number) => put_decimal(out, number),
        Column::Size(size) => put_wide(out, size),
        Column::Quota(quota) => put_quota(out, quota),
        Column::Text(text) => out.extend_from_slice(text),
    }
}

// Appends a column after a tab.
fn put_column(out: &mut Vec<u8>, column: Column<'_>) -> Result<(), OutOfMemory>
    ensures { OnOk result (out.new.items ≡ out.old.items ++ tabbed (column_text column.entry)) }
{
    out.push(b'\t')?;
    put_text(out, column)
}

// Appends columns, each after a tab.
fn put_columns(out: &mut Vec<u8>, columns: &[Column<'_>]) -> Result<(), OutOfMemory>
    ensures { OnOk result (out.new.items ≡ out.old.items ++ flat_map tabbed (map column_text columns.now)) }
{
    for column in columns {
        put_column(out, *column)?;
    }
    Ok(())
}

// The columns after the path, in their order.
fn later_columns<'a>(columns: &'a Columns<'_>) -> [Column<'a>; 11]
    ensures { map column_text result ≡ texts (shown columns.now) }
{
    [
        Column::Number(u64::from(columns.replication)),
        Column::Number(columns.mtime),
        Column::Number(columns.atime),
        Column::Number(columns.block_size),
        Column::Number(columns.block_count),
        Column::Size(columns.size),
        Column::Quota(columns.names),
        Column::Quota(columns.space),
        Column::Text(&columns.permission),
        Column::Text(columns.user),
        Column::Text(columns.group),
    ]
}

// Appends the columns after the path.
fn put_texts(out: &mut Vec<u8>, columns: &Columns<'_>) -> Result<(), OutOfMemory>
    ensures { OnOk result (out.new.items ≡ out.old.items ++ flat_map tabbed (texts (shown columns.now))) }
{
    put_columns(out, &later_columns(columns))
}

// Appends the path and the columns after it.
fn put_all(out: &mut Vec<u8>, columns: &Columns<'_>) -> Result<(), OutOfMemory>
    ensures { OnOk result (out.new.items ≡ out.old.items ++ ((shown columns.now).path ++ flat_map tabbed (texts (shown columns.now)))) }
{
    out.extend_from_slice(columns.path)?;
    put_texts(out, columns)
}

/// Appends the text of a row: its path, replication, times of modification and access, block size,
/// how many blocks it has, its size, its quotas of names and space, its permission, user and group,
/// between tabs. A directory has 0 in the columns that only a file has, and -1 for no quota; a file
/// has 0 for both quotas. No line end stands after it.
pub fn put_row(out: &mut Vec<u8>, row: &Row) -> Result<(), OutOfMemory>
    ensures { OnOk result (out.new.items ≡ out.old.items ++ row_text row.now) }
{
    let columns = columns_of(row);
    put_all(out, &columns)
}

/// Appends the names of the columns between tabs.
pub fn put_header(out: &mut Vec<u8>) -> Result<(), OutOfMemory>
    ensures { OnOk result (out.new.items ≡ out.old.items ++ header) }
{
    out.extend_from_slice(
        b"Path\tReplication\tModificationTime\tAccessTime\tPreferredBlockSize\tBlocksCount\tFileSize\tNSQUOTA\tDSQUOTA\tPermission\tUserName\tGroupName",
    )
}
