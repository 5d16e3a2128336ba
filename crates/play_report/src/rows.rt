//! The rows of a namespace.
ghost use Rattle.std.specs.Prelude.{◌∷◌, [], ◌++◌, decimal, Option};
ghost use Rattle.std.specs.List.{flat_map};
ghost use Rattle.list_text.specs.Columns.{shown};
ghost use Rattle.list_text.specs.Texts.{quota_text, tabbed, texts, row_text};
ghost use Rattle.play_report.specs.Text.{row_line_text, rows_text};

use crate::pieces::put_number;
use crate::taker::Taker;
use list_text::{Columns, columns_of};
use ns_tree::Row;

/// A number after a tab.
fn put_tabbed<T: Taker>(out: &mut T, number: u64)
    ensures { T.adds out.old out.new (tabbed (decimal number)) }
{
    out.put(b"\t");
    put_number(out, number);
}

/// A size in bytes after a tab.
fn put_size<T: Taker>(out: &mut T, size: u128)
    ensures { T.adds out.old out.new (tabbed (decimal size)) }
{
    let mut buffer = itoa::Buffer::new();
    out.put(b"\t");
    out.put(buffer.format(size).as_bytes());
}

/// A quota after a tab.
fn put_quota<T: Taker>(out: &mut T, quota: Option<u64>)
    ensures { T.adds out.old out.new (tabbed (quota_text quota)) }
{
    match quota {
        None => out.put(b"\t-1"),
        Some(number) => put_tabbed(out, number),
    }
}

/// A text after a tab.
fn put_word<T: Taker>(out: &mut T, word: &[u8])
    ensures { T.adds out.old out.new (tabbed word.now) }
{
    out.put(b"\t");
    out.put(word);
}

/// The columns with the numbers of a row.
fn put_counts<T: Taker>(out: &mut T, columns: &Columns<'_>)
    ensures { T.adds out.old out.new (flat_map tabbed (decimal columns.now.replication ∷ decimal columns.now.mtime ∷ decimal columns.now.atime
        ∷ decimal columns.now.block_size ∷ decimal columns.now.block_count ∷ [])) }
{
    put_tabbed(out, u64::from(columns.replication));
    put_tabbed(out, columns.mtime);
    put_tabbed(out, columns.atime);
    put_tabbed(out, columns.block_size);
    put_tabbed(out, columns.block_count);
}

/// The columns of a row's size, its quotas and its owners.
fn put_owners<T: Taker>(out: &mut T, columns: &Columns<'_>)
    ensures { T.adds out.old out.new (flat_map tabbed (decimal columns.now.size ∷ quota_text columns.now.names ∷ quota_text columns.now.space
        ∷ columns.now.permission ∷ columns.now.user.now ∷ columns.now.group.now ∷ [])) }
{
    put_size(out, columns.size);
    put_quota(out, columns.names);
    put_quota(out, columns.space);
    put_word(out, &columns.permission);
    put_word(out, columns.user);
    put_word(out, columns.group);
}

/// The text of a row's columns.
fn put_columns<T: Taker>(out: &mut T, columns: &Columns<'_>)
    ensures { T.adds out.old out.new ((shown columns.now).path ++ flat_map tabbed (texts (shown columns.now))) }
{
    out.put(columns.path);
    put_counts(out, columns);
    put_owners(out, columns);
}

/// The text of a row.
fn put_row<T: Taker>(out: &mut T, row: &Row)
    ensures { T.adds out.old out.new (row_text row.now) }
{
    let columns = columns_of(row);
    put_columns(out, &columns);
}

/// A line of a row.
#[tactic(auto, unfolding(crate::specs::Text::row_line_text))]
fn put_row_line<T: Taker>(out: &mut T, row: &Row)
    ensures { T.adds out.old out.new (row_line_text row.now) }
{
    out.put(b". ");
    put_row(out, row);
    out.put(b"\n");
}

/// The rows of a namespace, line by line.
pub(crate) fn put_rows<T: Taker>(out: &mut T, rows: &[Row])
    ensures { T.adds out.old out.new (rows_text rows.now) }
{
    for row in rows {
        if out.is_done() {
            return;
        }
        put_row_line(out, row);
    }
}
