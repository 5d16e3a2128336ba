//! An image's rows as JSON.
ghost use Rattle.std.specs.Prelude.{◌≡◌, true};
ghost use Rattle.json.specs.Tree.{json_tokens};
ghost use Rattle.list_text.specs.Written.{Adds};
ghost use Rattle.ns_tree.specs.Path.{is_path};
ghost use Rattle.ns_tree.specs.Space.{IsInode};
ghost use Rattle.list_text.specs.Columns.{columns_of, shown};
ghost use Rattle.ns_tree.specs.declared.inode.Row.{Row};
ghost use Rattle.list_oiv.specs.Entries.{row_json, FitsJson};

use crate::row_text::{RowText, root_row};
use base_words::OutOfMemory;
use json::Writer;
use list_text::{Columns, Member, array_text, begun_array, columns_of, put_object};
use ns_image::RowSink;
use ns_tree::{Inode, Row};
use std::alloc::Global;

/// An array that was begun, with an object for each row.
#[derive(Drop)]
pub(crate) struct Entries {
    pub writer: Writer,
}

// Adds the columns of a row as an object.
fn put_columns(writer: &mut Writer, columns: &Columns<'_>) -> Result<(), OutOfMemory>
    requires { FitsJson (shown columns.now) }
    ensures { (row : Row) → shown columns.now ≡ columns_of row → Adds result writer.old writer.new (json_tokens (row_json row)) }
{
    put_object(
        writer,
        &[
            Member::Number("AccessTime", columns.atime),
            Member::Number("BlocksCount", columns.block_count),
            Member::Limit("DSQUOTA", columns.space),
            Member::Number("FileSize", columns.size as u64),
            Member::Text("GroupName", columns.group),
            Member::Number("ModificationTime", columns.mtime),
            Member::Limit("NSQUOTA", columns.names),
            Member::Text("Path", columns.path),
            Member::Text("Permission", &columns.permission),
            Member::Number("PreferredBlockSize", columns.block_size),
            Member::Number("Replication", u64::from(columns.replication)),
            Member::Text("UserName", columns.user),
        ],
    )
}

// Adds a row as an object.
fn put_row(writer: &mut Writer, row: &Row) -> Result<(), OutOfMemory>
    requires path { is_path row.now.path ≡ true }
    requires inode { IsInode row.now.inode }
    ensures { Adds result writer.old writer.new (json_tokens (row_json row.now)) }
{
    let columns = columns_of(row);
    put_columns(writer, &columns)
}

impl RowSink for Entries {
    ghost use Rattle.list_oiv.specs.Entries.{HasEntries};

    ghost has_taken = { λ entries rows. HasEntries entries.writer rows };

    fn begin(alloc: Global, root: Inode) -> Result<Entries, OutOfMemory> {
        let root = root_row(alloc, root)?;
        let mut writer = begun_array(alloc)?;
        put_row(&mut writer, &root)?;
        Ok(Entries { writer })
    }

    fn take_row(&mut self, _alloc: Global, row: Row) -> Result<(), OutOfMemory> {
        put_row(&mut self.writer, &row)
    }
}

impl RowText for Entries {
    ghost use Rattle.list_oiv.specs.Entries.{rows_json};

    ghost tell = { rows_json };

    fn text(self, _alloc: Global) -> Result<Vec<u8>, OutOfMemory> {
        array_text(self.writer)
    }
}
