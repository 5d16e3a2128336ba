//! The lines of an image's rows.
ghost use Rattle.std.specs.Prelude.{◌≡◌, ◌++◌, ◌∷◌, [], OnOk};
ghost use Rattle.list_text.specs.Texts.{header};
ghost use Rattle.list_oiv.specs.Delimited.{row_line};

use crate::row_text::{RowText, root_row};
use base_words::OutOfMemory;
use list_text::{put_header, put_row};
use ns_image::RowSink;
use ns_tree::{Inode, Row};
use std::alloc::Global;

/// The names of the columns, and a line for each row.
#[derive(Drop)]
pub(crate) struct Lines {
    text: Vec<u8>,
}

fn put_line(out: &mut Vec<u8>, row: &Row) -> Result<(), OutOfMemory>
    ensures { OnOk result (out.new.items ≡ out.old.items ++ row_line row.now) }
{
    put_row(out, row)?;
    out.push(b'\n')?;
    Ok(())
}

// Appends the names of the columns as a line.
fn put_names(out: &mut Vec<u8>) -> Result<(), OutOfMemory>
    ensures { OnOk result (out.new.items ≡ out.old.items ++ (header ++ 10 ∷ [])) }
{
    put_header(out)?;
    out.push(b'\n')?;
    Ok(())
}

impl RowSink for Lines {
    ghost use Rattle.std.specs.Prelude.{◌≡◌};
    ghost use Rattle.list_oiv.specs.Delimited.{delimited};

    ghost has_taken = { λ lines rows. lines.text.items ≡ delimited rows };

    fn begin(alloc: Global, root: Inode) -> Result<Lines, OutOfMemory> {
        let root = root_row(alloc, root)?;
        let mut text = Vec::new(alloc);
        put_names(&mut text)?;
        put_line(&mut text, &root)?;
        Ok(Lines { text })
    }

    fn take_row(&mut self, _alloc: Global, row: Row) -> Result<(), OutOfMemory> {
        put_line(&mut self.text, &row)
    }
}

impl RowText for Lines {
    ghost use Rattle.list_oiv.specs.Delimited.{delimited};

    ghost tell = { delimited };

    fn text(self, _alloc: Global) -> Result<Vec<u8>, OutOfMemory> {
        Ok(self.text)
    }
}
