//! The rows of a node's segments.
ghost use Rattle.std.specs.Prelude.{◌≡◌, ◌≤◌, ◌<◌, [], length, IfOk, IsOk, OnOk, OnErr, IfSome, IsSome};
ghost use Rattle.std.specs.List.{insert};
ghost use Rattle.std.specs.Option.{option_copied};
ghost use Rattle.disk_segment.specs.Rows.{find_row, put_row, remove_row, newest_row, AreSoundRows, IsRowWithin, row_has_edit};

use crate::segment_row::SegmentRow;
use base_words::{OutOfMemory, place_in};
use std::alloc::Global;
use std::marker::Model;
use std::mem;

/// Rows by rising start, each of a segment whose start is from 1 on, and whose end is at least its
/// start less one and at most 2^62.
#[derive(Drop)]
pub struct SegmentTable {
    rows: Vec<SegmentRow>,
}

impl Model for SegmentTable {
    ghost use Rattle.std.specs.Prelude.{List};
    ghost use Rattle.disk_segment.specs.declared.segment_row.SegmentRow.{SegmentRow};
    ghost use Rattle.disk_segment.specs.Rows.{AreSoundRows};

    ghost Value = { List SegmentRow };

    ghost view = { λ t. t.rows.items };

    ghost invariant = { λ t. AreSoundRows t.rows.items };
}

/// Room for the rows of a table and one more, made before the row is put, so that the put wants no
/// memory.
#[derive(Drop)]
pub struct RowRoom {
    rows: Vec<SegmentRow>,
}

impl Model for RowRoom {
    ghost use Rattle.std.specs.Prelude.{ℕ, vec_capacity};

    ghost Value = { ℕ };

    ghost view = { λ r. vec_capacity r.rows };
}

impl RowRoom {
    /// No room, for where no row is put. Takes no memory.
    pub fn none(alloc: Global) -> RowRoom {
        RowRoom {
            rows: Vec::new(alloc),
        }
    }
}

// Inserts a row, in the room where the rows have none left.
fn insert_in(
    rows: &mut Vec<SegmentRow>,
    place: usize,
    row: SegmentRow,
    room: &mut RowRoom,
) -> Result<(), OutOfMemory>
    requires { place ≤ length rows.old.items }
    ensures ok { OnOk result (rows.new.items ≡ insert rows.old.items place row) }
    ensures err { OnErr result (rows.new.items ≡ rows.old.items) }
    ensures fits { length rows.old.items < room.old → IsOk result }
{
    if rows.insert(place, row).is_ok() {
        return Ok(());
    }
    room.rows.clear();
    room.rows.extend_from_slice(rows)?;
    room.rows.insert(place, row)?;
    mem::swap(rows, &mut room.rows);
    Ok(())
}

// The segment of the row holds an edit.
fn has_edit(row: &SegmentRow) -> bool
    ensures { result ≡ row_has_edit row.now }
{
    row.info.start <= row.info.end
}

impl SegmentTable {
    /// No rows.
    pub fn new(alloc: Global) -> SegmentTable
        ensures { result ≡ [] }
    {
        SegmentTable {
            rows: Vec::new(alloc),
        }
    }

    /// The rows by rising start.
    pub fn as_slice(&self) -> &[SegmentRow]
        ensures rows { result.now ≡ self.now }
        ensures sound { AreSoundRows self.now }
    {
        self.rows.as_slice()
    }

    /// The row with that start, by binary search.
    #[tactic(auto, using(crate::proofs::RowLaws::places))]
    pub fn find(&self, start: u64) -> Option<&SegmentRow>
        ensures found { option_copied result ≡ find_row start self.now }
        ensures within { IfSome result (λ row. IsRowWithin row.now) }
    {
        match place_in(&self.rows, start) {
            Ok(place) => Some(&self.rows[place]),
            Err(_) => None,
        }
    }

    /// The greatest start of a row whose segment holds an edit.
    #[tactic(auto, using(crate::proofs::RowLaws::newests))]
    pub fn newest(&self) -> Option<u64>
        ensures { result ≡ newest_row self.now }
    {
        let mut place = self.rows.len();
        while place > 0 {
            place -= 1;
            let row = &self.rows[place];
            if has_edit(row) {
                return Some(row.info.start);
            }
        }
        None
    }

    /// Room for these rows and one more.
    pub fn room_for_one(&self, alloc: Global) -> Result<RowRoom, OutOfMemory>
        ensures { IfOk result (λ room. length self.now < room) }
    {
        Ok(RowRoom {
            rows: Vec::with_capacity(alloc, self.rows.len() + 1)?,
        })
    }

    /// Puts a row in place of the one with its start, which wants no memory where the room is for
    /// these rows and one more. Its start is from 1 to 2^62, and its end at least one less and at
    /// most 2^62. An `Err` leaves all as it was.
    #[tactic(auto, using(crate::proofs::RowLaws::places))]
    pub fn put_in(&mut self, row: SegmentRow, room: &mut RowRoom) -> Result<(), OutOfMemory>
        requires { IsRowWithin row }
        ensures ok { OnOk result (self.new ≡ put_row row self.old) }
        ensures err { OnErr result (self.new ≡ self.old) }
        ensures fits { length self.old < room.old → IsOk result }
    {
        match place_in(&self.rows, row.info.start) {
            Ok(place) => self.rows[place] = row,
            Err(place) => insert_in(&mut self.rows, place, row, room)?,
        }
        Ok(())
    }

    /// Puts a row in place of the one with its start, which wants no memory where there is one. Its
    /// start is from 1 to 2^62, and its end at least one less and at most 2^62. An `Err` leaves all
    /// as it was.
    #[tactic(auto, using(crate::proofs::RowLaws::places))]
    pub fn put(&mut self, row: SegmentRow) -> Result<(), OutOfMemory>
        requires { IsRowWithin row }
        ensures ok { OnOk result (self.new ≡ put_row row self.old) }
        ensures err { OnErr result (self.new ≡ self.old) }
        ensures there { IsSome (find_row row.info.start self.old) → IsOk result }
        ensures long { IsSome (find_row row.info.start self.old)
            → length self.new ≡ length self.old }
    {
        match place_in(&self.rows, row.info.start) {
            Ok(place) => self.rows[place] = row,
            Err(place) => self.rows.insert(place, row)?,
        }
        Ok(())
    }

    /// Removes the row with that start, if there is one.
    #[tactic(auto, using(crate::proofs::RowLaws::places))]
    pub fn remove(&mut self, start: u64)
        ensures rows { self.new ≡ remove_row start self.old }
        ensures fewer { length self.new ≤ length self.old }
    {
        if let Ok(place) = place_in(&self.rows, start) {
            let _row = self.rows.remove(place);
        }
    }
}
