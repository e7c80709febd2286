//! The rows of levels, which change one by one.
ghost use Rattle.std.specs.Prelude.{◌≡◌, ◌<◌, ◌≤◌, [], IfOk, length, map, vec_capacity};
ghost use Rattle.std.specs.Bool.{OnTrue, OnFalse};
ghost use Rattle.exec_report.specs.Pushes.{Pushes};
ghost use Rattle.level_feed.specs.Rows.{level_of_row, gone, changed, with_row, with_rows, AreOrdered};
ghost use Rattle.level_feed.specs.FeedText.{text_of_lines};
ghost use Rattle.level_feed.specs.Noted.{rows_at};
ghost use Rattle.level_feed.specs.Inner.{Stays, row_found, line_as};

use crate::compare::compare;
use crate::printing::print_merged;
use crate::row::Row;
use crate::rows::{find_place, is_gone};
use crate::settling::{comes_last, put_change, settle};
use exec_report::{ReportBuffer, SendFault};
use gx_base::Names;
use gx_station::Station;
use std::alloc::{AllocError, Global};
use std::marker::Model;
use std::mem;

/// How many changes are kept apart at most.
const MOST_CHANGES: usize = 512;

/// Rows in book order, no more than there is room for. The last changes are kept apart. Once there are `MOST_CHANGES` they are put among
/// the others, all at once: so a change costs little, however many rows there are. It takes memory once, in `new`. Contracts see the
/// greatest number of rows, and the rows.
#[derive(Drop)]
pub(crate) struct LevelRows {
    capacity: u32,
    /// How many rows there are.
    count: usize,
    /// The rows before the last changes, in book order.
    settled: Vec<Row>,
    /// The last changes, in book order, one for each level that has changed. A gone row says that the level has left.
    changes: Vec<Row>,
    /// Room for the rows after the changes.
    room: Vec<Row>,
}

impl Model for LevelRows {
    ghost use Rattle.level_feed.specs.Held.{FeedRows};

    ghost Value = { FeedRows };

    ghost use Rattle.std.specs.Prelude.{◌≡◌, ◌≤◌, length, vec_capacity};
    ghost use Rattle.level_feed.specs.Rows.{with_rows, AreOrdered};
    ghost use Rattle.level_feed.specs.declared.level_rows.TheConstants.{MOST_CHANGES};

    ghost view = { λ r. record { capacity = r.capacity; rows = with_rows r.changes.items r.settled.items } };

    ghost invariant = { λ r. AreOrdered r.settled.items × AreOrdered r.changes.items × (r.count ≡ length (with_rows r.changes.items r.settled.items)) × (r.count ≤ r.capacity) × (length r.settled.items ≤ r.capacity) × (length r.changes.items ≤ MOST_CHANGES) × (r.capacity ≤ vec_capacity r.settled) × (MOST_CHANGES ≤ vec_capacity r.changes) × (r.capacity ≤ vec_capacity r.room) };
}

impl LevelRows {
    /// No row, and room for so many: 64 bytes for each, and 32 for each of `MOST_CHANGES`. An `Err` is want of memory.
    pub(crate) fn new(alloc: Global, capacity: u32) -> Result<LevelRows, AllocError>
        ensures { IfOk result (λ rows. rows ≡ record { capacity = capacity; rows = [] }) }
    {
        Ok(LevelRows {
            capacity,
            count: 0,
            settled: Vec::with_capacity(alloc, capacity as usize)?,
            changes: Vec::with_capacity(alloc, MOST_CHANGES)?,
            room: Vec::with_capacity(alloc, capacity as usize)?,
        })
    }

    /// The rows are in book order, and no more than there is room for.
    pub(crate) fn rules(&self)
        ensures ordered { AreOrdered self.now.rows }
        ensures few { length self.now.rows ≤ self.now.capacity }
    {
        let _ = &self.capacity;
    }

    /// How many rows there are.
    pub(crate) fn len(&self) -> usize
        ensures { result ≡ length self.now.rows }
    {
        self.count
    }

    /// Leaves no row.
    pub(crate) fn clear(&mut self)
        ensures { self.new ≡ record { capacity = self.old.capacity; rows = [] } }
    {
        self.settled.clear();
        self.changes.clear();
        self.count = 0;
    }

    /// The row of the same level as another one.
    pub(crate) fn find(&self, level: &Row) -> Option<Row>
        ensures { rows_at (level_of_row level.now) self.now.rows ≡ row_found result }
    {
        if let Ok(place) = find_place(&self.changes, level) {
            let change = self.changes[place];
            return if is_gone(&change) { None } else { Some(change) };
        }
        match find_place(&self.settled, level) {
            Ok(place) => Some(self.settled[place]),
            Err(_) => None,
        }
    }

    /// A row takes the place of that of its level, or leaves none there if it is gone. `false` if there would be more rows than there is
    /// room for; then nothing changes.
    pub(crate) fn put(&mut self, row: Row) -> bool
        ensures put { OnTrue result (self.new ≡ record self.old { rows = with_row row self.old.rows }) }
        ensures within { OnTrue result (length (with_row row self.old.rows) ≤ self.old.capacity) }
        ensures full { OnFalse result (self.old.capacity < length (with_row row self.old.rows)) }
        ensures same { OnFalse result (self.new ≡ self.old) }
    {
        let was = usize::from(self.find(&row).is_some());
        let is = usize::from(!is_gone(&row));
        let count = self.count - was + is;
        if count > self.capacity as usize {
            return false;
        }
        if self.changes.len() == MOST_CHANGES {
            settle(&mut self.settled, &mut self.changes, &mut self.room);
        }
        self.count = count;
        if is == 1 && comes_last(&self.settled, &self.changes, &row) {
            self.settled.push_reserved(row);
        } else {
            put_change(&mut self.changes, row);
        }
        true
    }

    /// Rows take effect one after the other. There are never more than there is room for.
    pub(crate) fn put_all(&mut self, changes: &[Row])
        requires stays { Stays self.old.capacity changes.now self.old.rows }
        ensures { self.new ≡ record self.old { rows = with_rows changes.now self.old.rows } }
    {
        for change in changes {
            if !self.put(*change) {
                unreachable!()
            }
        }
    }

    /// Makes the rows those of `next`, and `gone_rows` and `changed_rows` what changes so. `next` is then what the rows were kept in.
    pub(crate) fn replace(
        &mut self,
        next: &mut Vec<Row>,
        gone_rows: &mut Vec<Row>,
        changed_rows: &mut Vec<Row>,
    )
        requires ordered { AreOrdered next.old.items }
        requires few { length next.old.items ≤ self.old.capacity }
        requires room { self.old.capacity ≤ vec_capacity next.old }
        requires gone_room { self.old.capacity ≤ vec_capacity gone_rows.old }
        requires changed_room { self.old.capacity ≤ vec_capacity changed_rows.old }
        ensures rows { self.new ≡ record self.old { rows = next.old.items } }
        ensures gone { gone_rows.new.items ≡ gone self.old.rows next.old.items }
        ensures changed { changed_rows.new.items ≡ changed self.old.rows next.old.items }
        ensures room { self.old.capacity ≤ vec_capacity next.new }
        ensures gone_capacity { vec_capacity gone_rows.new ≡ vec_capacity gone_rows.old }
        ensures changed_capacity { vec_capacity changed_rows.new ≡ vec_capacity changed_rows.old }
    {
        settle(&mut self.settled, &mut self.changes, &mut self.room);
        compare(&self.settled, next, gone_rows, changed_rows);
        mem::swap(&mut self.settled, next);
        self.count = self.settled.len();
    }

    /// Puts out the rows, as those of a block or as those of a table.
    pub(crate) fn print<S: Station>(
        &self,
        names: &Names,
        in_block: bool,
        buffer: &mut ReportBuffer,
        station: &mut S,
    ) -> Result<(), SendFault>
        ensures { Pushes S.meanings station.old station.new buffer.old buffer.new (text_of_lines (map (line_as in_block names.now.instruments) self.now.rows)) result }
    {
        print_merged(
            names,
            in_block,
            &self.settled,
            &self.changes,
            buffer,
            station,
        )
    }
}
