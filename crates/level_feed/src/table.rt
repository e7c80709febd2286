//! The table that reads a feed.
ghost use Rattle.std.specs.Prelude.{◌≡◌, ◌<◌, ◌≤◌, [], Some, None, IfOk, OnErr, OnOk, nat_lt, length};
ghost use Rattle.gx_station.specs.Quiet.{Sends};
ghost use Rattle.level_feed.specs.FeedText.{table_text};
ghost use Rattle.level_feed.specs.Lines.{listing_of};
ghost use Rattle.level_feed.specs.Tables.{empty_table, is_inside, has_form, may_follow, line_taken, text_taken};
ghost use Rattle.level_feed.specs.Inner.{Took};
ghost use Rattle.level_feed.specs.declared.line.Line.TheVariants as kind;

use crate::compare::is_before;
use crate::fault::FeedFault;
use crate::level_rows::LevelRows;
use crate::line::Line;
use crate::reading::read_line;
use crate::row::Row;
use crate::rows::{is_gone, is_open};
use exec_report::{ReportBuffer, SendFault, send_waiting};
use gx_base::Names;
use gx_station::Station;
use product_file::Product;
use std::alloc::{AllocError, Global};
use std::marker::Model;

/// How many bytes a line has at most, without its line feed.
pub const LONGEST_FEED_LINE: usize = 127;

/// The levels that a feed tells, line by line. It takes memory once, at the start. Contracts see the greatest number of rows,
/// and what the lines so far left.
#[derive(Drop)]
pub struct FeedTable {
    /// The levels.
    rows: LevelRows,
    /// The number of the last block, from the first snapshot on.
    number: Option<u64>,
    /// How many rows of the block are due.
    due: u64,
    is_snapshot: bool,
    /// The row before in the block.
    before: Option<Row>,
}

impl Model for FeedTable {
    ghost use Rattle.level_feed.specs.Held.{HeldTable};

    ghost Value = { HeldTable };

    ghost view = { λ t. record { capacity = t.rows.capacity; table = record { rows = t.rows.rows; number = t.number; due = t.due; is_snapshot = t.is_snapshot; before = t.before } } };
}

impl FeedTable {
    /// A table before the first line, with room for so many rows. An `Err` is want of memory.
    pub fn new(alloc: Global, capacity: u32) -> Result<FeedTable, AllocError>
        ensures { IfOk result (λ table. table ≡ record { capacity = capacity; table = empty_table }) }
    {
        Ok(FeedTable {
            rows: LevelRows::new(alloc, capacity)?,
            number: None,
            due: 0,
            is_snapshot: false,
            before: None,
        })
    }

    /// Takes a line, without its line feed. After a fault the table is unchanged.
    pub fn line(&mut self, text: &[u8], product: &Product) -> Result<(), FeedFault>
        requires { self.old.capacity ≡ product.now.max_orders }
        ensures took { Took result self.new.table (text_taken (listing_of product.now) self.old.table text.now) }
        ensures capacity { self.new.capacity ≡ self.old.capacity }
        ensures err { OnErr result (self.new ≡ self.old) }
    {
        if text.len() > LONGEST_FEED_LINE {
            return Err(FeedFault::Form);
        }
        match read_line(text, product) {
            None => Err(FeedFault::Form),
            Some(Line::Snapshot { number, rows }) => self.open_snapshot(number, rows),
            Some(Line::Increment { number, last, rows }) => {
                self.open_increment(number, last, rows)
            }
            Some(Line::Row(row)) => self.take_row(row),
        }
    }

    /// Whether a block is not at its end.
    pub fn inside(&self) -> bool
        ensures { result ≡ is_inside self.now.table }
    {
        self.due > 0
    }

    /// The number of the last block. `None` exactly before the first snapshot.
    pub fn number(&self) -> Option<u64>
        ensures { result ≡ self.now.table.number }
    {
        self.number
    }

    /// Sends the rows, a line each: `NAME SIDE PRICE SHOWN COUNT`. `Ok` leaves the buffer empty. `SendFault` comes only if the
    /// count of send faults rose; a part is sent then.
    pub fn print_levels<S: Station>(
        &self,
        product: &Product,
        buffer: &mut ReportBuffer,
        station: &mut S,
    ) -> Result<(), SendFault>
        requires empty { buffer.old ≡ [] }
        ensures sends { Sends S.meanings station.old station.new (table_text product.now.names.instruments self.now.table.rows) result }
        ensures empty { OnOk result (buffer.new ≡ []) }
    {
        self.rows.print(product.names(), false, buffer, station)?;
        send_waiting(buffer, station)
    }

    /// The first line of a snapshot.
    fn open_snapshot(&mut self, number: u64, rows: u64) -> Result<(), FeedFault>
        ensures took { Took result self.new.table (line_taken self.old.capacity self.old.table (kind.Snapshot number rows)) }
        ensures capacity { self.new.capacity ≡ self.old.capacity }
        ensures err { OnErr result (self.new ≡ self.old) }
    {
        if self.due > 0 {
            return Err(FeedFault::Form);
        }
        if let Some(last) = self.number {
            if number < last {
                return Err(FeedFault::Gap(last, number));
            }
        }
        self.rows.clear();
        self.number = Some(number);
        self.due = rows;
        self.is_snapshot = true;
        self.before = None;
        Ok(())
    }

    /// The first line of an increment.
    fn open_increment(&mut self, number: u64, last: u64, rows: u64) -> Result<(), FeedFault>
        ensures took { Took result self.new.table (line_taken self.old.capacity self.old.table (kind.Increment number last rows)) }
        ensures capacity { self.new.capacity ≡ self.old.capacity }
        ensures err { OnErr result (self.new ≡ self.old) }
    {
        if self.due > 0 || rows == 0 {
            return Err(FeedFault::Form);
        }
        if let Some(at) = self.number {
            if last != at {
                return Err(FeedFault::Gap(at, last));
            }
            if number <= at {
                return Err(FeedFault::Gap(at, number));
            }
            self.number = Some(number);
        }
        self.due = rows;
        self.is_snapshot = false;
        self.before = None;
        Ok(())
    }

    /// A row of a block.
    fn take_row(&mut self, row: Row) -> Result<(), FeedFault>
        ensures took { Took result self.new.table (line_taken self.old.capacity self.old.table (kind.Row row)) }
        ensures capacity { self.new.capacity ≡ self.old.capacity }
        ensures err { OnErr result (self.new ≡ self.old) }
    {
        if self.due == 0 || !has_form(self.is_snapshot, &row) || !may_follow(self.before, &row) {
            return Err(FeedFault::Form);
        }
        if self.number.is_some() && !self.rows.put(row) {
            return Err(FeedFault::Full);
        }
        self.due -= 1;
        self.before = Some(row);
        Ok(())
    }
}

/// Whether a row has the form that one of a snapshot or an increment has.
fn has_form(is_snapshot: bool, row: &Row) -> bool
    ensures { result ≡ has_form is_snapshot row.now }
{
    is_open(row) || !is_snapshot && is_gone(row)
}

/// Whether a row may follow the one before it in its block: gone rows first, and each part strictly in book order.
fn may_follow(before: Option<Row>, row: &Row) -> bool
    ensures { result ≡ may_follow before row.now }
{
    match before {
        None => true,
        Some(before) if is_gone(&before) => !is_gone(row) || is_before(&before, row),
        Some(before) => !is_gone(row) && is_before(&before, row),
    }
}
