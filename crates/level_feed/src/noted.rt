//! The levels that may have changed, as the events of messages name them.
ghost use Rattle.std.specs.Prelude.{◌≡◌, ◌<◌, ◌≤◌, true, false, IfOk, IsTrue, length};
ghost use Rattle.gx_base.specs.Emits.{Puts};
ghost use Rattle.book_order.specs.Levels.{level};
ghost use Rattle.plain_book.specs.Orders.{level_of};
ghost use Rattle.level_feed.specs.Rows.{level_of_row, AreOrdered};
ghost use Rattle.level_feed.specs.Noted.{nothing_noted, is_among, noted_with, noted_new, row_noting};
ghost use Rattle.level_feed.specs.Inner.{IsPlaceOf, IsNewPlace};

use crate::compare::is_at_level;
use crate::row::Row;
use crate::rows::find_place;
use gx_base::{Emit, Event, Order, Price, Side};
use std::alloc::{AllocError, Global};
use std::marker::Model;

/// How many levels are noted at most, one by one (our own rule).
pub const MOST_NOTED: usize = 1_024;

/// The levels that may have changed, each once, in book order; or, once there were to be more than `MOST_NOTED`, that any level
/// may have. It takes memory once, at the start: 32 bytes for each of `MOST_NOTED` levels. Contracts see whether any may have
/// changed, and the levels as rows of one lot and one order.
#[derive(Drop)]
pub struct NotedLevels {
    any: bool,
    levels: Vec<Row>,
    /// The place of the level noted last. The next one is most often the same.
    last: usize,
}

impl Model for NotedLevels {
    ghost use Rattle.level_feed.specs.Noted.{Noted};

    ghost Value = { Noted };

    ghost use Rattle.std.specs.Prelude.{◌≤◌, length, vec_capacity};
    ghost use Rattle.level_feed.specs.Rows.{AreOrdered};
    ghost use Rattle.level_feed.specs.declared.noted.TheConstants.{MOST_NOTED};

    ghost view = { λ n. record { any = n.any; levels = n.levels.items } };

    ghost invariant = { λ n. (length n.levels.items ≤ MOST_NOTED) × AreOrdered n.levels.items × (MOST_NOTED ≤ vec_capacity n.levels) };
}

impl NotedLevels {
    /// No level is noted. An `Err` is want of memory.
    pub fn new(alloc: Global) -> Result<NotedLevels, AllocError>
        ensures { IfOk result (λ noted. noted ≡ nothing_noted) }
    {
        Ok(NotedLevels {
            any: false,
            levels: Vec::with_capacity(alloc, MOST_NOTED)?,
            last: 0,
        })
    }

    /// Forgets the levels noted.
    pub fn clear(&mut self)
        ensures { self.new ≡ nothing_noted }
    {
        self.any = false;
        self.levels.clear();
        self.last = 0;
    }

    /// Notes that this level may have changed.
    pub fn note(&mut self, instrument: u8, side: Side, price: Price)
        ensures { self.new ≡ noted_with (level instrument side price) self.old }
    {
        let row = Row {
            instrument,
            side,
            price,
            shown: 1,
            orders: 1,
        };
        if self.any || is_row_at(&self.levels, self.last, &row) {
            return;
        }
        match find_place(&self.levels, &row) {
            Ok(place) => self.last = place,
            Err(place) => self.note_new(place, row),
        }
    }

    /// Notes the level of a row, which is not noted yet and belongs at this place.
    fn note_new(&mut self, place: usize, row: Row)
        requires any { self.old.any ≡ false }
        requires place { IsNewPlace row self.old.levels place }
        requires noting { row ≡ row_noting (level_of_row row) }
        ensures { self.new ≡ noted_new (level_of_row row) self.old }
    {
        if self.levels.len() >= MOST_NOTED {
            self.any = true;
            return;
        }
        self.last = place;
        if self.levels.insert(place, row).is_err() {
            unreachable!()
        }
    }

    /// Notes the level of an order.
    fn note_order(&mut self, order: &Order)
        ensures { self.new ≡ noted_with (level_of order.now) self.old }
    {
        self.note(order.instrument, order.side, order.price);
    }

    /// Whether any level may have changed.
    pub(crate) fn is_any(&self) -> bool
        ensures { result ≡ self.now.any }
    {
        self.any
    }

    /// Lends the levels noted one by one.
    pub(crate) fn levels(&self) -> &[Row]
        ensures levels { result.now ≡ self.now.levels }
        ensures ordered { AreOrdered self.now.levels }
        ensures few { length self.now.levels ≤ MOST_NOTED }
    {
        self.levels.as_slice()
    }
}

/// Whether the row at this place is of the same level.
fn is_row_at(rows: &[Row], place: usize, row: &Row) -> bool
    ensures { IsTrue result → is_among (level_of_row row.now) rows.now ≡ true }
{
    place < rows.len() && is_at_level(&rows[place], row)
}

impl Emit for NotedLevels {
    ghost use Rattle.level_feed.specs.Noted.{noted_meanings};

    ghost meanings = { noted_meanings };

    /// Notes the level of the order that the event tells of, if there is one.
    fn put(&mut self, event: &Event) {
        match event {
            Event::Accepted { order, .. }
            | Event::Triggered { order, .. }
            | Event::Fill { order, .. }
            | Event::Cancelled { order, .. }
            | Event::Expired { order, .. }
            | Event::Replaced { order, .. } => self.note_order(order),
            Event::RefusedNew { .. } => {}
            Event::RefusedChange { .. } => {}
            Event::RefusedSession { .. } => {}
        }
    }

    fn failed(&self) -> bool {
        false
    }
}
