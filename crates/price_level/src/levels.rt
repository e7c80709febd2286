//! The price levels.
ghost use Rattle.std.specs.Prelude.{◌≡◌, ◌+◌, ◌<◌, ◌^◌, None, IfOk, length, sum_by};
ghost use Rattle.book_order.specs.Levels.{level};
ghost use Rattle.price_level.specs.Inner.Sides.{side_number};
ghost use Rattle.price_level.specs.Rows.{no_rows, AreRows, best_row, worse_row, worst_row, better_row, queue_at, HasQueue, row_of, with_sums, new_row, placed_row, without_row, open_rows};

use crate::queues::{give_back, take_queue};
use crate::row::{Held, LevelRow, hold};
use gx_base::{Price, Side};
use price_chunks::{Sides, Step};
use std::alloc::{AllocError, Global};
use std::marker::Model;

/// The price levels of all instruments. Contracts see them as the list of their rows in book order, with the greatest
/// number of levels and the number of instruments.
///
/// The row of a queue is read in one step. Each side has its levels in chunks, the worst price first. A search by price looks at
/// the best level of a side first, and then halves its chunks, guesses a place in one of them, and halves that too where the guess
/// is wrong. A level that changes or goes is looked for where it stood when it last changed, and searched by its price where it
/// stands there no more. A level that comes or goes moves the better levels of its chunk alone, but where a chunk is split or two are
/// joined. `new` takes all the memory, and no part ever grows. The row of a queue is written when the queue is first in use, so room
/// for levels that never come is taken and not touched.
#[derive(Drop)]
pub struct Levels {
    /// What is kept of each queue that was ever in use: so the queues are those below its length.
    held: Vec<Held>,
    /// The levels of buy and of sell of the first instrument, then those of the next.
    sides: Sides,
    /// The queues that were in use and have no level.
    free: Vec<u32>,
    capacity: u32,
    instruments: u8,
}

impl Model for Levels {
    ghost use Rattle.price_level.specs.Rows.{Rows};
    ghost use Rattle.price_level.specs.Inner.Table.{rows_held};
    ghost use Rattle.price_level.specs.Inner.Kept.{rows_seen, IsKept};
    ghost use Rattle.std.specs.Prelude.{◌≡◌, vec_capacity};

    ghost Value = { Rows };

    ghost view = { λ l. rows_seen l.capacity l.instruments (rows_held l.held.items) l.sides.lists };

    ghost invariant = { λ l. IsKept l.capacity l.instruments (rows_held l.held.items) l.sides.lists l.sides.capacity l.free.items (vec_capacity l.free)
        × (vec_capacity l.held ≡ l.capacity) };
}

/// The number of a side among all sides.
fn side_number(instrument: u8, side: Side) -> usize
    ensures { result ≡ side_number instrument side }
{
    let first = 2 * instrument as usize;
    match side {
        Side::Buy => first,
        Side::Sell => first + 1,
    }
}

impl Levels {
    /// No levels, with room for so many of so many instruments. An `Err` is want of memory: it takes 52 bytes for each level, and
    /// for each chunk 3,092 bytes and 8 more for each instrument, and 80 bytes for each instrument. There is room for one chunk for
    /// each 32 levels, two for each instrument, and one more: so many are always enough, whichever side the levels stand on. It takes
    /// all the memory: no call changes how much a part has room for.
    pub fn new(alloc: Global, capacity: u32, instruments: u8) -> Result<Levels, AllocError>
        ensures { IfOk result (λ l. l ≡ no_rows capacity instruments) }
    {
        Ok(Levels {
            held: Vec::with_capacity(alloc, capacity as usize)?,
            sides: Sides::new(alloc, 2 * instruments as usize, capacity)?,
            free: Vec::with_capacity(alloc, capacity as usize)?,
            capacity,
            instruments,
        })
    }

    /// Does nothing: its clause says what is true of levels at every moment.
    pub fn rules(&self)
        ensures { AreRows self.now }
    {
        let _ = &self.held;
    }

    /// The best price of a side. `None` exactly where the side has no level.
    pub fn best(&self, instrument: u8, side: Side) -> Option<Price>
        requires { instrument < self.now.instruments }
        ensures { result ≡ best_row instrument side self.now.rows }
    {
        self.sides.best(side_number(instrument, side))
    }

    /// The best of the prices of a side that are worse than this one. `None` exactly where the side has no worse price.
    pub fn worse(&self, instrument: u8, side: Side, price: Price) -> Option<Price>
        requires { instrument < self.now.instruments }
        ensures { result ≡ worse_row instrument side price self.now.rows }
    {
        self.sides.worse(side_number(instrument, side), side, price)
    }

    /// The worst price of a side. `None` exactly where the side has no level.
    pub fn worst(&self, instrument: u8, side: Side) -> Option<Price>
        requires { instrument < self.now.instruments }
        ensures { result ≡ worst_row instrument side self.now.rows }
    {
        self.sides.worst(side_number(instrument, side))
    }

    /// The worst of the prices of a side that are better than this one. `None` exactly where the side has no better price.
    pub fn better(&self, instrument: u8, side: Side, price: Price) -> Option<Price>
        requires { instrument < self.now.instruments }
        ensures { result ≡ better_row instrument side price self.now.rows }
    {
        self.sides
            .better(side_number(instrument, side), side, price)
    }

    /// The queue of a level. `None` exactly where the side has no level at this price.
    pub fn find(&self, instrument: u8, side: Side, price: Price) -> Option<u32>
        requires { instrument < self.now.instruments }
        ensures { result ≡ queue_at (level instrument side price) self.now.rows }
    {
        self.sides.find(side_number(instrument, side), side, price)
    }

    /// The row of the level with a queue.
    pub fn row(&self, queue: u32) -> LevelRow
        requires { HasQueue queue self.now.rows }
        ensures { result ≡ row_of queue self.now.rows }
    {
        self.held[queue as usize].row
    }

    /// Sets the sums of the level with a queue.
    pub fn set_sums(&mut self, queue: u32, count: u32, shown: u64, leaves: u64)
        requires { HasQueue queue self.old.rows }
        ensures { self.new ≡ record self.old { rows = with_sums queue count shown leaves self.old.rows } }
    {
        let held = &mut self.held[queue as usize];
        let row = &mut held.row;
        row.count = count;
        row.shown = shown;
        row.leaves = leaves;
        let at = side_number(row.instrument, row.side);
        held.spot = self
            .sides
            .set_lots(at, row.side, row.price, leaves, held.spot);
    }

    /// Adds a level that is not here, with sums of 0. Returns its queue, which no level had.
    pub fn add_level(&mut self, instrument: u8, side: Side, price: Price) -> u32
        requires listed { instrument < self.old.instruments }
        requires absent { queue_at (level instrument side price) self.old.rows ≡ None }
        requires room { length self.old.rows < self.old.capacity }
        ensures fresh { HasQueue result self.old.rows → ⊥ }
        ensures below { result < self.old.capacity }
        ensures placed { self.new ≡ record self.old { rows = placed_row (new_row instrument side price result) self.old.rows } }
        ensures rest { without_row result self.new.rows ≡ self.old.rows }
        ensures has { HasQueue result self.new.rows }
        ensures row { row_of result self.new.rows ≡ new_row instrument side price result }
        ensures count { length self.new.rows ≡ length self.old.rows + 1 }
    {
        let queue = take_queue(&mut self.free, self.held.len() as u32);
        let row = LevelRow {
            instrument,
            side,
            price,
            queue,
            count: 0,
            shown: 0,
            leaves: 0,
        };
        let step = Step {
            price,
            leaves: 0,
            queue,
        };
        let spot = self.sides.put(side_number(instrument, side), side, step);
        hold(&mut self.held, queue, row, spot);
        queue
    }

    /// Takes out the level with a queue. It has no orders.
    pub fn close_level(&mut self, queue: u32)
        requires has { HasQueue queue self.old.rows }
        requires empty { (row_of queue self.old.rows).count ≡ 0 }
        ensures rows { self.new ≡ record self.old { rows = without_row queue self.old.rows } }
        ensures count { length self.new.rows + 1 ≡ length self.old.rows }
    {
        self.remove_level(queue);
    }

    /// Takes out the level with a queue, whatever its sums are. So they need not be set before, where its last order leaves.
    pub fn remove_level(&mut self, queue: u32)
        requires { HasQueue queue self.old.rows }
        ensures rows { self.new ≡ record self.old { rows = without_row queue self.old.rows } }
        ensures count { length self.new.rows + 1 ≡ length self.old.rows }
    {
        let Held { row, spot } = self.held[queue as usize];
        let at = side_number(row.instrument, row.side);
        self.sides.take_out(at, row.side, row.price, spot);
        give_back(&mut self.free, queue);
    }

    /// How many lots are open on a side at a limit and at better prices.
    pub fn available(&self, instrument: u8, side: Side, limit: Price) -> u64
        requires listed { instrument < self.now.instruments }
        requires fits { sum_by (λ r. r.leaves) self.now.rows < 2 ^ 63 }
        ensures { result ≡ open_rows instrument side limit self.now.rows }
    {
        self.sides
            .available(side_number(instrument, side), side, limit)
    }
}
