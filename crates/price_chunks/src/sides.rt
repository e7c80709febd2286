//! The levels of all sides, in chunks from one pool, which always has a chunk to give.
ghost use Rattle.std.specs.Prelude.{◌≡◌, ◌<◌, ◌+◌, ◌/◌, ◌^◌, None, filter, length, replicate, set, sum_by, vec_capacity, IfOk};
ghost use Rattle.price_chunks.specs.Steps.{AreWorstFirst, is_worse_step, is_better_step, is_step_at, is_open_step, price_of_last, price_of_first, queue_of_last, with_step, without_step, open_at, with_open, list_at, no_lists};
ghost use Rattle.price_chunks.specs.Inner.Pool.{best_with};

use crate::place::{Spot, Step};
use crate::pool::Pool;
use crate::side::{
    best_price, better_price, open_lots, put_in, queue_at, set_lots, take_out, worse_price,
    worst_price,
};
use book_order::is_better_price;
use gx_base::{Price, Side};
use std::alloc::{AllocError, Global};
use std::marker::Model;

/// How many chunks are always enough for so many levels on so many sides.
fn pool_size(sides: usize, capacity: u32) -> usize
    requires { sides < 65536 }
    ensures { result ≡ capacity / 32 + sides + 1 }
{
    capacity as usize / 32 + sides + 1
}

/// No best price for each of so many sides, with room for no more.
fn no_prices(alloc: Global, count: usize) -> Result<Vec<Option<Price>>, AllocError>
    ensures items { IfOk result (λ prices. prices.items ≡ replicate count None) }
    ensures room { IfOk result (λ prices. vec_capacity prices ≡ count) }
{
    let mut prices = Vec::with_capacity(alloc, count)?;
    for _ in 0..count {
        prices.push_reserved(None);
    }
    Ok(prices)
}

/// The best price of a side, to which a level with this price has come.
fn best_with(best: Option<Price>, side: Side, price: Price) -> Option<Price>
    ensures { result ≡ best_with side price best }
{
    match best {
        Some(best) if !is_better_price(side, price, best) => Some(best),
        _ => Some(price),
    }
}

/// The levels of all sides. Contracts see a list for each side, the worst price first, and the greatest number of levels on all
/// sides together.
///
/// Each side has at least one chunk. There is room for as many chunks as the sides can ever need, whichever side the levels stand on,
/// so `new` alone takes memory, and no part ever grows. The best price of a side is asked far more often than a level comes or goes,
/// so it is kept apart from the chunks, and read in one step.
#[derive(Drop)]
pub struct Sides {
    pool: Pool,
    /// The best price of each side.
    best: Vec<Option<Price>>,
    capacity: u32,
}

impl Model for Sides {
    ghost use Rattle.price_chunks.specs.Steps.{SideLists};
    ghost use Rattle.price_chunks.specs.Inner.Pool.{IsKept, AreBest, lists_of};
    ghost use Rattle.std.specs.Prelude.{vec_capacity};

    ghost Value = { SideLists };

    ghost view = { λ s. record { capacity = s.capacity; lists = lists_of s.pool.sides } };

    ghost invariant = { λ s. IsKept s.capacity s.pool × AreBest s.pool s.best.items (vec_capacity s.best) };
}

impl Sides {
    /// So many sides without levels, with room for so many levels on all of them together. An `Err` is want of memory: there is room
    /// for a chunk for each side, for one for each 32 levels, and for one more, and for each chunk it takes 3,092 bytes and 4 more for
    /// each side; and it takes 40 bytes for each side. What it writes is a chunk for each side: the room for others is not touched
    /// before they are in use.
    pub fn new(alloc: Global, count: usize, capacity: u32) -> Result<Sides, AllocError>
        requires { count < 65536 }
        ensures { IfOk result (λ s. s ≡ no_lists count capacity) }
    {
        Ok(Sides {
            pool: Pool::new(alloc, count, pool_size(count, capacity))?,
            best: no_prices(alloc, count)?,
            capacity,
        })
    }

    /// A level comes to its place on its side. Returns a spot to look at when the level changes or goes.
    pub fn put(&mut self, at: usize, side: Side, step: Step) -> Spot
        requires listed { at < length self.old.lists }
        requires ordered { AreWorstFirst side (list_at self.old.lists at) }
        requires room { sum_by length self.old.lists < self.old.capacity }
        ensures { self.new ≡ record self.old { lists = set self.old.lists at (with_step side step (list_at self.old.lists at)) } }
    {
        let spot = put_in(&mut self.pool, at, side, step);
        self.best[at] = best_with(self.best[at], side, step.price);
        spot
    }

    /// The level at a price goes from its side, if there is one. It is looked for at the spot first.
    pub fn take_out(&mut self, at: usize, side: Side, price: Price, spot: Spot)
        requires listed { at < length self.old.lists }
        requires ordered { AreWorstFirst side (list_at self.old.lists at) }
        ensures { self.new ≡ record self.old { lists = set self.old.lists at (without_step price (list_at self.old.lists at)) } }
    {
        take_out(&mut self.pool, at, side, price, spot);
        self.best[at] = best_price(&self.pool, at);
    }

    /// So many lots are open at a price of a side now, if it has a level there. It is looked for at the spot first. Returns the spot to
    /// look at when it changes or goes.
    pub fn set_lots(&mut self, at: usize, side: Side, price: Price, leaves: u64, spot: Spot) -> Spot
        requires listed { at < length self.old.lists }
        requires ordered { AreWorstFirst side (list_at self.old.lists at) }
        ensures { self.new ≡ record self.old { lists = set self.old.lists at (with_open price leaves (list_at self.old.lists at)) } }
    {
        set_lots(&mut self.pool, at, side, price, leaves, spot)
    }

    /// The best price of a side. `None` exactly where it has no level.
    pub fn best(&self, at: usize) -> Option<Price>
        requires { at < length self.now.lists }
        ensures { result ≡ price_of_last (list_at self.now.lists at) }
    {
        self.best[at]
    }

    /// The best of the prices of a side that are worse than this one. `None` exactly where no price is.
    pub fn worse(&self, at: usize, side: Side, price: Price) -> Option<Price>
        requires listed { at < length self.now.lists }
        requires ordered { AreWorstFirst side (list_at self.now.lists at) }
        ensures { result ≡ price_of_last (filter (is_worse_step side price) (list_at self.now.lists at)) }
    {
        worse_price(&self.pool, at, side, price)
    }

    /// The worst price of a side. `None` exactly where it has no level.
    pub fn worst(&self, at: usize) -> Option<Price>
        requires { at < length self.now.lists }
        ensures { result ≡ price_of_first (list_at self.now.lists at) }
    {
        worst_price(&self.pool, at)
    }

    /// The worst of the prices of a side that are better than this one. `None` exactly where no price is.
    pub fn better(&self, at: usize, side: Side, price: Price) -> Option<Price>
        requires listed { at < length self.now.lists }
        requires ordered { AreWorstFirst side (list_at self.now.lists at) }
        ensures { result ≡ price_of_first (filter (is_better_step side price) (list_at self.now.lists at)) }
    {
        better_price(&self.pool, at, side, price)
    }

    /// The queue of the level at a price. `None` exactly where there is none.
    pub fn find(&self, at: usize, side: Side, price: Price) -> Option<u32>
        requires listed { at < length self.now.lists }
        requires ordered { AreWorstFirst side (list_at self.now.lists at) }
        ensures { result ≡ queue_of_last (filter (is_step_at price) (list_at self.now.lists at)) }
    {
        queue_at(&self.pool, at, side, price)
    }

    /// How many lots are open on a side at a limit and at better prices.
    pub fn available(&self, at: usize, side: Side, limit: Price) -> u64
        requires listed { at < length self.now.lists }
        requires ordered { AreWorstFirst side (list_at self.now.lists at) }
        requires fits { open_at (list_at self.now.lists at) < 2 ^ 63 }
        ensures { result ≡ open_at (filter (is_open_step side limit) (list_at self.now.lists at)) }
    {
        open_lots(&self.pool, at, side, limit)
    }
}
