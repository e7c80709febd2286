//! A walk over the orders of a side that would trade at a price, in book order, with what the first of them has left.
ghost use Rattle.std.specs.Prelude.{◌≡◌, ◌<◌, ◌≤◌, option_map};
ghost use Rattle.plain_book.specs.Orders.{slot_of, slot_after, HasSlot};
ghost use Rattle.plain_book.specs.Book.{slot_number, live_orders};
ghost use Rattle.open_auction.specs.Pairs.{takers};
ghost use Rattle.open_auction.specs.Inner.SideWalk.{first_within, HasOne, open_at_slot, IsSideWalk, to_give, first_left, first_gives};

use book_order::is_better_price;
use gx_base::{Price, Side, Slot};
use plain_book::Book;

/// Where a walk stands.
#[derive(Clone, Copy)]
pub(crate) struct SideWalk {
    instrument: u8,
    side: Side,
    /// The price at which the orders would trade.
    price: Price,
    /// The first order with anything left. `None` at the end.
    at: Option<Slot>,
    /// What it has left, in lots.
    left: u32,
}

/// What an order has left to give.
#[derive(Clone, Copy)]
pub(crate) struct Left {
    /// Its number.
    pub(crate) number: u64,
    /// What it has left.
    pub(crate) lots: u32,
}

/// The first order at a price, unless it is beyond the price at which the orders would trade.
fn taker_at<B: Book>(
    book: &B,
    instrument: u8,
    side: Side,
    limit: Price,
    price: Option<Price>,
) -> Option<Slot>
    requires { instrument < (B.book book.now).instruments }
    ensures { option_map slot_number result ≡ first_within instrument side limit (B.book book.now).resting price }
{
    match price {
        Some(price) if !is_better_price(side, limit, price) => book.first(instrument, side, price),
        _ => None,
    }
}

/// The first order of a side that would trade at a price.
fn first_taker<B: Book>(book: &B, instrument: u8, side: Side, limit: Price) -> Option<Slot>
    requires { instrument < (B.book book.now).instruments }
    ensures { option_map slot_number result ≡ slot_of (takers instrument side limit (B.book book.now).resting) }
{
    book.rules();
    let best = book.best(instrument, side);
    taker_at(book, instrument, side, limit, best)
}

/// The order that comes after this one among those of a side that would trade at a price.
fn next_taker<B: Book>(
    book: &B,
    instrument: u8,
    side: Side,
    limit: Price,
    slot: Slot,
) -> Option<Slot>
    requires listed { instrument < (B.book book.now).instruments }
    requires has { HasSlot slot.0 (takers instrument side limit (B.book book.now).resting) }
    ensures { option_map slot_number result ≡ slot_after slot.0 (takers instrument side limit (B.book book.now).resting) }
{
    book.rules();
    match book.next(slot) {
        Some(next) => Some(next),
        None => {
            let worse = book.worse(instrument, side, book.order(slot).price);
            taker_at(book, instrument, side, limit, worse)
        }
    }
}

/// What is open of an order, in lots; 0 where there is none.
fn open_of<B: Book>(book: &B, slot: Option<Slot>) -> u32
    requires { HasOne (option_map slot_number slot) (live_orders (B.book book.now)) }
    ensures { result ≡ open_at_slot (option_map slot_number slot) (live_orders (B.book book.now)) }
{
    match slot {
        None => 0,
        Some(slot) => book.order(slot).leaves,
    }
}

impl SideWalk {
    /// Stands at the first order of a side that would trade at a price.
    pub(crate) fn from_first<B: Book>(
        book: &B,
        instrument: u8,
        side: Side,
        price: Price,
    ) -> SideWalk
        requires { instrument < (B.book book.now).instruments }
        ensures walk { IsSideWalk (B.book book.now) result }
        ensures all { to_give (B.book book.now) result ≡ takers instrument side price (B.book book.now).resting }
    {
        book.rules();
        let at = first_taker(book, instrument, side, price);
        SideWalk {
            instrument,
            side,
            price,
            at,
            left: open_of(book, at),
        }
    }

    /// The first order that has anything left. `None` at the end.
    pub(crate) fn first<B: Book>(&self, book: &B) -> Option<Left>
        requires { IsSideWalk (B.book book.now) self.now }
        ensures { result ≡ first_left (to_give (B.book book.now) self.now) }
    {
        book.rules();
        let slot = self.at?;
        Some(Left {
            number: book.order(slot).number,
            lots: self.left,
        })
    }

    /// The first order gives some lots, and makes way where it has none left.
    pub(crate) fn give<B: Book>(&mut self, book: &B, lots: u32)
        requires walk { IsSideWalk (B.book book.now) self.old }
        requires fits { lots ≤ self.old.left }
        ensures walk { IsSideWalk (B.book book.now) self.new }
        ensures gives { to_give (B.book book.now) self.new ≡ first_gives lots (to_give (B.book book.now) self.old) }
    {
        book.rules();
        let Some(slot) = self.at else {
            return;
        };
        if lots < self.left {
            self.left -= lots;
            return;
        }
        self.at = next_taker(book, self.instrument, self.side, self.price, slot);
        self.left = open_of(book, self.at);
    }
}
