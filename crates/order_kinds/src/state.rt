//! The state of the engine, over any book.
ghost use Rattle.std.specs.Prelude.{◌≡◌, ◌<◌, length, slice_set};
ghost use Rattle.order_kinds.specs.Entering.{last_after};

use arrayvec::ArrayVec;
use gx_base::{Desk, MOST_INSTRUMENTS, Price, Trading};
use plain_book::Book;
use std::marker::Model;

/// By instrument: the price of its last trade, if there was one.
pub(crate) type LastPrices = ArrayVec<Option<Price>, MOST_INSTRUMENTS>;

/// The live orders, the last trade prices, the counters, and the trading session.
#[derive(Drop)]
pub(crate) struct EngineState<B: Book> {
    pub(crate) book: B,
    pub(crate) last: LastPrices,
    pub(crate) desk: Desk,
    pub(crate) trading: Trading,
}

impl<B: Book> Model for EngineState<B> {
    ghost use Rattle.order_kinds.specs.State.{State};

    ghost Value = { State };

    ghost view = { λ s. record { book = B.book s.book; last = s.last.items; desk = s.desk; trading = s.trading } };
}

/// Sets the last trade price of an instrument, or that it has none.
pub(crate) fn set_last_price(last: &mut LastPrices, instrument: u8, price: Option<Price>)
    requires { instrument < length last.old.items }
    ensures { last.new.items ≡ slice_set last.old.items instrument price }
{
    last.as_mut_slice()[instrument as usize] = price;
}

/// Sets the last trade price of an instrument, where there was a trade.
pub(crate) fn set_last(last: &mut LastPrices, instrument: u8, price: Option<Price>)
    requires { instrument < length last.old.items }
    ensures { last.new.items ≡ last_after instrument price last.old.items }
{
    if price.is_some() {
        set_last_price(last, instrument, price);
    }
}
