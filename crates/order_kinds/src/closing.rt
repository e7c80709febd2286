//! The close of the market over any book: each live order that is not good till cancelled expires, the resting ones in book order
//! and then the waiting stops in theirs.
ghost use Rattle.std.specs.Prelude.{◌≡◌, ◌^◌, ◌<◌, [], ◌∷◌, filter, length};
ghost use Rattle.gx_base.specs.Emits.{Emits};
ghost use Rattle.plain_book.specs.Orders.{HasSlot, is_of, is_on, order_of, side_of, stops_of};
ghost use Rattle.plain_book.specs.Book.{live_orders, book_without};
ghost use Rattle.plain_book.specs.Match.{report_counted, next_head};
ghost use Rattle.order_kinds.specs.TradingSessions.{is_until_cancelled, stays, expired, market_closed};
ghost use Rattle.order_kinds.specs.Inner.Taking.{CountsRose, IsCounted};
ghost use Rattle.order_kinds.specs.Inner.Closing.{resting_ended, waiting_ended, ReportsExpiries, HasRoomFor};

use crate::state::EngineState;
use book_walks::{first_on_side, next_on_side};
use gx_base::{Desk, Emit, ExecType, Execution, Life, Side, Slot, Stamp, Trading};
use plain_book::{Book, count_report};

/// Whether an order of this life is good till cancelled, so that it outlives the close of the market.
pub fn is_until_cancelled(life: Life) -> bool
    ensures { result ≡ is_until_cancelled life }
{
    matches!(life, Life::Gtc)
}

/// An order leaves the book, and what was open of it is reported to its firm.
fn expire_order<B: Book, E: Emit>(
    book: &mut B,
    desk: &mut Desk,
    slot: Slot,
    time: Stamp,
    out: &mut E,
)
    requires live { HasSlot slot.0 (live_orders (B.book book.old)) }
    requires room { HasRoomFor (B.book book.old) desk.old }
    ensures left { B.book book.new ≡ book_without slot.0 (B.book book.old) }
    ensures desk { desk.new ≡ report_counted desk.old (order_of slot.0 (live_orders (B.book book.old))).firm }
    ensures emits { let o = order_of slot.0 (live_orders (B.book book.old)) in Emits E.meanings out.old out.new (expired (next_head desk.old o.firm time) o ∷ []) }
    ensures room { HasRoomFor (B.book book.new) desk.new }
{
    book.rules();
    let order = book.order(slot);
    let head = count_report(desk, order.firm, time);
    let gone = order.leaves;
    out.put_execution(&Execution::of_end(&head, order, ExecType::Expired { gone }));
    book.leave(slot);
}

/// The orders of a side that are not good till cancelled expire, in book order.
fn expire_side<B: Book, E: Emit>(
    book: &mut B,
    desk: &mut Desk,
    instrument: u8,
    side: Side,
    time: Stamp,
    out: &mut E,
)
    requires listed { instrument < (B.book book.old).instruments }
    requires room { HasRoomFor (B.book book.old) desk.old }
    ensures book { B.book book.new ≡ resting_ended (is_on instrument side) (B.book book.old) }
    ensures reports { ReportsExpiries E.meanings time (side_of instrument side (B.book book.old).resting) desk.old desk.new out.old out.new }
    ensures room { HasRoomFor (B.book book.new) desk.new }
{
    book.rules();
    let mut at = first_on_side(book, instrument, side);
    while let Some(slot) = at {
        book.rules();
        // Before the order may leave.
        at = next_on_side(book, slot);
        if !is_until_cancelled(book.order(slot).life) {
            expire_order(book, desk, slot, time, out);
        }
    }
}

/// The resting orders of an instrument that are not good till cancelled expire, the buys and then the sells.
fn expire_sides<B: Book, E: Emit>(
    book: &mut B,
    desk: &mut Desk,
    instrument: u8,
    time: Stamp,
    out: &mut E,
)
    requires listed { instrument < (B.book book.old).instruments }
    requires room { HasRoomFor (B.book book.old) desk.old }
    ensures book { B.book book.new ≡ resting_ended (is_of instrument) (B.book book.old) }
    ensures reports { ReportsExpiries E.meanings time (stops_of instrument (B.book book.old).resting) desk.old desk.new out.old out.new }
    ensures room { HasRoomFor (B.book book.new) desk.new }
{
    book.rules();
    expire_side(book, desk, instrument, Side::Buy, time, out);
    expire_side(book, desk, instrument, Side::Sell, time, out);
}

/// The resting orders of all instruments that are not good till cancelled expire, in book order.
fn expire_resting<B: Book, E: Emit>(
    book: &mut B,
    desk: &mut Desk,
    instruments: u8,
    time: Stamp,
    out: &mut E,
)
    requires instruments { instruments ≡ (B.book book.old).instruments }
    requires room { HasRoomFor (B.book book.old) desk.old }
    ensures book { let b = B.book book.old in B.book book.new ≡ record b { resting = filter stays b.resting } }
    ensures reports { ReportsExpiries E.meanings time (B.book book.old).resting desk.old desk.new out.old out.new }
    ensures room { HasRoomFor (B.book book.new) desk.new }
{
    book.rules();
    for instrument in 0..instruments {
        expire_sides(book, desk, instrument, time, out);
    }
}

/// The waiting stops of an instrument that are not good till cancelled expire, in their order.
fn expire_stops<B: Book, E: Emit>(
    book: &mut B,
    desk: &mut Desk,
    instrument: u8,
    time: Stamp,
    out: &mut E,
)
    requires listed { instrument < (B.book book.old).instruments }
    requires room { HasRoomFor (B.book book.old) desk.old }
    ensures book { B.book book.new ≡ waiting_ended (is_of instrument) (B.book book.old) }
    ensures reports { ReportsExpiries E.meanings time (stops_of instrument (B.book book.old).waiting) desk.old desk.new out.old out.new }
    ensures room { HasRoomFor (B.book book.new) desk.new }
{
    book.rules();
    let mut at = book.first_waiting(instrument);
    while let Some(slot) = at {
        book.rules();
        // Before the stop may leave.
        at = book.next_waiting(slot);
        if !is_until_cancelled(book.order(slot).life) {
            expire_order(book, desk, slot, time, out);
        }
    }
}

/// The waiting stops of all instruments that are not good till cancelled expire, in their order.
fn expire_waiting<B: Book, E: Emit>(
    book: &mut B,
    desk: &mut Desk,
    instruments: u8,
    time: Stamp,
    out: &mut E,
)
    requires instruments { instruments ≡ (B.book book.old).instruments }
    requires room { HasRoomFor (B.book book.old) desk.old }
    ensures book { let b = B.book book.old in B.book book.new ≡ record b { waiting = filter stays b.waiting } }
    ensures reports { ReportsExpiries E.meanings time (B.book book.old).waiting desk.old desk.new out.old out.new }
{
    book.rules();
    for instrument in 0..instruments {
        expire_stops(book, desk, instrument, time, out);
    }
}

/// Closes the market: all orders that are not good till cancelled expire, and each is reported at this time.
pub(crate) fn close_market<B: Book, E: Emit>(state: &mut EngineState<B>, time: Stamp, out: &mut E)
    requires instruments { state.old.book.instruments ≡ length state.old.last }
    requires counted { IsCounted state.old.desk }
    ensures state { state.new ≡ (market_closed time state.old).0 }
    ensures emits { Emits E.meanings out.old out.new (market_closed time state.old).1 }
    ensures rose { CountsRose (2 ^ 38) state.old.desk state.new.desk }
{
    state.book.rules();
    let instruments = state.last.len() as u8;
    expire_resting(&mut state.book, &mut state.desk, instruments, time, out);
    expire_waiting(&mut state.book, &mut state.desk, instruments, time, out);
    state.trading = Trading::Closed;
}
