//! Marking the TOP orders of an image.
ghost use Rattle.std.specs.Prelude.{◌≡◌, ◌+◌, ◌<◌, ◌≤◌, ◌==◌, filter, length, option_map, true};
ghost use Rattle.gx_base.specs.declared.limits.TheConstants.{MOST_INSTRUMENTS};
ghost use Rattle.gx_base.specs.declared.order.Side.TheVariants.{Buy, Sell};
ghost use Rattle.plain_book.specs.Orders.{level, orders_at, slot_of};
ghost use Rattle.plain_book.specs.Book.{slot_number};
ghost use Rattle.plain_book.specs.Numbers.{numbered};
ghost use Rattle.book_image.specs.Faults.{is_at_best, part_place};
ghost use Rattle.book_image.specs.Reading.{with_first_top, with_all_tops};
ghost use Rattle.book_image.specs.Inner.Loading.{HasResting, NoneTop, NoneTopOn, AreRightTops, has_number, orders_of, IsRightTop};

use crate::format::{DESK_BYTES, INSTRUMENT_BYTES};
use crate::numbers::number_at;
use gx_base::{Price, Side, Slot};
use plain_book::Book;

/// Where the order number of the TOP order of the buys stands in an instrument's part.
const BUY_TOP_AT: usize = 9;

/// Where that of the sells stands.
const SELL_TOP_AT: usize = 17;

/// The first order at a price that has a number. `None` exactly where there is none.
fn order_numbered<B: Book>(
    book: &B,
    instrument: u8,
    side: Side,
    price: Price,
    number: u64,
) -> Option<Slot>
    requires { instrument < (B.book book.now).instruments }
    ensures { option_map slot_number result ≡ slot_of (filter (has_number number) (orders_at (level instrument side price) (B.book book.now).resting)) }
{
    book.rules();
    let mut at = book.first(instrument, side, price);
    while let Some(slot) = at {
        if book.order(slot).number == number {
            return at;
        }
        at = book.next(slot);
    }
    None
}

/// Makes the first order of a side that has a number TOP of that side. It stands at the side's best price.
fn mark_top<B: Book>(book: &mut B, instrument: u8, side: Side, number: u64)
    requires listed { instrument < (B.book book.old).instruments }
    requires best { is_at_best instrument side number (orders_of (B.book book.old).resting) ≡ true }
    requires none_top { NoneTopOn instrument side (B.book book.old).resting }
    ensures { HasResting (B.book book.old) (B.book book.new) (with_first_top instrument side number (numbered (B.book book.old).resting)) }
{
    book.rules();
    let Some(price) = book.best(instrument, side) else {
        return;
    };
    let top = order_numbered(book, instrument, side, price, number);
    book.set_top(instrument, side, top);
}

/// Makes the order of a number TOP of a side, or none where the number is 0.
fn mark_side<B: Book>(book: &mut B, instrument: u8, side: Side, number: u64)
    requires listed { instrument < (B.book book.old).instruments }
    requires right { IsRightTop instrument side number (orders_of (B.book book.old).resting) }
    requires none_top { NoneTopOn instrument side (B.book book.old).resting }
    ensures { HasResting (B.book book.old) (B.book book.new) (with_first_top instrument side number (numbered (B.book book.old).resting)) }
{
    if number != 0 {
        mark_top(book, instrument, side, number);
    }
}

/// Marks the TOP orders of each instrument, where none is marked.
pub(crate) fn mark_tops<B: Book>(payload: &[u8], instruments: usize, book: &mut B)
    requires listed { instruments ≤ (B.book book.old).instruments }
    requires few { instruments ≤ MOST_INSTRUMENTS }
    requires room { part_place instruments ≤ length payload.now }
    requires right { AreRightTops payload.now instruments (orders_of (B.book book.old).resting) }
    requires none_top { NoneTop (B.book book.old).resting }
    ensures { HasResting (B.book book.old) (B.book book.new) (with_all_tops payload.now instruments (numbered (B.book book.old).resting)) }
{
    for k in 0..instruments {
        let part = DESK_BYTES + INSTRUMENT_BYTES * k;
        let instrument = k as u8;
        mark_side(
            book,
            instrument,
            Side::Buy,
            number_at(payload, part + BUY_TOP_AT),
        );
        mark_side(
            book,
            instrument,
            Side::Sell,
            number_at(payload, part + SELL_TOP_AT),
        );
    }
}
