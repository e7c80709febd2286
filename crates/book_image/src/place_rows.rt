//! Placing the resting orders of an image.
ghost use Rattle.std.specs.Prelude.{◌≡◌, ◌+◌, ◌-◌, ◌*◌, ◌<◌, ◌≤◌, [], length, map, false, true};
ghost use Rattle.plain_book.specs.Orders.{is_live, is_level, level_of, placed};
ghost use Rattle.plain_book.specs.Book.{IsFitToRest, live_orders};
ghost use Rattle.plain_book.specs.Numbers.{numbered};
ghost use Rattle.book_image.specs.Rows.{row_at, has_forms};
ghost use Rattle.book_image.specs.Rules.{is_right_shown};
ghost use Rattle.book_image.specs.Reading.{entry_of};
ghost use Rattle.book_image.specs.Inner.Loading.{order_in, orders_from, AreRows, AreRightResting, IsLevelEnd, IsLevelStart, HasResting, NoneTop};

use crate::format::ROW_BYTES;
use crate::read_row::order_of_row;
use gx_base::Order;
use plain_book::Book;

/// The order of a row.
pub(crate) fn order_at(payload: &[u8], first: usize, k: usize) -> Order
    requires room { first + ROW_BYTES * (k + 1) ≤ length payload.now }
    requires forms { has_forms (row_at payload.now first k) ≡ true }
    ensures { result ≡ order_in payload.now first k }
{
    let at = first + ROW_BYTES * k;
    order_of_row(&payload[at..at + ROW_BYTES])
}

/// Whether two orders stand at the same price of the same side.
fn is_same_level(a: &Order, b: &Order) -> bool
    ensures { result ≡ is_level (level_of a.now) (level_of b.now) }
{
    a.instrument == b.instrument && a.side == b.side && a.price == b.price
}

/// The first of the rows before an end that stand at the price of the last one of them.
fn level_start(payload: &[u8], first: usize, end: usize) -> usize
    requires some { 1 ≤ end }
    requires rows { AreRows payload.now first end }
    ensures { IsLevelStart (order_in payload.now first) result end }
{
    let last = order_at(payload, first, end - 1);
    let mut start = end - 1;
    while start > 0 && is_same_level(&order_at(payload, first, start - 1), &last) {
        start -= 1;
    }
    start
}

/// Places an order with what it shows.
fn place_order<B: Book>(book: &mut B, order: Order)
    requires room { length (live_orders (B.book book.old)) < (B.book book.old).capacity }
    requires unnamed { is_live order.firm order.id (live_orders (B.book book.old)) ≡ false }
    requires fit { IsFitToRest (B.book book.old).instruments order }
    requires shown { is_right_shown order ≡ true }
    requires none_top { NoneTop (B.book book.old).resting }
    ensures { HasResting (B.book book.old) (B.book book.new) (placed (entry_of order) (numbered (B.book book.old).resting)) }
{
    let (show, shown) = (order.show, order.shown);
    let slot = book.place(order, None);
    if show > 0 {
        book.rules();
        book.set_shown(slot, shown);
    }
}

/// Places the orders of the rows of one level, the first of them first, where those of all later levels are placed.
fn place_level<B: Book>(
    payload: &[u8],
    first: usize,
    count: usize,
    start: usize,
    end: usize,
    book: &mut B,
)
    requires range { start ≤ end }
    requires within { end ≤ count }
    requires rows { AreRows payload.now first count }
    requires right { AreRightResting (B.book book.old).instruments (order_in payload.now first) count }
    requires level { IsLevelEnd (order_in payload.now first) end count }
    requires room { count ≤ (B.book book.old).capacity }
    requires none_waits { (B.book book.old).waiting ≡ [] }
    requires placed { numbered (B.book book.old).resting ≡ map entry_of (orders_from (order_in payload.now first) end (count - end)) }
    ensures { HasResting (B.book book.old) (B.book book.new) (map entry_of (orders_from (order_in payload.now first) start (count - start))) }
{
    for k in start..end {
        place_order(book, order_at(payload, first, k));
    }
}

/// Places the orders of the resting rows in an empty book. The levels are placed from the last to the first, so that each
/// order comes to the best price of its side, for which a book need not search.
pub(crate) fn place_rows<B: Book>(payload: &[u8], first: usize, count: usize, book: &mut B)
    requires rows { AreRows payload.now first count }
    requires right { AreRightResting (B.book book.old).instruments (order_in payload.now first) count }
    requires room { count ≤ (B.book book.old).capacity }
    requires none_rests { (B.book book.old).resting ≡ [] }
    requires none_waits { (B.book book.old).waiting ≡ [] }
    ensures { HasResting (B.book book.old) (B.book book.new) (map entry_of (orders_from (order_in payload.now first) 0 count)) }
{
    let mut end = count;
    while end > 0 {
        let start = level_start(payload, first, end);
        place_level(payload, first, count, start, end, book);
        end = start;
    }
}
