//! What is wrong with an image.
ghost use Rattle.std.specs.Prelude.{◌≡◌, ◌+◌, ◌*◌, ◌≤◌, ◌<◌, length, None};
ghost use Rattle.plain_book.specs.Book.{empty_book};
ghost use Rattle.order_kinds.specs.State.{empty_state};
ghost use Rattle.book_image.specs.Rows.{order_of_row};
ghost use Rattle.book_image.specs.Faults.{parts_fault, tops_fault, length_fault, desk_fault, is_right_last, rows_end, orders_at, is_order_on, is_at_best, is_right_top, has_right_tops, part_place};
ghost use Rattle.book_image.specs.Inner.Checking.{IsAsMade, best_with, is_named_at, counters_fault, lasts_fault, head_fault, rows_fault, tops_fault_beside};

use crate::check_rows::{Asked, resting_fault, row_at, waiting_fault};
use crate::format::{COUNT_BYTES, DESK_BYTES, INSTRUMENT_BYTES, ROW_BYTES};
use crate::numbers::{count_at, number_at, price_at};
use crate::read_row::side_of_byte;
use crate::rules::is_price_of;
use book_order::{is_same_price, is_same_side};
use gx_base::{ADDRESSEES, MOST_INSTRUMENTS, Price, Side, Trading};
use order_kinds::{Core, MOST_MESSAGES};
use plain_book::Book;
use product_file::Product;

/// The most that a counter of reports, trades or lines counts for each message.
const MOST_FOR_EACH_MESSAGE: u64 = 1 << 38;

/// The first place where an image ends too early or too late, where it has so many instruments.
fn length_fault(payload: &[u8], instruments: usize) -> Option<u64>
    requires { instruments ≤ MOST_INSTRUMENTS }
    ensures fault { result ≡ length_fault instruments payload.now }
    ensures whole { result ≡ None → rows_end instruments payload.now ≡ length payload.now }
{
    let len = payload.len();
    let resting_place = DESK_BYTES + INSTRUMENT_BYTES * instruments;
    if len < resting_place + COUNT_BYTES {
        return Some(len as u64);
    }
    let resting = count_at(payload, resting_place) as usize;
    let waiting_place = resting_place + COUNT_BYTES + ROW_BYTES * resting;
    if len < waiting_place + COUNT_BYTES {
        return Some(len as u64);
    }
    let waiting = count_at(payload, waiting_place) as usize;
    let end = waiting_place + COUNT_BYTES + ROW_BYTES * waiting;
    if len < end {
        return Some(len as u64);
    }
    if end < len {
        return Some(end as u64);
    }
    None
}

/// The place of the first counter of reports, trades or lines that is above what so many messages can have brought.
fn counters_fault(payload: &[u8], messages: u64) -> Option<u64>
    requires length { DESK_BYTES ≤ length payload.now }
    requires few { messages < MOST_MESSAGES }
    ensures { result ≡ counters_fault messages payload.now }
{
    for k in 0..ADDRESSEES + 2 {
        let at = 16 + 8 * k;
        if number_at(payload, at) > messages * MOST_FOR_EACH_MESSAGE {
            return Some(at as u64);
        }
    }
    None
}

/// The place of the first counter that is wrong.
fn desk_fault(payload: &[u8]) -> Option<u64>
    requires { DESK_BYTES ≤ length payload.now }
    ensures { result ≡ desk_fault payload.now }
{
    let messages = number_at(payload, 0);
    if messages >= MOST_MESSAGES {
        return Some(0);
    }
    if number_at(payload, 8) > messages {
        return Some(8);
    }
    counters_fault(payload, messages)
}

/// Whether the part of an instrument begins with 1 and a price of it, or with 0 and zeros.
fn is_right_last(payload: &[u8], product: &Product, instrument: u8) -> bool
    requires listed { instrument < length product.now.names.instruments }
    requires length { part_place instrument + INSTRUMENT_BYTES ≤ length payload.now }
    ensures { result ≡ is_right_last product.now payload.now instrument }
{
    let at = DESK_BYTES + INSTRUMENT_BYTES * instrument as usize;
    match payload[at] {
        0 => number_at(payload, at + 1) == 0,
        1 => is_price_of(product, instrument, price_at(payload, at + 1)),
        _ => false,
    }
}

/// The place of the first part of an instrument whose last trade price is wrong.
fn lasts_fault(payload: &[u8], product: &Product) -> Option<u64>
    requires { part_place (length product.now.names.instruments) ≤ length payload.now }
    ensures { result ≡ lasts_fault product.now payload.now }
{
    for k in 0..product.names().instrument_count() {
        if !is_right_last(payload, product, k as u8) {
            return Some((DESK_BYTES + INSTRUMENT_BYTES * k) as u64);
        }
    }
    None
}

/// Whether a row is of an order of a side.
fn is_row_on(row: &[u8], instrument: u8, side: Side) -> bool
    requires { length row.now ≡ ROW_BYTES }
    ensures { result ≡ is_order_on instrument side (order_of_row row.now) }
{
    row[9] == instrument && is_same_side(side_of_byte(row[10]), side)
}

/// The best price of a side, where it is known or this row is the first of the side.
fn best_with(best: Option<Price>, instrument: u8, side: Side, row: &[u8]) -> Option<Price>
    requires { length row.now ≡ ROW_BYTES }
    ensures { result ≡ best_with best instrument side (order_of_row row.now) }
{
    if best.is_none() && is_row_on(row, instrument, side) {
        return Some(price_at(row, 38));
    }
    best
}

/// Whether a row is of an order of a side that has this number, and stands at the best price.
fn is_named_at(best: Option<Price>, instrument: u8, side: Side, number: u64, row: &[u8]) -> bool
    requires { length row.now ≡ ROW_BYTES }
    ensures { result ≡ is_named_at best instrument side number (order_of_row row.now) }
{
    match best {
        None => false,
        Some(best) => {
            is_row_on(row, instrument, side)
                && is_same_price(price_at(row, 38), best)
                && number_at(row, 0) == number
        }
    }
}

/// Whether an order of a side that has this number is among those at the side's best price, where the orders of these rows stand
/// in book order.
fn is_at_best(
    payload: &[u8],
    first: usize,
    count: u32,
    instrument: u8,
    side: Side,
    number: u64,
) -> bool
    requires { first + ROW_BYTES * count ≤ length payload.now }
    ensures { result ≡ is_at_best instrument side number (orders_at payload.now first count) }
{
    let mut best = None;
    for k in 0..count as usize {
        let row = row_at(payload, first, k);
        best = best_with(best, instrument, side, row);
        if is_named_at(best, instrument, side, number, row) {
            return true;
        }
    }
    false
}

/// Whether the TOP order of a side, if there is one, may be TOP there.
fn is_right_top(
    payload: &[u8],
    product: &Product,
    first: usize,
    count: u32,
    instrument: u8,
    side: Side,
) -> bool
    requires listed { instrument < length product.now.names.instruments }
    requires length { part_place instrument + INSTRUMENT_BYTES ≤ length payload.now }
    requires rows { first + ROW_BYTES * count ≤ length payload.now }
    ensures { result ≡ is_right_top product.now payload.now (orders_at payload.now first count) instrument side }
{
    let at = DESK_BYTES + INSTRUMENT_BYTES * instrument as usize;
    let number = match side {
        Side::Buy => number_at(payload, at + 9),
        Side::Sell => number_at(payload, at + 17),
    };
    number == 0
        || (product.rule(instrument).steps.top_rule().is_some()
            && is_at_best(payload, first, count, instrument, side, number))
}

/// Whether both TOP orders of an instrument may be TOP.
fn has_right_tops(
    payload: &[u8],
    product: &Product,
    first: usize,
    count: u32,
    instrument: u8,
) -> bool
    requires listed { instrument < length product.now.names.instruments }
    requires length { part_place instrument + INSTRUMENT_BYTES ≤ length payload.now }
    requires rows { first + ROW_BYTES * count ≤ length payload.now }
    ensures { result ≡ has_right_tops product.now payload.now (orders_at payload.now first count) instrument }
{
    is_right_top(payload, product, first, count, instrument, Side::Buy)
        && is_right_top(payload, product, first, count, instrument, Side::Sell)
}

/// The place of the first part of an instrument whose TOP orders are wrong, beside the orders of these rows.
fn tops_fault_beside(payload: &[u8], product: &Product, first: usize, count: u32) -> Option<u64>
    requires length { part_place (length product.now.names.instruments) ≤ length payload.now }
    requires rows { first + ROW_BYTES * count ≤ length payload.now }
    ensures { result ≡ tops_fault_beside product.now payload.now (orders_at payload.now first count) }
{
    for k in 0..product.names().instrument_count() {
        if !has_right_tops(payload, product, first, count, k as u8) {
            return Some((DESK_BYTES + INSTRUMENT_BYTES * k) as u64);
        }
    }
    None
}

/// The place of the first part of an instrument whose TOP orders are wrong.
pub(crate) fn tops_fault(part: &[u8], product: &Product) -> Option<u64>
    requires { rows_end (length product.now.names.instruments) part.now ≡ length part.now }
    ensures { result ≡ tops_fault product.now part.now }
{
    product.limits();
    let resting_place = DESK_BYTES + INSTRUMENT_BYTES * product.names().instrument_count();
    let resting = count_at(part, resting_place);
    tops_fault_beside(part, product, resting_place + COUNT_BYTES, resting)
}

/// The place of the first fault before the rows.
fn head_fault(payload: &[u8], product: &Product) -> Option<u64>
    ensures fault { result ≡ head_fault product.now payload.now }
    ensures whole { result ≡ None → rows_end (length product.now.names.instruments) payload.now ≡ length payload.now }
{
    if let Some(at) = length_fault(payload, product.names().instrument_count()) {
        return Some(at);
    }
    if let Some(at) = desk_fault(payload) {
        return Some(at);
    }
    lasts_fault(payload, product)
}

/// The place of the first fault in the rows. The book, which is new, takes in the names of the rows.
fn rows_fault<B: Book>(
    part: &[u8],
    trading: Trading,
    product: &Product,
    book: &mut B,
) -> Option<u64>
    requires whole { rows_end (length product.now.names.instruments) part.now ≡ length part.now }
    requires new { B.book book.old ≡ empty_book product.now.max_orders (length product.now.names.instruments) }
    ensures fault { result ≡ rows_fault trading product.now part.now }
    ensures made { IsAsMade (B.book book.old) (B.book book.new) }
{
    product.limits();
    let asked = Asked {
        given: number_at(part, 8),
        trading,
    };
    let resting_place = DESK_BYTES + INSTRUMENT_BYTES * product.names().instrument_count();
    let resting_rows = resting_place + COUNT_BYTES;
    let resting = count_at(part, resting_place);
    if resting > product.max_orders() {
        return Some(resting_place as u64);
    }
    if let Some(at) = resting_fault(part, product, asked, resting_rows, resting, book) {
        return Some(at);
    }
    let waiting_place = resting_rows + ROW_BYTES * resting as usize;
    let waiting_rows = waiting_place + COUNT_BYTES;
    let waiting = count_at(part, waiting_place);
    if waiting > product.max_orders() - resting {
        return Some(waiting_place as u64);
    }
    waiting_fault(part, product, asked, waiting_rows, waiting, book)
}

/// The place of the first fault but for the TOP orders. The book, which is new, takes in the names of the rows.
fn fault_with<B: Book>(
    part: &[u8],
    trading: Trading,
    product: &Product,
    book: &mut B,
) -> Option<u64>
    requires new { B.book book.old ≡ empty_book product.now.max_orders (length product.now.names.instruments) }
    ensures fault { result ≡ parts_fault trading product.now part.now }
    ensures whole { result ≡ None → rows_end (length product.now.names.instruments) part.now ≡ length part.now }
    ensures made { IsAsMade (B.book book.old) (B.book book.new) }
{
    if let Some(at) = head_fault(part, product) {
        return Some(at);
    }
    rows_fault(part, trading, product, book)
}

/// The place of the first fault in the bytes of the old form but for the TOP orders, where the session is this one. A core that is
/// new keeps the names of the rows meanwhile, and is new again at the end.
pub(crate) fn parts_fault<B: Book>(
    part: &[u8],
    trading: Trading,
    product: &Product,
    core: &mut Core<B>,
) -> Option<u64>
    requires new { core.old ≡ empty_state product.now }
    ensures fault { result ≡ parts_fault trading product.now part.now }
    ensures whole { result ≡ None → rows_end (length product.now.names.instruments) part.now ≡ length part.now }
    ensures new { core.new ≡ core.old }
{
    let fault = fault_with(part, trading, product, core.book_mut());
    core.clear();
    fault
}
