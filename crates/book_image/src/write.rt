//! Writing the state of a core as an image. Each inner call writes after the first `at` bytes of `into`, and answers where what it
//! wrote ends.
ghost use Rattle.std.specs.Prelude.{◌≡◌, ◌+◌, ◌*◌, ◌^◌, ◌<◌, ◌≤◌, ◌++◌, flat_map, filter, length, take, drop};
ghost use Rattle.plain_book.specs.Orders.{level, orders_at, side_of, stops_of, is_of};
ghost use Rattle.plain_book.specs.Book.{live_orders};
ghost use Rattle.order_kinds.specs.State.{state_numbered};
ghost use Rattle.order_kinds.specs.Cores.{FitsProduct};
ghost use Rattle.book_image.specs.Rows.{number_bytes, count_bytes};
ghost use Rattle.book_image.specs.Image.{image_of, image_len, desk_bytes, last_bytes, top_number, instrument_bytes, instruments_bytes, rows_bytes};
ghost use Rattle.book_image.specs.Inner.Writing.{Appends, AppendsRows};

use crate::format::{CLOSED, COUNT_BYTES, DESK_BYTES, INSTRUMENT_BYTES, OPEN, ROW_BYTES};
use crate::write_row::{write_bytes, write_count, write_number, write_price, write_row};
use gx_base::{ADDRESSEES, Desk, Price, Side, Trading};
use order_kinds::Core;
use plain_book::Book;
use product_file::Product;

/// Writes the counters of report lines.
fn write_lines(desk: &Desk, into: &mut [u8], at: usize) -> usize
    requires { at + 8 * ADDRESSEES ≤ length into.old }
    ensures { Appends into.old into.new at result (8 * ADDRESSEES) (flat_map number_bytes desk.now.lines) }
{
    let mut end = at;
    for line in 0..ADDRESSEES {
        end = write_number(desk.lines[line], into, end);
    }
    end
}

/// Writes the counters.
fn write_desk(desk: &Desk, into: &mut [u8]) -> usize
    requires { DESK_BYTES ≤ length into.old }
    ensures { Appends into.old into.new 0 result DESK_BYTES (desk_bytes desk.now) }
{
    let at = write_number(desk.messages, into, 0);
    let at = write_number(desk.orders, into, at);
    let at = write_number(desk.reports, into, at);
    let at = write_number(desk.trades, into, at);
    write_lines(desk, into, at)
}

/// Writes a last trade price, or that there is none.
fn write_last(last: Option<Price>, into: &mut [u8], at: usize) -> usize
    requires { at + 9 ≤ length into.old }
    ensures { Appends into.old into.new at result 9 (last_bytes last) }
{
    match last {
        None => {
            let at = write_bytes(&[0], into, at);
            write_number(0, into, at)
        }
        Some(price) => {
            let at = write_bytes(&[1], into, at);
            write_price(price, into, at)
        }
    }
}

/// The order number of the TOP order of a side, 0 for none.
fn top_number<B: Book>(book: &B, instrument: u8, side: Side) -> u64
    requires { instrument < (B.book book.now).instruments }
    ensures { result ≡ top_number instrument side (B.book book.now).resting }
{
    book.rules();
    match book.top(instrument, side) {
        None => 0,
        Some(slot) => book.order(slot).number,
    }
}

/// Writes the part of an instrument: its last trade price and its TOP orders.
fn write_instrument<B: Book>(core: &Core<B>, instrument: u8, into: &mut [u8], at: usize) -> usize
    requires book { instrument < core.now.book.instruments }
    requires prices { instrument < length core.now.last }
    requires room { at + INSTRUMENT_BYTES ≤ length into.old }
    ensures { Appends into.old into.new at result INSTRUMENT_BYTES (instrument_bytes core.now instrument) }
{
    let book = core.book();
    let at = write_last(core.last(instrument), into, at);
    let at = write_number(top_number(book, instrument, Side::Buy), into, at);
    write_number(top_number(book, instrument, Side::Sell), into, at)
}

/// Writes the parts of all instruments.
fn write_instruments<B: Book>(
    core: &Core<B>,
    product: &Product,
    into: &mut [u8],
    at: usize,
) -> usize
    requires fits { FitsProduct product.now core.now }
    requires room { at + INSTRUMENT_BYTES * core.now.book.instruments ≤ length into.old }
    ensures { Appends into.old into.new at result (INSTRUMENT_BYTES * core.now.book.instruments) (instruments_bytes core.now 0 core.now.book.instruments) }
{
    let mut end = at;
    for instrument in 0..product.names().instrument_count() {
        end = write_instrument(core, instrument as u8, into, end);
    }
    end
}

/// Writes the rows of the orders at a price, by priority.
fn write_level<B: Book>(
    book: &B,
    instrument: u8,
    side: Side,
    price: Price,
    into: &mut [u8],
    at: usize,
) -> usize
    requires book { instrument < (B.book book.now).instruments }
    requires room { at + ROW_BYTES * length (orders_at (level instrument side price) (B.book book.now).resting) ≤ length into.old }
    ensures { AppendsRows into.old into.new at result (orders_at (level instrument side price) (B.book book.now).resting) }
{
    book.rules();
    let mut end = at;
    let mut next = book.first(instrument, side, price);
    while let Some(slot) = next {
        end = write_row(book.order(slot), into, end);
        next = book.next(slot);
    }
    end
}

/// Writes the rows of a side, from the best price on.
fn write_side<B: Book>(book: &B, instrument: u8, side: Side, into: &mut [u8], at: usize) -> usize
    requires book { instrument < (B.book book.now).instruments }
    requires room { at + ROW_BYTES * length (side_of instrument side (B.book book.now).resting) ≤ length into.old }
    ensures { AppendsRows into.old into.new at result (side_of instrument side (B.book book.now).resting) }
{
    book.rules();
    let mut end = at;
    let mut next = book.best(instrument, side);
    while let Some(price) = next {
        end = write_level(book, instrument, side, price, into, end);
        next = book.worse(instrument, side, price);
    }
    end
}

/// Writes the rows of the resting orders of an instrument, the buys and then the sells.
fn write_sides<B: Book>(book: &B, instrument: u8, into: &mut [u8], at: usize) -> usize
    requires book { instrument < (B.book book.now).instruments }
    requires room { at + ROW_BYTES * length (filter (is_of instrument) (B.book book.now).resting) ≤ length into.old }
    ensures { AppendsRows into.old into.new at result (filter (is_of instrument) (B.book book.now).resting) }
{
    book.rules();
    let at = write_side(book, instrument, Side::Buy, into, at);
    write_side(book, instrument, Side::Sell, into, at)
}

/// Writes the rows of the waiting stops of an instrument.
fn write_stops<B: Book>(book: &B, instrument: u8, into: &mut [u8], at: usize) -> usize
    requires book { instrument < (B.book book.now).instruments }
    requires room { at + ROW_BYTES * length (stops_of instrument (B.book book.now).waiting) ≤ length into.old }
    ensures { AppendsRows into.old into.new at result (stops_of instrument (B.book book.now).waiting) }
{
    book.rules();
    let mut end = at;
    let mut next = book.first_waiting(instrument);
    while let Some(slot) = next {
        end = write_row(book.order(slot), into, end);
        next = book.next_waiting(slot);
    }
    end
}

/// Writes the number of rows into the gap that was left for it.
fn fill_count(count: usize, into: &mut [u8], at: usize)
    requires room { at + COUNT_BYTES ≤ length into.old }
    requires small { count < 2 ^ 32 }
    ensures filled { into.new ≡ take at into.old ++ count_bytes count ++ drop (at + COUNT_BYTES) into.old }
    ensures size { length into.new ≡ length into.old }
{
    into[at..at + COUNT_BYTES].copy_from_slice(&(count as u32).to_be_bytes());
}

/// Writes the number of the resting orders, and their rows in book order.
fn write_resting<B: Book>(book: &B, product: &Product, into: &mut [u8], at: usize) -> usize
    requires instruments { (B.book book.now).instruments ≡ length product.now.names.instruments }
    requires room { at + COUNT_BYTES + ROW_BYTES * length (B.book book.now).resting ≤ length into.old }
    ensures { Appends into.old into.new at result (COUNT_BYTES + ROW_BYTES * length (B.book book.now).resting) (rows_bytes (B.book book.now).resting) }
{
    book.rules();
    let rows = at + COUNT_BYTES;
    let mut end = rows;
    for instrument in 0..product.names().instrument_count() {
        end = write_sides(book, instrument as u8, into, end);
    }
    let orders = (end - rows) / ROW_BYTES;
    fill_count(orders, into, at);
    end
}

/// Writes the number of the waiting stops, and their rows.
fn write_waiting<B: Book>(book: &B, product: &Product, into: &mut [u8], at: usize) -> usize
    requires instruments { (B.book book.now).instruments ≡ length product.now.names.instruments }
    requires room { at + COUNT_BYTES + ROW_BYTES * length (B.book book.now).waiting ≤ length into.old }
    ensures { Appends into.old into.new at result (COUNT_BYTES + ROW_BYTES * length (B.book book.now).waiting) (rows_bytes (B.book book.now).waiting) }
{
    book.rules();
    let rows = at + COUNT_BYTES;
    let mut end = rows;
    for instrument in 0..product.names().instrument_count() {
        end = write_stops(book, instrument as u8, into, end);
    }
    let stops = (end - rows) / ROW_BYTES;
    fill_count(stops, into, at);
    end
}

/// Writes the image of a core's state into the front of `into`, and answers how many bytes that takes, which is the `image_len` of
/// its instruments and live orders. What comes after them is left open.
pub fn write_image<B: Book>(core: &Core<B>, product: &Product, into: &mut [u8]) -> usize
    requires fits { FitsProduct product.now core.now }
    requires room { image_len core.now.book.instruments (length (live_orders core.now.book)) ≤ length into.old }
    ensures image { take result into.new ≡ image_of (state_numbered core.now) }
    ensures count { result ≡ image_len core.now.book.instruments (length (live_orders core.now.book)) }
    ensures size { length into.new ≡ length into.old }
{
    let at = write_desk(core.desk(), into);
    let at = write_instruments(core, product, into, at);
    let at = write_resting(core.book(), product, into, at);
    let at = write_waiting(core.book(), product, into, at);
    let session = match core.trading() {
        Trading::Open => OPEN,
        Trading::Closed => CLOSED,
    };
    write_bytes(&[session], into, at)
}
