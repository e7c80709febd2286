//! What is wrong with the rows of an image.
ghost use Rattle.std.specs.Prelude.{◌≡◌, ◌+◌, ◌*◌, ◌<◌, ◌≤◌, [], true, not, if◌then◌else◌, List, length, None, Some, IfSome};
ghost use Rattle.plain_book.specs.Orders.{is_live, is_before, level_of};
ghost use Rattle.plain_book.specs.Book.{live_orders};
ghost use Rattle.book_image.specs.Rows.{row_at, order_of_row};
ghost use Rattle.book_image.specs.Rules.{crosses};
ghost use Rattle.book_image.specs.Faults.{orders_at};
ghost use Rattle.book_image.specs.Inner.Checking.{is_resting_alone, is_waiting_alone, resting_fault, waiting_fault, HasNames, TakesName, IsAsMade, stop_named, is_behind, is_clear_of, fits_behind, is_of_instrument, best_buy_with, front_with};

use crate::format::ROW_BYTES;
use crate::read_row::{has_forms, order_of_row};
use crate::rules::{is_right_order, is_right_resting, is_right_waiting, may_live};
use book_order::{is_better_price, is_same_side, is_side_before};
use gx_base::{Kind, Life, MOST_FIRMS, Order, Price, ShortId, Side, Trading};
use plain_book::Book;
use product_file::Product;

/// What is asked of each order by what the image says beside its rows: how many orders have been given a number, and the session.
#[derive(Clone, Copy)]
pub(crate) struct Asked {
    pub(crate) given: u64,
    pub(crate) trading: Trading,
}

/// What is kept of the resting orders before a row: the last one, and the best buy order of its instrument.
#[derive(Clone, Copy)]
pub(crate) struct Front {
    pub(crate) last: Option<Order>,
    pub(crate) best_buy: Option<Order>,
}

/// A row of an image, by its number among those from a place on.
pub(crate) fn row_at(payload: &[u8], first: usize, k: usize) -> &[u8]
    requires { first + ROW_BYTES * (k + 1) ≤ length payload.now }
    ensures row { result.now ≡ row_at payload.now first k }
    ensures length { length result.now ≡ ROW_BYTES }
{
    let at = first + ROW_BYTES * k;
    &payload[at..at + ROW_BYTES]
}

/// Whether an order stands before another one in the order of the book.
fn is_before(a: &Order, b: &Order) -> bool
    ensures { result ≡ is_before (level_of a.now) (level_of b.now) }
{
    a.instrument < b.instrument
        || (a.instrument == b.instrument
            && (is_side_before(a.side, b.side)
                || (is_same_side(a.side, b.side) && is_better_price(a.side, a.price, b.price))))
}

/// Whether an order is a sell that a buy order of its instrument could trade with.
fn crosses(order: &Order, before: &Order) -> bool
    ensures { result ≡ crosses order.now before.now }
{
    before.instrument == order.instrument
        && is_same_side(before.side, Side::Buy)
        && is_same_side(order.side, Side::Sell)
        && before.price.0 >= order.price.0
}

/// Whether an order stands after the last one, if there is one.
fn is_behind(last: &Option<Order>, order: &Order) -> bool
    ensures { result ≡ is_behind last.now order.now }
{
    match last {
        None => true,
        Some(last) => !is_before(order, last),
    }
}

/// Whether the best buy order, if there is one, could not trade with an order.
fn is_clear_of(best: &Option<Order>, order: &Order) -> bool
    ensures { result ≡ is_clear_of best.now order.now }
{
    match best {
        None => true,
        Some(best) => !crosses(order, best),
    }
}

/// Whether an order may come after these.
fn fits_behind(front: &Front, order: &Order) -> bool
    ensures { result ≡ fits_behind front.now order.now }
{
    is_behind(&front.last, order) && is_clear_of(&front.best_buy, order)
}

/// Whether an order, if there is one, is of an instrument.
fn is_of_instrument(instrument: u8, order: &Option<Order>) -> bool
    ensures { result ≡ is_of_instrument instrument order.now }
{
    match order {
        None => false,
        Some(order) => order.instrument == instrument,
    }
}

/// The best buy order of the instrument of an order, which comes last.
fn best_buy_with(best: &Option<Order>, order: &Order) -> Option<Order>
    ensures { result ≡ best_buy_with best.now order.now }
{
    if is_same_side(order.side, Side::Buy) && !is_of_instrument(order.instrument, best) {
        return Some(*order);
    }
    *best
}

/// The front with an order after it.
fn front_with(front: &Front, order: &Order) -> Front
    ensures { result ≡ front_with front.now order.now }
{
    Front {
        last: Some(*order),
        best_buy: best_buy_with(&front.best_buy, order),
    }
}

/// A stop that has this name, and is fit to wait.
fn stop_named(firm: u8, id: ShortId) -> Order
    ensures { result ≡ stop_named firm id }
{
    Order {
        number: 1,
        firm,
        instrument: 0,
        side: Side::Buy,
        id,
        kind: Kind::StopLimit,
        price: Price(0),
        trigger: Price(0),
        quantity: 1,
        filled: 0,
        leaves: 1,
        show: 0,
        shown: 0,
        min: 0,
        life: Life::Day,
        prorated: 0,
    }
}

/// Takes in the name of an order where it is new, and answers whether it is. The book has a stop for each name.
fn take_name<B: Book>(book: &mut B, firm: u8, id: ShortId) -> bool
    requires room { length (live_orders (B.book book.old)) < (B.book book.old).capacity }
    requires instruments { 0 < (B.book book.old).instruments }
    requires firm { firm < MOST_FIRMS }
    ensures new { result ≡ not (is_live firm id (live_orders (B.book book.old))) }
    ensures made { IsAsMade (B.book book.old) (B.book book.new) }
    ensures takes { result ≡ true → TakesName firm id (B.book book.old) (B.book book.new) }
{
    book.rules();
    if book.find(firm, &id).is_some() {
        return false;
    }
    book.wait(stop_named(firm, id));
    true
}

/// The order of a row that is right by itself, as one that rests.
fn resting_order(product: &Product, asked: Asked, row: &[u8]) -> Option<Order>
    requires { length row.now ≡ ROW_BYTES }
    ensures order { result ≡ (if is_resting_alone product.now asked row.now then Some (order_of_row row.now) else None) }
    ensures firm { IfSome result (λ order. order.firm < MOST_FIRMS) }
{
    if !has_forms(row) {
        return None;
    }
    let order = order_of_row(row);
    if !is_right_order(product, asked.given, &order) {
        return None;
    }
    if !is_right_resting(&order) {
        return None;
    }
    if !may_live(asked.trading, &order) {
        return None;
    }
    Some(order)
}

/// The order of a row that is right by itself, as one that waits.
fn waiting_order(product: &Product, asked: Asked, row: &[u8]) -> Option<Order>
    requires { length row.now ≡ ROW_BYTES }
    ensures order { result ≡ (if is_waiting_alone product.now asked row.now then Some (order_of_row row.now) else None) }
    ensures firm { IfSome result (λ order. order.firm < MOST_FIRMS) }
{
    if !has_forms(row) {
        return None;
    }
    let order = order_of_row(row);
    if !is_right_order(product, asked.given, &order) {
        return None;
    }
    if !is_right_waiting(product, &order) {
        return None;
    }
    if !may_live(asked.trading, &order) {
        return None;
    }
    Some(order)
}

/// The place of the first of some resting rows that is wrong. The book, which has no order yet, takes in their names.
pub(crate) fn resting_fault<B: Book>(
    payload: &[u8],
    product: &Product,
    asked: Asked,
    first: usize,
    count: u32,
    book: &mut B,
) -> Option<u64>
    requires rows { first + ROW_BYTES * count ≤ length payload.now }
    requires room { count ≤ (B.book book.old).capacity }
    requires instruments { 0 < (B.book book.old).instruments }
    requires new { live_orders (B.book book.old) ≡ [] }
    ensures fault { result ≡ resting_fault product.now asked payload.now first count }
    ensures made { IsAsMade (B.book book.old) (B.book book.new) }
    ensures names { result ≡ None → HasNames (B.book book.new) (orders_at payload.now first count) }
    ensures count { result ≡ None → length (live_orders (B.book book.new)) ≡ count }
{
    let mut front = Front {
        last: None,
        best_buy: None,
    };
    for k in 0..count as usize {
        let at = (first + ROW_BYTES * k) as u64;
        let Some(order) = resting_order(product, asked, row_at(payload, first, k)) else {
            return Some(at);
        };
        if !fits_behind(&front, &order) {
            return Some(at);
        }
        if !take_name(book, order.firm, order.id) {
            return Some(at);
        }
        front = front_with(&front, &order);
    }
    None
}

/// The place of the first of some waiting rows that is wrong. The book, which has the names of the resting orders, takes in their
/// names.
pub(crate) fn waiting_fault<B: Book>(
    payload: &[u8],
    product: &Product,
    asked: Asked,
    first: usize,
    count: u32,
    book: &mut B,
) -> Option<u64>
    ghost resting: { List Order }
    requires rows { first + ROW_BYTES * count ≤ length payload.now }
    requires room { length (live_orders (B.book book.old)) + count ≤ (B.book book.old).capacity }
    requires instruments { 0 < (B.book book.old).instruments }
    requires names { HasNames (B.book book.old) resting }
    ensures fault { result ≡ waiting_fault product.now asked resting payload.now first count }
    ensures made { IsAsMade (B.book book.old) (B.book book.new) }
{
    let mut instrument = 0;
    for k in 0..count as usize {
        let at = (first + ROW_BYTES * k) as u64;
        let Some(order) = waiting_order(product, asked, row_at(payload, first, k)) else {
            return Some(at);
        };
        if order.instrument < instrument {
            return Some(at);
        }
        if !take_name(book, order.firm, order.id) {
            return Some(at);
        }
        instrument = order.instrument;
    }
    None
}
