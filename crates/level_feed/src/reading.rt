//! Lines of the feed, read.
ghost use Rattle.std.specs.Prelude.{◌≡◌, ◌<◌, ◌≤◌, IsTrue, IfSome, ◌&&◌, ◌||◌, ◌==◌, not, nat_le, length, take, drop, slice_get, slice_index, option_map, bytes_eq, codes};
ghost use Rattle.std.specs.Str.Parse.{digits_value};
ghost use Rattle.gx_base.specs.Numbers.{are_digits, price_of};
ghost use Rattle.level_feed.specs.Lines.{listing_of};
ghost use Rattle.level_feed.specs.Lines.{Split, split_last, number_of, side_of, on_tick, price_at, snapshot_line, increment_line, row_line_of, line_of};
ghost use Rattle.level_feed.specs.Inner.{split_of, view_of, is_plain};

use crate::line::Line;
use crate::row::Row;
use gx_base::{Price, PriceFault, Side, are_digits, read_price};
use product_file::Product;
use std::cmp;

/// The greatest number that a line may have.
pub const GREATEST_NUMBER: u64 = 1 << 62;

/// How many digits a number has at most.
const MOST_DIGITS: usize = 19;

/// The place of the last space. `None` if there is none.
fn last_space(text: &[u8]) -> Option<usize>
    ensures place { option_map (split_of text.now) result ≡ split_last text.now }
    ensures within { IfSome result (λ at. at < length text.now) }
{
    let mut end = text.len();
    while end > 0 {
        if text[end - 1] == b' ' {
            return Some(end - 1);
        }
        end -= 1;
    }
    None
}

/// What comes before the last space, and the word after it. `None` if there is no space.
fn split_last(text: &[u8]) -> Option<(&[u8], &[u8])>
    ensures { option_map view_of result ≡ split_last text.now }
{
    let at = last_space(text)?;
    Some((&text[..at], &text[at + 1..]))
}

/// Whether these are one to `MOST_DIGITS` digits without a leading zero.
fn is_plain(text: &[u8]) -> bool
    ensures { result ≡ is_plain text.now }
{
    !text.is_empty()
        && text.len() <= MOST_DIGITS
        && are_digits(text)
        && (text[0] != b'0' || text.len() == 1)
}

/// The number that these digits write.
fn value_of(digits: &[u8]) -> u64
    requires { IsTrue (is_plain digits.now) }
    ensures { result ≡ digits_value 10 digits.now }
{
    let mut number = 0;
    for digit in digits {
        number = number * 10 + u64::from(*digit - b'0');
    }
    number
}

/// The number that is written so. `None` if a zero leads, if another byte than a digit is there, or if it is above
/// `GREATEST_NUMBER`.
fn read_number(text: &[u8]) -> Option<u64>
    ensures { result ≡ number_of text.now }
{
    if !is_plain(text) {
        return None;
    }
    let number = value_of(text);
    if number > GREATEST_NUMBER {
        return None;
    }
    Some(number)
}

/// The side of a letter.
fn read_side(text: &[u8]) -> Option<Side>
    ensures { result ≡ side_of text.now }
{
    if text == b"B".as_slice() {
        return Some(Side::Buy);
    }
    if text == b"S".as_slice() {
        return Some(Side::Sell);
    }
    None
}

/// A price that is a multiple of the tick.
fn on_tick(tick: u64, read: Result<Price, PriceFault>) -> Option<Price>
    requires { 1 ≤ tick }
    ensures { result ≡ on_tick tick read }
{
    match read {
        Ok(price) if price.0.unsigned_abs() % tick == 0 => Some(price),
        Ok(_) | Err(_) => None,
    }
}

/// A price of an instrument, as messages write it. `None` if it has another form, is out of range or off the tick.
fn read_price_at(product: &Product, instrument: u8, text: &[u8]) -> Option<Price>
    requires { instrument < length product.now.names.instruments }
    ensures { result ≡ price_at (listing_of product.now) instrument text.now }
{
    product.limits();
    let decimals = product.names().listed(instrument).decimals;
    let tick = product.rule(instrument).tick.unsigned_abs();
    on_tick(tick, read_price(text, decimals))
}

/// `K R`.
fn read_snapshot(text: &[u8]) -> Option<Line>
    ensures { result ≡ snapshot_line text.now }
{
    let (number, rows) = split_last(text)?;
    Some(Line::Snapshot {
        number: read_number(number)?,
        rows: read_number(rows)?,
    })
}

/// `K J C`.
fn read_increment(text: &[u8]) -> Option<Line>
    ensures { result ≡ increment_line text.now }
{
    let (front, rows) = split_last(text)?;
    let (number, last) = split_last(front)?;
    Some(Line::Increment {
        number: read_number(number)?,
        last: read_number(last)?,
        rows: read_number(rows)?,
    })
}

/// `NAME SIDE PRICE SHOWN COUNT`.
fn read_row(text: &[u8], product: &Product) -> Option<Line>
    ensures { result ≡ row_line_of (listing_of product.now) text.now }
{
    let (front, orders) = split_last(text)?;
    let (front, shown) = split_last(front)?;
    let (front, price) = split_last(front)?;
    let (name, side) = split_last(front)?;
    let instrument = product.names().find_instrument(name)?;
    let side = read_side(side)?;
    let price = read_price_at(product, instrument, price)?;
    let shown = read_number(shown)?;
    let orders = read_number(orders)?;
    Some(Line::Row(Row {
        instrument,
        side,
        price,
        shown,
        orders,
    }))
}

/// What a line says. `None` if it has no form of a line.
pub(crate) fn read_line(text: &[u8], product: &Product) -> Option<Line>
    ensures { result ≡ line_of (listing_of product.now) text.now }
{
    let (letter, words) = text.split_at(cmp::min(2, text.len()));
    if letter == b"S ".as_slice() {
        return read_snapshot(words);
    }
    if letter == b"I ".as_slice() {
        return read_increment(words);
    }
    if letter == b"R ".as_slice() {
        return read_row(words, product);
    }
    None
}
