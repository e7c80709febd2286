//! Pieces of a printed line: a label and a value. Each call writes after the first `at` bytes of the room that it is lent, and
//! answers where what it wrote ends, at most `LONGEST_PIECE` bytes further.
ghost use Rattle.std.specs.Prelude.{◌≡◌, ◌+◌, ◌*◌, ◌≤◌, ◌++◌, length, take, decimal};
ghost use Rattle.gx_base.specs.Numbers.{price_text};
ghost use Rattle.line_parts.specs.Words.{line_feed, order_words};

use crate::price::write_price;
use gx_base::{LONGEST_VALUE, MOST_DECIMALS, Names, Order, Price, addressee, append};
use itoa::Buffer;

/// How many bytes a label has at most.
pub const LONGEST_LABEL: usize = 16;

/// How many bytes a label and a value have at most.
pub const LONGEST_PIECE: usize = LONGEST_LABEL + LONGEST_VALUE;

/// Writes a label and a text.
pub fn text(into: &mut [u8], at: usize, label: &[u8], value: &[u8]) -> usize
    requires room { at + LONGEST_PIECE ≤ length into.old }
    requires label { length label.now ≤ LONGEST_LABEL }
    requires value { length value.now ≤ LONGEST_VALUE }
    ensures piece { take result into.new ≡ take at into.old ++ (label.now ++ value.now) }
    ensures short { result ≤ at + LONGEST_PIECE }
{
    let end = append(into, at, label);
    append(into, end, value)
}

/// Writes a label and a number.
pub fn number(into: &mut [u8], at: usize, label: &[u8], n: u64) -> usize
    requires room { at + LONGEST_PIECE ≤ length into.old }
    requires label { length label.now ≤ LONGEST_LABEL }
    ensures piece { take result into.new ≡ take at into.old ++ (label.now ++ decimal n) }
    ensures short { result ≤ at + LONGEST_PIECE }
{
    let mut digits = Buffer::new();
    text(into, at, label, digits.format(n).as_bytes())
}

/// Writes a label and a price with so many decimals.
pub fn price(into: &mut [u8], at: usize, label: &[u8], price: Price, decimals: u8) -> usize
    requires room { at + LONGEST_PIECE ≤ length into.old }
    requires label { length label.now ≤ LONGEST_LABEL }
    requires decimals { decimals ≤ MOST_DECIMALS }
    ensures piece { take result into.new ≡ take at into.old ++ (label.now ++ price_text price decimals) }
    ensures short { result ≤ at + LONGEST_PIECE }
{
    let mut digits = [0; LONGEST_VALUE];
    let count = write_price(price, decimals, &mut digits);
    text(into, at, label, &digits[..count])
}

/// Writes which order it is: its number, its firm and its id, in three pieces.
pub fn order_words(into: &mut [u8], at: usize, names: &Names, order: &Order) -> usize
    requires room { at + 3 * LONGEST_PIECE ≤ length into.old }
    ensures words { take result into.new ≡ take at into.old ++ order_words names.now order.now }
    ensures short { result ≤ at + 3 * LONGEST_PIECE }
{
    let firm = addressee(names, Some(order.firm));
    let at = number(into, at, b" #", order.number);
    let at = text(into, at, b" ", firm.bytes());
    text(into, at, b" ", order.id.bytes())
}

/// Ends a line.
pub fn end_line(into: &mut [u8], at: usize) -> usize
    requires room { at + LONGEST_PIECE ≤ length into.old }
    ensures ended { take result into.new ≡ take at into.old ++ line_feed }
    ensures short { result ≤ at + LONGEST_PIECE }
{
    append(into, at, b"\n")
}
