//! Writing an order as a row. Each call writes after the first `at` bytes of `into`, and answers where what it wrote ends.
ghost use Rattle.std.specs.Prelude.{◌≡◌, ◌+◌, ◌≤◌, length};
ghost use Rattle.book_image.specs.Rows.{number_bytes, count_bytes, price_bytes, order_row, side_byte, order_kind_byte, life_byte};
ghost use Rattle.book_image.specs.Inner.Writing.{Appends, name_bytes, mark_bytes};

use crate::format::{COUNT_BYTES, ROW_BYTES};
use gx_base::{Kind, LONGEST_NAME, Life, Order, Price, ShortId, Side, append};

/// The number of a side.
fn side_byte(side: Side) -> u8
    ensures { result ≡ side_byte side }
{
    match side {
        Side::Buy => 1,
        Side::Sell => 2,
    }
}

/// The number of an order type.
fn order_kind_byte(kind: Kind) -> u8
    ensures { result ≡ order_kind_byte kind }
{
    match kind {
        Kind::Market => 1,
        Kind::Limit => 2,
        Kind::StopLimit => 4,
    }
}

/// The number of a time in force.
fn life_byte(life: Life) -> u8
    ensures { result ≡ life_byte life }
{
    match life {
        Life::Day => 0,
        Life::Gtc => 1,
        Life::Fak => 3,
        Life::Fok => 4,
    }
}

/// Writes these bytes.
pub(crate) fn write_bytes(bytes: &[u8], into: &mut [u8], at: usize) -> usize
    requires { at + length bytes.now ≤ length into.old }
    ensures { Appends into.old into.new at result (length bytes.now) bytes.now }
{
    append(into, at, bytes)
}

/// Writes a number.
pub(crate) fn write_number(number: u64, into: &mut [u8], at: usize) -> usize
    requires { at + 8 ≤ length into.old }
    ensures { Appends into.old into.new at result 8 (number_bytes number) }
{
    write_bytes(&number.to_be_bytes(), into, at)
}

/// Writes a quantity or a count.
pub(crate) fn write_count(count: u32, into: &mut [u8], at: usize) -> usize
    requires { at + COUNT_BYTES ≤ length into.old }
    ensures { Appends into.old into.new at result COUNT_BYTES (count_bytes count) }
{
    write_bytes(&count.to_be_bytes(), into, at)
}

/// Writes a price.
pub(crate) fn write_price(price: Price, into: &mut [u8], at: usize) -> usize
    requires { at + 8 ≤ length into.old }
    ensures { Appends into.old into.new at result 8 (price_bytes price) }
{
    write_number(price.0.cast_unsigned(), into, at)
}

/// Writes an id after its length, filled up with zeros.
fn write_name(id: &ShortId, into: &mut [u8], at: usize) -> usize
    requires { at + (1 + LONGEST_NAME) ≤ length into.old }
    ensures { Appends into.old into.new at result (1 + LONGEST_NAME) (name_bytes id.now) }
{
    let bytes = id.bytes();
    let zeros = [0; LONGEST_NAME];
    let at = write_bytes(&[bytes.len() as u8], into, at);
    let at = write_bytes(bytes, into, at);
    write_bytes(&zeros[bytes.len()..], into, at)
}

/// Writes the firm, the instrument, the side, the order type and the time in force of an order, a byte each.
fn write_marks(order: &Order, into: &mut [u8], at: usize) -> usize
    requires { at + 5 ≤ length into.old }
    ensures { Appends into.old into.new at result 5 (mark_bytes order.now) }
{
    let marks = [
        order.firm,
        order.instrument,
        side_byte(order.side),
        order_kind_byte(order.kind),
        life_byte(order.life),
    ];
    write_bytes(&marks, into, at)
}

/// Writes the row of an order.
pub(crate) fn write_row(order: &Order, into: &mut [u8], at: usize) -> usize
    requires { at + ROW_BYTES ≤ length into.old }
    ensures { Appends into.old into.new at result ROW_BYTES (order_row order.now) }
{
    let at = write_number(order.number, into, at);
    let at = write_marks(order, into, at);
    let at = write_name(&order.id, into, at);
    let at = write_price(order.price, into, at);
    let at = write_price(order.trigger, into, at);
    let at = write_count(order.quantity, into, at);
    let at = write_count(order.filled, into, at);
    let at = write_count(order.leaves, into, at);
    let at = write_count(order.show, into, at);
    let at = write_count(order.shown, into, at);
    let at = write_count(order.min, into, at);
    write_count(order.prorated, into, at)
}
