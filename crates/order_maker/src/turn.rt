//! Whose each message is, and what it is about.
ghost use Rattle.std.specs.Prelude.{◌≡◌, ◌+◌, ◌%◌, ◌^◌, ◌<◌, ◌≤◌, length};
ghost use Rattle.order_maker.specs.Messages.{firm_at, instrument_at, side_at};
ghost use Rattle.order_maker.specs.Inner.{IsTurn, side_after};

use gx_base::Side;
use product_file::Product;

/// The number of a message, the numbers of its firm and its instrument, and its side.
#[derive(Clone, Copy)]
pub(crate) struct Turn {
    pub(crate) number: u64,
    pub(crate) firm: u8,
    pub(crate) instrument: u8,
    pub(crate) side: Side,
}

/// The turn of the message with this number.
#[inline(always)]
pub(crate) fn turn_at(product: &Product, number: u64) -> Turn
    ensures turn { IsTurn product.now result }
    ensures number { result.number ≡ number }
{
    Turn {
        number,
        firm: firm_at(product, number),
        instrument: instrument_at(product, number),
        side: side_at(product, number),
    }
}

/// The number of the firm that the message with this number is of: the firms take turns.
#[inline(always)]
fn firm_at(product: &Product, number: u64) -> u8
    ensures firm { result ≡ firm_at product.now number }
    ensures listed { result < length product.now.names.firms }
{
    product.limits();
    let firms = product.names().firm_count() as u64;
    (number.saturating_sub(1) % firms) as u8
}

/// The number of the instrument of the message with this number: the instruments take turns, too.
#[inline(always)]
fn instrument_at(product: &Product, number: u64) -> u8
    ensures instrument { result ≡ instrument_at product.now number }
    ensures listed { result < length product.now.names.instruments }
{
    product.limits();
    let instruments = product.names().instrument_count() as u64;
    (number % instruments) as u8
}

/// The side of the message with this number: a round of the firms buys, and the next one sells.
#[inline(always)]
fn side_at(product: &Product, number: u64) -> Side
    ensures { result ≡ side_at product.now number }
{
    product.limits();
    let firms = product.names().firm_count() as u64;
    if number / firms % 2 == 0 {
        Side::Buy
    } else {
        Side::Sell
    }
}

/// The turn of the message after one, step by step: by its number it would take three quotients.
#[inline(always)]
pub(crate) fn turn_after(product: &Product, turn: &Turn) -> Turn
    requires some { 1 ≤ turn.now.number }
    requires few { turn.now.number < 2 ^ 32 }
    requires turn { IsTurn product.now turn.now }
    ensures turn { IsTurn product.now result }
    ensures number { result.number ≡ turn.now.number + 1 }
{
    let names = product.names();
    let firm = next_of(turn.firm, names.firm_count());
    Turn {
        number: turn.number + 1,
        firm,
        instrument: next_of(turn.instrument, names.instrument_count()),
        side: side_after(turn.side, firm, names.firm_count()),
    }
}

/// The next of so many numbers, which take turns.
#[inline(always)]
fn next_of(number: u8, count: usize) -> u8
    requires listed { number < count }
    requires few { count < 256 }
    ensures next { result ≡ (number + 1) % count }
    ensures listed { result < count }
{
    let next = number + 1;
    if (next as usize) < count { next } else { 0 }
}

/// The side of a message of this firm of so many, after one of that side. The last firm begins a round, since the first firm has the
/// message with number 1.
#[inline(always)]
fn side_after(side: Side, firm: u8, firms: usize) -> Side
    ensures { result ≡ side_after side firm firms }
{
    if firm as usize + 1 < firms {
        return side;
    }
    match side {
        Side::Buy => Side::Sell,
        Side::Sell => Side::Buy,
    }
}
