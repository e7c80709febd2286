//! The bodies of messages, field by field. As in `rows`, each call writes after the first `at` bytes and begins with the byte that ends
//! the field before, and answers where the last value ends. A field takes at most `LONGEST_FIELD` bytes.
ghost use Rattle.std.specs.Prelude.{◌≡◌, ◌+◌, ◌*◌, ◌<◌, ◌≤◌, [], ◌∷◌, ◌++◌, decimal, length, take};
ghost use Rattle.gx_base.specs.Frames.{field};
ghost use Rattle.gx_base.specs.Line.{side_text};
ghost use Rattle.line_parts.specs.Rows.{ended};
ghost use Rattle.order_maker.specs.Inner.{IsTurn};
ghost use Rattle.order_maker.specs.Stream.{id_of, head_fields, tick_at, order_fields, body_of};

use crate::made::Made;
use crate::turn::{Turn, turn_at};
use gx_base::{Price, Side};
use line_parts::fields::LONGEST_FIELD;
use line_parts::rows::{counter, end_row, last_text, letter, name, number, price};
use product_file::{MOST_TICK, Product};

/// Writes the body of a message: at most 12 fields, and the byte that ends the last.
#[inline(always)]
pub(crate) fn write_body(
    into: &mut [u8],
    at: usize,
    product: &Product,
    turn: &Turn,
    made: &Made,
) -> usize
    requires room { at + 12 * LONGEST_FIELD < length into.old }
    requires turn { IsTurn product.now turn.now }
    ensures body { take result into.new ≡ ended at into.old ++ body_of product.now turn.now.number made.now }
    ensures short { result ≤ at + 12 * LONGEST_FIELD + 1 }
{
    match *made {
        Made::New { lots, ticks } => {
            let at = front_fields(into, at, product, b'D', turn.number, turn);
            let at = order_fields(into, at, product, turn, lots, ticks);
            last_text(into, at, b"\x0159=0\x01")
        }
        Made::Cancel { target } => {
            let owner = turn_at(product, target);
            let at = front_fields(into, at, product, b'F', turn.number, &owner);
            let at = counter(into, at, b"\x0141=G", target);
            end_row(into, at)
        }
        Made::Replace {
            target,
            lots,
            ticks,
        } => {
            let owner = turn_at(product, target);
            let at = front_fields(into, at, product, b'G', turn.number, &owner);
            let at = counter(into, at, b"\x0141=G", target);
            let at = order_fields(into, at, product, &owner, lots, ticks);
            end_row(into, at)
        }
    }
}

/// Type, sender, exchange, number, time and id of a message, which the firm of the message `owner` sends.
#[inline(always)]
fn front_fields(
    into: &mut [u8],
    at: usize,
    product: &Product,
    message_type: u8,
    message: u64,
    owner: &Turn,
) -> usize
    requires room { at + 6 * LONGEST_FIELD ≤ length into.old }
    requires owner { IsTurn product.now owner.now }
    ensures fields { ended result into.new ≡ ended at into.old
        ++ (head_fields product.now (message_type ∷ []) message owner.now.number ++ field "11" (id_of message)) }
    ensures short { result ≤ at + 6 * LONGEST_FIELD }
{
    let names = product.names();
    let at = letter(into, at, b"\x0135=", message_type);
    let at = name(into, at, b"\x0149=", names.firm(owner.firm));
    let at = name(into, at, b"\x0156=", names.exchange());
    let at = counter(into, at, b"\x0134=", message);
    counter(into, at, b"\x0152=20240102-00:00:00\x0111=G", message)
}

/// A limit order on the instrument and the side of a message.
#[inline(always)]
fn order_fields(
    into: &mut [u8],
    at: usize,
    product: &Product,
    turn: &Turn,
    lots: u32,
    ticks: u32,
) -> usize
    requires room { at + 5 * LONGEST_FIELD ≤ length into.old }
    requires turn { IsTurn product.now turn.now }
    ensures fields { ended result into.new ≡ ended at into.old ++ order_fields product.now turn.now.number lots ticks }
    ensures short { result ≤ at + 5 * LONGEST_FIELD }
{
    let instrument = product.names().listed(turn.instrument);
    let units = u64::from(ticks) * tick_of(product, turn);
    let at = name(into, at, b"\x0155=", &instrument.name);
    let at = side_fields(into, at, turn.side, lots);
    price(
        into,
        at,
        b"\x0140=2\x0144=",
        Price(units as i64),
        instrument.decimals,
    )
}

/// A side, and so many lots.
#[inline(always)]
fn side_fields(into: &mut [u8], at: usize, side: Side, lots: u32) -> usize
    requires { at + 2 * LONGEST_FIELD ≤ length into.old }
    ensures fields { ended result into.new ≡ ended at into.old ++ (field "54" (side_text side) ++ field "38" (decimal lots)) }
    ensures short { result ≤ at + 2 * LONGEST_FIELD }
{
    match side {
        Side::Buy => number(into, at, b"\x0154=1\x0138=", u64::from(lots)),
        Side::Sell => number(into, at, b"\x0154=2\x0138=", u64::from(lots)),
    }
}

/// The tick of the message's instrument, in price units.
#[inline(always)]
fn tick_of(product: &Product, turn: &Turn) -> u64
    requires { IsTurn product.now turn.now }
    ensures tick { result ≡ tick_at product.now turn.now.number }
    ensures few { result ≤ MOST_TICK }
{
    product.limits();
    let rule = product.rule(turn.instrument);
    rule.tick.unsigned_abs()
}
