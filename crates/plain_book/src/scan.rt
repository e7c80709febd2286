//! What is read from lists of live orders.
ghost use Rattle.std.specs.Prelude.{◌≡◌, ◌<◌, ◌≤◌, ◌^◌, ◌++◌, ℕ, true, false, length, option_map};
ghost use Rattle.plain_book.specs.Orders.{is_on, is_at, is_of, is_named, is_before, level, level_of, best_of, worse_of, worst_of, better_of, orders_at, stops_of, slot_of, slot_after, slot_named, order_of, HasSlot, shown_at, open_at, open_within, top_of, is_at_earlier_level, is_of_earlier_instrument, entry_at};
ghost use Rattle.plain_book.specs.Book.{slot_number};
ghost use Rattle.plain_book.specs.Waiting.{is_reached_by, reached_stops};

use crate::entry::Entry;
use book_order::{is_better_price, is_in_reach, is_same_price, is_same_side, is_side_before};
use gx_base::{Order, Price, ShortId, Side, Slot};

/// Whether an order stands on a side of an instrument.
pub(crate) fn is_on_side(entry: &Entry, instrument: u8, side: Side) -> bool
    ensures { result ≡ is_on instrument side entry.now }
{
    entry.order.instrument == instrument && is_same_side(entry.order.side, side)
}

fn is_at_price(entry: &Entry, instrument: u8, side: Side, price: Price) -> bool
    ensures { result ≡ is_at (level instrument side price) entry.now }
{
    entry.order.instrument == instrument
        && is_same_side(entry.order.side, side)
        && is_same_price(entry.order.price, price)
}

/// The best price of a side, of a list in book order.
pub(crate) fn best_price(entries: &[Entry], instrument: u8, side: Side) -> Option<Price>
    ensures { result ≡ best_of instrument side entries.now }
{
    for entry in entries {
        if is_on_side(entry, instrument, side) {
            return Some(entry.order.price);
        }
    }
    None
}

/// The best of the prices of a side that are worse than this one, of a list in book order.
pub(crate) fn worse_price(
    entries: &[Entry],
    instrument: u8,
    side: Side,
    price: Price,
) -> Option<Price>
    ensures { result ≡ worse_of instrument side price.0 entries.now }
{
    for entry in entries {
        if is_on_side(entry, instrument, side) && is_better_price(side, price, entry.order.price) {
            return Some(entry.order.price);
        }
    }
    None
}

/// The worst price of a side, of a list in book order.
pub(crate) fn worst_price(entries: &[Entry], instrument: u8, side: Side) -> Option<Price>
    ensures { result ≡ worst_of instrument side entries.now }
{
    let mut worst = None;
    for entry in entries {
        if is_on_side(entry, instrument, side) {
            worst = Some(entry.order.price);
        }
    }
    worst
}

/// The worst of the prices of a side that are better than this one, of a list in book order.
pub(crate) fn better_price(
    entries: &[Entry],
    instrument: u8,
    side: Side,
    price: Price,
) -> Option<Price>
    ensures { result ≡ better_of instrument side price.0 entries.now }
{
    let mut worst = None;
    for entry in entries {
        if is_on_side(entry, instrument, side) && is_better_price(side, entry.order.price, price) {
            worst = Some(entry.order.price);
        }
    }
    worst
}

/// The first order at a price.
pub(crate) fn first_at(entries: &[Entry], instrument: u8, side: Side, price: Price) -> Option<Slot>
    ensures { option_map slot_number result ≡ slot_of (orders_at (level instrument side price) entries.now) }
{
    for entry in entries {
        if is_at_price(entry, instrument, side, price) {
            return Some(Slot(entry.slot));
        }
    }
    None
}

/// The order after that of a slot, among those at the price of this order.
pub(crate) fn next_at(entries: &[Entry], slot: u32, order: &Order) -> Option<Slot>
    ensures { option_map slot_number result ≡ slot_after slot (orders_at (level_of order.now) entries.now) }
{
    let mut found = false;
    for entry in entries {
        if is_at_price(entry, order.instrument, order.side, order.price) {
            if found {
                return Some(Slot(entry.slot));
            }
            if entry.slot == slot {
                found = true;
            }
        }
    }
    None
}

/// How many orders stand at a price.
pub(crate) fn count_at(entries: &[Entry], instrument: u8, side: Side, price: Price) -> u32
    requires { length entries.now < 2 ^ 32 }
    ensures { result ≡ length (orders_at (level instrument side price) entries.now) }
{
    let mut count = 0u32;
    for entry in entries {
        if is_at_price(entry, instrument, side, price) {
            count += 1;
        }
    }
    count
}

/// How much is shown at a price.
pub(crate) fn shown_at_price(entries: &[Entry], instrument: u8, side: Side, price: Price) -> u64
    requires { length entries.now < 2 ^ 32 }
    ensures { result ≡ shown_at (level instrument side price) entries.now }
{
    let mut total = 0u64;
    for entry in entries {
        if is_at_price(entry, instrument, side, price) {
            total += u64::from(entry.order.shown);
        }
    }
    total
}

/// How much is open at a price.
pub(crate) fn open_at_price(entries: &[Entry], instrument: u8, side: Side, price: Price) -> u64
    requires { length entries.now < 2 ^ 32 }
    ensures { result ≡ open_at (level instrument side price) entries.now }
{
    let mut lots = 0u64;
    for entry in entries {
        if is_at_price(entry, instrument, side, price) {
            lots += u64::from(entry.order.leaves);
        }
    }
    lots
}

/// How much is open on a side within a limit.
pub(crate) fn open_lots(entries: &[Entry], instrument: u8, side: Side, limit: Price) -> u64
    requires { length entries.now < 2 ^ 32 }
    ensures { result ≡ open_within instrument side limit.0 entries.now }
{
    let mut total = 0u64;
    for entry in entries {
        if is_on_side(entry, instrument, side) && !is_better_price(side, limit, entry.order.price) {
            total += u64::from(entry.order.leaves);
        }
    }
    total
}

/// The order of a side that is marked as TOP.
pub(crate) fn top_slot(entries: &[Entry], instrument: u8, side: Side) -> Option<Slot>
    ensures { option_map slot_number result ≡ top_of instrument side entries.now }
{
    for entry in entries {
        if is_on_side(entry, instrument, side) && entry.is_top {
            return Some(Slot(entry.slot));
        }
    }
    None
}

fn is_stop_of(entry: &Entry, instrument: u8) -> bool
    ensures { result ≡ is_of instrument entry.now }
{
    entry.order.instrument == instrument
}

/// The first stop of an instrument.
pub(crate) fn first_stop(entries: &[Entry], instrument: u8) -> Option<Slot>
    ensures { option_map slot_number result ≡ slot_of (stops_of instrument entries.now) }
{
    for entry in entries {
        if is_stop_of(entry, instrument) {
            return Some(Slot(entry.slot));
        }
    }
    None
}

/// Whether a trade at a price from `least` to `greatest` reaches a stop.
fn is_reached_by(entry: &Entry, least: Price, greatest: Price) -> bool
    ensures { result ≡ is_reached_by (least, greatest) entry.now }
{
    is_in_reach(least, greatest, entry.order.side, entry.order.trigger)
}

/// The first stop of an instrument that a trade at a price from `least` to `greatest` reaches.
pub(crate) fn first_stop_reached(
    entries: &[Entry],
    instrument: u8,
    least: Price,
    greatest: Price,
) -> Option<Slot>
    ensures { option_map slot_number result ≡ slot_of (reached_stops instrument (least, greatest) entries.now) }
{
    for entry in entries {
        if is_stop_of(entry, instrument) && is_reached_by(entry, least, greatest) {
            return Some(Slot(entry.slot));
        }
    }
    None
}

/// The stop of an instrument after that of a slot.
pub(crate) fn next_stop(entries: &[Entry], slot: u32, instrument: u8) -> Option<Slot>
    ensures { option_map slot_number result ≡ slot_after slot (stops_of instrument entries.now) }
{
    let mut found = false;
    for entry in entries {
        if is_stop_of(entry, instrument) {
            if found {
                return Some(Slot(entry.slot));
            }
            if entry.slot == slot {
                found = true;
            }
        }
    }
    None
}

/// The order of a slot.
pub(crate) fn order_at(entries: &[Entry], slot: u32) -> &Order
    requires { HasSlot slot entries.now }
    ensures { result.now ≡ order_of slot entries.now }
{
    for entry in entries {
        if entry.slot == slot {
            return &entry.order;
        }
    }
    unreachable!()
}

/// The order of a slot, in either of two lists.
pub(crate) fn order_in<'a>(resting: &'a [Entry], waiting: &'a [Entry], slot: u32) -> &'a Order
    requires { HasSlot slot (resting.now ++ waiting.now) }
    ensures { result.now ≡ order_of slot (resting.now ++ waiting.now) }
{
    for entry in resting {
        if entry.slot == slot {
            return &entry.order;
        }
    }
    order_at(waiting, slot)
}

fn has_id(entry: &Entry, firm: u8, id: &ShortId) -> bool
    ensures { result ≡ is_named firm id.now entry.now }
{
    entry.order.firm == firm && entry.order.id.bytes() == id.bytes()
}

fn find_at(entries: &[Entry], firm: u8, id: &ShortId) -> Option<Slot>
    ensures { option_map slot_number result ≡ slot_named firm id.now entries.now }
{
    for entry in entries {
        if has_id(entry, firm, id) {
            return Some(Slot(entry.slot));
        }
    }
    None
}

/// The order of a firm with this id, in either of two lists.
pub(crate) fn find_in(resting: &[Entry], waiting: &[Entry], firm: u8, id: &ShortId) -> Option<Slot>
    ensures { option_map slot_number result ≡ slot_named firm id.now (resting.now ++ waiting.now) }
{
    for entry in resting {
        if has_id(entry, firm, id) {
            return Some(Slot(entry.slot));
        }
    }
    find_at(waiting, firm, id)
}

/// Whether the instrument, side and price of a come before those of b.
fn comes_before(a: &Order, b: &Order) -> bool
    ensures { result ≡ is_before (level_of a.now) (level_of b.now) }
{
    a.instrument < b.instrument
        || (a.instrument == b.instrument
            && (is_side_before(a.side, b.side)
                || (is_same_side(a.side, b.side) && is_better_price(a.side, a.price, b.price))))
}

/// Where an order is put in: before the first one that it comes before.
pub(crate) fn place_of(entries: &[Entry], entry: &Entry) -> usize
    ensures within { result ≤ length entries.now }
    ensures before { (k : ℕ) → k < result → is_at_earlier_level entry.now (entry_at entries.now k) ≡ false }
    ensures here { result < length entries.now → is_at_earlier_level entry.now (entry_at entries.now result) ≡ true }
{
    for (i, other) in entries.iter().enumerate() {
        if comes_before(&entry.order, &other.order) {
            return i;
        }
    }
    entries.len()
}

/// Where a stop is put in: before the first one of a later instrument.
pub(crate) fn stop_place_of(entries: &[Entry], entry: &Entry) -> usize
    ensures within { result ≤ length entries.now }
    ensures before { (k : ℕ) → k < result → is_of_earlier_instrument entry.now (entry_at entries.now k) ≡ false }
    ensures here { result < length entries.now → is_of_earlier_instrument entry.now (entry_at entries.now result) ≡ true }
{
    for (i, other) in entries.iter().enumerate() {
        if entry.order.instrument < other.order.instrument {
            return i;
        }
    }
    entries.len()
}
