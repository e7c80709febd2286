//! What lists of live orders become.
ghost use Rattle.std.specs.Prelude.{◌≡◌, ◌<◌, ◌≤◌, vec_len, vec_capacity, None, option_map};
ghost use Rattle.plain_book.specs.Orders.{without, with_order, reordered, placed, lined_up, with_top, topped, is_slot_in, is_new_best};
ghost use Rattle.plain_book.specs.Book.{EachPair, AreInBookOrder, AreInLine, slot_number, first_shown, makes_top, changed_to};

use crate::entry::Entry;
use crate::scan::{best_price, is_on_side, place_of, stop_place_of};
use book_order::is_better_price;
use gx_base::{Order, ShortId, Side, Slot};

/// Takes the order of a slot out, where it is there.
pub(crate) fn take_out(entries: &mut Vec<Entry>, slot: u32)
    ensures entries { entries.new.items ≡ without slot entries.old.items }
    ensures capacity { vec_capacity entries.new ≡ vec_capacity entries.old }
{
    entries.retain(|entry| entry.slot != slot);
}

fn reordered(entry: &Entry, slot: u32, order: &Order) -> Entry
    ensures { result ≡ reordered slot order.now entry.now }
{
    let mut changed = *entry;
    if changed.slot == slot {
        changed.order = *order;
    }
    changed
}

/// Puts an order in the place of that of a slot, where it is there.
pub(crate) fn put_back(entries: &mut Vec<Entry>, slot: u32, order: &Order)
    ensures entries { entries.new.items ≡ with_order slot order.now entries.old.items }
    ensures capacity { vec_capacity entries.new ≡ vec_capacity entries.old }
{
    for entry in entries.iter_mut() {
        *entry = reordered(entry, slot, order);
    }
}

/// Puts an order in, after those at its price and before it.
pub(crate) fn put_in(entries: &mut Vec<Entry>, entry: Entry)
    requires ordered { EachPair AreInBookOrder entries.old.items }
    requires room { vec_len entries.old < vec_capacity entries.old }
    ensures entries { entries.new.items ≡ placed entry entries.old.items }
    ensures capacity { vec_capacity entries.new ≡ vec_capacity entries.old }
{
    let at = place_of(entries, &entry);
    if entries.insert(at, entry).is_err() {
        unreachable!()
    }
}

/// Puts a stop in, after those of its instrument and before it.
pub(crate) fn line_up(entries: &mut Vec<Entry>, entry: Entry)
    requires lined { EachPair AreInLine entries.old.items }
    requires room { vec_len entries.old < vec_capacity entries.old }
    ensures entries { entries.new.items ≡ lined_up entry entries.old.items }
    ensures capacity { vec_capacity entries.new ≡ vec_capacity entries.old }
{
    let at = stop_place_of(entries, &entry);
    if entries.insert(at, entry).is_err() {
        unreachable!()
    }
}

fn is_slot_in(top: Option<Slot>, slot: u32) -> bool
    ensures { result ≡ is_slot_in (option_map slot_number top) slot }
{
    match top {
        None => false,
        Some(top) => slot == top.0,
    }
}

fn topped(entry: &Entry, instrument: u8, side: Side, top: Option<Slot>) -> Entry
    ensures { result ≡ topped instrument side (option_map slot_number top) entry.now }
{
    let mut marked = *entry;
    if is_on_side(entry, instrument, side) {
        marked.is_top = is_slot_in(top, entry.slot);
    }
    marked
}

/// Marks the order of this slot as TOP of its side, and no other.
pub(crate) fn mark_top(entries: &mut Vec<Entry>, instrument: u8, side: Side, top: Option<Slot>)
    ensures entries { entries.new.items ≡ with_top instrument side (option_map slot_number top) entries.old.items }
    ensures capacity { vec_capacity entries.new ≡ vec_capacity entries.old }
{
    for entry in entries.iter_mut() {
        *entry = topped(entry, instrument, side, top);
    }
}

/// Whether an order is better than every order of its side.
pub(crate) fn is_new_best(entries: &[Entry], order: &Order) -> bool
    ensures { result ≡ is_new_best order.now entries.now }
{
    match best_price(entries, order.instrument, order.side) {
        None => true,
        Some(best) => is_better_price(order.side, order.price, best),
    }
}

/// Whether an order of which so many lots are open may be TOP, where TOP takes at least `top_min` lots. With no `top_min`
/// no order may.
pub fn makes_top(top_min: Option<u32>, leaves: u32) -> bool
    ensures { result ≡ makes_top top_min leaves }
{
    match top_min {
        None => false,
        Some(least) => least <= leaves,
    }
}

/// How many lots of an order are shown as it comes to rest: all that are open, or at most its `show`, where it has one.
pub fn first_shown(order: &Order) -> u32
    ensures { result ≡ first_shown order.now }
{
    if order.show == 0 {
        return order.leaves;
    }
    order.show.min(order.leaves)
}

/// The order under another id, with another quantity in lots, of which what was filled stays filled, and another `min`. What
/// it shows is at most what is open then.
pub fn changed(order: &Order, id: &ShortId, quantity: u32, min: u32) -> Order
    requires { order.now.filled ≤ quantity }
    ensures { result ≡ changed_to id.now quantity min order.now }
{
    let mut changed = *order;
    changed.id = *id;
    changed.quantity = quantity;
    changed.leaves = quantity - order.filled;
    changed.shown = order.shown.min(changed.leaves);
    changed.min = min;
    changed
}
