//! A book that keeps its orders in two lists.
ghost use Rattle.std.specs.Prelude.{◌≡◌, ◌<◌, ◌≤◌, ◌+◌, false, IfOk, [], ◌∷◌, ◌++◌, length, vec_len, vec_capacity};
ghost use Rattle.plain_book.specs.Orders.{order_of, traded, filled_by, refreshed, placed, without};
ghost use Rattle.plain_book.specs.Book.{EachPair, AreInBookOrder, empty_book, resting_placed};
ghost use Rattle.plain_book.specs.Inner.FreeSlots.{freed, IsFreeList};

use crate::book::Book;
use crate::edits::{
    changed, first_shown, is_new_best, line_up, makes_top, mark_top, put_back, put_in, take_out,
};
use crate::entry::Entry;
use crate::scan::{
    best_price, better_price, count_at, find_in, first_at, first_stop, first_stop_reached, next_at,
    next_stop, open_at_price, open_lots, order_at, order_in, shown_at_price, top_slot, worse_price,
    worst_price,
};
use gx_base::{MOST_LOTS, Order, Price, ShortId, Side, Slot};
use std::alloc::{AllocError, Global};
use std::marker::Model;

/// Keeps the resting orders and the waiting stops as they stand, and looks through them. Contracts see it as the content
/// of a book.
#[derive(Drop)]
pub struct PlainBook {
    resting: Vec<Entry>,
    waiting: Vec<Entry>,
    free: Vec<u32>,
    capacity: u32,
    instruments: u8,
}

impl Model for PlainBook {
    ghost use Rattle.plain_book.specs.Book.{Book};
    ghost use Rattle.plain_book.specs.Inner.FreeSlots.{book_of, IsKept};
    ghost use Rattle.std.specs.Prelude.{vec_capacity};

    ghost Value = { Book };

    ghost view = { λ p. book_of p.capacity p.instruments p.resting.items p.waiting.items };

    ghost invariant = { λ p. IsKept (book_of p.capacity p.instruments p.resting.items p.waiting.items) (vec_capacity p.resting) (vec_capacity p.waiting)
        p.free.items (vec_capacity p.free) };
}

impl PlainBook {
    /// An empty book for so many live orders, and so many instruments. An `Err` is want of memory. No other call takes
    /// memory.
    pub fn new(alloc: Global, capacity: u32, instruments: u8) -> Result<PlainBook, AllocError>
        ensures { IfOk result (λ b. b ≡ empty_book capacity instruments) }
    {
        Ok(PlainBook {
            resting: Vec::with_capacity(alloc, capacity as usize)?,
            waiting: Vec::with_capacity(alloc, capacity as usize)?,
            free: free_slots(alloc, capacity)?,
            capacity,
            instruments,
        })
    }
}

impl Book for PlainBook {
    ghost book = { λ b. b };

    fn rules(&self) {
        let _capacity = self.capacity;
    }

    fn capacity(&self) -> u32 {
        self.capacity
    }

    fn live(&self) -> u32 {
        (self.resting.len() + self.waiting.len()) as u32
    }

    fn best(&self, instrument: u8, side: Side) -> Option<Price> {
        best_price(&self.resting, instrument, side)
    }

    fn worse(&self, instrument: u8, side: Side, price: Price) -> Option<Price> {
        worse_price(&self.resting, instrument, side, price)
    }

    fn worst(&self, instrument: u8, side: Side) -> Option<Price> {
        worst_price(&self.resting, instrument, side)
    }

    fn better(&self, instrument: u8, side: Side, price: Price) -> Option<Price> {
        better_price(&self.resting, instrument, side, price)
    }

    fn first(&self, instrument: u8, side: Side, price: Price) -> Option<Slot> {
        first_at(&self.resting, instrument, side, price)
    }

    fn next(&self, slot: Slot) -> Option<Slot> {
        next_at(&self.resting, slot.0, order_at(&self.resting, slot.0))
    }

    fn order(&self, slot: Slot) -> &Order {
        order_in(&self.resting, &self.waiting, slot.0)
    }

    fn count(&self, instrument: u8, side: Side, price: Price) -> u32 {
        count_at(&self.resting, instrument, side, price)
    }

    fn shown_total(&self, instrument: u8, side: Side, price: Price) -> u64 {
        shown_at_price(&self.resting, instrument, side, price)
    }

    fn open_total(&self, instrument: u8, side: Side, price: Price) -> u64 {
        open_at_price(&self.resting, instrument, side, price)
    }

    fn available(&self, instrument: u8, side: Side, limit: Price) -> u64 {
        open_lots(&self.resting, instrument, side, limit)
    }

    fn find(&self, firm: u8, id: &ShortId) -> Option<Slot> {
        find_in(&self.resting, &self.waiting, firm, id)
    }

    fn place(&mut self, order: Order, top_min: Option<u32>) -> Slot {
        let slot = take_slot(&mut self.free);
        place_order(&mut self.resting, slot, order, top_min);
        Slot(slot)
    }

    fn wait(&mut self, order: Order) -> Slot {
        let slot = take_slot(&mut self.free);
        let mut order = order;
        order.shown = 0;
        line_up(
            &mut self.waiting,
            Entry {
                slot,
                order,
                is_top: false,
            },
        );
        Slot(slot)
    }

    fn trade(&mut self, slot: Slot, lots: u32) -> Order {
        let order = *order_at(&self.resting, slot.0);
        trade_order(&mut self.resting, &mut self.free, slot.0, order, lots)
    }

    fn remove(&mut self, slot: Slot) -> Order {
        let order = *order_in(&self.resting, &self.waiting, slot.0);
        take_out(&mut self.resting, slot.0);
        take_out(&mut self.waiting, slot.0);
        give_slot(&mut self.free, slot.0);
        order
    }

    fn change(&mut self, slot: Slot, id: ShortId, quantity: u32, min: u32) {
        let order = order_in(&self.resting, &self.waiting, slot.0);
        let order = changed(order, &id, quantity, min);
        put_back(&mut self.resting, slot.0, &order);
        put_back(&mut self.waiting, slot.0, &order);
    }

    fn set_prorated(&mut self, slot: Slot, share: u32) {
        let mut order = *order_at(&self.resting, slot.0);
        order.prorated = share;
        put_back(&mut self.resting, slot.0, &order);
    }

    fn set_shown(&mut self, slot: Slot, shown: u32) {
        let mut order = *order_at(&self.resting, slot.0);
        order.shown = shown;
        put_back(&mut self.resting, slot.0, &order);
    }

    fn top(&self, instrument: u8, side: Side) -> Option<Slot> {
        top_slot(&self.resting, instrument, side)
    }

    fn set_top(&mut self, instrument: u8, side: Side, slot: Option<Slot>) {
        mark_top(&mut self.resting, instrument, side, slot);
    }

    fn first_waiting(&self, instrument: u8) -> Option<Slot> {
        first_stop(&self.waiting, instrument)
    }

    fn next_waiting(&self, slot: Slot) -> Option<Slot> {
        let order = order_at(&self.waiting, slot.0);
        next_stop(&self.waiting, slot.0, order.instrument)
    }

    fn first_reached(&self, instrument: u8, least: Price, greatest: Price) -> Option<Slot> {
        first_stop_reached(&self.waiting, instrument, least, greatest)
    }

    fn clear(&mut self) {
        self.resting.clear();
        self.waiting.clear();
        refill(&mut self.free, self.capacity);
    }
}

/// All slots of a book, none of which is taken.
fn free_slots(alloc: Global, count: u32) -> Result<Vec<u32>, AllocError>
    ensures { IfOk result (λ slots. IsFreeList count slots.items (vec_capacity slots)) }
{
    let mut slots = Vec::with_capacity(alloc, count as usize)?;
    refill(&mut slots, count);
    Ok(slots)
}

/// Makes all slots free.
fn refill(slots: &mut Vec<u32>, count: u32)
    requires { count ≤ vec_capacity slots.old }
    ensures free { IsFreeList count slots.new.items (vec_capacity slots.new) }
{
    slots.clear();
    for slot in 0..count {
        give_slot(slots, slot);
    }
}

/// A free slot, which is free no more.
fn take_slot(free: &mut Vec<u32>) -> u32
    requires { 0 < vec_len free.old }
    ensures slot { free.old.items ≡ free.new.items ++ result ∷ [] }
    ensures capacity { vec_capacity free.old ≤ vec_capacity free.new }
{
    match free.pop() {
        None => unreachable!(),
        Some(slot) => slot,
    }
}

/// A slot is free again.
fn give_slot(free: &mut Vec<u32>, slot: u32)
    requires { vec_len free.old < vec_capacity free.old }
    ensures free { free.new.items ≡ free.old.items ++ slot ∷ [] }
    ensures capacity { vec_capacity free.old ≤ vec_capacity free.new }
{
    if free.push(slot).is_err() {
        unreachable!()
    }
}

/// An order comes to rest, and is TOP or ends it as the rules say.
fn place_order(entries: &mut Vec<Entry>, slot: u32, order: Order, top_min: Option<u32>)
    requires ordered { EachPair AreInBookOrder entries.old.items }
    requires room { vec_len entries.old < vec_capacity entries.old }
    ensures entries { entries.new.items ≡ resting_placed slot order top_min entries.old.items }
    ensures capacity { vec_capacity entries.new ≡ vec_capacity entries.old }
{
    let best = is_new_best(entries, &order);
    if best {
        mark_top(entries, order.instrument, order.side, None);
    }
    let is_top = best && makes_top(top_min, order.leaves);
    let mut order = order;
    order.shown = first_shown(&order);
    put_in(
        entries,
        Entry {
            slot,
            order,
            is_top,
        },
    );
}

/// Some lots of an order, which is that of the slot, are traded. The answer is the order after it.
fn trade_order(
    entries: &mut Vec<Entry>,
    free: &mut Vec<u32>,
    slot: u32,
    order: Order,
    lots: u32,
) -> Order
    requires order { order ≡ order_of slot entries.old.items }
    requires ordered { EachPair AreInBookOrder entries.old.items }
    requires some { 1 ≤ lots }
    requires shown { lots ≤ order.shown }
    requires within { order.shown ≤ order.leaves }
    requires whole { order.filled + order.leaves ≤ MOST_LOTS }
    requires free_room { vec_len free.old < vec_capacity free.old }
    requires room { length (without slot entries.old.items) < vec_capacity entries.old }
    ensures order { result ≡ filled_by lots order }
    ensures entries { entries.new.items ≡ traded slot lots entries.old.items }
    ensures free { free.new.items ≡ freed slot lots entries.old.items free.old.items }
    ensures capacity { vec_capacity entries.new ≡ vec_capacity entries.old }
    ensures free_capacity { vec_capacity free.old ≤ vec_capacity free.new }
{
    let mut given = order;
    given.filled += lots;
    given.leaves -= lots;
    given.shown -= lots;
    if given.leaves == 0 {
        take_out(entries, slot);
        give_slot(free, slot);
    } else if given.shown == 0 {
        refresh(entries, slot, &given);
    } else {
        put_back(entries, slot, &given);
    }
    given
}

/// The next part of an order is shown, and it goes after the last order of its price. It is TOP no more.
fn refresh(entries: &mut Vec<Entry>, slot: u32, order: &Order)
    requires ordered { EachPair AreInBookOrder entries.old.items }
    requires room { length (without slot entries.old.items) < vec_capacity entries.old }
    ensures entries { entries.new.items ≡ placed (record { slot = slot; order = refreshed order.now; is_top = false }) (without slot entries.old.items) }
    ensures capacity { vec_capacity entries.new ≡ vec_capacity entries.old }
{
    take_out(entries, slot);
    let mut order = *order;
    order.shown = order.show.min(order.leaves);
    put_in(
        entries,
        Entry {
            slot,
            order,
            is_top: false,
        },
    );
}
