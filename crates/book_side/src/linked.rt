//! A book that keeps its orders in queues.
ghost use Rattle.std.specs.Prelude.{◌≡◌, ◌≢◌, ◌<◌, ◌+◌, false, IfOk};
ghost use Rattle.std.specs.Bool.{MatchBool};
ghost use Rattle.plain_book.specs.Orders.{HasSlot, filled_by, refreshed, level_of, placed, without, is_live, order_of};
ghost use Rattle.book_side.specs.Inner.Steps.{resting_as, book_reordered};
ghost use Rattle.plain_book.specs.Book.{empty_book, live_orders, IsResting, IsWaiting, book_with_order, book_without};

use crate::clearing::clear_instrument;
use crate::steps::{enter_level, exchanged, filled, is_new_best, leave_level};
use crate::tops::{SideTops, drop_top, no_tops, place_top, set_top_at, top_at};
use gx_base::{Order, Price, ShortId, Side, Slot};
use id_table::IdTable;
use order_pool::Pool;
use plain_book::{Book, changed, first_shown, makes_top};
use price_level::Levels;
use std::alloc::{AllocError, Global};
use std::marker::Model;
use waiting_stops::{Wait, WaitingStops};

/// Keeps the orders of each level in a queue, and the stops of each instrument in another; the levels in their order, the
/// ids in a table, and TOP of each side beside them. The stops stand once more, with bounds on their stop prices, so that
/// `first_reached` looks at few of them. But for that, for a stop that leaves and for `clear`, no call walks over orders.
/// Contracts see it as the content of a book.
#[derive(Drop)]
pub struct LinkedBook {
    pool: Pool,
    ids: IdTable,
    levels: Levels,
    tops: Vec<SideTops>,
    stops: WaitingStops,
    capacity: u32,
    instruments: u8,
}

impl Model for LinkedBook {
    ghost use Rattle.std.specs.Prelude.{◌≡◌, vec_capacity};
    ghost use Rattle.plain_book.specs.Book.{Book};
    ghost use Rattle.book_side.specs.Inner.Content.{book_of};
    ghost use Rattle.book_side.specs.Inner.Linked.{IsLinked, HasStops};

    ghost Value = { Book };

    ghost view = { λ p. book_of p.capacity p.instruments p.tops.items p.pool.queues p.levels.rows };

    ghost invariant = { λ p. IsLinked p.capacity p.instruments p.pool p.ids p.levels p.tops.items × (vec_capacity p.tops ≡ p.instruments) × HasStops p.capacity p.instruments p.pool p.stops };
}

impl LinkedBook {
    /// An empty book for so many live orders, and so many instruments. An `Err` is want of memory, also if the capacity and the
    /// instruments are together 2 to the power of 31 or more. It takes all the memory, for the stops of each instrument as if all
    /// orders were stops of it: no call changes how much a part has room for.
    pub fn new(alloc: Global, capacity: u32, instruments: u8) -> Result<LinkedBook, AllocError>
        ensures { IfOk result (λ b. b ≡ empty_book capacity instruments) }
    {
        let Some(queues) = capacity.checked_add(u32::from(instruments)) else {
            return Err(AllocError);
        };
        Ok(LinkedBook {
            pool: Pool::new(alloc, capacity, queues)?,
            ids: IdTable::new(alloc, capacity)?,
            levels: Levels::new(alloc, capacity, instruments)?,
            tops: no_tops(alloc, instruments)?,
            stops: WaitingStops::new(alloc, capacity, instruments)?,
            capacity,
            instruments,
        })
    }
}

impl Book for LinkedBook {
    ghost book = { λ b. b };

    fn rules(&self) {
        let _capacity = self.capacity;
    }

    fn capacity(&self) -> u32 {
        self.capacity
    }

    fn live(&self) -> u32 {
        self.pool.live()
    }

    fn best(&self, instrument: u8, side: Side) -> Option<Price> {
        self.levels.best(instrument, side)
    }

    fn worse(&self, instrument: u8, side: Side, price: Price) -> Option<Price> {
        self.levels.worse(instrument, side, price)
    }

    fn worst(&self, instrument: u8, side: Side) -> Option<Price> {
        self.levels.worst(instrument, side)
    }

    fn better(&self, instrument: u8, side: Side, price: Price) -> Option<Price> {
        self.levels.better(instrument, side, price)
    }

    fn first(&self, instrument: u8, side: Side, price: Price) -> Option<Slot> {
        self.levels.rules();
        match self.levels.find(instrument, side, price) {
            None => None,
            Some(queue) => self.pool.first(queue),
        }
    }

    fn next(&self, slot: Slot) -> Option<Slot> {
        self.levels.rules();
        self.pool.next(slot)
    }

    fn order(&self, slot: Slot) -> &Order {
        self.pool.order(slot)
    }

    fn count(&self, instrument: u8, side: Side, price: Price) -> u32 {
        self.levels.rules();
        match self.levels.find(instrument, side, price) {
            None => 0,
            Some(queue) => self.levels.row(queue).count,
        }
    }

    fn shown_total(&self, instrument: u8, side: Side, price: Price) -> u64 {
        self.levels.rules();
        match self.levels.find(instrument, side, price) {
            None => 0,
            Some(queue) => self.levels.row(queue).shown,
        }
    }

    fn open_total(&self, instrument: u8, side: Side, price: Price) -> u64 {
        self.levels.rules();
        match self.levels.find(instrument, side, price) {
            None => 0,
            Some(queue) => self.levels.row(queue).leaves,
        }
    }

    fn available(&self, instrument: u8, side: Side, limit: Price) -> u64 {
        self.levels.available(instrument, side, limit)
    }

    fn find(&self, firm: u8, id: &ShortId) -> Option<Slot> {
        self.ids.find(firm, id)
    }

    fn place(&mut self, order: Order, top_min: Option<u32>) -> Slot {
        self.rest(&order, top_min)
    }

    fn rest(&mut self, order: &Order, top_min: Option<u32>) -> Slot {
        let best = is_new_best(&self.levels, order);
        let queue = enter_level(&mut self.levels, order.instrument, order.side, order.price);
        self.levels.rules();
        let row = self.levels.row(queue);
        let shown = first_shown(order);
        let slot = self.pool.push_rested(queue, order, shown);
        self.levels.set_sums(
            queue,
            row.count + 1,
            row.shown + u64::from(shown),
            row.leaves + u64::from(order.leaves),
        );
        self.ids.insert(order.firm, order.id, slot);
        place_top(
            &mut self.tops,
            order,
            best,
            makes_top(top_min, order.leaves),
            slot,
        );
        slot
    }

    fn wait(&mut self, mut order: Order) -> Slot {
        self.levels.rules();
        order.shown = 0;
        let queue = self.capacity + u32::from(order.instrument);
        let slot = self.pool.push_back(queue, &order);
        self.ids.insert(order.firm, order.id, slot);
        self.pool.rules();
        let wait = Wait {
            slot,
            side: order.side,
            trigger: order.trigger,
        };
        self.stops.put(order.instrument, wait);
        slot
    }

    fn trade(&mut self, slot: Slot, lots: u32) -> Order {
        self.rules();
        let given = filled(self.resting(slot), lots);
        self.fill(slot, lots);
        given
    }

    fn fill(&mut self, slot: Slot, lots: u32) {
        self.rules();
        let order = self.resting(slot);
        if order.leaves == lots {
            self.take_out(slot);
        } else if order.shown == lots {
            self.send_back(slot, lots);
        } else {
            self.fill_in_place(slot, lots);
        }
    }

    fn remove(&mut self, slot: Slot) -> Order {
        let order = *self.order(slot);
        self.leave(slot);
        order
    }

    fn leave(&mut self, slot: Slot) {
        if self.is_resting(slot) {
            self.take_out(slot);
        } else {
            self.take_stop(slot);
        }
    }

    fn change(&mut self, slot: Slot, id: ShortId, quantity: u32, min: u32) {
        self.rules();
        let changed = changed(self.order(slot), &id, quantity, min);
        self.set_id(slot, id);
        self.set_live(slot, &changed);
    }

    fn set_prorated(&mut self, slot: Slot, share: u32) {
        self.pool.rules();
        self.levels.rules();
        self.pool.set_prorated(slot, share);
    }

    fn set_shown(&mut self, slot: Slot, shown: u32) {
        self.rules();
        let mut order = *self.resting(slot);
        order.shown = shown;
        self.set_order(slot, &order);
    }

    fn top(&self, instrument: u8, side: Side) -> Option<Slot> {
        top_at(&self.tops, instrument, side)
    }

    fn set_top(&mut self, instrument: u8, side: Side, slot: Option<Slot>) {
        set_top_at(&mut self.tops, instrument, side, slot);
    }

    fn first_waiting(&self, instrument: u8) -> Option<Slot> {
        self.pool.first(self.capacity + u32::from(instrument))
    }

    fn next_waiting(&self, slot: Slot) -> Option<Slot> {
        self.pool.next(slot)
    }

    fn first_reached(&self, instrument: u8, least: Price, greatest: Price) -> Option<Slot> {
        self.stops.first_reached(instrument, least, greatest)
    }

    fn clear(&mut self) {
        for instrument in 0..self.instruments {
            clear_instrument(self, instrument);
        }
        self.rules();
    }
}

/// Steps of the calls.
impl LinkedBook {
    /// A stop leaves.
    fn take_stop(&mut self, slot: Slot)
        requires { HasSlot slot.0 self.old.waiting }
        ensures { self.new ≡ book_without slot.0 self.old }
    {
        self.pool.rules();
        self.levels.rules();
        let order = self.pool.order(slot);
        self.ids.remove(order.firm, &order.id);
        self.stops.take_out(order.instrument, slot);
        self.pool.unlink(slot);
    }

    /// Whether a live order rests. Else it waits.
    fn is_resting(&self, slot: Slot) -> bool
        requires { HasSlot slot.0 (live_orders self.now) }
        ensures { MatchBool result (HasSlot slot.0 self.now.resting) (HasSlot slot.0 self.now.waiting) }
    {
        self.pool.rules();
        self.levels.rules();
        self.pool.queue_of(slot) < self.capacity
    }

    /// A resting order changes, and keeps its place.
    fn set_order(&mut self, slot: Slot, order: &Order)
        requires rests { HasSlot slot.0 self.old.resting }
        requires level { level_of order.now ≡ level_of (order_of slot.0 self.old.resting) }
        requires firm { order.now.firm ≡ (order_of slot.0 self.old.resting).firm }
        requires id { order.now.id ≡ (order_of slot.0 self.old.resting).id }
        requires fit { IsResting self.old.instruments order.now }
        ensures { self.new ≡ book_with_order slot.0 order.now self.old }
    {
        self.pool.rules();
        self.levels.rules();
        let old = self.pool.order(slot);
        let queue = self.pool.queue_of(slot);
        let row = self.levels.row(queue);
        let shown = exchanged(row.shown, old.shown, order.shown);
        let leaves = exchanged(row.leaves, old.leaves, order.leaves);
        self.pool.set(slot, order);
        self.levels.set_sums(queue, row.count, shown, leaves);
    }

    /// A resting order leaves.
    fn take_out(&mut self, slot: Slot)
        requires { HasSlot slot.0 self.old.resting }
        ensures { self.new ≡ book_without slot.0 self.old }
    {
        self.pool.rules();
        self.levels.rules();
        let queue = self.pool.queue_of(slot);
        let order = self.pool.order(slot);
        leave_level(&mut self.levels, queue, order);
        drop_top(&mut self.tops, order, slot);
        self.ids.remove(order.firm, &order.id);
        self.pool.unlink(slot);
    }

    /// Some lots of a resting order are traded, and some of it is still shown. It keeps its place.
    fn fill_in_place(&mut self, slot: Slot, lots: u32)
        requires rests { HasSlot slot.0 self.old.resting }
        requires shown { lots < (order_of slot.0 self.old.resting).shown }
        ensures { self.new ≡ book_with_order slot.0 (filled_by lots (order_of slot.0 self.old.resting)) self.old }
    {
        self.pool.rules();
        self.levels.rules();
        let queue = self.pool.queue_of(slot);
        let order = self.pool.order(slot);
        let (filled, leaves, shown) = (
            order.filled + lots,
            order.leaves - lots,
            order.shown - lots,
        );
        let row = self.levels.row(queue);
        let less = u64::from(lots);
        self.pool.set_open(slot, filled, leaves, shown);
        self.levels
            .set_sums(queue, row.count, row.shown - less, row.leaves - less);
    }

    /// All that is shown of a resting order is traded, and some of it is still open. Its next part is shown, and it goes
    /// after the last order of its price. It is TOP no more.
    fn send_back(&mut self, slot: Slot, lots: u32)
        requires rests { HasSlot slot.0 self.old.resting }
        requires shown { lots ≡ (order_of slot.0 self.old.resting).shown }
        requires open { lots ≢ (order_of slot.0 self.old.resting).leaves }
        ensures { self.new ≡ resting_as self.old (placed (record { slot = slot.0; order = refreshed (filled_by lots (order_of slot.0 self.old.resting)); is_top = false }) (without slot.0 self.old.resting)) }
    {
        self.pool.rules();
        self.levels.rules();
        let queue = self.pool.queue_of(slot);
        let old = self.pool.order(slot);
        let (filled, leaves) = (old.filled + lots, old.leaves - lots);
        let shown = old.show.min(leaves);
        let row = self.levels.row(queue);
        let shown_sum = exchanged(row.shown, lots, shown);
        drop_top(&mut self.tops, old, slot);
        self.pool.to_back(slot);
        self.pool.set_open(slot, filled, leaves, shown);
        self.levels
            .set_sums(queue, row.count, shown_sum, row.leaves - u64::from(lots));
    }

    /// A live order gets another id.
    fn set_id(&mut self, slot: Slot, id: ShortId)
        requires live { HasSlot slot.0 (live_orders self.old) }
        requires unnamed { is_live (order_of slot.0 (live_orders self.old)).firm id (live_orders self.old) ≡ false }
        ensures { self.new ≡ book_reordered slot.0 (record (order_of slot.0 (live_orders self.old)) { id = id }) self.old }
    {
        self.pool.rules();
        let mut order = *self.pool.order(slot);
        self.ids.rename(order.firm, &order.id, id);
        order.id = id;
        self.pool.set(slot, &order);
    }

    /// A stop changes, and keeps its place and its stop price.
    fn set_stop(&mut self, slot: Slot, order: &Order)
        requires waits { HasSlot slot.0 self.old.waiting }
        requires level { level_of order.now ≡ level_of (order_of slot.0 (live_orders self.old)) }
        requires firm { order.now.firm ≡ (order_of slot.0 (live_orders self.old)).firm }
        requires id { order.now.id ≡ (order_of slot.0 (live_orders self.old)).id }
        requires trigger { order.now.trigger ≡ (order_of slot.0 (live_orders self.old)).trigger }
        requires fit { IsWaiting self.old.instruments order.now }
        ensures { self.new ≡ book_reordered slot.0 order.now self.old }
    {
        self.pool.rules();
        self.pool.set(slot, order);
    }

    /// A live order changes, and keeps its place and its stop price.
    fn set_live(&mut self, slot: Slot, order: &Order)
        requires live { HasSlot slot.0 (live_orders self.old) }
        requires level { level_of order.now ≡ level_of (order_of slot.0 (live_orders self.old)) }
        requires firm { order.now.firm ≡ (order_of slot.0 (live_orders self.old)).firm }
        requires id { order.now.id ≡ (order_of slot.0 (live_orders self.old)).id }
        requires trigger { order.now.trigger ≡ (order_of slot.0 (live_orders self.old)).trigger }
        requires rests { HasSlot slot.0 self.old.resting → IsResting self.old.instruments order.now }
        requires waits { HasSlot slot.0 self.old.waiting → IsWaiting self.old.instruments order.now }
        ensures { self.new ≡ book_reordered slot.0 order.now self.old }
    {
        self.rules();
        if self.is_resting(slot) {
            self.set_order(slot, order);
        } else {
            self.set_stop(slot, order);
        }
    }

    /// A resting order.
    fn resting(&self, slot: Slot) -> &Order
        requires { HasSlot slot.0 self.now.resting }
        ensures { result.now ≡ order_of slot.0 self.now.resting }
    {
        self.pool.order(slot)
    }
}
