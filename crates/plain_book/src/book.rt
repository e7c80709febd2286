//! What a book of orders does.
ghost use Rattle.std.specs.Prelude.{◌≡◌, ◌<◌, ◌≤◌, min, length, false, option_map};
ghost use Rattle.plain_book.specs.Orders.{level, level_of, best_of, worse_of, worst_of, better_of, orders_at, stops_of, slot_of, slot_after, slot_named, is_live, order_of, HasSlot, shown_at, open_at, open_within, top_of, filled_by};
ghost use Rattle.plain_book.specs.Waiting.{reached_stops};
ghost use Rattle.plain_book.specs.Book.{Book, IsRight, IsFitToRest, IsFitToWait, CanBeTop, live_orders, slot_number, as_limit, book_placed, book_waited, book_traded, book_with_order, book_without, book_changed, book_with_top, book_cleared};

use gx_base::{Kind, Order, Price, ShortId, Side, Slot};

/// The live orders: those that rest, and the stops that wait. No call takes memory, and each instrument that a call is
/// given is one of the book's. Quantities are in lots.
pub trait Book {
    /// The capacity, the number of instruments, and the two lists of orders.
    ghost book: { Self → Book };

    /// Does nothing. Its clause is what is true of every book at every moment: each order is fit to rest or to wait, what
    /// it shows is as the rules say, slots differ, no firm has an id twice, the orders are no more than the capacity and
    /// stand in their order, and TOP is at the best price of its side.
    fn rules(&self)
        ensures { IsRight (book self.now) };

    /// The greatest number of live orders.
    fn capacity(&self) -> u32
        ensures { result ≡ (book self.now).capacity };

    /// The number of live orders.
    fn live(&self) -> u32
        ensures { result ≡ length (live_orders (book self.now)) };

    /// The best price of a side. `None` exactly where no order rests there.
    fn best(&self, instrument: u8, side: Side) -> Option<Price>
        requires { instrument < (book self.now).instruments }
        ensures { result ≡ best_of instrument side (book self.now).resting };

    /// The best of the prices that are worse than this one. `None` exactly where no order rests at such a price.
    fn worse(&self, instrument: u8, side: Side, price: Price) -> Option<Price>
        requires { instrument < (book self.now).instruments }
        ensures { result ≡ worse_of instrument side price.0 (book self.now).resting };

    /// The worst price of a side. `None` exactly where no order rests there.
    fn worst(&self, instrument: u8, side: Side) -> Option<Price>
        requires { instrument < (book self.now).instruments }
        ensures { result ≡ worst_of instrument side (book self.now).resting };

    /// The worst of the prices that are better than this one. `None` exactly where no order rests at such a price.
    fn better(&self, instrument: u8, side: Side, price: Price) -> Option<Price>
        requires { instrument < (book self.now).instruments }
        ensures { result ≡ better_of instrument side price.0 (book self.now).resting };

    /// The first order at a price. `None` exactly where no order rests at it.
    fn first(&self, instrument: u8, side: Side, price: Price) -> Option<Slot>
        requires { instrument < (book self.now).instruments }
        ensures { option_map slot_number result ≡ slot_of (orders_at (level instrument side price) (book self.now).resting) };

    /// The next order at the price of a resting order. `None` exactly where that is the last one.
    fn next(&self, slot: Slot) -> Option<Slot>
        requires { HasSlot slot.0 (book self.now).resting }
        ensures { let es = (book self.now).resting in option_map slot_number result ≡ slot_after slot.0 (orders_at (level_of (order_of slot.0 es)) es) };

    /// A live order. It is lent, so that nobody pays for a copy who only reads it.
    fn order(&self, slot: Slot) -> &Order
        requires { HasSlot slot.0 (live_orders (book self.now)) }
        ensures { result.now ≡ order_of slot.0 (live_orders (book self.now)) };

    /// How many orders rest at a price.
    fn count(&self, instrument: u8, side: Side, price: Price) -> u32
        requires { instrument < (book self.now).instruments }
        ensures { result ≡ length (orders_at (level instrument side price) (book self.now).resting) };

    /// How much is shown at a price.
    fn shown_total(&self, instrument: u8, side: Side, price: Price) -> u64
        requires { instrument < (book self.now).instruments }
        ensures { result ≡ shown_at (level instrument side price) (book self.now).resting };

    /// How much is open at a price, whether it is shown or not.
    fn open_total(&self, instrument: u8, side: Side, price: Price) -> u64
        requires { instrument < (book self.now).instruments }
        ensures { result ≡ open_at (level instrument side price) (book self.now).resting };

    /// How much is open on a side at prices that the limit of an order of the other side allows, whether it is shown or
    /// not.
    fn available(&self, instrument: u8, side: Side, limit: Price) -> u64
        requires { instrument < (book self.now).instruments }
        ensures { result ≡ open_within instrument side limit.0 (book self.now).resting };

    /// The live order of a firm with this id. `None` exactly where there is none.
    fn find(&self, firm: u8, id: &ShortId) -> Option<Slot>
        ensures { option_map slot_number result ≡ slot_named firm id.now (live_orders (book self.now)) };

    /// An order comes to rest, after the orders that stand at its price or before it. What it shows is its open quantity,
    /// or at most its `show`. Where it is better than every order of its side, the old TOP ends, and the order is TOP
    /// itself if `top_min` lots of it are open; with no `top_min` it is not.
    fn place(&mut self, order: Order, top_min: Option<u32>) -> Slot
        requires room { length (live_orders (book self.old)) < (book self.old).capacity }
        requires unnamed { is_live order.firm order.id (live_orders (book self.old)) ≡ false }
        requires fit { IsFitToRest (book self.old).instruments order }
        ensures fresh { HasSlot result.0 (live_orders (book self.old)) → ⊥ }
        ensures placed { book self.new ≡ book_placed result.0 order top_min (book self.old) };

    /// An order comes to rest as a limit order without a minimum, as `place` says of it. It is lent, and copied once: to where it rests.
    fn rest(&mut self, order: &Order, top_min: Option<u32>) -> Slot
        requires room { length (live_orders (book self.old)) < (book self.old).capacity }
        requires unnamed { is_live order.now.firm order.now.id (live_orders (book self.old)) ≡ false }
        requires fit { IsFitToRest (book self.old).instruments (as_limit order.now) }
        ensures fresh { HasSlot result.0 (live_orders (book self.old)) → ⊥ }
        ensures placed { book self.new ≡ book_placed result.0 (as_limit order.now) top_min (book self.old) }
    {
        let mut order = *order;
        order.kind = Kind::Limit;
        order.min = 0;
        self.place(order, top_min)
    }

    /// A stop comes to wait, after the stops of its instrument. Nothing of it is shown.
    fn wait(&mut self, order: Order) -> Slot
        requires room { length (live_orders (book self.old)) < (book self.old).capacity }
        requires unnamed { is_live order.firm order.id (live_orders (book self.old)) ≡ false }
        requires fit { IsFitToWait (book self.old).instruments order }
        ensures fresh { HasSlot result.0 (live_orders (book self.old)) → ⊥ }
        ensures waited { book self.new ≡ book_waited result.0 order (book self.old) };

    /// Some lots of a resting order are traded. It leaves where nothing is open then, is refreshed and goes after the
    /// last order of its price where nothing is shown, and else stays. The answer is the order after the trade, before it
    /// is refreshed.
    fn trade(&mut self, slot: Slot, lots: u32) -> Order
        requires rests { HasSlot slot.0 (book self.old).resting }
        requires some { 1 ≤ lots }
        requires shown { lots ≤ (order_of slot.0 (book self.old).resting).shown }
        ensures order { result ≡ filled_by lots (order_of slot.0 (book self.old).resting) }
        ensures traded { book self.new ≡ book_traded slot.0 lots (book self.old) };

    /// Some lots of a resting order are traded, as `trade` does, and no copy of the order is made.
    fn fill(&mut self, slot: Slot, lots: u32)
        requires rests { HasSlot slot.0 (book self.old).resting }
        requires some { 1 ≤ lots }
        requires shown { lots ≤ (order_of slot.0 (book self.old).resting).shown }
        ensures traded { book self.new ≡ book_traded slot.0 lots (book self.old) }
    {
        self.trade(slot, lots);
    }

    /// A live order leaves.
    fn remove(&mut self, slot: Slot) -> Order
        requires live { HasSlot slot.0 (live_orders (book self.old)) }
        ensures order { result ≡ order_of slot.0 (live_orders (book self.old)) }
        ensures left { book self.new ≡ book_without slot.0 (book self.old) };

    /// A live order leaves, as `remove` says, and no copy of it is made.
    fn leave(&mut self, slot: Slot)
        requires live { HasSlot slot.0 (live_orders (book self.old)) }
        ensures left { book self.new ≡ book_without slot.0 (book self.old) }
    {
        self.remove(slot);
    }

    /// A live order is changed, by a replace that does not raise its quantity and keeps its prices. It keeps its place,
    /// and stays TOP where it is. At most what is open stays shown.
    fn change(&mut self, slot: Slot, id: ShortId, quantity: u32, min: u32)
        requires live { HasSlot slot.0 (live_orders (book self.old)) }
        requires open { (order_of slot.0 (live_orders (book self.old))).filled < quantity }
        requires lower { quantity ≤ (order_of slot.0 (live_orders (book self.old))).quantity }
        requires show { (order_of slot.0 (live_orders (book self.old))).show ≤ quantity }
        requires unnamed { is_live (order_of slot.0 (live_orders (book self.old))).firm id (live_orders (book self.old)) ≡ false }
        requires no_min { HasSlot slot.0 (book self.old).resting → min ≡ 0 }
        ensures { book self.new ≡ book_changed slot.0 id quantity min (book self.old) };

    /// Marks a resting order with the share that a pro rata step gives it.
    fn set_prorated(&mut self, slot: Slot, share: u32)
        requires { HasSlot slot.0 (book self.old).resting }
        ensures { book self.new ≡ book_with_order slot.0 (record (order_of slot.0 (book self.old).resting) { prorated = share }) (book self.old) };

    /// Sets what is shown of a resting order with a `show`: at most that, and at most what is open.
    fn set_shown(&mut self, slot: Slot, shown: u32)
        requires rests { HasSlot slot.0 (book self.old).resting }
        requires display { 1 ≤ (order_of slot.0 (book self.old).resting).show }
        requires some { 1 ≤ shown }
        requires within { shown ≤ min (order_of slot.0 (book self.old).resting).show (order_of slot.0 (book self.old).resting).leaves }
        ensures { book self.new ≡ book_with_order slot.0 (record (order_of slot.0 (book self.old).resting) { shown = shown }) (book self.old) };

    /// The TOP order of a side. `None` exactly where there is none.
    fn top(&self, instrument: u8, side: Side) -> Option<Slot>
        requires { instrument < (book self.now).instruments }
        ensures { option_map slot_number result ≡ top_of instrument side (book self.now).resting };

    /// Makes an order at the best price of a side TOP of that side, or none.
    fn set_top(&mut self, instrument: u8, side: Side, slot: Option<Slot>)
        requires listed { instrument < (book self.old).instruments }
        requires best { CanBeTop instrument side (option_map slot_number slot) (book self.old).resting }
        ensures { book self.new ≡ book_with_top instrument side (option_map slot_number slot) (book self.old) };

    /// The first waiting stop of an instrument. `None` exactly where none waits.
    fn first_waiting(&self, instrument: u8) -> Option<Slot>
        requires { instrument < (book self.now).instruments }
        ensures { option_map slot_number result ≡ slot_of (stops_of instrument (book self.now).waiting) };

    /// The next waiting stop of the same instrument. `None` exactly where that is the last one.
    fn next_waiting(&self, slot: Slot) -> Option<Slot>
        requires { HasSlot slot.0 (book self.now).waiting }
        ensures { let es = (book self.now).waiting in option_map slot_number result ≡ slot_after slot.0 (stops_of (order_of slot.0 es).instrument es) };

    /// The first waiting stop of an instrument that a trade at one of these prices reaches: that came first of the buys whose stop price is
    /// not above `greatest`, and the sells whose stop price is not below `least`. `None` exactly where no stop is reached.
    fn first_reached(&self, instrument: u8, least: Price, greatest: Price) -> Option<Slot>
        requires { instrument < (book self.now).instruments }
        ensures { option_map slot_number result ≡ slot_of (reached_stops instrument (least, greatest) (book self.now).waiting) };

    /// Takes all orders out, so that there is no TOP. Capacity and instruments stay.
    fn clear(&mut self)
        ensures { book self.new ≡ book_cleared (book self.old) };
}
