//! Replaces: refused, or the order is changed, where it stands or by coming in again.
ghost use Rattle.std.specs.Prelude.{◌≡◌, ◌≤◌, ◌<◌, ◌^◌, [], ◌∷◌, length, slice_index, true, false, Some};
ghost use Rattle.gx_base.specs.declared.event.Event.TheVariants.{Replaced};
ghost use Rattle.gx_base.specs.Emits.{Emits};
ghost use Rattle.gx_base.specs.Executions.{event_of};
ghost use Rattle.product_file.specs.declared.limits.TheConstants.{MOST_ORDERS};
ghost use Rattle.fix_request.specs.ValidRequests.{IsValidReplace};
ghost use Rattle.plain_book.specs.Orders.{HasSlot, order_of, slot_named};
ghost use Rattle.plain_book.specs.Book.{live_orders};
ghost use Rattle.order_kinds.specs.Replaces.{is_kind, is_same_order, replace_terms, new_price, least_after, keeps_place, replaced_order, replaced_in_place, replaced_anew, replace_at, replace_step};
ghost use Rattle.order_kinds.specs.Reports.{line_counted, change_refused};
ghost use Rattle.order_kinds.specs.Cores.{FitsProduct};
ghost use Rattle.order_kinds.specs.Inner.Terms.{listed_instrument, map_instrument};
ghost use Rattle.order_kinds.specs.Inner.Replacing.{IsAllowed};
ghost use Rattle.order_kinds.specs.Inner.Apart.{ReplacedApart, ReplaceApart};
ghost use Rattle.order_kinds.specs.Inner.Taking.{Takes, CountsRose, IsCounted};

use crate::accepting::bring_in;
use crate::instruments::{Instrument, price_at};
use crate::new_orders::has_id;
use crate::order_rules::{has_bad_stop, has_off_tick, is_quantity, is_stop_reached, last_of};
use crate::reports::RefusedChange;
use crate::state::EngineState;
use book_order::is_same_side;
use fix_request::{Px, ReplaceOrder};
use gx_base::{
    ChangeFault, Desk, Emit, ExecType, Execution, Head, Kind, Life, MOST_FIRMS, Order, Price, Side,
    Slot, Taker,
};
use plain_book::{Book, count_report};
use product_file::Product;

fn is_same_kind(a: Kind, b: Kind) -> bool
    ensures { result ≡ is_kind a b }
{
    match (a, b) {
        (Kind::Limit, Kind::Limit)
        | (Kind::Market, Kind::Market)
        | (Kind::StopLimit, Kind::StopLimit) => true,
        _ => false,
    }
}

/// Whether a replace names the instrument, the side and the order type that the order has now.
fn is_same_order(instrument: &Instrument<'_>, request: &ReplaceOrder, order: &Order) -> bool
    ensures { result ≡ is_same_order (listed_instrument instrument.now) request.now order.now }
{
    instrument.number == order.instrument
        && is_same_side(request.side, order.side)
        && is_same_kind(request.kind, order.kind)
}

/// The price of a message, or the one that the order has where the message has none.
fn new_price(px: Px, now: Price) -> Price
    ensures { result ≡ new_price px now }
{
    price_at(px).unwrap_or(now)
}

/// The least that has to be open of the replaced order: all of it for an order that is filled whole or not at all, and never
/// more than all.
fn least_after(request: &ReplaceOrder, order: &Order) -> u32
    ensures { result ≡ least_after request.now order.now }
{
    match order.life {
        Life::Fok => request.quantity,
        Life::Day | Life::Gtc | Life::Fak => order.min.min(request.quantity),
    }
}

/// Whether the order keeps its place: both its prices stay, and its quantity is not raised.
fn keeps_place(request: &ReplaceOrder, order: &Order) -> bool
    ensures { result ≡ keeps_place request.now order.now }
{
    new_price(request.price, order.price).0 == order.price.0
        && new_price(request.trigger, order.trigger).0 == order.trigger.0
        && request.quantity <= order.quantity
}

/// The instrument of a replace of this order, or the first of the rules that refuses it, in the order of `ChangeFault`.
fn terms_of<'a, B: Book>(
    state: &EngineState<B>,
    product: &'a Product,
    request: &ReplaceOrder,
    order: &Order,
) -> Result<Instrument<'a>, ChangeFault>
    requires valid { IsValidReplace product.now.names request.now }
    requires fits { FitsProduct product.now state.now }
    ensures { map_instrument result ≡ replace_terms product.now request.now order.now state.now }
{
    let Some(instrument) = Instrument::named(product, request.named) else {
        return Err(ChangeFault::Mismatch);
    };
    if !is_same_order(&instrument, request, order) {
        return Err(ChangeFault::Mismatch);
    }
    if has_id(&state.book, request.sender.firm, &request.id) {
        return Err(ChangeFault::Duplicate);
    }
    if !is_quantity(request.quantity) {
        return Err(ChangeFault::Quantity);
    }
    if request.quantity <= order.filled {
        return Err(ChangeFault::Filled);
    }
    if has_off_tick(&instrument, request.price, request.trigger) {
        return Err(ChangeFault::Tick);
    }
    if has_bad_stop(request.kind, request.side, request.price, request.trigger) {
        return Err(ChangeFault::StopLimit);
    }
    let last = last_of(instrument.number, &state.last);
    if is_stop_reached(request.kind, request.side, request.trigger, last) {
        return Err(ChangeFault::StopReached);
    }
    if request.quantity < order.show {
        return Err(ChangeFault::Show);
    }
    Ok(instrument)
}

/// The order as a replace changes it that loses its place. Nothing of it is shown until it comes in again.
fn replaced_order(request: &ReplaceOrder, order: &Order) -> Order
    requires { order.now.filled ≤ request.now.quantity }
    ensures { result ≡ replaced_order request.now order.now }
{
    let mut replaced = *order;
    replaced.id = request.id;
    replaced.price = new_price(request.price, order.price);
    replaced.trigger = new_price(request.trigger, order.trigger);
    replaced.quantity = request.quantity;
    replaced.leaves = request.quantity - order.filled;
    replaced.shown = 0;
    replaced.min = least_after(request, order);
    replaced
}

/// The report of an order that was this one before a replace.
fn replaced<'a>(head: &'a Head, order: &'a Order, before: &'a Order) -> Execution<'a>
    ensures { event_of result ≡ Replaced head.now order.now before.now.id before.now.quantity }
{
    let exec_type = ExecType::Replaced {
        old: &before.id,
        old_quantity: before.quantity,
    };
    Execution::new(head, order, exec_type)
}

/// An order is changed where it stands, and reported.
fn replace_in_place<B: Book, E: Emit>(
    state: &mut EngineState<B>,
    request: &ReplaceOrder,
    slot: Slot,
    order: &Order,
    out: &mut E,
)
    requires live { HasSlot slot.0 (live_orders state.old.book) }
    requires order { order.now ≡ order_of slot.0 (live_orders state.old.book) }
    requires allowed { IsAllowed state.old.book request.now order.now }
    requires lower { request.now.quantity ≤ order.now.quantity }
    requires counted { IsCounted state.old.desk }
    ensures state { state.new ≡ (replaced_in_place request.now slot.0 state.old).0 }
    ensures emits { Emits E.meanings out.old out.new (replaced_in_place request.now slot.0 state.old).1 }
{
    state.book.rules();
    let least = least_after(request, order);
    state.book.change(slot, request.id, request.quantity, least);
    let head = count_report(&mut state.desk, order.firm, request.sender.time);
    out.put_execution(&replaced(&head, state.book.order(slot), order));
}

/// An order leaves, is reported as changed, and comes in again under its number.
fn replace_anew<B: Book, E: Emit>(
    state: &mut EngineState<B>,
    instrument: &Instrument<'_>,
    request: &ReplaceOrder,
    slot: Slot,
    out: &mut E,
)
    requires live { HasSlot slot.0 (live_orders state.old.book) }
    requires allowed { IsAllowed state.old.book request.now (order_of slot.0 (live_orders state.old.book)) }
    requires priced { instrument.now.number < length state.old.last }
    requires counted { IsCounted state.old.desk }
    requires few { length state.old.book.waiting ≤ MOST_ORDERS }
    ensures takes { let on = listed_instrument instrument.now in Takes E.meanings (ReplacedApart false on request.now slot.0)
        (λ naming. replaced_anew naming on request.now slot.0) state.old state.new out.old out.new }
    ensures rose { CountsRose (2 ^ 38) state.old.desk state.new.desk }
{
    state.book.rules();
    let order = state.book.remove(slot);
    let mut taker = Taker {
        order: replaced_order(request, &order),
        time: request.sender.time,
        range: None,
    };
    let head = count_report(&mut state.desk, order.firm, request.sender.time);
    out.put_execution(&replaced(&head, &taker.order, &order));
    bring_in(state, instrument, &mut taker, out);
}

/// What is said of a refused replace of an order with this number, of which so much is filled.
fn refused(request: &ReplaceOrder, number: u64, filled: u32) -> RefusedChange<'_>
    ensures change { result ≡ record { sender = result.sender; id = request.now.id; old = request.now.old; number = number; filled = filled; replace = true } }
    ensures sender { result.sender.now ≡ request.now.sender }
{
    RefusedChange {
        sender: &request.sender,
        id: request.id,
        old: request.old,
        number,
        filled,
        replace: true,
    }
}

/// A replace is refused, and names no order. Only its line is counted.
pub(crate) fn refuse_replace<E: Emit>(
    desk: &mut Desk,
    request: &ReplaceOrder,
    fault: ChangeFault,
    out: &mut E,
)
    requires firm { request.now.sender.firm < MOST_FIRMS }
    requires lines { slice_index desk.old.lines request.now.sender.firm < 2 ^ 63 }
    ensures desk { desk.new ≡ line_counted desk.old (Some request.now.sender.firm) }
    ensures emits { let sender = request.now.sender in
        Emits E.meanings out.old out.new (change_refused sender request.now.id request.now.old 0 0 true fault desk.old ∷ []) }
{
    refused(request, 0, 0).report(fault, desk, out);
}

/// A replace of a live order: refused by the first rule that holds, or else it changes the order.
fn replace_order<B: Book, E: Emit>(
    state: &mut EngineState<B>,
    product: &Product,
    request: &ReplaceOrder,
    slot: Slot,
    out: &mut E,
)
    requires named { slot_named request.now.sender.firm request.now.old (live_orders state.old.book) ≡ Some slot.0 }
    requires valid { IsValidReplace product.now.names request.now }
    requires fits { FitsProduct product.now state.old }
    requires counted { IsCounted state.old.desk }
    ensures takes { Takes E.meanings (ReplaceApart (Some slot.0) product.now request.now) (λ naming. replace_at (Some slot.0) naming product.now request.now)
        state.old state.new out.old out.new }
    ensures rose { CountsRose (2 ^ 38) state.old.desk state.new.desk }
{
    product.limits();
    state.book.rules();
    let order = state.book.order(slot);
    match terms_of(state, product, request, order) {
        Err(fault) => {
            refused(request, order.number, order.filled).report(fault, &mut state.desk, out)
        }
        Ok(_) if keeps_place(request, order) => {
            let order = *order;
            replace_in_place(state, request, slot, &order, out)
        }
        Ok(instrument) => replace_anew(state, &instrument, request, slot, out),
    }
}

/// A replace: the order of the firm with the old id is changed. It is refused where no live order of the firm has that id, or
/// by the first of the other rules that holds.
pub(crate) fn apply_replace<B: Book, E: Emit>(
    state: &mut EngineState<B>,
    product: &Product,
    request: &ReplaceOrder,
    out: &mut E,
)
    requires valid { IsValidReplace product.now.names request.now }
    requires fits { FitsProduct product.now state.old }
    requires counted { IsCounted state.old.desk }
    ensures takes { Takes E.meanings
        (λ state. ReplaceApart (slot_named request.now.sender.firm request.now.old (live_orders state.book)) product.now request.now state)
        (λ naming. replace_step naming product.now request.now) state.old state.new out.old out.new }
    ensures rose { CountsRose (2 ^ 38) state.old.desk state.new.desk }
{
    product.limits();
    match state.book.find(request.sender.firm, &request.old) {
        Some(slot) => replace_order(state, product, request, slot, out),
        None => refuse_replace(&mut state.desk, request, ChangeFault::Unknown, out),
    }
}
