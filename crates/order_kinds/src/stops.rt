//! An order comes in: a stop limit order waits, any other is entered, and then each stop that a trade reaches.
ghost use Rattle.std.specs.Prelude.{◌≡◌, ◌≤◌, ◌<◌, ◌+◌, ◌*◌, true, length, option_map, None};
ghost use Rattle.gx_base.specs.declared.order.Kind.TheVariants.{StopLimit};
ghost use Rattle.plain_book.specs.Orders.{HasSlot};
ghost use Rattle.plain_book.specs.Book.{slot_number};
ghost use Rattle.plain_book.specs.Matches.{match_at, CanTrade};
ghost use Rattle.order_kinds.specs.NewOrders.{may_rest};
ghost use Rattle.order_kinds.specs.Stops.{as_triggered, first_reached, entered_with_stops, come_in};
ghost use Rattle.order_kinds.specs.Inner.Taking.{TakesPart, CountsRose, CanRest};
ghost use Rattle.order_kinds.specs.Inner.Apart.{EnterApart, ComeApart};
ghost use Rattle.order_kinds.specs.Inner.Triggering.{ComesIn, CanWait, HasRoomToComeIn, HasRoomToTrigger, slot_entered};

use crate::entering::enter;
use crate::trades::{PriceRange, Trades};
use gx_base::{Desk, Emit, ExecType, Execution, Kind, Order, Price, Slot, Taker};
use plain_book::{Book, count_report};
use step_config::Steps;

/// The waiting stop of an instrument that is triggered next: the first that a range of trade prices reaches. `None` if there is none.
fn next_stop<B: Book>(book: &B, instrument: u8, range: Option<PriceRange>) -> Option<Slot>
    requires { instrument < (B.book book.now).instruments }
    ensures { option_map slot_number result ≡ option_map (λ e. e.slot) (first_reached instrument range (B.book book.now).waiting) }
{
    let (least, greatest) = range?;
    book.first_reached(instrument, least, greatest)
}

/// The stop as the limit order that it becomes.
fn as_triggered(stop: &Order) -> Order
    ensures { result ≡ as_triggered stop.now }
{
    let mut order = *stop;
    order.kind = Kind::Limit;
    order.trigger = Price(0);
    order
}

/// A waiting stop becomes a limit order, which is reported, and entered as the incoming order.
fn trigger<B: Book, E: Emit>(
    book: &mut B,
    desk: &mut Desk,
    taker: &mut Taker,
    slot: Slot,
    steps: &Steps,
    out: &mut E,
)
    requires waits { HasSlot slot.0 (B.book book.old).waiting }
    requires room { HasRoomToTrigger desk.old }
    ensures takes { let before = match_at (B.book book.old) desk.old taker.old out.old in
        let after = match_at (B.book book.new) desk.new taker.new out.new in
        TakesPart E.meanings (λ name. slot_entered slot.0 name steps.now) before after }
    ensures rose { CountsRose 2000000 desk.old desk.new }
{
    book.rules();
    taker.order = as_triggered(&book.remove(slot));
    taker.range = None;
    let head = count_report(desk, taker.order.firm, taker.time);
    out.put_execution(&Execution::new(&head, &taker.order, ExecType::Triggered));
    enter(book, desk, taker, steps, out);
}

/// An order is entered, and then, one after the other, each stop that a trade of the message reaches. The answer is the price of the
/// last trade, if there was one.
fn enter_with_stops<B: Book, E: Emit>(
    book: &mut B,
    desk: &mut Desk,
    taker: &mut Taker,
    steps: &Steps,
    out: &mut E,
) -> Option<Price>
    requires can { CanTrade (B.book book.old) desk.old taker.old }
    requires rests { may_rest taker.old.order.life ≡ true → CanRest (B.book book.old) taker.old.order }
    requires open { 1 ≤ taker.old.order.leaves }
    requires no_range { taker.old.range ≡ None }
    requires room { HasRoomToComeIn (B.book book.old) desk.old }
    ensures comes { let before = match_at (B.book book.old) desk.old taker.old out.old in
        let after = match_at (B.book book.new) desk.new taker.new out.new in
        ComesIn E.meanings (λ naming. EnterApart naming steps.now) (λ naming. entered_with_stops naming steps.now) before after result }
    ensures rose { CountsRose (2 * taker.old.order.leaves + 1 + 2000000 * length (B.book book.old).waiting) desk.old desk.new }
{
    steps.list();
    book.rules();
    enter(book, desk, taker, steps, out);
    book.rules();
    let instrument = taker.order.instrument;
    let mut trades = Trades::of(taker);
    while let Some(slot) = next_stop(book, instrument, trades.range) {
        trigger(book, desk, taker, slot, steps, out);
        book.rules();
        trades.add(taker);
    }
    trades.last
}

/// An order comes in: a stop limit order waits, any other is entered, and then each stop that a trade reaches. The answer is
/// the price of the last trade, if there was one.
pub(crate) fn come_in<B: Book, E: Emit>(
    book: &mut B,
    desk: &mut Desk,
    taker: &mut Taker,
    steps: &Steps,
    out: &mut E,
) -> Option<Price>
    requires waits { taker.old.order.kind ≡ StopLimit → CanWait (B.book book.old) taker.old.order }
    requires can { CanTrade (B.book book.old) desk.old taker.old }
    requires rests { (taker.old.order.kind ≡ StopLimit → ⊥) → may_rest taker.old.order.life ≡ true → CanRest (B.book book.old) taker.old.order }
    requires open { 1 ≤ taker.old.order.leaves }
    requires no_range { taker.old.range ≡ None }
    requires room { HasRoomToComeIn (B.book book.old) desk.old }
    ensures comes { let before = match_at (B.book book.old) desk.old taker.old out.old in
        let after = match_at (B.book book.new) desk.new taker.new out.new in
        ComesIn E.meanings (λ naming. ComeApart naming steps.now) (λ naming. come_in naming steps.now) before after result }
    ensures rose { CountsRose (2 * taker.old.order.leaves + 1 + 2000000 * length (B.book book.old).waiting) desk.old desk.new }
{
    if matches!(taker.order.kind, Kind::StopLimit) {
        book.wait(taker.order);
        return None;
    }
    enter_with_stops(book, desk, taker, steps, out)
}
