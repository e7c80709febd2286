//! Entering an order: it meets the other side, and what is left of it comes to rest or is cancelled.
ghost use Rattle.std.specs.Prelude.{◌≡◌, ◌≤◌, ◌<◌, ◌+◌, ◌*◌, ◌^◌, [], ◌∷◌, nat_lt, not, true, ℕ, slice_index, None};
ghost use Rattle.std.specs.Option.{option_copied};
ghost use Rattle.gx_base.specs.declared.event.Event.TheVariants.{Cancelled};
ghost use Rattle.gx_base.specs.Emits.{Emits};
ghost use Rattle.gx_base.specs.Executions.{event_of};
ghost use Rattle.plain_book.specs.Orders.{open_within, opposite};
ghost use Rattle.plain_book.specs.Book.{book_placed};
ghost use Rattle.plain_book.specs.Match.{next_head, report_counted};
ghost use Rattle.plain_book.specs.Matches.{match_at, CanTrade};
ghost use Rattle.order_kinds.specs.NewOrders.{may_rest};
ghost use Rattle.order_kinds.specs.Entering.{closed, cancel_event, as_limit, top_min_of, finished, entered};
ghost use Rattle.order_kinds.specs.Inner.Taking.{TakesPart, CountsRose, CanRest};

use crate::new_orders::may_rest;
use gx_base::{Cause, Desk, Emit, ExecType, Execution, Head, MOST_FIRMS, Order, ShortId, Taker};
use level_sweep::sweep;
use plain_book::{Book, count_report, opposite_side};
use step_config::Steps;

/// The report of an order of which what was open is cancelled: nothing is open or shown any more. It names the id of the cancel if
/// one asked for it.
pub(crate) fn cancelled<'a>(
    head: &'a Head,
    order: &'a Order,
    by: Option<&'a ShortId>,
    cause: Cause,
) -> Execution<'a>
    ensures { event_of result ≡ Cancelled head.now (closed order.now) order.now.leaves (option_copied by.entry) cause }
{
    let gone = order.leaves;
    Execution::of_end(head, order, ExecType::Cancelled { gone, by, cause })
}

/// The report of an order of which what was open is cancelled, though nobody asked for it.
fn cancelled_unasked<'a>(head: &'a Head, order: &'a Order, cause: Cause) -> Execution<'a>
    ensures { event_of result ≡ Cancelled head.now (closed order.now) order.now.leaves None cause }
{
    cancelled(head, order, None, cause)
}

/// What is open of the incoming order is cancelled, and reported.
fn cancel_taker<E: Emit>(desk: &mut Desk, taker: &Taker, cause: Cause, out: &mut E)
    requires firm { taker.now.order.firm < MOST_FIRMS }
    requires reports { desk.old.reports < 2 ^ 63 }
    requires lines { slice_index desk.old.lines taker.now.order.firm < 2 ^ 63 }
    ensures desk { desk.new ≡ report_counted desk.old taker.now.order.firm }
    ensures emits { Emits E.meanings out.old out.new (cancel_event cause (next_head desk.old taker.now.order.firm taker.now.time) taker.now.order ∷ []) }
{
    let head = count_report(desk, taker.order.firm, taker.time);
    out.put_execution(&cancelled_unasked(&head, &taker.order, cause));
}

/// How many open lots make a resting order TOP, where the steps have a TOP.
fn top_min(steps: &Steps) -> Option<u32>
    ensures { result ≡ top_min_of steps.now }
{
    steps.top_rule().map(|rule| rule.min)
}

/// What is open of the incoming order comes to rest, as a limit order without a minimum.
fn rest_taker<B: Book>(book: &mut B, taker: &Taker, steps: &Steps)
    requires { CanRest (B.book book.old) taker.now.order }
    ensures { (name : ℕ) × (B.book book.new ≡ book_placed name (as_limit taker.now.order) (top_min_of steps.now) (B.book book.old)) }
{
    book.rest(&taker.order, top_min(steps));
}

/// What becomes of the incoming order after its sweep: what is left of it rests, or is cancelled.
fn finish<B: Book, E: Emit>(
    book: &mut B,
    desk: &mut Desk,
    taker: &Taker,
    steps: &Steps,
    out: &mut E,
)
    requires can { CanTrade (B.book book.old) desk.old taker.now }
    requires rests { 1 ≤ taker.now.order.leaves → may_rest taker.now.order.life ≡ true → CanRest (B.book book.old) taker.now.order }
    ensures takes { let before = match_at (B.book book.old) desk.old taker.now out.old in
        let after = match_at (B.book book.new) desk.new taker.now out.new in
        TakesPart E.meanings (λ name. finished name steps.now) before after }
    ensures rose { CountsRose 1 desk.old desk.new }
{
    if taker.order.leaves == 0 {
        return;
    }
    if may_rest(taker.order.life) {
        rest_taker(book, taker, steps);
    } else {
        cancel_taker(desk, taker, Cause::Fak, out);
    }
}

/// Whether as much is open within the limit of the incoming order as it has to find, whether it is shown or not.
fn is_least_open<B: Book>(book: &B, taker: &Taker) -> bool
    requires { taker.now.order.instrument < (B.book book.now).instruments }
    ensures { let o = taker.now.order in result ≡ not (nat_lt (open_within o.instrument (opposite o.side) o.price.0 (B.book book.now).resting) o.min) }
{
    let order = &taker.order;
    if order.min == 0 {
        return true;
    }
    let side = opposite_side(order.side);
    let open = book.available(order.instrument, side, order.price);
    open >= u64::from(order.min)
}

/// An order is entered. Where its minimum is not open within its limit, it is cancelled whole. Else it sweeps the other
/// side up to its limit, and what is left of it comes to rest, or is cancelled where it may not rest.
pub(crate) fn enter<B: Book, E: Emit>(
    book: &mut B,
    desk: &mut Desk,
    taker: &mut Taker,
    steps: &Steps,
    out: &mut E,
)
    requires can { CanTrade (B.book book.old) desk.old taker.old }
    requires rests { may_rest taker.old.order.life ≡ true → CanRest (B.book book.old) taker.old.order }
    requires open { 1 ≤ taker.old.order.leaves }
    ensures takes { let before = match_at (B.book book.old) desk.old taker.old out.old in
        let after = match_at (B.book book.new) desk.new taker.new out.new in
        TakesPart E.meanings (λ name. entered name steps.now) before after }
    ensures rose { CountsRose (2 * taker.old.order.leaves + 1) desk.old desk.new }
{
    if !is_least_open(book, taker) {
        cancel_taker(desk, taker, Cause::MinQty, out);
        return;
    }
    sweep(book, desk, taker, taker.order.price, steps, out);
    finish(book, desk, taker, steps, out);
}
