//! Cancels, and messages that a session rule refuses.
ghost use Rattle.std.specs.Prelude.{false, ◌≡◌, ◌<◌, ◌^◌, IfSome, [], ◌∷◌, Some, slice_index};
ghost use Rattle.gx_base.specs.Emits.{Emits};
ghost use Rattle.plain_book.specs.Orders.{HasSlot, order_of};
ghost use Rattle.plain_book.specs.Book.{live_orders, book_without};
ghost use Rattle.plain_book.specs.Match.{report_counted};
ghost use Rattle.order_kinds.specs.Reports.{line_place, line_counted};
ghost use Rattle.order_kinds.specs.Cancels.{order_cancelled, cancel_step, rejected};
ghost use Rattle.order_kinds.specs.Inner.Taking.{Takes, CountsRose, IsCounted};

use crate::entering::cancelled;
use crate::reports::{RefusedChange, count_line};
use crate::state::EngineState;
use fix_request::{CancelOrder, Refusal};
use gx_base::{Cause, ChangeFault, Desk, Emit, Event, MOST_FIRMS, Slot};
use plain_book::{Book, count_report};

/// An order leaves the book as its firm asked. What was open is reported.
fn cancel_order<B: Book, E: Emit>(
    book: &mut B,
    desk: &mut Desk,
    request: &CancelOrder,
    slot: Slot,
    out: &mut E,
)
    requires live { HasSlot slot.0 (live_orders (B.book book.old)) }
    requires firm { request.now.sender.firm < MOST_FIRMS }
    requires reports { desk.old.reports < 2 ^ 63 }
    requires lines { slice_index desk.old.lines request.now.sender.firm < 2 ^ 63 }
    ensures left { B.book book.new ≡ book_without slot.0 (B.book book.old) }
    ensures desk { desk.new ≡ report_counted desk.old request.now.sender.firm }
    ensures emits { Emits E.meanings out.old out.new (order_cancelled request.now (order_of slot.0 (live_orders (B.book book.old))) desk.old ∷ []) }
{
    let order = book.order(slot);
    let head = count_report(desk, request.sender.firm, request.sender.time);
    out.put_execution(&cancelled(&head, order, Some(&request.id), Cause::Asked));
    book.leave(slot);
}

/// What is said of a cancel of an order that is not live.
fn refused(request: &CancelOrder) -> RefusedChange<'_>
    ensures change { result ≡ record { sender = result.sender; id = request.now.id; old = request.now.old; number = 0; filled = 0; replace = false } }
    ensures sender { result.sender.now ≡ request.now.sender }
{
    RefusedChange {
        sender: &request.sender,
        id: request.id,
        old: request.old,
        number: 0,
        filled: 0,
        replace: false,
    }
}

/// A cancel: the order of the firm with the old id leaves, and its firm is told what was open. It is refused where no live
/// order of the firm has that id.
pub(crate) fn apply_cancel<B: Book, E: Emit>(
    state: &mut EngineState<B>,
    request: &CancelOrder,
    out: &mut E,
)
    requires firm { request.now.sender.firm < MOST_FIRMS }
    requires counted { IsCounted state.old.desk }
    ensures takes { Takes E.meanings (λ state naming. Unit {0}) (λ naming. cancel_step request.now) state.old state.new out.old out.new }
    ensures rose { CountsRose 1 state.old.desk state.new.desk }
{
    match state.book.find(request.sender.firm, &request.old) {
        Some(slot) => cancel_order(&mut state.book, &mut state.desk, request, slot, out),
        None => refused(request).report(ChangeFault::Unknown, &mut state.desk, out),
    }
}

/// A message that a session rule refuses is reported, and changes nothing.
pub(crate) fn refuse_message<E: Emit>(desk: &mut Desk, refusal: &Refusal, out: &mut E)
    requires firm { IfSome refusal.now.firm (λ number. number < MOST_FIRMS) }
    requires room { slice_index desk.old.lines (line_place refusal.now.firm) < 2 ^ 63 }
    ensures desk { desk.new ≡ line_counted desk.old refusal.now.firm }
    ensures emits { Emits E.meanings out.old out.new (rejected refusal.now desk.old ∷ []) }
{
    let head = count_line(desk, refusal.firm, refusal.time);
    out.put(&Event::RefusedSession {
        head,
        seq: refusal.seq,
        tag: refusal.tag,
        reason: refusal.reason,
        rule: refusal.rule,
    });
}
