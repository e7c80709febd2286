//! A walk along a level: each order that stands there trades its share, by a rule.
ghost use Rattle.std.specs.Prelude.{◌≡◌, ◌<◌, List, IsTrue, option_map};
ghost use Rattle.plain_book.specs.Orders.{HasSlot, orders_at, order_of, level_of, slot_of, slot_after, is_slot_in};
ghost use Rattle.plain_book.specs.Book.{slot_number};
ghost use Rattle.plain_book.specs.Match.{MatchState, trade_shares};
ghost use Rattle.plain_book.specs.declared.entry.Entry.{Entry};
ghost use Rattle.plain_book.specs.Matches.{match_at, Matches, CanTrade};
ghost use Rattle.plain_book.specs.Shares.{shares_by, AreWithin};
ghost use Rattle.plain_book.specs.Steps.{facing};
ghost use Rattle.plain_book.specs.Inner.Walk.{is_refreshed_by, end_after, before_end};

use crate::book::Book;
use crate::trade::{OrderShare, is_prorata, opposite_side, trade_share};
use gx_base::{Desk, Emit, Order, Price, Slot, StepName, Taker};

/// How many lots each order of a level trades in a step, by priority.
pub trait ShareRule {
    ghost use Rattle.std.specs.Prelude.{List, IsTrue};
    ghost use Rattle.plain_book.specs.declared.entry.Entry.{Entry};
    ghost use Rattle.plain_book.specs.Shares.{ShareMeanings, shares_by, AreNone};

    ghost meanings: { ShareMeanings Self };

    /// The share of the next order, in lots. The rule is then that of the orders after it.
    fn share(&mut self, order: &Order) -> u32
        ensures share { result ≡ meanings.share self.old order.now }
        ensures behind { self.new ≡ meanings.behind self.old order.now };

    /// Whether no order has a share any more, so that a walk may end. `false` promises nothing: the walk then goes on.
    fn is_spent(&self) -> bool
        ensures { IsTrue result → (orders : List Entry) → AreNone (shares_by meanings self.now orders) };
}

/// Whether nothing of a step is left to do: no order has a share any more, nor is any to be noted.
fn is_over<R: ShareRule>(step: StepName, rule: &R) -> bool
    ensures { IsTrue result → (orders : List Entry) → (m : MatchState) → trade_shares step (shares_by R.meanings rule.now orders) m ≡ m }
{
    !is_prorata(step) && rule.is_spent()
}

/// The first order at a price that the incoming one meets.
fn first_facing<B: Book>(book: &B, taker: &Taker, price: Price) -> Option<Slot>
    requires { taker.now.order.instrument < (B.book book.now).instruments }
    ensures { option_map slot_number result ≡ slot_of (orders_at (facing price taker.now) (B.book book.now).resting) }
{
    book.first(
        taker.order.instrument,
        opposite_side(taker.order.side),
        price,
    )
}

fn is_slot_in(end: Option<Slot>, slot: Slot) -> bool
    ensures { result ≡ is_slot_in (option_map slot_number end) slot.0 }
{
    match end {
        None => false,
        Some(end) => slot.0 == end.0,
    }
}

/// The order after that of a slot, unless the walk ends there.
fn next_before<B: Book>(book: &B, slot: Slot, end: Option<Slot>) -> Option<Slot>
    requires { HasSlot slot.0 (B.book book.now).resting }
    ensures { let es = (B.book book.now).resting in option_map slot_number result ≡ before_end (option_map slot_number end)
        (slot_after slot.0 (orders_at (level_of (order_of slot.0 es)) es)) }
{
    let next = book.next(slot)?;
    if is_slot_in(end, next) {
        return None;
    }
    Some(next)
}

fn is_refreshed_by(order: &Order, lots: u32) -> bool
    ensures { result ≡ is_refreshed_by lots order.now }
{
    order.shown == lots && lots < order.leaves
}

/// Where the walk ends once an order has traded so many lots: at the first one that was refreshed. After it stand only
/// such, which had their share.
fn end_after(end: Option<Slot>, slot: Slot, order: &Order, lots: u32) -> Option<Slot>
    ensures { option_map slot_number result ≡ end_after (option_map slot_number end) slot.0 lots order.now }
{
    if end.is_none() && is_refreshed_by(order, lots) {
        return Some(slot);
    }
    end
}

/// A step, and the price at which it trades.
#[derive(Clone, Copy, Debug, PartialEq, Eq)]
pub struct StepLevel {
    pub step: StepName,
    pub price: Price,
}

/// Each order that stands at a price as the call begins trades its share, by priority: one that is refreshed trades once. The
/// walk ends as soon as nothing of the step is left to do.
pub fn trade_level<B: Book, E: Emit, R: ShareRule>(
    book: &mut B,
    desk: &mut Desk,
    taker: &mut Taker,
    level: StepLevel,
    rule: &mut R,
    out: &mut E,
)
    requires within { AreWithin R.meanings taker.old.order.leaves rule.old (orders_at (facing level.price taker.old) (B.book book.old).resting) }
    requires can { CanTrade (B.book book.old) desk.old taker.old }
    ensures { let before = match_at (B.book book.old) desk.old taker.old out.old in
        let after = match_at (B.book book.new) desk.new taker.new out.new in
        let orders = orders_at (facing level.price taker.old) (B.book book.old).resting in
        Matches E.meanings (trade_shares level.step (shares_by R.meanings rule.old orders)) before after }
{
    book.rules();
    if is_over(level.step, rule) {
        return;
    }
    let mut at = first_facing(book, taker, level.price);
    let mut end = None;
    while let Some(slot) = at {
        at = next_before(book, slot, end);
        let order = book.order(slot);
        let lots = rule.share(order);
        end = end_after(end, slot, order, lots);
        trade_share(
            book,
            desk,
            taker,
            OrderShare { slot, lots },
            level.step,
            out,
        );
        book.rules();
        if is_over(level.step, rule) {
            return;
        }
    }
}
