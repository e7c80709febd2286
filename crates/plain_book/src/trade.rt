//! One trade of a resting order and the incoming one, over any book.
ghost use Rattle.std.specs.Prelude.{◌≡◌, ◌≤◌, ◌<◌, ◌+◌, ◌^◌, ℕ, slice_index, if◌then◌else◌};
ghost use Rattle.gx_base.specs.Emits.{Puts};
ghost use Rattle.gx_base.specs.Executions.{event_with, event_of};
ghost use Rattle.plain_book.specs.Orders.{HasSlot, order_of, opposite, filled_by};
ghost use Rattle.plain_book.specs.Book.{IsResting};
ghost use Rattle.plain_book.specs.Match.{fill, trade, trade_if_any, trade_share, lower, higher, lengthened, next_head, report_counted, is_prorata, book_share_noted};
ghost use Rattle.plain_book.specs.Matches.{match_at, Matches, CanTrade};

use crate::book::Book;
use gx_base::{
    Desk, Emit, ExecType, Execution, Head, MOST_FIRMS, MOST_LOTS, Order, Price, Side, Slot, Stamp,
    StepName, Taker,
};

/// The side that an order of this side meets.
pub fn opposite_side(side: Side) -> Side
    ensures { result ≡ opposite side }
{
    match side {
        Side::Buy => Side::Sell,
        Side::Sell => Side::Buy,
    }
}

/// Counts an execution report to a firm, and gives its head.
pub fn count_report(desk: &mut Desk, firm: u8, time: Stamp) -> Head
    requires firm { firm < MOST_FIRMS }
    requires reports { desk.old.reports < 2 ^ 63 }
    requires lines { slice_index desk.old.lines firm < 2 ^ 63 }
    ensures head { result ≡ next_head desk.old firm time }
    ensures desk { desk.new ≡ report_counted desk.old firm }
{
    desk.reports += 1;
    desk.lines[firm as usize] += 1;
    Head {
        firm: Some(firm),
        line: desk.lines[firm as usize],
        report: desk.reports,
        time,
    }
}

fn lower_price(a: Price, b: Price) -> Price
    ensures { result ≡ lower a b }
{
    if a.0 < b.0 { a } else { b }
}

fn higher_price(a: Price, b: Price) -> Price
    ensures { result ≡ higher a b }
{
    if a.0 < b.0 { b } else { a }
}

/// The range with one more price.
fn lengthen(price: Price, range: Option<(Price, Price)>) -> Option<(Price, Price)>
    ensures { result ≡ lengthened price range }
{
    match range {
        None => Some((price, price)),
        Some((least, greatest)) => {
            Some((lower_price(least, price), higher_price(greatest, price)))
        }
    }
}

/// The order of a slot that rests.
fn resting_order<B: Book>(book: &B, slot: Slot) -> &Order
    requires { HasSlot slot.0 (B.book book.now).resting }
    ensures order { result.now ≡ order_of slot.0 (B.book book.now).resting }
    ensures rests { IsResting (B.book book.now).instruments result.now }
{
    book.rules();
    book.order(slot)
}

/// How many lots the order of a slot trades in a step.
#[derive(Clone, Copy, Debug, PartialEq, Eq)]
pub struct OrderShare {
    pub slot: Slot,
    pub lots: u32,
}

/// The report of a trade to the resting order, which is lent as it was before.
fn given<'a>(head: &'a Head, order: &'a Order, lots: u32, fill: ExecType<'a>) -> Execution<'a>
    requires shown { lots ≤ order.now.shown }
    requires within { order.now.shown ≤ order.now.leaves }
    requires whole { order.now.filled + order.now.leaves ≤ MOST_LOTS }
    ensures { event_of result ≡ event_with head.now (filled_by lots order.now) fill.entry }
{
    Execution {
        head,
        order,
        filled: order.filled + lots,
        leaves: order.leaves - lots,
        shown: order.shown - lots,
        exec_type: fill,
    }
}

/// Reports a trade to the resting order, which is lent as it was before. Returns the price of the trade.
fn report_given<B: Book, E: Emit>(
    book: &B,
    desk: &mut Desk,
    time: Stamp,
    share: OrderShare,
    step: StepName,
    out: &mut E,
) -> Price
    requires rests { HasSlot share.slot.0 (B.book book.now).resting }
    requires shown { share.lots ≤ (order_of share.slot.0 (B.book book.now).resting).shown }
    requires reports { desk.old.reports < 2 ^ 63 }
    requires lines { (firm : ℕ) → slice_index desk.old.lines firm < 2 ^ 63 }
    ensures price { result ≡ (order_of share.slot.0 (B.book book.now).resting).price }
    ensures desk { desk.new ≡ report_counted desk.old (order_of share.slot.0 (B.book book.now).resting).firm }
    ensures puts { let resting = order_of share.slot.0 (B.book book.now).resting in
        Puts E.meanings out.old out.new (fill share.lots resting.price step desk.old.trades (next_head desk.old resting.firm time) (filled_by share.lots resting)) }
{
    let order = resting_order(book, share.slot);
    let head = count_report(desk, order.firm, time);
    let fill = ExecType::Fill {
        lots: share.lots,
        price: order.price,
        step,
        trade: desk.trades,
    };
    out.put_execution(&given(&head, order, share.lots, fill));
    order.price
}

/// Reports a trade to the incoming order, which is as the trade leaves it.
fn report_taken<E: Emit>(
    desk: &mut Desk,
    taker: &Taker,
    lots: u32,
    price: Price,
    step: StepName,
    out: &mut E,
)
    requires firm { taker.now.order.firm < MOST_FIRMS }
    requires reports { desk.old.reports < 2 ^ 63 }
    requires lines { slice_index desk.old.lines taker.now.order.firm < 2 ^ 63 }
    ensures desk { desk.new ≡ report_counted desk.old taker.now.order.firm }
    ensures puts { Puts E.meanings out.old out.new (fill lots price step desk.old.trades (next_head desk.old taker.now.order.firm taker.now.time) taker.now.order) }
{
    let head = count_report(desk, taker.order.firm, taker.time);
    let fill = ExecType::Fill {
        lots,
        price,
        step,
        trade: desk.trades,
    };
    out.put_execution(&Execution::new(&head, &taker.order, fill));
}

/// A resting order trades lots with the incoming one, at its own price. Its report comes first.
pub fn trade_lots<B: Book, E: Emit>(
    book: &mut B,
    desk: &mut Desk,
    taker: &mut Taker,
    share: OrderShare,
    step: StepName,
    out: &mut E,
)
    requires rests { HasSlot share.slot.0 (B.book book.old).resting }
    requires some { 1 ≤ share.lots }
    requires shown { share.lots ≤ (order_of share.slot.0 (B.book book.old).resting).shown }
    requires wanted { share.lots ≤ taker.old.order.leaves }
    requires can { CanTrade (B.book book.old) desk.old taker.old }
    ensures { let before = match_at (B.book book.old) desk.old taker.old out.old in
        let after = match_at (B.book book.new) desk.new taker.new out.new in
        Matches E.meanings (trade step share.slot.0 share.lots) before after }
{
    book.rules();
    desk.trades += 1;
    let price = report_given(book, desk, taker.time, share, step, out);
    book.fill(share.slot, share.lots);
    taker.order.filled += share.lots;
    taker.order.leaves -= share.lots;
    taker.range = lengthen(price, taker.range);
    report_taken(desk, taker, share.lots, price, step, out);
}

fn trade_if_any<B: Book, E: Emit>(
    book: &mut B,
    desk: &mut Desk,
    taker: &mut Taker,
    share: OrderShare,
    step: StepName,
    out: &mut E,
)
    requires rests { HasSlot share.slot.0 (B.book book.old).resting }
    requires shown { share.lots ≤ (order_of share.slot.0 (B.book book.old).resting).shown }
    requires wanted { share.lots ≤ taker.old.order.leaves }
    requires can { CanTrade (B.book book.old) desk.old taker.old }
    ensures { let before = match_at (B.book book.old) desk.old taker.old out.old in
        let after = match_at (B.book book.new) desk.new taker.new out.new in
        Matches E.meanings (trade_if_any step share.slot.0 share.lots) before after }
{
    if share.lots > 0 {
        trade_lots(book, desk, taker, share, step, out);
    }
}

/// Whether a step notes its share on each order.
pub(crate) fn is_prorata(step: StepName) -> bool
    ensures { result ≡ is_prorata step }
{
    matches!(step, StepName::ProRata)
}

/// The pro rata step notes its share on an order.
fn mark<B: Book>(book: &mut B, share: OrderShare, step: StepName)
    requires { HasSlot share.slot.0 (B.book book.old).resting }
    ensures { B.book book.new ≡ (if is_prorata step then book_share_noted share.slot.0 share.lots (B.book book.old) else B.book book.old) }
{
    if is_prorata(step) {
        book.set_prorated(share.slot, share.lots);
    }
}

/// A resting order trades its share in a step, which may be none. The pro rata step notes the share on it first.
pub fn trade_share<B: Book, E: Emit>(
    book: &mut B,
    desk: &mut Desk,
    taker: &mut Taker,
    share: OrderShare,
    step: StepName,
    out: &mut E,
)
    requires rests { HasSlot share.slot.0 (B.book book.old).resting }
    requires shown { share.lots ≤ (order_of share.slot.0 (B.book book.old).resting).shown }
    requires wanted { share.lots ≤ taker.old.order.leaves }
    requires can { CanTrade (B.book book.old) desk.old taker.old }
    ensures { let before = match_at (B.book book.old) desk.old taker.old out.old in
        let after = match_at (B.book book.new) desk.new taker.new out.new in
        Matches E.meanings (trade_share step share.slot.0 share.lots) before after }
{
    mark(book, share, step);
    trade_if_any(book, desk, taker, share, step, out);
}
