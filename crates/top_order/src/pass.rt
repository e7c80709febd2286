//! The order that bettered the market trades first.
ghost use Rattle.std.specs.Prelude.{◌≡◌, ◌≤◌};
ghost use Rattle.std.specs.Ordering.{int_eq};
ghost use Rattle.plain_book.specs.Matches.{match_at, Matches, CanTrade};
ghost use Rattle.plain_book.specs.Steps.{top};

use gx_base::{Desk, Emit, Price, StepName, Taker, TopRule};
use plain_book::{Book, OrderShare, opposite_side, trade_share};

fn is_same_price(a: Price, b: Price) -> bool
    ensures { result ≡ int_eq a.0 b.0 }
{
    a.0 == b.0
}

/// The TOP step at a price: the TOP order of the side opposite to the taker's trades what is wanted, at most what it shows
/// and at most `rule.max` lots. Where it trades any, the trade puts two Fill events, the resting order's first, and
/// lengthens the taker's range. Where that side has no TOP order, or where it stands at another price, nothing is done.
/// `rule.min` decides which orders become TOP, and nothing here. Our own rule, after the exchange's published outline.
pub fn top_pass<B: Book, E: Emit>(
    book: &mut B,
    desk: &mut Desk,
    taker: &mut Taker,
    price: Price,
    rule: &TopRule,
    out: &mut E,
)
    requires rule { (1 ≤ rule.now.min) × (rule.now.min ≤ rule.now.max) }
    requires can { CanTrade (B.book book.old) desk.old taker.old }
    ensures { let before = match_at (B.book book.old) desk.old taker.old out.old in
        let after = match_at (B.book book.new) desk.new taker.new out.new in
        Matches E.meanings (top rule.now price) before after }
{
    let instrument = taker.order.instrument;
    let side = opposite_side(taker.order.side);
    book.rules();
    if let Some(slot) = book.top(instrument, side) {
        let order = book.order(slot);
        if is_same_price(order.price, price) {
            let lots = taker.order.leaves.min(order.shown).min(rule.max);
            let share = OrderShare { slot, lots };
            trade_share(book, desk, taker, share, StepName::Top, out);
        }
    }
}
