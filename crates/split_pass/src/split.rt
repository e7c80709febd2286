//! A percentage of what is wanted is spent over a level by priority.
ghost use Rattle.std.specs.Prelude.{◌≤◌};
ghost use Rattle.plain_book.specs.Matches.{match_at, Matches, CanTrade};
ghost use Rattle.plain_book.specs.Steps.{split};

use gx_base::{Desk, Emit, Order, Price, StepName, Taker};
use plain_book::{Book, ShareRule, StepLevel, percent_of, trade_level};

/// Lots that are spent over orders by priority: each trades what it shows, as far as any are left.
#[derive(Drop)]
struct Spent {
    left: u32,
}

impl ShareRule for Spent {
    ghost use Rattle.split_pass.specs.Spending.{spending};

    ghost meanings = { spending };

    fn share(&mut self, order: &Order) -> u32 {
        let lots = self.left.min(order.shown);
        self.left -= lots;
        lots
    }

    fn is_spent(&self) -> bool {
        self.left == 0
    }
}

/// The SPLIT step at a price: of the lots that are wanted, a percentage from 1 to 100, rounded down, goes to the orders of
/// the opposite side at this price, by priority, and each trades at most what it shows. They are the orders that stand
/// there as the step starts, so that one which is refreshed trades once. Each trade puts two Fill events, the resting
/// order's first, and lengthens the taker's range. Where nothing is wanted, nothing is done. Our own rule,
/// after the exchange's published outline.
pub fn split_pass<B: Book, E: Emit>(
    book: &mut B,
    desk: &mut Desk,
    taker: &mut Taker,
    price: Price,
    percent: u8,
    out: &mut E,
)
    requires percent { (1 ≤ percent) × (percent ≤ 100) }
    requires can { CanTrade (B.book book.old) desk.old taker.old }
    ensures { let before = match_at (B.book book.old) desk.old taker.old out.old in
        let after = match_at (B.book book.new) desk.new taker.new out.new in
        Matches E.meanings (split percent price) before after }
{
    let mut spent = Spent {
        left: percent_of(taker.order.leaves, percent),
    };
    let level = StepLevel {
        step: StepName::Split,
        price,
    };
    trade_level(book, desk, taker, level, &mut spent, out);
}
