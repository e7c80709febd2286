//! Each order of a level that had no share of a pro rata step trades one lot.
ghost use Rattle.plain_book.specs.Matches.{match_at, Matches, CanTrade};
ghost use Rattle.plain_book.specs.Steps.{leveling};

use gx_base::{Desk, Emit, Order, Price, StepName, Taker};
use plain_book::{Book, ShareRule, StepLevel, trade_level};

/// One lot for each order that had no share, as far as any are left.
#[derive(Drop)]
struct OneEach {
    left: u32,
}

impl ShareRule for OneEach {
    ghost use Rattle.leveling_pass.specs.OneEach.{one_each};

    ghost meanings = { one_each };

    fn share(&mut self, order: &Order) -> u32 {
        if order.prorated != 0 || self.left == 0 {
            return 0;
        }
        self.left -= 1;
        1
    }

    fn is_spent(&self) -> bool {
        self.left == 0
    }
}

/// The leveling step at a price: one lot, by priority, goes to each order of the side opposite to the taker's at this
/// price that the pro rata step last noted a share of 0 on, while any lots are wanted. They are the orders that stand
/// there as the step starts, so that one which is refreshed trades once. Their noted shares stay. Each trade puts two Fill
/// events, the resting order's first, and lengthens the taker's range. Where nothing is wanted, nothing is done. Our own
/// rule, after the exchange's published outline.
pub fn leveling_pass<B: Book, E: Emit>(
    book: &mut B,
    desk: &mut Desk,
    taker: &mut Taker,
    price: Price,
    out: &mut E,
)
    requires can { CanTrade (B.book book.old) desk.old taker.old }
    ensures { let before = match_at (B.book book.old) desk.old taker.old out.old in
        let after = match_at (B.book book.new) desk.new taker.new out.new in
        Matches E.meanings (leveling price) before after }
{
    book.rules();
    let mut each = OneEach {
        left: taker.order.leaves,
    };
    let level = StepLevel {
        step: StepName::Leveling,
        price,
    };
    trade_level(book, desk, taker, level, &mut each, out);
}
