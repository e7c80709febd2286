//! Each lead market maker's percentage of what is wanted is spent over its own orders of a level.
ghost use Rattle.std.specs.Prelude.{◌≤◌, ◌==◌, map, sum_by};
ghost use Rattle.std.specs.List.{IsDistinct, AllByRecursion};
ghost use Rattle.gx_base.specs.declared.order.LmmShare.{LmmShare};
ghost use Rattle.plain_book.specs.Matches.{match_at, Matches, CanTrade};
ghost use Rattle.plain_book.specs.Steps.{lmm};

use crate::present::{absent_firms, firms_due};
use gx_base::{Desk, Emit, LmmShare, Order, Price, StepName, Taker};
use plain_book::{Book, ShareRule, StepLevel, percent_of, trade_level};

/// Lots that are spent over the orders of a firm by priority: each trades what it shows, as far as any are left.
#[derive(Drop)]
struct SpentOnFirm {
    firm: u8,
    left: u32,
}

impl ShareRule for SpentOnFirm {
    ghost use Rattle.lmm_pass.specs.Firms.{spending_on_firm};

    ghost meanings = { spending_on_firm };

    fn share(&mut self, order: &Order) -> u32 {
        if order.firm != self.firm {
            return 0;
        }
        let lots = self.left.min(order.shown);
        self.left -= lots;
        lots
    }

    fn is_spent(&self) -> bool {
        self.left == 0
    }
}

/// The LMM step at a price: each lead market maker of `shares`, in turn, gets its percentage of the lots that are wanted
/// as the step starts, rounded down. They are spent over the firm's own orders of the opposite side at this price, by
/// priority, and each trades at most what it shows. What a firm's orders cannot trade is passed on to no other firm. The
/// orders are those that stand there as the step starts, so that one which is refreshed trades once. Each trade puts two
/// Fill events, the resting order's first, and lengthens the taker's range. The orders of all other firms stay as they
/// are. Our own rule, after the exchange's published outline.
pub fn lmm_pass<B: Book, E: Emit>(
    book: &mut B,
    desk: &mut Desk,
    taker: &mut Taker,
    price: Price,
    shares: &[LmmShare],
    out: &mut E,
)
    requires firms { IsDistinct (λ a b. a == b) (map (λ (s : LmmShare). s.firm) shares.now) }
    requires percents { AllByRecursion (λ (s : LmmShare). (1 ≤ s.percent) × (s.percent ≤ 100)) shares.now }
    requires sum { sum_by (λ (s : LmmShare). s.percent) shares.now ≤ 100 }
    requires can { CanTrade (B.book book.old) desk.old taker.old }
    ensures { let before = match_at (B.book book.old) desk.old taker.old out.old in
        let after = match_at (B.book book.new) desk.new taker.new out.new in
        Matches E.meanings (lmm shares.now price) before after }
{
    let wanted = taker.order.leaves;
    let due = firms_due(wanted, shares);
    let absent = absent_firms(book, taker, price, due);
    let level = StepLevel {
        step: StepName::Lmm,
        price,
    };
    for share in shares {
        if absent.has(share.firm) {
            continue;
        }
        book.rules();
        let mut spent = SpentOnFirm {
            firm: share.firm,
            left: percent_of(wanted, share.percent),
        };
        trade_level(book, desk, taker, level, &mut spent, out);
    }
}
