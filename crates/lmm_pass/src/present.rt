//! Which lead market makers have an order at a price.
ghost use Rattle.std.specs.Prelude.{◌≡◌, ℕ, ◌≤◌, ◌<◌, ◌&&◌, not};
ghost use Rattle.std.specs.List.{AllByRecursion};
ghost use Rattle.gx_base.specs.declared.order.LmmShare.{LmmShare};
ghost use Rattle.plain_book.specs.Orders.{orders_at};
ghost use Rattle.plain_book.specs.Steps.{facing};
ghost use Rattle.lmm_pass.specs.FirmSets.{has_firm, has_order, is_due};

use crate::firms::FirmSet;
use gx_base::{LmmShare, Price, Taker};
use plain_book::{Book, opposite_side, percent_of};

/// The firms whose share of the lots that are wanted is at least one lot.
pub(crate) fn firms_due(wanted: u32, shares: &[LmmShare]) -> FirmSet
    requires { AllByRecursion (λ (s : LmmShare). (1 ≤ s.percent) × (s.percent ≤ 100)) shares.now }
    ensures { (f : ℕ) → has_firm result f ≡ is_due wanted shares.now f }
{
    let mut firms = FirmSet::none();
    for share in shares {
        if percent_of(wanted, share.percent) > 0 {
            firms = firms.with(share.firm);
        }
    }
    firms
}

/// Those of some firms that have no order of the opposite side at a price. The walk along the orders there ends as soon
/// as each of the firms was met.
pub(crate) fn absent_firms<B: Book>(
    book: &B,
    taker: &Taker,
    price: Price,
    firms: FirmSet,
) -> FirmSet
    requires { taker.now.order.instrument < (B.book book.now).instruments }
    ensures { let orders = orders_at (facing price taker.now) (B.book book.now).resting in
        (f : ℕ) → has_firm result f ≡ (has_firm firms f && not (has_order f orders)) }
{
    book.rules();
    if firms.is_empty() {
        return firms;
    }
    let side = opposite_side(taker.order.side);
    let mut at = book.first(taker.order.instrument, side, price);
    let mut absent = firms;
    while let Some(slot) = at {
        absent = absent.without(book.order(slot).firm);
        if absent.is_empty() {
            return absent;
        }
        at = book.next(slot);
    }
    absent
}
