//! Each order of a level trades its part of what is wanted, as the level stood when the step began.
ghost use Rattle.std.specs.Prelude.{◌≡◌, ◌≤◌, ◌<◌};
ghost use Rattle.plain_book.specs.Orders.{shown_at};
ghost use Rattle.plain_book.specs.Matches.{match_at, Matches, CanTrade};
ghost use Rattle.plain_book.specs.Steps.{facing, prorata};

use crate::ratio::Ratio;
use gx_base::{Desk, Emit, Price, StepName, Taker};
use plain_book::{Book, StepLevel, opposite_side, trade_level};

/// How much all orders show at a price that the incoming one meets.
fn shown_facing<B: Book>(book: &B, taker: &Taker, price: Price) -> u64
    requires { taker.now.order.instrument < (B.book book.now).instruments }
    ensures { result ≡ shown_at (facing price taker.now) (B.book book.now).resting }
{
    let side = opposite_side(taker.order.side);
    book.shown_total(taker.order.instrument, side, price)
}

/// The pro rata step at a price: each order of the opposite side there trades its part of what is wanted, in proportion to
/// what it shows of all that is shown, rounded down, and nothing where that is below `least`. Each keeps its
/// share. All shares are taken of the level as it stands at the start, by priority. Each trade puts two Fill events, the
/// resting order's first, and lengthens the taker's range. Where nothing is wanted, nothing is done. Our own rule, after
/// the exchange's published outline.
pub fn prorata_pass<B: Book, E: Emit>(
    book: &mut B,
    desk: &mut Desk,
    taker: &mut Taker,
    price: Price,
    least: u32,
    out: &mut E,
)
    requires least { 1 ≤ least }
    requires can { CanTrade (B.book book.old) desk.old taker.old }
    ensures { let before = match_at (B.book book.old) desk.old taker.old out.old in
        let after = match_at (B.book book.new) desk.new taker.new out.new in
        Matches E.meanings (prorata least price) before after }
{
    book.rules();
    let total = shown_facing(book, taker, price);
    if taker.order.leaves == 0 || total == 0 {
        return;
    }
    let mut ratio = Ratio::new(least, taker.order.leaves, total);
    let level = StepLevel {
        step: StepName::ProRata,
        price,
    };
    trade_level(book, desk, taker, level, &mut ratio, out);
}
