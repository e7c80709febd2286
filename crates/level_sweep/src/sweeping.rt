//! Level matches at the best price, again and again.
ghost use Rattle.std.specs.Prelude.{◌≡◌, ◌<◌};
ghost use Rattle.plain_book.specs.Orders.{is_within};
ghost use Rattle.plain_book.specs.Matches.{match_at, Matches, CanTrade};
ghost use Rattle.level_sweep.specs.Sweep.{next_price, sweep, with_resting, IsSweepDone};

use crate::levels::match_level;
use gx_base::{Desk, Emit, Price, Side, Taker};
use plain_book::{Book, opposite_side};
use step_config::Steps;

/// Whether the limit of an order of the other side allows a price of this side.
fn is_within(side: Side, limit: Price, price: Price) -> bool
    ensures { result ≡ is_within side limit.0 price.0 }
{
    match side {
        Side::Buy => price.0 >= limit.0,
        Side::Sell => price.0 <= limit.0,
    }
}

/// The price of the next level match: the best opposite price, while lots are wanted and the limit allows it.
fn next_price<B: Book>(book: &B, taker: &Taker, limit: Price) -> Option<Price>
    requires { taker.now.order.instrument < (B.book book.now).instruments }
    ensures { result ≡ next_price limit (B.book book.now) taker.now }
{
    if taker.order.leaves == 0 {
        return None;
    }
    let side = opposite_side(taker.order.side);
    let best = book.best(taker.order.instrument, side)?;
    if is_within(side, limit, best) {
        Some(best)
    } else {
        None
    }
}

/// The sweep: while lots are wanted and there is a best opposite price within the limit, a level match there. In the end
/// no lots are wanted or no price within the limit is left. Only resting orders change. Our own rule, after the exchange's
/// published outline.
pub fn sweep<B: Book, E: Emit>(
    book: &mut B,
    desk: &mut Desk,
    taker: &mut Taker,
    limit: Price,
    steps: &Steps,
    out: &mut E,
)
    requires can { CanTrade (B.book book.old) desk.old taker.old }
    ensures matches { let before = match_at (B.book book.old) desk.old taker.old out.old in
        let after = match_at (B.book book.new) desk.new taker.new out.new in
        Matches E.meanings (sweep steps.now limit) before after }
    ensures done { IsSweepDone limit (B.book book.new) taker.new }
    ensures stays { B.book book.new ≡ with_resting (B.book book.new).resting (B.book book.old) }
{
    while let Some(price) = next_price(book, taker, limit) {
        book.rules();
        match_level(book, desk, taker, price, steps, out);
    }
}
