//! The head of a level trades what it shows, again and again.
ghost use Rattle.std.specs.Prelude.{◌≡◌, min};
ghost use Rattle.plain_book.specs.Orders.{HasSlot, order_of};
ghost use Rattle.plain_book.specs.Book.{live_orders};
ghost use Rattle.plain_book.specs.Matches.{match_at, Matches, CanTrade};
ghost use Rattle.plain_book.specs.Steps.{fifo, IsLevelDone};

use gx_base::{Desk, Emit, Price, Slot, StepName, Taker};
use plain_book::{Book, OrderShare, opposite_side, trade_lots};

/// What a live order shows, as far as it is wanted.
fn lots_at_head<B: Book>(book: &B, slot: Slot, wanted: u32) -> u32
    requires { HasSlot slot.0 (live_orders (B.book book.now)) }
    ensures { result ≡ min wanted (order_of slot.0 (live_orders (B.book book.now))).shown }
{
    wanted.min(book.order(slot).shown)
}

/// The FIFO step at a price: the first order of the opposite side at this price trades what it shows, as far as it is
/// wanted, and then the order that is first after that trade, until no lots are wanted or no order is left there. Each
/// trade puts two Fill events, the resting order's first, and lengthens the taker's range. Where nothing is wanted,
/// nothing is done. Our own rule, after the exchange's published outline.
pub fn fifo_pass<B: Book, E: Emit>(
    book: &mut B,
    desk: &mut Desk,
    taker: &mut Taker,
    price: Price,
    out: &mut E,
)
    requires can { CanTrade (B.book book.old) desk.old taker.old }
    ensures matches { let before = match_at (B.book book.old) desk.old taker.old out.old in
        let after = match_at (B.book book.new) desk.new taker.new out.new in
        Matches E.meanings (fifo price) before after }
    ensures done { IsLevelDone price (B.book book.new) taker.new }
{
    let instrument = taker.order.instrument;
    let side = opposite_side(taker.order.side);
    while taker.order.leaves > 0 {
        book.rules();
        match book.first(instrument, side, price) {
            None => return,
            Some(slot) => {
                let lots = lots_at_head(book, slot, taker.order.leaves);
                let share = OrderShare { slot, lots };
                trade_lots(book, desk, taker, share, StepName::Fifo, out);
            }
        }
    }
}
