//! Parts of the calls of a linked book.
ghost use Rattle.std.specs.Prelude.{◌≡◌, ◌+◌, ◌^◌, ◌<◌, ◌≤◌, length, None};
ghost use Rattle.gx_base.specs.declared.limits.TheConstants.{MOST_LOTS};
ghost use Rattle.plain_book.specs.Orders.{level, is_best_price, filled_by};
ghost use Rattle.price_level.specs.Rows.{best_row, HasQueue, row_of};
ghost use Rattle.book_side.specs.Inner.Steps.{IsEntered, rows_left};

use book_order::is_better_price;
use gx_base::{Order, Price, Side};
use price_level::Levels;

/// The queue of a level, which is made where there is none.
pub(crate) fn enter_level(levels: &mut Levels, instrument: u8, side: Side, price: Price) -> u32
    requires listed { instrument < levels.old.instruments }
    requires room { length levels.old.rows < levels.old.capacity }
    ensures { IsEntered (level instrument side price) result levels.old levels.new }
{
    levels.rules();
    match levels.find(instrument, side, price) {
        Some(queue) => queue,
        None => levels.add_level(instrument, side, price),
    }
}

/// Whether an order is better than every level of its side.
pub(crate) fn is_new_best(levels: &Levels, order: &Order) -> bool
    requires { order.now.instrument < levels.now.instruments }
    ensures { result ≡ is_best_price order.now.side order.now.price.0 (best_row order.now.instrument order.now.side levels.now.rows) }
{
    match levels.best(order.instrument, order.side) {
        None => true,
        Some(best) => is_better_price(order.side, order.price, best),
    }
}

/// A sum of which one part is another now.
pub(crate) fn exchanged(sum: u64, old: u32, new: u32) -> u64
    requires part { old ≤ sum }
    requires small { sum < 2 ^ 63 }
    ensures { result + old ≡ sum + new }
{
    sum - u64::from(old) + u64::from(new)
}

/// An order leaves its level, which goes where that was the last one.
pub(crate) fn leave_level(levels: &mut Levels, queue: u32, order: &Order)
    requires has { HasQueue queue levels.old.rows }
    requires some { 1 ≤ (row_of queue levels.old.rows).count }
    requires shown { order.now.shown ≤ (row_of queue levels.old.rows).shown }
    requires leaves { order.now.leaves ≤ (row_of queue levels.old.rows).leaves }
    ensures { levels.new ≡ record levels.old { rows = rows_left queue order.now levels.old.rows } }
{
    let row = levels.row(queue);
    if row.count == 1 {
        levels.remove_level(queue);
        return;
    }
    levels.set_sums(
        queue,
        row.count - 1,
        row.shown - u64::from(order.shown),
        row.leaves - u64::from(order.leaves),
    );
}

/// The order with some lots of it traded.
pub(crate) fn filled(order: &Order, lots: u32) -> Order
    requires shown { lots ≤ order.now.shown }
    requires within { order.now.shown ≤ order.now.leaves }
    requires whole { order.now.filled + order.now.leaves ≤ MOST_LOTS }
    ensures { result ≡ filled_by lots order.now }
{
    let mut given = *order;
    given.filled += lots;
    given.leaves -= lots;
    given.shown -= lots;
    given
}
