//! A price level.
ghost use Rattle.std.specs.Prelude.{◌≡◌, ◌<◌, ◌≤◌, vec_len, vec_capacity};
ghost use Rattle.price_level.specs.Inner.Table.{rows_held, with_row};

use gx_base::{Price, Side};
use price_chunks::Spot;

/// A price level with the sums of its orders.
#[derive(Clone, Copy, Debug, PartialEq, Eq)]
pub struct LevelRow {
    pub instrument: u8,
    pub side: Side,
    pub price: Price,
    /// The number of its queue of orders, which no other level has.
    pub queue: u32,
    /// How many orders it has.
    pub count: u32,
    /// How many lots of them are shown.
    pub shown: u64,
    /// How many lots of them are open.
    pub leaves: u64,
}

/// What is kept of a queue: the row of its level, and where the level stood when it last changed. That of a free queue means nothing.
#[derive(Clone, Copy)]
pub(crate) struct Held {
    pub(crate) row: LevelRow,
    pub(crate) spot: Spot,
}

/// What is kept of a queue that was used before, or of the next one, which comes to the end.
pub(crate) fn hold(all: &mut Vec<Held>, queue: u32, row: LevelRow, spot: Spot)
    requires used { queue ≤ vec_len all.old }
    requires room { queue < vec_capacity all.old }
    ensures rows { rows_held all.new.items ≡ with_row (rows_held all.old.items) queue row }
    ensures capacity { vec_capacity all.new ≡ vec_capacity all.old }
{
    let held = Held { row, spot };
    if (queue as usize) < all.len() {
        all[queue as usize] = held;
        return;
    }
    all.push_reserved(held);
}
