//! Where a price stands among the levels of a chunk, the worst price first.
ghost use Rattle.std.specs.Prelude.{◌≡◌, ◌<◌, ◌≤◌, ◌^◌, filter, take, drop, length};
ghost use Rattle.price_chunks.specs.Steps.{open_at, AreWorstFirst, is_worse_step, is_better_step, is_step_at, is_open_step, price_of_last, price_of_first, queue_of_last};
ghost use Rattle.price_chunks.specs.Inner.Chunks.{IsPlace};

use book_order::{is_better_price, is_same_price};
use gx_base::{Price, Side};

/// A level of a side.
#[derive(Clone, Copy)]
pub struct Step {
    pub price: Price,
    /// How many lots are open at it.
    pub leaves: u64,
    /// The number of its queue of orders.
    pub queue: u32,
}

/// Where a level stood when it was last seen: the number of its chunk among those of its side, and its place there. It is looked at
/// before a search, and nothing is wrong where another level stands there now, or none.
#[derive(Clone, Copy)]
pub struct Spot {
    pub chunk: u32,
    pub place: u32,
}

/// The place where a price stands if all levels are as far apart as the first two are. They mostly are: no tick between them is without
/// a level.
fn guess_of(steps: &[Step], price: Price) -> usize
    requires { 0 < length steps.now }
    ensures { result < length steps.now }
{
    let last = steps.len() - 1;
    let first = steps[0].price.0;
    let gap = first.abs_diff(steps[last.min(1)].price.0);
    let guess = first.abs_diff(price.0) / gap.max(1);
    (guess as usize).min(last)
}

/// How many levels have a worse price. At the best price and at better ones, where most happens, and where a guess is right, nothing
/// is searched.
pub(crate) fn place_of(steps: &[Step], side: Side, price: Price) -> usize
    requires { AreWorstFirst side steps.now }
    ensures { IsPlace side price steps.now result }
{
    let count = steps.len();
    if count == 0 {
        return 0;
    }
    let best = steps[count - 1].price;
    if is_better_price(side, price, best) {
        return count;
    }
    if is_same_price(best, price) {
        return count - 1;
    }
    let guess = guess_of(steps, price);
    if is_same_price(steps[guess].price, price) {
        return guess;
    }
    place_by_halves(steps, side, price)
}

/// How many levels have a worse price, by halving them.
fn place_by_halves(steps: &[Step], side: Side, price: Price) -> usize
    requires { AreWorstFirst side steps.now }
    ensures { IsPlace side price steps.now result }
{
    let mut low = 0;
    let mut high = steps.len();
    while low < high {
        let middle = low + (high - low) / 2;
        if is_better_price(side, price, steps[middle].price) {
            low = middle + 1;
        } else {
            high = middle;
        }
    }
    low
}

/// The price of the level before a place. `None` exactly where the place is the first.
fn price_before(steps: &[Step], place: usize) -> Option<Price>
    requires { place ≤ length steps.now }
    ensures { result ≡ price_of_last (take place steps.now) }
{
    if place == 0 {
        return None;
    }
    Some(steps[place - 1].price)
}

/// The best price. `None` exactly where there is no level.
pub(crate) fn best_price(steps: &[Step]) -> Option<Price>
    ensures { result ≡ price_of_last steps.now }
{
    price_before(steps, steps.len())
}

/// The best of the prices that are worse than this one. `None` exactly where no price is.
pub(crate) fn worse_price(steps: &[Step], side: Side, price: Price) -> Option<Price>
    requires { AreWorstFirst side steps.now }
    ensures { result ≡ price_of_last (filter (is_worse_step side price) steps.now) }
{
    price_before(steps, place_of(steps, side, price))
}

/// The price of the level at a place. `None` exactly where the place is after the last level.
fn price_at(steps: &[Step], place: usize) -> Option<Price>
    ensures { result ≡ price_of_first (drop place steps.now) }
{
    if place < steps.len() {
        return Some(steps[place].price);
    }
    None
}

/// The worst price. `None` exactly where there is no level.
pub(crate) fn worst_price(steps: &[Step]) -> Option<Price>
    ensures { result ≡ price_of_first steps.now }
{
    price_at(steps, 0)
}

/// How many levels have this price or a worse one.
fn place_after(steps: &[Step], side: Side, price: Price) -> usize
    requires { AreWorstFirst side steps.now }
    ensures { drop result steps.now ≡ filter (is_better_step side price) steps.now }
{
    let place = place_of(steps, side, price);
    if place < steps.len() && is_same_price(steps[place].price, price) {
        return place + 1;
    }
    place
}

/// The worst of the prices that are better than this one. `None` exactly where no price is.
pub(crate) fn better_price(steps: &[Step], side: Side, price: Price) -> Option<Price>
    requires { AreWorstFirst side steps.now }
    ensures { result ≡ price_of_first (filter (is_better_step side price) steps.now) }
{
    price_at(steps, place_after(steps, side, price))
}

/// The queue of the level at a price. `None` exactly where there is none.
pub(crate) fn queue_at(steps: &[Step], side: Side, price: Price) -> Option<u32>
    requires { AreWorstFirst side steps.now }
    ensures { result ≡ queue_of_last (filter (is_step_at price) steps.now) }
{
    let place = place_of(steps, side, price);
    if place < steps.len() && is_same_price(steps[place].price, price) {
        return Some(steps[place].queue);
    }
    None
}

/// How many lots are open at a limit and at better prices.
pub(crate) fn open_lots(steps: &[Step], side: Side, limit: Price) -> u64
    requires ordered { AreWorstFirst side steps.now }
    requires fits { open_at steps.now < 2 ^ 63 }
    ensures { result ≡ open_at (filter (is_open_step side limit) steps.now) }
{
    let mut total = 0;
    for i in place_of(steps, side, limit)..steps.len() {
        total += steps[i].leaves;
    }
    total
}
