//! The levels of one side in chunks, of which it always has one. What happens near the best price touches the last two chunks alone.
//!
//! A level that comes fills its chunk, and a full chunk is split in two. A level that goes may leave its chunk and one beside it with
//! few levels, and these two are joined. So two chunks beside each other always have at least `HALF` levels.
ghost use Rattle.std.specs.Prelude.{◌≡◌, ◌<◌, ◌≤◌, ◌+◌, true, false, ◌^◌, filter, length, sum_by};
ghost use Rattle.std.specs.List.{AllByRecursion};
ghost use Rattle.price_chunks.specs.declared.place.Step.{Step};
ghost use Rattle.price_chunks.specs.Steps.{AreWorstFirst, is_worse_step, is_better_step, is_step_at, is_open_step, price_of_last, price_of_first, queue_of_last, with_step, without_step, open_at, with_open};
ghost use Rattle.price_chunks.specs.Inner.Pool.{chunks_at, with_side};
ghost use Rattle.price_chunks.specs.Inner.Chunks.{room, flat, chunk_at, AreChunks, IsChunkOf, IsPair, IsSmall, IsLessAt, IsLevelAt};

use crate::chunk::{HALF, ROOM};
use crate::place::{
    Spot, Step, best_price as best_of, better_price as better_of, open_lots as open_of,
    queue_at as queue_of, worse_price as worse_of, worst_price as worst_of,
};
use crate::pool::Pool;
use gx_base::{Price, Side};

/// The chunk in which a price has its place. Near the best price, where most happens, nothing is searched.
pub(crate) fn chunk_of(pool: &Pool, side_at: usize, side: Side, price: Price) -> usize
    requires listed { side_at < length pool.now.sides }
    requires chunks { AreChunks (chunks_at pool.now.sides side_at) }
    requires ordered { AreWorstFirst side (flat (chunks_at pool.now.sides side_at)) }
    ensures { IsChunkOf side price (chunks_at pool.now.sides side_at) result }
{
    let last = pool.len(side_at) - 1;
    if last == 0 || pool.chunk(side_at, last - 1).is_worse(side, price) {
        return last;
    }
    chunk_by_halves(pool, side_at, side, price)
}

/// The spot of a place in a chunk. Of each number the last 32 bits are enough, since a spot is looked at before it is used.
fn spot_at(chunk: usize, place: usize) -> Spot {
    Spot {
        chunk: (chunk & 0xFFFF_FFFF) as u32,
        place: (place & 0xFFFF_FFFF) as u32,
    }
}

/// Whether the level at a spot has this price.
fn is_at(pool: &Pool, side_at: usize, spot: Spot, price: Price) -> bool
    requires listed { side_at < length pool.now.sides }
    ensures { result ≡ true → IsLevelAt price (chunks_at pool.now.sides side_at) spot.chunk spot.place }
{
    let at = spot.chunk as usize;
    at < pool.len(side_at) && pool.chunk(side_at, at).is_at(spot.place as usize, price)
}

/// The chunk in which a price has its place, by halving the chunks.
fn chunk_by_halves(pool: &Pool, side_at: usize, side: Side, price: Price) -> usize
    requires listed { side_at < length pool.now.sides }
    requires chunks { AreChunks (chunks_at pool.now.sides side_at) }
    requires ordered { AreWorstFirst side (flat (chunks_at pool.now.sides side_at)) }
    ensures { IsChunkOf side price (chunks_at pool.now.sides side_at) result }
{
    let mut low = 0;
    let mut high = pool.len(side_at) - 1;
    while low < high {
        let middle = low + (high - low) / 2;
        if pool.chunk(side_at, middle).is_worse(side, price) {
            low = middle + 1;
        } else {
            high = middle;
        }
    }
    low
}

/// Whether a chunk and the next one have too few levels to stay two chunks.
fn is_small(pool: &Pool, side_at: usize, at: usize) -> bool
    requires listed { side_at < length pool.now.sides }
    requires within { at < length (chunks_at pool.now.sides side_at) }
    requires front { length (chunk_at (chunks_at pool.now.sides side_at) at) < room }
    requires back { length (chunk_at (chunks_at pool.now.sides side_at) (at + 1)) < room }
    ensures small { result ≡ true → IsSmall (chunks_at pool.now.sides side_at) at }
    ensures pair { result ≡ false → at + 1 < length (chunks_at pool.now.sides side_at) → IsPair (chunk_at (chunks_at pool.now.sides side_at) at) (chunk_at (chunks_at pool.now.sides side_at) (at + 1)) }
{
    let count = pool.len(side_at);
    if at + 1 == count {
        return false;
    }
    let front = pool.chunk(side_at, at).len();
    let back = pool.chunk(side_at, at + 1).len();
    front == 0 || back == 0 || front + back < HALF
}

/// A level that is better than each other comes to the end. Returns its spot, but where its chunk was split.
fn put_best(pool: &mut Pool, side_at: usize, side: Side, step: Step) -> Spot
    requires listed { side_at < length pool.old.sides }
    requires chunks { AreChunks (chunks_at pool.old.sides side_at) }
    requires ordered { AreWorstFirst side (flat (chunks_at pool.old.sides side_at)) }
    requires worse { AllByRecursion (λ (s : Step). is_worse_step side step.price s ≡ true) (flat (chunks_at pool.old.sides side_at)) }
    requires room { sum_by length pool.old.sides < pool.old.room }
    ensures rest { pool.new ≡ with_side pool.old side_at (chunks_at pool.new.sides side_at) }
    ensures flat { flat (chunks_at pool.new.sides side_at) ≡ with_step side step (flat (chunks_at pool.old.sides side_at)) }
    ensures chunks { AreChunks (chunks_at pool.new.sides side_at) }
{
    let last = pool.len(side_at) - 1;
    let spot = spot_at(last, pool.push(side_at, last, step));
    if pool.chunk(side_at, last).len() == ROOM {
        pool.split(side_at, last);
    }
    spot
}

/// A level comes to its place, by a search. Returns its spot, but where its chunk was split.
#[inline(never)]
fn put_by_search(pool: &mut Pool, side_at: usize, side: Side, step: Step) -> Spot
    requires listed { side_at < length pool.old.sides }
    requires chunks { AreChunks (chunks_at pool.old.sides side_at) }
    requires ordered { AreWorstFirst side (flat (chunks_at pool.old.sides side_at)) }
    requires room { sum_by length pool.old.sides < pool.old.room }
    ensures rest { pool.new ≡ with_side pool.old side_at (chunks_at pool.new.sides side_at) }
    ensures flat { flat (chunks_at pool.new.sides side_at) ≡ with_step side step (flat (chunks_at pool.old.sides side_at)) }
    ensures chunks { AreChunks (chunks_at pool.new.sides side_at) }
{
    let at = chunk_of(pool, side_at, side, step.price);
    let spot = spot_at(at, pool.put(side_at, at, side, step));
    if pool.chunk(side_at, at).len() == ROOM {
        pool.split(side_at, at);
    }
    spot
}

/// A level comes to its place. A new best level comes to the end, and nothing is searched. Returns its spot, but where its chunk was
/// split.
pub(crate) fn put_in(pool: &mut Pool, side_at: usize, side: Side, step: Step) -> Spot
    requires listed { side_at < length pool.old.sides }
    requires chunks { AreChunks (chunks_at pool.old.sides side_at) }
    requires ordered { AreWorstFirst side (flat (chunks_at pool.old.sides side_at)) }
    requires room { sum_by length pool.old.sides < pool.old.room }
    ensures rest { pool.new ≡ with_side pool.old side_at (chunks_at pool.new.sides side_at) }
    ensures flat { flat (chunks_at pool.new.sides side_at) ≡ with_step side step (flat (chunks_at pool.old.sides side_at)) }
    ensures chunks { AreChunks (chunks_at pool.new.sides side_at) }
{
    if pool
        .chunk(side_at, pool.len(side_at) - 1)
        .is_all_worse(side, step.price)
    {
        return put_best(pool, side_at, side, step);
    }
    put_by_search(pool, side_at, side, step)
}

/// A chunk that has lost a level is joined with the one after it or before it, where the two have few levels.
fn tidy(pool: &mut Pool, side_at: usize, at: usize)
    requires listed { side_at < length pool.old.sides }
    requires chunks { IsLessAt (chunks_at pool.old.sides side_at) at }
    ensures rest { pool.new ≡ with_side pool.old side_at (chunks_at pool.new.sides side_at) }
    ensures flat { flat (chunks_at pool.new.sides side_at) ≡ flat (chunks_at pool.old.sides side_at) }
    ensures chunks { AreChunks (chunks_at pool.new.sides side_at) }
{
    if is_small(pool, side_at, at) {
        pool.join(side_at, at);
        return;
    }
    if at > 0 && is_small(pool, side_at, at - 1) {
        pool.join(side_at, at - 1);
    }
}

/// The level at a price goes, if there is one, by a search.
#[inline(never)]
fn take_by_search(pool: &mut Pool, side_at: usize, side: Side, price: Price)
    requires listed { side_at < length pool.old.sides }
    requires chunks { AreChunks (chunks_at pool.old.sides side_at) }
    requires ordered { AreWorstFirst side (flat (chunks_at pool.old.sides side_at)) }
    ensures rest { pool.new ≡ with_side pool.old side_at (chunks_at pool.new.sides side_at) }
    ensures flat { flat (chunks_at pool.new.sides side_at) ≡ without_step price (flat (chunks_at pool.old.sides side_at)) }
    ensures chunks { AreChunks (chunks_at pool.new.sides side_at) }
{
    let at = chunk_of(pool, side_at, side, price);
    pool.take_out(side_at, at, side, price);
    tidy(pool, side_at, at);
}

/// The level at a price goes, if there is one. Where it stands at the spot, nothing is searched.
pub(crate) fn take_out(pool: &mut Pool, side_at: usize, side: Side, price: Price, spot: Spot)
    requires listed { side_at < length pool.old.sides }
    requires chunks { AreChunks (chunks_at pool.old.sides side_at) }
    requires ordered { AreWorstFirst side (flat (chunks_at pool.old.sides side_at)) }
    ensures rest { pool.new ≡ with_side pool.old side_at (chunks_at pool.new.sides side_at) }
    ensures flat { flat (chunks_at pool.new.sides side_at) ≡ without_step price (flat (chunks_at pool.old.sides side_at)) }
    ensures chunks { AreChunks (chunks_at pool.new.sides side_at) }
{
    if is_at(pool, side_at, spot, price) {
        let at = spot.chunk as usize;
        pool.take_at(side_at, at, spot.place as usize);
        tidy(pool, side_at, at);
        return;
    }
    take_by_search(pool, side_at, side, price);
}

/// The best price. `None` exactly where there is no level.
pub(crate) fn best_price(pool: &Pool, side_at: usize) -> Option<Price>
    requires listed { side_at < length pool.now.sides }
    requires chunks { AreChunks (chunks_at pool.now.sides side_at) }
    ensures { result ≡ price_of_last (flat (chunks_at pool.now.sides side_at)) }
{
    best_of(pool.chunk(side_at, pool.len(side_at) - 1).steps())
}

/// The best of the prices that are worse than this one. `None` exactly where no price is.
pub(crate) fn worse_price(pool: &Pool, side_at: usize, side: Side, price: Price) -> Option<Price>
    requires listed { side_at < length pool.now.sides }
    requires chunks { AreChunks (chunks_at pool.now.sides side_at) }
    requires ordered { AreWorstFirst side (flat (chunks_at pool.now.sides side_at)) }
    ensures { result ≡ price_of_last (filter (is_worse_step side price) (flat (chunks_at pool.now.sides side_at))) }
{
    let at = chunk_of(pool, side_at, side, price);
    if let Some(worse) = worse_of(pool.chunk(side_at, at).steps(), side, price) {
        return Some(worse);
    }
    if at == 0 {
        return None;
    }
    best_of(pool.chunk(side_at, at - 1).steps())
}

/// The worst price. `None` exactly where there is no level.
pub(crate) fn worst_price(pool: &Pool, side_at: usize) -> Option<Price>
    requires listed { side_at < length pool.now.sides }
    requires chunks { AreChunks (chunks_at pool.now.sides side_at) }
    ensures { result ≡ price_of_first (flat (chunks_at pool.now.sides side_at)) }
{
    worst_of(pool.chunk(side_at, 0).steps())
}

/// The worst of the prices that are better than this one. `None` exactly where no price is.
pub(crate) fn better_price(pool: &Pool, side_at: usize, side: Side, price: Price) -> Option<Price>
    requires listed { side_at < length pool.now.sides }
    requires chunks { AreChunks (chunks_at pool.now.sides side_at) }
    requires ordered { AreWorstFirst side (flat (chunks_at pool.now.sides side_at)) }
    ensures { result ≡ price_of_first (filter (is_better_step side price) (flat (chunks_at pool.now.sides side_at))) }
{
    let at = chunk_of(pool, side_at, side, price);
    if let Some(better) = better_of(pool.chunk(side_at, at).steps(), side, price) {
        return Some(better);
    }
    let count = pool.len(side_at);
    if at + 1 == count {
        return None;
    }
    worst_of(pool.chunk(side_at, at + 1).steps())
}

/// The queue of the level at a price. `None` exactly where there is none. At the best price and at better ones nothing is searched.
pub(crate) fn queue_at(pool: &Pool, side_at: usize, side: Side, price: Price) -> Option<u32>
    requires listed { side_at < length pool.now.sides }
    requires chunks { AreChunks (chunks_at pool.now.sides side_at) }
    requires ordered { AreWorstFirst side (flat (chunks_at pool.now.sides side_at)) }
    ensures { result ≡ queue_of_last (filter (is_step_at price) (flat (chunks_at pool.now.sides side_at))) }
{
    let last = pool.len(side_at) - 1;
    if pool.chunk(side_at, last).is_best(price) {
        return Some(pool.chunk(side_at, last).best_queue());
    }
    if pool.chunk(side_at, last).is_all_worse(side, price) {
        return None;
    }
    queue_by_search(pool, side_at, side, price)
}

/// The same, by a search.
#[inline(never)]
fn queue_by_search(pool: &Pool, side_at: usize, side: Side, price: Price) -> Option<u32>
    requires listed { side_at < length pool.now.sides }
    requires chunks { AreChunks (chunks_at pool.now.sides side_at) }
    requires ordered { AreWorstFirst side (flat (chunks_at pool.now.sides side_at)) }
    ensures { result ≡ queue_of_last (filter (is_step_at price) (flat (chunks_at pool.now.sides side_at))) }
{
    queue_of(
        pool.chunk(side_at, chunk_of(pool, side_at, side, price))
            .steps(),
        side,
        price,
    )
}

/// How many lots are open at a limit and at better prices.
pub(crate) fn open_lots(pool: &Pool, side_at: usize, side: Side, limit: Price) -> u64
    requires listed { side_at < length pool.now.sides }
    requires chunks { AreChunks (chunks_at pool.now.sides side_at) }
    requires ordered { AreWorstFirst side (flat (chunks_at pool.now.sides side_at)) }
    requires fits { open_at (flat (chunks_at pool.now.sides side_at)) < 2 ^ 63 }
    ensures { result ≡ open_at (filter (is_open_step side limit) (flat (chunks_at pool.now.sides side_at))) }
{
    let count = pool.len(side_at);
    let at = chunk_of(pool, side_at, side, limit);
    let mut total = open_of(pool.chunk(side_at, at).steps(), side, limit);
    for i in at + 1..count {
        total += pool.chunk(side_at, i).lots();
    }
    total
}

/// So many lots are open at a price now, if there is a level. Where it stands at the spot, nothing is searched. Returns the spot at
/// which it stands, or would come.
pub(crate) fn set_lots(
    pool: &mut Pool,
    side_at: usize,
    side: Side,
    price: Price,
    leaves: u64,
    spot: Spot,
) -> Spot
    requires listed { side_at < length pool.old.sides }
    requires chunks { AreChunks (chunks_at pool.old.sides side_at) }
    requires ordered { AreWorstFirst side (flat (chunks_at pool.old.sides side_at)) }
    ensures rest { pool.new ≡ with_side pool.old side_at (chunks_at pool.new.sides side_at) }
    ensures flat { flat (chunks_at pool.new.sides side_at) ≡ with_open price leaves (flat (chunks_at pool.old.sides side_at)) }
    ensures chunks { AreChunks (chunks_at pool.new.sides side_at) }
{
    if is_at(pool, side_at, spot, price) {
        pool.set_at(side_at, spot.chunk as usize, spot.place as usize, leaves);
        return spot;
    }
    set_by_search(pool, side_at, side, price, leaves)
}

/// The same, by a search.
#[inline(never)]
fn set_by_search(pool: &mut Pool, side_at: usize, side: Side, price: Price, leaves: u64) -> Spot
    requires listed { side_at < length pool.old.sides }
    requires chunks { AreChunks (chunks_at pool.old.sides side_at) }
    requires ordered { AreWorstFirst side (flat (chunks_at pool.old.sides side_at)) }
    ensures rest { pool.new ≡ with_side pool.old side_at (chunks_at pool.new.sides side_at) }
    ensures flat { flat (chunks_at pool.new.sides side_at) ≡ with_open price leaves (flat (chunks_at pool.old.sides side_at)) }
    ensures chunks { AreChunks (chunks_at pool.new.sides side_at) }
{
    let at = chunk_of(pool, side_at, side, price);
    spot_at(at, pool.set_lots(side_at, at, side, price, leaves))
}
