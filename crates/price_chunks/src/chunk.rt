//! A chunk: some levels of one side that stand one after the other, the worst price first.
ghost use Rattle.std.specs.Prelude.{◌≡◌, ◌+◌, ◌-◌, ◌<◌, ◌≤◌, ◌^◌, ℕ, [], true, false, ◌∷◌, ◌++◌, take, drop, set, insert, remove, length};
ghost use Rattle.std.specs.List.{copy_within};
ghost use Rattle.price_chunks.specs.Steps.{AreWorstFirst, step_at, is_worse_step, is_step_at, with_step, without_step, open_at, with_open};
ghost use Rattle.price_chunks.specs.Inner.Chunks.{room, half, IsAt};
ghost use Rattle.price_chunks.specs.Inner.Sums.{IsMod};

use crate::place::{Step, place_of};
use book_order::{is_better_price, is_same_price};
use gx_base::{Price, Side};
use std::marker::Model;

/// For how many levels a chunk has room.
pub(crate) const ROOM: usize = 128;

/// Two chunks beside each other have at least so many levels, and a full one is split into halves of so many.
pub(crate) const HALF: usize = 64;

/// What stands in a chunk after its levels.
const BLANK: Step = Step {
    price: Price(0),
    leaves: 0,
    queue: 0,
};

/// Some levels of one side, with what is open at all of them. Contracts see the list of the levels. It has room for `ROOM`
/// levels, and never for more.
#[derive(Drop)]
pub(crate) struct Chunk {
    /// Its levels, and after them whatever was left there.
    steps: [Step; ROOM],
    count: usize,
    /// How many lots are open at its levels, but for multiples of 2^64.
    lots: u64,
}

impl Model for Chunk {
    ghost use Rattle.std.specs.Prelude.{List, take};
    ghost use Rattle.price_chunks.specs.declared.place.Step.{Step};
    ghost use Rattle.price_chunks.specs.Inner.Sums.{IsChunk};

    ghost Value = { List Step };

    ghost view = { λ c. take c.count c.steps };

    ghost invariant = { λ c. IsChunk c.steps c.count c.lots };
}

/// The levels after a place move down to it. After the last one there are none, and nothing is moved.
fn close_gap(steps: &mut [Step; ROOM], place: usize, count: usize)
    requires within { place < count }
    requires fits { count ≤ length steps.old }
    ensures { steps.new ≡ copy_within steps.old (place + 1) count place }
{
    if place + 1 < count {
        steps.copy_within(place + 1..count, place);
    }
}

impl Chunk {
    /// A chunk without levels.
    pub(crate) fn new() -> Chunk
        ensures { result ≡ [] }
    {
        Chunk {
            steps: [BLANK; ROOM],
            count: 0,
            lots: 0,
        }
    }

    /// Its levels.
    pub(crate) fn steps(&self) -> &[Step]
        ensures { result.now ≡ self.now }
    {
        &self.steps[..self.count]
    }

    /// How many levels it has.
    pub(crate) fn len(&self) -> usize
        ensures { result ≡ length self.now }
    {
        self.count
    }

    /// How many lots are open at the level at this place.
    fn leaves_at(&self, place: usize) -> u64
        requires { place < length self.now }
        ensures { result ≡ (step_at self.now place).leaves }
    {
        self.steps()[place].leaves
    }

    /// Whether its best level, and so each level, is worse than a price.
    pub(crate) fn is_worse(&self, side: Side, price: Price) -> bool
        requires { 0 < length self.now }
        ensures { (n : ℕ) → n + 1 ≡ length self.now → result ≡ is_worse_step side price (step_at self.now n) }
    {
        is_better_price(side, price, self.steps[self.count - 1].price)
    }

    /// A level comes to a place.
    fn insert(&mut self, place: usize, step: Step)
        requires within { place ≤ length self.old }
        requires room { length self.old < room }
        ensures { self.new ≡ insert self.old place step }
    {
        let count = self.count;
        self.steps.copy_within(place..count, place + 1);
        self.steps[place] = step;
        self.count = count + 1;
        self.lots = self.lots.wrapping_add(step.leaves);
    }

    /// A level comes to its place, which is returned.
    pub(crate) fn put(&mut self, side: Side, step: Step) -> usize
        requires ordered { AreWorstFirst side self.old }
        requires room { length self.old < room }
        ensures put { self.new ≡ with_step side step self.old }
        ensures more { length self.new ≡ length self.old + 1 }
    {
        let place = place_of(self.steps(), side, step.price);
        self.insert(place, step);
        place
    }

    /// A level comes to the end. Returns its place.
    pub(crate) fn push(&mut self, step: Step) -> usize
        requires { length self.old < room }
        ensures { self.new ≡ self.old ++ step ∷ [] }
    {
        let place = self.count;
        self.steps[place] = step;
        self.count = place + 1;
        self.lots = self.lots.wrapping_add(step.leaves);
        place
    }

    /// The level at this place goes.
    pub(crate) fn take_at(&mut self, place: usize)
        requires { place < length self.old }
        ensures { self.new ≡ remove self.old place }
    {
        let gone = self.leaves_at(place);
        close_gap(&mut self.steps, place, self.count);
        self.count -= 1;
        self.lots = self.lots.wrapping_sub(gone);
    }

    /// The level at a price goes, if there is one.
    pub(crate) fn take_out(&mut self, side: Side, price: Price)
        requires ordered { AreWorstFirst side self.old }
        ensures out { self.new ≡ without_step price self.old }
        ensures less { length self.old ≤ length self.new + 1 }
        ensures below { length self.new ≤ length self.old }
    {
        let place = place_of(self.steps(), side, price);
        if self.is_at(place, price) {
            self.take_at(place);
        }
    }

    /// Whether the level at this place has this price.
    pub(crate) fn is_at(&self, place: usize, price: Price) -> bool
        ensures is { result ≡ true → IsAt price self.now place }
        ensures other { result ≡ false → place < length self.now → is_step_at price (step_at self.now place) ≡ false }
    {
        place < self.count && is_same_price(self.steps[place].price, price)
    }

    /// Whether its best level has this price.
    pub(crate) fn is_best(&self, price: Price) -> bool
        ensures { result ≡ true → IsAt price self.now (length self.now - 1) }
    {
        let count = self.count;
        count > 0 && is_same_price(self.steps[count - 1].price, price)
    }

    /// Whether each of its levels is worse than a price.
    pub(crate) fn is_all_worse(&self, side: Side, price: Price) -> bool
        ensures { result ≡ true → 0 < length self.now → is_worse_step side price (step_at self.now (length self.now - 1)) ≡ true }
    {
        let count = self.count;
        count == 0 || is_better_price(side, price, self.steps[count - 1].price)
    }

    /// The queue of its best level.
    pub(crate) fn best_queue(&self) -> u32
        requires { 0 < length self.now }
        ensures { result ≡ (step_at self.now (length self.now - 1)).queue }
    {
        self.steps[self.count - 1].queue
    }

    /// So many lots are open at the level at this place now.
    pub(crate) fn set_at(&mut self, place: usize, leaves: u64)
        requires { place < length self.old }
        ensures { self.new ≡ set self.old place (record (step_at self.old place) { leaves = leaves }) }
    {
        let old = self.leaves_at(place);
        self.steps[place].leaves = leaves;
        self.lots = self.lots.wrapping_sub(old).wrapping_add(leaves);
    }

    /// So many lots are open at a price now, if there is a level. Returns its place, or where it would come.
    pub(crate) fn set_lots(&mut self, side: Side, price: Price, leaves: u64) -> usize
        requires { AreWorstFirst side self.old }
        ensures set { self.new ≡ with_open price leaves self.old }
        ensures long { length self.new ≡ length self.old }
    {
        let place = place_of(self.steps(), side, price);
        if self.is_at(place, price) {
            self.set_at(place, leaves);
        }
        place
    }

    /// How many lots are open at its levels.
    pub(crate) fn lots(&self) -> u64
        requires { open_at self.now < 2 ^ 64 }
        ensures { result ≡ open_at self.now }
    {
        self.lots
    }

    /// Levels come to the end.
    fn push_all(&mut self, steps: &[Step])
        requires { length self.old + length steps.now ≤ room }
        ensures { self.new ≡ self.old ++ steps.now }
    {
        for step in steps {
            self.push(*step);
        }
    }

    /// How many lots are open at its levels, but for multiples of 2^64.
    fn sum(&self) -> u64
        ensures { IsMod result (open_at self.now) }
    {
        self.lots
    }

    /// All levels after the first half go, and come back in a chunk of their own.
    pub(crate) fn split_off(&mut self) -> Chunk
        requires { half ≤ length self.old }
        ensures front { self.new ≡ take half self.old }
        ensures back { result ≡ drop half self.old }
    {
        let mut back = Chunk::new();
        back.push_all(&self.steps()[HALF..]);
        let moved = back.sum();
        self.count = HALF;
        self.lots = self.lots.wrapping_sub(moved);
        back
    }

    /// All levels of the next chunk come to the end of this one.
    pub(crate) fn append(&mut self, next: &Chunk)
        requires { length self.old + length next.now ≤ room }
        ensures { self.new ≡ self.old ++ next.now }
    {
        self.push_all(next.steps());
    }
}
