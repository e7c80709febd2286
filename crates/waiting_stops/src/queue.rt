//! The stops of one instrument.
//!
//! They stand in the order in which they came. One that leaves leaves its place empty, and once all places are taken, the empty ones
//! go. For each 512 places there is a bound on the stop prices of the stops there, and one for all: so a range of trade prices that
//! reaches none is told by one look, and else most places are passed over, 512 at once.
ghost use Rattle.std.specs.Prelude.{◌≡◌, ◌<◌, ◌≤◌, ◌+◌, ◌*◌, ◌/◌, ◌^◌, [], None, filter, length, option_map, set, IfOk, vec_len, vec_capacity};
ghost use Rattle.waiting_stops.specs.Waits.{slot_number, is_reached_wait, first_slot, SlotsDiffer, with_wait, without_slot};
ghost use Rattle.waiting_stops.specs.Inner.Kept.{stops_at, waits_in, waits_of, block, AreWidened, AreBlocks, IsQueue};

use crate::bound::{Bound, bound_of, joined};
use crate::place::{Place, block_of, first_in, note_spots, place_of};
use gx_base::{Price, Side, Slot};
use std::alloc::{AllocError, Global};

/// A stop that waits, by what tells whether trades reach it.
#[derive(Clone, Copy)]
pub struct Wait {
    pub slot: Slot,
    pub side: Side,
    /// Its stop price.
    pub trigger: Price,
}

/// How many places share a bound.
pub(crate) const BLOCK: usize = 512;

/// The stops of an instrument, in the order in which they came.
#[derive(Drop)]
pub(crate) struct StopQueue {
    /// The stops in their order. A place is free where one has left.
    places: Vec<Place>,
    /// A bound for each 512 places.
    blocks: Vec<Bound>,
    /// A bound for all.
    whole: Bound,
    /// How many wait.
    waiting: u32,
}

/// The bound of the block of the next place covers one stop more. The first place of a block brings a new bound.
fn widen(blocks: &mut Vec<Bound>, next: usize, wait: Wait)
    requires enough { next ≤ block * vec_len blocks.old }
    requires few { block * vec_len blocks.old < next + block }
    requires room { next < block * vec_capacity blocks.old }
    ensures widened { AreWidened blocks.old.items blocks.new.items next wait }
    ensures room { vec_capacity blocks.new ≡ vec_capacity blocks.old }
{
    if next % BLOCK == 0 {
        blocks.push_reserved(Bound::none());
    }
    blocks[next / BLOCK].add(wait);
}

/// The bounds of all blocks, anew.
fn fill_blocks(blocks: &mut Vec<Bound>, places: &[Place])
    requires room { length places.now < block * vec_capacity blocks.old }
    requires fits { length places.now < 2 ^ 32 }
    ensures blocks { AreBlocks blocks.new.items (stops_at places.now) }
    ensures room { vec_capacity blocks.new ≡ vec_capacity blocks.old }
{
    blocks.clear();
    for k in 0..places.len().div_ceil(BLOCK) {
        blocks.push_reserved(bound_of(block_of(places, k)));
    }
}

impl StopQueue {
    /// No stops, with so many places. An `Err` is want of memory.
    pub(crate) fn new(alloc: Global, room: u32) -> Result<StopQueue, AllocError>
        ensures queue { IfOk result (λ q. IsQueue q) }
        ensures waits { IfOk result (λ q. waits_of q ≡ []) }
        ensures room { IfOk result (λ q. vec_capacity q.places ≡ room) }
    {
        Ok(StopQueue {
            places: Vec::with_capacity(alloc, room as usize)?,
            blocks: Vec::with_capacity(alloc, room as usize / BLOCK + 1)?,
            whole: Bound::none(),
            waiting: 0,
        })
    }

    /// A stop comes, at the end. If all places are taken, the empty ones go first.
    pub(crate) fn put(&mut self, wait: Wait, spots: &mut Vec<u32>)
        requires queue { IsQueue self.old }
        requires room { length (waits_of self.old) < vec_capacity self.old.places }
        requires slot { wait.slot.0 < vec_len spots.old }
        ensures queue { IsQueue self.new }
        ensures waits { waits_of self.new ≡ with_wait wait (waits_of self.old) }
        ensures room { vec_capacity self.new.places ≡ vec_capacity self.old.places }
        ensures spots { vec_len spots.new ≡ vec_len spots.old }
        ensures spots_room { vec_capacity spots.new ≡ vec_capacity spots.old }
    {
        if self.places.len() == self.places.capacity() {
            self.close_up(spots);
        }
        spots[wait.slot.0 as usize] = self.places.len() as u32;
        self.push(wait);
    }

    /// A stop comes to the next place.
    fn push(&mut self, wait: Wait)
        requires queue { IsQueue self.old }
        requires room { vec_len self.old.places < vec_capacity self.old.places }
        ensures queue { IsQueue self.new }
        ensures waits { waits_of self.new ≡ with_wait wait (waits_of self.old) }
        ensures room { vec_capacity self.new.places ≡ vec_capacity self.old.places }
    {
        widen(&mut self.blocks, self.places.len(), wait);
        self.whole.add(wait);
        self.places.push_reserved(Place::taken(wait));
        self.waiting += 1;
    }

    /// The empty places go, and the bounds are made anew.
    fn close_up(&mut self, spots: &mut Vec<u32>)
        requires queue { IsQueue self.old }
        ensures queue { IsQueue self.new }
        ensures waits { waits_of self.new ≡ waits_of self.old }
        ensures closed { vec_len self.new.places ≡ length (waits_of self.old) }
        ensures room { vec_capacity self.new.places ≡ vec_capacity self.old.places }
        ensures spots { vec_len spots.new ≡ vec_len spots.old }
        ensures spots_room { vec_capacity spots.new ≡ vec_capacity spots.old }
    {
        self.places.retain(|place| place.wait().is_some());
        note_spots(&self.places, spots);
        fill_blocks(&mut self.blocks, &self.places);
        self.whole = joined(&self.blocks);
    }

    /// The stop of a slot leaves, if it is there. `spot` is a guess of its place.
    pub(crate) fn take_out(&mut self, slot: Slot, spot: u32)
        requires queue { IsQueue self.old }
        requires differ { SlotsDiffer (waits_of self.old) }
        ensures queue { IsQueue self.new }
        ensures waits { waits_of self.new ≡ without_slot slot.0 (waits_of self.old) }
        ensures room { vec_capacity self.new.places ≡ vec_capacity self.old.places }
    {
        if let Some(place) = place_of(&self.places, slot, spot as usize) {
            self.empty(place);
        }
    }

    /// The stop of a place leaves, if one is there.
    fn empty(&mut self, place: usize)
        requires queue { IsQueue self.old }
        requires within { place < vec_len self.old.places }
        ensures queue { IsQueue self.new }
        ensures waits { waits_of self.new ≡ waits_in (set (stops_at self.old.places.items) place None) }
        ensures room { vec_capacity self.new.places ≡ vec_capacity self.old.places }
    {
        let Some(wait) = self.places[place].wait() else {
            return;
        };
        self.places[place] = Place::free();
        self.waiting -= 1;
        if self.waiting == 0 {
            self.clear();
        } else {
            self.narrow(place / BLOCK, wait);
        }
    }

    /// All places are free again, if no stop waits.
    fn clear(&mut self)
        requires queue { IsQueue self.old }
        requires none { self.old.waiting ≡ 0 }
        ensures queue { IsQueue self.new }
        ensures waits { waits_of self.new ≡ waits_of self.old }
        ensures room { vec_capacity self.new.places ≡ vec_capacity self.old.places }
    {
        self.places.clear();
        self.blocks.clear();
        self.whole = Bound::none();
    }

    /// The bounds after a stop has left a block: they are made anew if they were those of this stop.
    fn narrow(&mut self, at: usize, wait: Wait)
        requires queue { IsQueue self.old }
        requires within { block * at < vec_len self.old.places }
        ensures queue { IsQueue self.new }
        ensures waits { waits_of self.new ≡ waits_of self.old }
        ensures room { vec_capacity self.new.places ≡ vec_capacity self.old.places }
    {
        if !self.blocks[at].is_of(wait) {
            return;
        }
        self.blocks[at] = bound_of(block_of(&self.places, at));
        if self.whole.is_of(wait) {
            self.whole = joined(&self.blocks);
        }
    }

    /// The first stop that a trade at a price from `least` to `greatest` reaches. `None` exactly where it reaches none.
    pub(crate) fn first_reached(&self, least: Price, greatest: Price) -> Option<Slot>
        requires { IsQueue self.now }
        ensures { option_map slot_number result ≡ first_slot (filter (is_reached_wait (least, greatest)) (waits_of self.now)) }
    {
        if !self.whole.may_be_reached(least, greatest) {
            return None;
        }
        self.search(least, greatest)
    }

    /// The same, by looking at the blocks that may be reached.
    fn search(&self, least: Price, greatest: Price) -> Option<Slot>
        requires { IsQueue self.now }
        ensures { option_map slot_number result ≡ first_slot (filter (is_reached_wait (least, greatest)) (waits_of self.now)) }
    {
        for k in 0..self.blocks.len() {
            if self.blocks[k].may_be_reached(least, greatest) {
                let found = first_in(block_of(&self.places, k), least, greatest);
                if found.is_some() {
                    return found;
                }
            }
        }
        None
    }
}
