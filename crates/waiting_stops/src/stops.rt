//! The stops of all instruments.
ghost use Rattle.std.specs.Prelude.{◌≡◌, ◌<◌, [], filter, length, option_map, replicate, set, IfOk, vec_len, vec_capacity};
ghost use Rattle.waiting_stops.specs.Waits.{no_stops, list_at, slot_number, is_reached_wait, first_slot, SlotsDiffer, with_wait, without_slot};
ghost use Rattle.waiting_stops.specs.Inner.Kept.{room, lists_of, AreKept};

use crate::queue::{StopQueue, Wait};
use gx_base::{Price, Slot};
use std::alloc::{AllocError, Global};
use std::marker::Model;

/// The stops that wait, of all instruments. Contracts see a list for each instrument, the stop that came first in front, and the greatest
/// number of stops of an instrument.
///
/// `new` takes all the memory, and no part ever grows. `put` takes constant time, but where the places are all taken: then it passes over
/// them once, of which at least a ninth is empty. `first_reached` takes two comparisons if trades reach no stop; else, as `take_out` at
/// most, it looks at one in 512 places, and at 512 of them.
#[derive(Drop)]
pub struct WaitingStops {
    queues: Vec<StopQueue>,
    /// For each slot that was needed so far the place at which its stop was put: a guess, which is looked at first.
    spots: Vec<u32>,
    capacity: u32,
}

impl Model for WaitingStops {
    ghost use Rattle.std.specs.Prelude.{◌≡◌, length, vec_capacity};
    ghost use Rattle.waiting_stops.specs.Waits.{StopLists};
    ghost use Rattle.waiting_stops.specs.Inner.Kept.{lists_of, AreKept};

    ghost Value = { StopLists };

    ghost view = { λ s. record { capacity = s.capacity; lists = lists_of s.queues.items } };

    ghost invariant = { λ s. AreKept s.capacity s.queues.items × (vec_capacity s.queues ≡ length s.queues.items) × (vec_capacity s.spots ≡ s.capacity) };
}

/// How many places there are for so many stops.
fn room_for(capacity: u32) -> u32
    ensures { result ≡ room capacity }
{
    capacity.saturating_add(capacity / 8).saturating_add(1)
}

/// So many queues without stops, with room for so many stops each.
fn empty_queues(alloc: Global, capacity: u32, count: u8) -> Result<Vec<StopQueue>, AllocError>
    ensures kept { IfOk result (λ queues. AreKept capacity queues.items) }
    ensures none { IfOk result (λ queues. lists_of queues.items ≡ replicate count []) }
    ensures room { IfOk result (λ queues. vec_capacity queues ≡ length queues.items) }
{
    let mut queues = Vec::with_capacity(alloc, count as usize)?;
    for _queue in 0..count {
        queues.push_reserved(StopQueue::new(alloc, room_for(capacity))?);
    }
    Ok(queues)
}

/// There is a spot for a slot. Those that no stop needed before are 0.
fn reach(spots: &mut Vec<u32>, slot: Slot)
    requires { slot.0 < vec_capacity spots.old }
    ensures reached { slot.0 < vec_len spots.new }
    ensures room { vec_capacity spots.new ≡ vec_capacity spots.old }
{
    for _ in spots.len()..slot.0 as usize + 1 {
        spots.push_reserved(0);
    }
}

/// The spot of a slot, or 0 if no stop needed one yet.
fn spot_of(spots: &[u32], slot: Slot) -> u32 {
    match spots.get(slot.0 as usize) {
        Some(spot) => *spot,
        None => 0,
    }
}

impl WaitingStops {
    /// No stops, of so many instruments, with room for so many of each. An `Err` is want of memory. It takes all the memory: for each
    /// instrument nine places of 16 bytes for each eight stops that it has room for, and four bytes for each slot.
    pub fn new(alloc: Global, capacity: u32, instruments: u8) -> Result<WaitingStops, AllocError>
        ensures { IfOk result (λ s. s ≡ no_stops capacity instruments) }
    {
        Ok(WaitingStops {
            queues: empty_queues(alloc, capacity, instruments)?,
            spots: Vec::with_capacity(alloc, capacity as usize)?,
            capacity,
        })
    }

    /// A stop comes, after the stops of its instrument.
    pub fn put(&mut self, instrument: u8, wait: Wait)
        requires listed { instrument < length self.old.lists }
        requires slot { wait.slot.0 < self.old.capacity }
        requires room { length (list_at self.old.lists instrument) < self.old.capacity }
        ensures { self.new ≡ record self.old { lists = set self.old.lists instrument (with_wait wait (list_at self.old.lists instrument)) } }
    {
        reach(&mut self.spots, wait.slot);
        self.queues[instrument as usize].put(wait, &mut self.spots);
    }

    /// The stop of a slot leaves its instrument, if it is there.
    pub fn take_out(&mut self, instrument: u8, slot: Slot)
        requires listed { instrument < length self.old.lists }
        requires slot { slot.0 < self.old.capacity }
        requires differ { SlotsDiffer (list_at self.old.lists instrument) }
        ensures { self.new ≡ record self.old { lists = set self.old.lists instrument (without_slot slot.0 (list_at self.old.lists instrument)) } }
    {
        let spot = spot_of(&self.spots, slot);
        self.queues[instrument as usize].take_out(slot, spot);
    }

    /// The first stop of an instrument that a trade at a price from `least` to `greatest` reaches. `None` exactly where it reaches none.
    pub fn first_reached(&self, instrument: u8, least: Price, greatest: Price) -> Option<Slot>
        requires { instrument < length self.now.lists }
        ensures { option_map slot_number result ≡ first_slot (filter (is_reached_wait (least, greatest)) (list_at self.now.lists instrument)) }
    {
        self.queues[instrument as usize].first_reached(least, greatest)
    }
}
