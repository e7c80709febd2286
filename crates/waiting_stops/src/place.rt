//! The places in which the stops of an instrument stand.
ghost use Rattle.std.specs.Prelude.{◌≡◌, ℕ, ◌<◌, ◌+◌, ◌*◌, ◌-◌, ◌^◌, false, None, Some, filter, length, option_map, min, take, drop, slice_index_or, IfSome, vec_len, vec_capacity};
ghost use Rattle.waiting_stops.specs.Waits.{slot_number, is_reached_wait, first_slot};
ghost use Rattle.waiting_stops.specs.Inner.Kept.{wait_at, no_place, stops_at, waits_in, is_place_of, IsPlaceOf, block};

use crate::queue::{BLOCK, Wait};
use book_order::is_in_reach;
use gx_base::{Price, Side, Slot};
use std::cmp;
use std::mem::size_of;

/// A place: a stop, or none once that has left. It has no side then, and so takes 16 bytes, where an `Option` of a stop takes 24.
#[derive(Clone, Copy)]
pub(crate) struct Place {
    slot: Slot,
    side: Option<Side>,
    trigger: Price,
}

const _: () = prove!(size_of::<Place>() == 16);

impl Place {
    /// With a stop.
    pub(crate) fn taken(wait: Wait) -> Place
        ensures { wait_at result ≡ Some wait }
    {
        Place {
            slot: wait.slot,
            side: Some(wait.side),
            trigger: wait.trigger,
        }
    }

    /// Without one.
    pub(crate) fn free() -> Place
        ensures { wait_at result ≡ None }
    {
        Place {
            slot: Slot(0),
            side: None,
            trigger: Price(0),
        }
    }

    /// The stop that stands there.
    pub(crate) fn wait(&self) -> Option<Wait>
        ensures { result ≡ wait_at self.now }
    {
        let side = self.side?;
        Some(Wait {
            slot: self.slot,
            side,
            trigger: self.trigger,
        })
    }
}

/// Whether the stop of a slot stands in a place.
fn is_place_of(place: Option<Wait>, slot: Slot) -> bool
    ensures { result ≡ is_place_of slot.0 place }
{
    match place {
        Some(wait) => wait.slot.0 == slot.0,
        None => false,
    }
}

/// The place of the stop of a slot, which is looked for at `spot` first. `None` exactly where no place has it.
pub(crate) fn place_of(places: &[Place], slot: Slot, spot: usize) -> Option<usize>
    ensures found { IfSome result (λ k. IsPlaceOf slot.0 (stops_at places.now) k) }
    ensures none { result ≡ None → (k : ℕ) → k < length places.now → is_place_of slot.0 (wait_at (slice_index_or places.now k no_place)) ≡ false }
{
    if spot < places.len() && is_place_of(places[spot].wait(), slot) {
        return Some(spot);
    }
    places
        .iter()
        .position(|place| is_place_of(place.wait(), slot))
}

/// The places that share a bound.
pub(crate) fn block_of(places: &[Place], at: usize) -> &[Place]
    requires within { block * at < length places.now }
    requires fits { length places.now < 2 ^ 32 }
    ensures { stops_at result.now ≡ take block (drop (block * at) (stops_at places.now)) }
{
    let start = BLOCK * at;
    &places[start..cmp::min(start + BLOCK, places.len())]
}

/// The first stop of some places that a trade at a price from `least` to `greatest` reaches. `None` exactly where it reaches none.
pub(crate) fn first_in(places: &[Place], least: Price, greatest: Price) -> Option<Slot>
    ensures { option_map slot_number result ≡ first_slot (filter (is_reached_wait (least, greatest)) (waits_in (stops_at places.now))) }
{
    for place in places {
        if let Some(wait) = place.wait() {
            if is_in_reach(least, greatest, wait.side, wait.trigger) {
                return Some(wait.slot);
            }
        }
    }
    None
}

/// For the slot of each stop its place is noted.
pub(crate) fn note_spots(places: &[Place], spots: &mut Vec<u32>)
    requires { length places.now < 2 ^ 32 }
    ensures long { vec_len spots.new ≡ vec_len spots.old }
    ensures room { vec_capacity spots.new ≡ vec_capacity spots.old }
{
    for (k, place) in places.iter().enumerate() {
        if let Some(wait) = place.wait() {
            if let Some(spot) = spots.get_mut(wait.slot.0 as usize) {
                *spot = k as u32;
            }
        }
    }
}
