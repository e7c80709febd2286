//! Bounds on the stop prices of some stops.
ghost use Rattle.std.specs.Prelude.{◌≡◌, false};
ghost use Rattle.waiting_stops.specs.declared.queue.Wait.{Wait};
ghost use Rattle.waiting_stops.specs.Waits.{is_reached_wait};
ghost use Rattle.waiting_stops.specs.Inner.Bounds.{IsCovered};
ghost use Rattle.waiting_stops.specs.Inner.Kept.{stops_at, IsBoundOf, IsJoined};

use crate::place::Place;
use crate::queue::Wait;
use gx_base::{Price, Side};

/// The stop prices that trades reach first, of some stops: no buy has a lower one, and no sell a higher one.
#[derive(Clone, Copy)]
pub(crate) struct Bound {
    pub(crate) lowest_buy: Price,
    pub(crate) highest_sell: Price,
}

impl Bound {
    /// Of no stops: no price is beyond it.
    pub(crate) fn none() -> Bound {
        Bound {
            lowest_buy: Price(i64::MAX),
            highest_sell: Price(i64::MIN),
        }
    }

    /// Whether a trade at a price from `least` to `greatest` may reach a stop.
    pub(crate) fn may_be_reached(&self, least: Price, greatest: Price) -> bool
        ensures { result ≡ false → (w : Wait) → IsCovered self.now w → is_reached_wait (least, greatest) w ≡ false }
    {
        self.lowest_buy.0 <= greatest.0 || least.0 <= self.highest_sell.0
    }

    /// One stop more.
    pub(crate) fn add(&mut self, wait: Wait)
        ensures added { IsCovered self.new wait }
        ensures others { (w : Wait) → IsCovered self.old w → IsCovered self.new w }
    {
        match wait.side {
            Side::Buy => {
                if wait.trigger.0 < self.lowest_buy.0 {
                    self.lowest_buy = wait.trigger;
                }
            }
            Side::Sell => {
                if self.highest_sell.0 < wait.trigger.0 {
                    self.highest_sell = wait.trigger;
                }
            }
        }
    }

    /// The stops of another bound, too.
    pub(crate) fn join(&mut self, other: Bound)
        ensures added { (w : Wait) → IsCovered other w → IsCovered self.new w }
        ensures others { (w : Wait) → IsCovered self.old w → IsCovered self.new w }
    {
        if other.lowest_buy.0 < self.lowest_buy.0 {
            self.lowest_buy = other.lowest_buy;
        }
        if self.highest_sell.0 < other.highest_sell.0 {
            self.highest_sell = other.highest_sell;
        }
    }

    /// Whether the bound is that of this stop, so that it may be wider than needed once the stop has left.
    pub(crate) fn is_of(&self, wait: Wait) -> bool {
        match wait.side {
            Side::Buy => wait.trigger.0 <= self.lowest_buy.0,
            Side::Sell => self.highest_sell.0 <= wait.trigger.0,
        }
    }
}

/// A bound on the stops of some places.
pub(crate) fn bound_of(places: &[Place]) -> Bound
    ensures { IsBoundOf result (stops_at places.now) }
{
    let mut bound = Bound::none();
    for place in places {
        if let Some(wait) = place.wait() {
            bound.add(wait);
        }
    }
    bound
}

/// A bound on the stops of several bounds.
pub(crate) fn joined(bounds: &[Bound]) -> Bound
    ensures { IsJoined result bounds.now }
{
    let mut all = Bound::none();
    for bound in bounds {
        all.join(*bound);
    }
    all
}
