//! What the trades of a message come to.
ghost use Rattle.std.specs.Prelude.{◌≡◌, Some};
ghost use Rattle.order_kinds.specs.Inner.Taking.{last_in_range};
ghost use Rattle.order_kinds.specs.Inner.Triggering.{joined, later_price};

use gx_base::{Price, Side, Taker};

/// The least and the greatest price of some trades.
pub(crate) type PriceRange = (Price, Price);

/// The trades of a message so far: their least and greatest price, and the price of the last, if there was one.
#[derive(Clone, Copy)]
pub(crate) struct Trades {
    pub(crate) range: Option<PriceRange>,
    pub(crate) last: Option<Price>,
}

/// The price of the last trade of an order that was entered: of a sweep the greatest for a buy, the least for a sell, since
/// its prices never improve.
fn last_price(taker: &Taker) -> Option<Price>
    ensures { result ≡ last_in_range taker.now.order.side taker.now.range }
{
    let (least, greatest) = taker.range?;
    match taker.order.side {
        Side::Buy => Some(greatest),
        Side::Sell => Some(least),
    }
}

/// The range of some prices and of further ones.
fn join(range: PriceRange, more: PriceRange) -> PriceRange
    ensures { Some result ≡ joined (Some range) (Some more) }
{
    (
        if more.0.0 < range.0.0 {
            more.0
        } else {
            range.0
        },
        if range.1.0 < more.1.0 {
            more.1
        } else {
            range.1
        },
    )
}

impl Trades {
    /// The trades of the first order of a message.
    pub(crate) fn of(taker: &Taker) -> Trades
        ensures { result ≡ record { range = taker.now.range; last = last_in_range taker.now.order.side taker.now.range } }
    {
        Trades {
            range: taker.range,
            last: last_price(taker),
        }
    }

    /// Adds the trades of a further order.
    pub(crate) fn add(&mut self, taker: &Taker)
        ensures range { self.new.range ≡ joined self.old.range taker.now.range }
        ensures last { self.new.last ≡ later_price self.old.last (last_in_range taker.now.order.side taker.now.range) }
    {
        let Some(more) = taker.range else {
            return;
        };
        self.last = last_price(taker);
        self.range = match self.range {
            None => Some(more),
            Some(range) => Some(join(range, more)),
        };
    }
}
