//! The order in which a book keeps its price levels: by instrument, buy before sell, better price first.
#![tactic(auto)]

ghost use Rattle.std.specs.Prelude.{◌≡◌};
ghost use Rattle.std.specs.Ordering.{int_eq};
ghost use Rattle.book_order.specs.Levels.{is_side, side_before, is_better};
ghost use Rattle.book_order.specs.Reached.{is_reached, is_in_reach};

use gx_base::{Price, Side};

/// Whether both are buy or both are sell.
pub fn is_same_side(a: Side, b: Side) -> bool
    ensures { result ≡ is_side a b }
{
    match (a, b) {
        (Side::Buy, Side::Buy) | (Side::Sell, Side::Sell) => true,
        (Side::Buy, Side::Sell) | (Side::Sell, Side::Buy) => false,
    }
}

/// Whether both are the same number of price units.
pub fn is_same_price(a: Price, b: Price) -> bool
    ensures { result ≡ int_eq a.0 b.0 }
{
    a.0 == b.0
}

/// Whether a comes before b: buy before sell.
pub fn is_side_before(a: Side, b: Side) -> bool
    ensures { result ≡ side_before a b }
{
    match (a, b) {
        (Side::Buy, Side::Sell) => true,
        (Side::Buy, Side::Buy) | (Side::Sell, _) => false,
    }
}

/// Whether a is a better price than b: a higher one for a buy, a lower one for a sell.
pub fn is_better_price(side: Side, a: Price, b: Price) -> bool
    ensures { result ≡ is_better side a.0 b.0 }
{
    match side {
        Side::Buy => b.0 < a.0,
        Side::Sell => a.0 < b.0,
    }
}

/// Whether a trade price reaches a stop price: it is not below that of a buy, not above that of a sell.
pub fn is_reached(side: Side, stop: Price, price: Price) -> bool
    ensures { result ≡ is_reached side stop price }
{
    match side {
        Side::Buy => stop.0 <= price.0,
        Side::Sell => price.0 <= stop.0,
    }
}

/// Whether a trade at a price from `least` to `greatest` reaches a stop price.
pub fn is_in_reach(least: Price, greatest: Price, side: Side, stop: Price) -> bool
    ensures { result ≡ is_in_reach (least, greatest) side stop }
{
    match side {
        Side::Buy => is_reached(Side::Buy, stop, greatest),
        Side::Sell => is_reached(Side::Sell, stop, least),
    }
}
