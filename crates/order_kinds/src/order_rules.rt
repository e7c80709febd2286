//! The rules that refuse a new order or a replace, as far as both have them.
ghost use Rattle.std.specs.Prelude.{◌≡◌};
ghost use Rattle.order_kinds.specs.OrderRules.{is_quantity, has_off_tick, is_beyond_stop, has_bad_stop, is_reached, is_reached_already, is_stop_reached, last_of, stop_price};
ghost use Rattle.order_kinds.specs.Inner.Terms.{listed_instrument, IsRule};

use crate::instruments::{Instrument, is_off_tick, price_at, tick_of};
use crate::state::LastPrices;
use book_order::is_reached;
use fix_request::Px;
use gx_base::{Kind, MOST_LOTS, Price, Side};

/// Whether this is a quantity that an order may have: 1 to 999,999 lots.
pub(crate) fn is_quantity(lots: u32) -> bool
    ensures { result ≡ is_quantity lots }
{
    1 <= lots && lots <= MOST_LOTS
}

/// Whether a message has a price or a stop price that its instrument does not have.
pub(crate) fn has_off_tick(instrument: &Instrument<'_>, price: Px, stop: Px) -> bool
    requires { IsRule instrument.now.rule.now }
    ensures { result ≡ has_off_tick (listed_instrument instrument.now) price stop }
{
    let tick = tick_of(instrument.rule);
    is_off_tick(tick, price) || is_off_tick(tick, stop)
}

/// The stop price of a message, 0 where it has none.
pub(crate) fn stop_price(stop: Px) -> Price
    ensures { result ≡ stop_price stop }
{
    price_at(stop).unwrap_or(Price(0))
}

/// Whether a price is on the wrong side of a stop price: below it for a buy, above it for a sell.
fn is_beyond_stop(side: Side, price: Option<Price>, stop: Option<Price>) -> bool
    ensures { result ≡ is_beyond_stop side price stop }
{
    let (Some(price), Some(stop)) = (price, stop) else {
        return false;
    };
    match side {
        Side::Buy => price.0 < stop.0,
        Side::Sell => stop.0 < price.0,
    }
}

/// Whether this is a stop limit order whose price is on the wrong side of its stop price.
pub(crate) fn has_bad_stop(kind: Kind, side: Side, price: Px, stop: Px) -> bool
    ensures { result ≡ has_bad_stop kind side price stop }
{
    match kind {
        Kind::StopLimit => is_beyond_stop(side, price_at(price), price_at(stop)),
        Kind::Limit | Kind::Market => false,
    }
}

/// Whether the last trade price, if there was a trade, reaches a stop price, if there is one.
fn is_reached_already(side: Side, stop: Option<Price>, last: Option<Price>) -> bool
    ensures { result ≡ is_reached_already side stop last }
{
    match (stop, last) {
        (Some(stop), Some(last)) => is_reached(side, stop, last),
        (None, _) | (_, None) => false,
    }
}

/// Whether this is a stop limit order whose stop price the last trade price reaches, if there was a trade.
pub(crate) fn is_stop_reached(kind: Kind, side: Side, stop: Px, last: Option<Price>) -> bool
    ensures { result ≡ is_stop_reached kind side stop last }
{
    match kind {
        Kind::StopLimit => is_reached_already(side, price_at(stop), last),
        Kind::Limit | Kind::Market => false,
    }
}

/// The last trade price of an instrument, if there was a trade. `None` for one that is not listed.
pub(crate) fn last_of(instrument: u8, last: &LastPrices) -> Option<Price>
    ensures { result ≡ last_of instrument last.now.items }
{
    let last = last.as_slice();
    let place = instrument as usize;
    if place < last.len() {
        last[place]
    } else {
        None
    }
}
