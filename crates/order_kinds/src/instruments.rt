//! The instrument of an order, and the prices that it has.
ghost use Rattle.std.specs.Prelude.{◌≡◌, ◌≤◌, ◌*◌, ◌^◌, ◌<◌, unsigned_abs, option_map};
ghost use Rattle.fix_request.specs.ValidRequests.{IsListed};
ghost use Rattle.order_kinds.specs.Instruments.{tick_of, is_off_tick, price_at, within_range, beyond, protected_limit};
ghost use Rattle.order_kinds.specs.Inner.Terms.{IsRule};

use fix_request::{Named, Px};
use gx_base::{MOST_PRICE_UNITS, Price, Side};
use product_file::{InstrumentRule, Product};

/// An instrument, by its number, with its rule.
#[derive(Clone, Copy)]
pub(crate) struct Instrument<'a> {
    pub(crate) number: u8,
    pub(crate) rule: &'a InstrumentRule,
}

impl<'a> Instrument<'a> {
    ghost use Rattle.std.specs.Prelude.{IfSome};
    ghost use Rattle.order_kinds.specs.Instruments.{instrument_of};
    ghost use Rattle.order_kinds.specs.Inner.Terms.{listed_instrument};

    /// The instrument that a message names. `None` exactly where it names none.
    pub(crate) fn named(product: &'a Product, named: Named) -> Option<Instrument<'a>>
        requires { IsListed product.now.names named }
        ensures is { option_map listed_instrument result ≡ instrument_of product.now named }
        ensures rule { IfSome result (λ instrument. IsRule instrument.rule.now) }
    {
        product.limits();
        match named {
            Named::Unknown => None,
            Named::Known(number) => Some(Instrument {
                number,
                rule: product.rule(number),
            }),
        }
    }
}

/// The least step of an instrument's prices, in price units, which is 1 to 1,000,000.
pub(crate) fn tick_of(rule: &InstrumentRule) -> u64
    requires { IsRule rule.now }
    ensures tick { result ≡ tick_of rule.now }
    ensures some { 1 ≤ result }
    ensures few { result ≤ 1000000 }
{
    rule.tick.unsigned_abs()
}

/// Whether a price has a non-zero digit below the decimals, or is no multiple of the tick.
pub(crate) fn is_off_tick(tick: u64, px: Px) -> bool
    requires { 1 ≤ tick }
    ensures { result ≡ is_off_tick tick px }
{
    match px {
        Px::Absent => false,
        Px::Between => true,
        Px::At(price) => price.0.unsigned_abs() % tick != 0,
    }
}

/// The price of a message. `None` exactly where it has none, or one between two units.
pub(crate) fn price_at(px: Px) -> Option<Price>
    ensures { result ≡ price_at px }
{
    match px {
        Px::At(price) => Some(price),
        Px::Absent | Px::Between => None,
    }
}

/// So many price units above a price for a buy, below it for a sell.
fn beyond(side: Side, price: i64, units: u64) -> i64
    requires price { unsigned_abs price < 2 ^ 62 }
    requires units { units < 2 ^ 62 }
    ensures { result ≡ beyond side price units }
{
    match side {
        Side::Buy => price + units as i64,
        Side::Sell => price - units as i64,
    }
}

/// A price, or the last multiple of the tick on the way there where it is beyond the price range.
fn within_range(tick: u64, price: i64) -> i64
    requires { 1 ≤ tick }
    ensures { result ≡ within_range tick price }
{
    let greatest = (MOST_PRICE_UNITS / tick * tick) as i64;
    let most = MOST_PRICE_UNITS as i64;
    if price > most {
        greatest
    } else if price < -most {
        -greatest
    } else {
        price
    }
}

/// The limit of a market order: the best opposite price plus the protection for a buy, less it for a sell, within the
/// price range.
pub(crate) fn protected_limit(rule: &InstrumentRule, side: Side, best: Price) -> Price
    requires rule { IsRule rule.now }
    requires range { unsigned_abs best.0 ≤ MOST_PRICE_UNITS }
    ensures { result ≡ protected_limit rule.now side best }
{
    let tick = tick_of(rule);
    let units = u64::from(rule.protection) * tick;
    Price(within_range(tick, beyond(side, best.0, units)))
}
