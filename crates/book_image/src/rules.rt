//! What is right of an order of an image, and of a price, each by itself.
ghost use Rattle.std.specs.Prelude.{◌≡◌, ◌<◌, true, Some, length};
ghost use Rattle.order_kinds.specs.OrderRules.{is_quantity, is_beyond_stop};
ghost use Rattle.book_image.specs.Rules.{is_price_of, is_right_order, is_right_shown, is_right_resting, is_right_min, is_right_waiting, may_live};
ghost use Rattle.book_image.specs.Inner.Checking.{has_right_terms, has_right_lots};

use gx_base::{Kind, Life, MOST_FIRMS, MOST_LOTS, MOST_PRICE_UNITS, Order, Price, Side, Trading};
use order_kinds::is_until_cancelled;
use product_file::Product;

/// Whether a price is a multiple of the tick of an instrument, within the price range.
pub(crate) fn is_price_of(product: &Product, instrument: u8, price: Price) -> bool
    requires { instrument < length product.now.names.instruments }
    ensures { result ≡ is_price_of product.now instrument price }
{
    product.limits();
    let units = price.0.unsigned_abs();
    units <= MOST_PRICE_UNITS && units % product.rule(instrument).tick.unsigned_abs() == 0
}

/// Whether this is a quantity that an order may have.
fn is_quantity(lots: u32) -> bool
    ensures { result ≡ is_quantity lots }
{
    1 <= lots && lots <= MOST_LOTS
}

/// Whether a limit is on the wrong side of a stop price: below it for a buy, above it for a sell.
fn is_beyond_stop(side: Side, price: Price, stop: Price) -> bool
    ensures { result ≡ is_beyond_stop side (Some price) (Some stop) }
{
    match side {
        Side::Buy => price.0 < stop.0,
        Side::Sell => stop.0 < price.0,
    }
}

/// Whether an order has a number that was given, a listed firm, a listed instrument, and a price of it.
fn has_right_terms(product: &Product, given: u64, order: &Order) -> bool
    ensures right { result ≡ has_right_terms product.now given order.now }
    ensures firm { result ≡ true → order.now.firm < MOST_FIRMS }
    ensures instrument { result ≡ true → order.now.instrument < length product.now.names.instruments }
{
    1 <= order.number
        && order.number <= given
        && (order.firm as usize) < product.names().firm_count()
        && (order.instrument as usize) < product.names().instrument_count()
        && is_price_of(product, order.instrument, order.price)
}

/// Whether the lots of an order are right together, and some of them are open.
fn has_right_lots(order: &Order) -> bool
    ensures { result ≡ has_right_lots order.now }
{
    is_quantity(order.quantity)
        && u64::from(order.filled) + u64::from(order.leaves) == u64::from(order.quantity)
        && 1 <= order.leaves
        && order.show <= order.quantity
        && order.prorated <= MOST_LOTS
}

/// Whether an order is one that can be live, where so many orders have been given a number.
pub(crate) fn is_right_order(product: &Product, given: u64, order: &Order) -> bool
    ensures right { result ≡ is_right_order product.now given order.now }
    ensures firm { result ≡ true → order.now.firm < MOST_FIRMS }
    ensures instrument { result ≡ true → order.now.instrument < length product.now.names.instruments }
{
    has_right_terms(product, given, order) && has_right_lots(order)
}

/// Whether what is shown of a resting order is all that is open, or a part of what it shows at a time.
fn is_right_shown(order: &Order) -> bool
    ensures { result ≡ is_right_shown order.now }
{
    if order.show == 0 {
        order.shown == order.leaves
    } else {
        1 <= order.shown && order.shown <= order.show.min(order.leaves)
    }
}

/// Whether an order is one that can rest.
pub(crate) fn is_right_resting(order: &Order) -> bool
    ensures { result ≡ is_right_resting order.now }
{
    matches!(order.kind, Kind::Limit)
        && matches!(order.life, Life::Day | Life::Gtc)
        && order.trigger.0 == 0
        && order.min == 0
        && is_right_shown(order)
}

/// Whether the least that has to be filled at once is one that a stop of its time in force can have.
fn is_right_min(order: &Order) -> bool
    ensures { result ≡ is_right_min order.now.life order.now }
{
    match order.life {
        Life::Day | Life::Gtc => order.min == 0,
        Life::Fak => order.min <= order.quantity,
        Life::Fok => order.min == order.quantity,
    }
}

/// Whether an order is a stop that can wait.
pub(crate) fn is_right_waiting(product: &Product, order: &Order) -> bool
    requires { order.now.instrument < length product.now.names.instruments }
    ensures { result ≡ is_right_waiting product.now order.now }
{
    matches!(order.kind, Kind::StopLimit)
        && is_price_of(product, order.instrument, order.trigger)
        && !is_beyond_stop(order.side, order.price, order.trigger)
        && order.filled == 0
        && order.shown == 0
        && order.prorated == 0
        && is_right_min(order)
}

/// Whether an order may be live in this session: while the market is closed, each one is good till cancelled.
pub(crate) fn may_live(trading: Trading, order: &Order) -> bool
    ensures { result ≡ may_live trading order.now }
{
    match trading {
        Trading::Open => true,
        Trading::Closed => is_until_cancelled(order.life),
    }
}
