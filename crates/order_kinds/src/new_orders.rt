//! New orders: which are refused, and the order that is accepted.
ghost use Rattle.std.specs.Prelude.{◌≡◌, ◌<◌};
ghost use Rattle.fix_request.specs.ValidRequests.{IsValidNew};
ghost use Rattle.plain_book.specs.Orders.{is_live};
ghost use Rattle.plain_book.specs.Book.{live_orders};
ghost use Rattle.order_kinds.specs.NewOrders.{may_rest, has_bad_min, least_of, own_price, limit_of, terms_of, order_on};
ghost use Rattle.order_kinds.specs.Cores.{FitsProduct};
ghost use Rattle.order_kinds.specs.Inner.Terms.{listed_instrument, terms_seen, map_terms, IsRule, ArePricesInRange};

use crate::instruments::{Instrument, price_at, protected_limit};
use crate::order_rules::{
    has_bad_stop, has_off_tick, is_quantity, is_stop_reached, last_of, stop_price,
};
use crate::state::EngineState;
use fix_request::{NewOrder, Px};
use gx_base::{Kind, Life, NewFault, Order, Price, ShortId};
use plain_book::{Book, opposite_side};
use product_file::Product;

/// What an accepted order has besides its message: its instrument, and its limit.
#[derive(Clone, Copy)]
pub(crate) struct Terms<'a> {
    pub(crate) instrument: Instrument<'a>,
    pub(crate) limit: Price,
}

/// Whether what is not filled of an order of this life at once may rest.
pub(crate) fn may_rest(life: Life) -> bool
    ensures { result ≡ may_rest life }
{
    matches!(life, Life::Day | Life::Gtc)
}

/// Whether a new order has a minimum above its quantity, or one though it may rest.
fn has_bad_min(new: &NewOrder) -> bool
    ensures { result ≡ has_bad_min new.now }
{
    new.quantity < new.min || (may_rest(new.life) && 0 < new.min)
}

/// The least that has to be open for a new order: all of it for an order that is filled whole or not at all.
fn least_of(new: &NewOrder) -> u32
    ensures { result ≡ least_of new.now.life new.now }
{
    match new.life {
        Life::Fok => new.quantity,
        Life::Day | Life::Gtc | Life::Fak => new.min,
    }
}

/// Whether a live order of the firm has this id.
pub(crate) fn has_id<B: Book>(book: &B, firm: u8, id: &ShortId) -> bool
    ensures { result ≡ is_live firm id.now (live_orders (B.book book.now)) }
{
    book.find(firm, id).is_some()
}

/// The price of a limit order's message, which has one.
fn own_price(px: Px) -> Price
    ensures { result ≡ own_price px }
{
    price_at(px).unwrap_or(Price(0))
}

/// The price at which a new order is entered: its own, or for a market order the protected limit. `None` exactly if it is a
/// market order and no order rests on the other side.
fn limit_of<B: Book>(book: &B, instrument: &Instrument<'_>, new: &NewOrder) -> Option<Price>
    requires rule { IsRule instrument.now.rule.now }
    requires listed { instrument.now.number < (B.book book.now).instruments }
    requires range { ArePricesInRange (B.book book.now).resting }
    ensures { result ≡ limit_of new.now.kind (listed_instrument instrument.now) new.now (B.book book.now) }
{
    match new.kind {
        Kind::Market => {
            let side = opposite_side(new.side);
            let best = book.best(instrument.number, side)?;
            Some(protected_limit(instrument.rule, new.side, best))
        }
        Kind::Limit | Kind::StopLimit => Some(own_price(new.price)),
    }
}

impl<'a> Terms<'a> {
    /// The terms of a new order, or the first of the rules that refuses it, in the order of `NewFault`.
    pub(crate) fn of<B: Book>(
        state: &EngineState<B>,
        product: &'a Product,
        new: &NewOrder,
    ) -> Result<Terms<'a>, NewFault>
        requires valid { IsValidNew product.now.names new.now }
        requires fits { FitsProduct product.now state.now }
        ensures { map_terms result ≡ terms_of product.now new.now state.now }
    {
        let Some(instrument) = Instrument::named(product, new.named) else {
            return Err(NewFault::Symbol);
        };
        if has_id(&state.book, new.sender.firm, &new.id) {
            return Err(NewFault::Duplicate);
        }
        if !is_quantity(new.quantity) {
            return Err(NewFault::Quantity);
        }
        if has_off_tick(&instrument, new.price, new.trigger) {
            return Err(NewFault::Tick);
        }
        if has_bad_stop(new.kind, new.side, new.price, new.trigger) {
            return Err(NewFault::StopLimit);
        }
        let last = last_of(instrument.number, &state.last);
        if is_stop_reached(new.kind, new.side, new.trigger, last) {
            return Err(NewFault::StopReached);
        }
        if has_bad_min(new) {
            return Err(NewFault::MinQty);
        }
        if new.quantity < new.show {
            return Err(NewFault::Show);
        }
        if state.book.live() == product.max_orders() {
            return Err(NewFault::BookFull);
        }
        match limit_of(&state.book, &instrument, new) {
            None => Err(NewFault::NoMarket),
            Some(limit) => Ok(Terms { instrument, limit }),
        }
    }

    /// The order of a message on these terms, with its number.
    pub(crate) fn order(&self, new: &NewOrder, number: u64) -> Order
        ensures { result ≡ order_on (terms_seen self.now) new.now number }
    {
        Order {
            number,
            firm: new.sender.firm,
            instrument: self.instrument.number,
            side: new.side,
            id: new.id,
            kind: new.kind,
            price: self.limit,
            trigger: stop_price(new.trigger),
            quantity: new.quantity,
            filled: 0,
            leaves: new.quantity,
            show: new.show,
            shown: 0,
            min: least_of(new),
            life: new.life,
            prorated: 0,
        }
    }
}
