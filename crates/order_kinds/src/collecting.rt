//! Orders that are collected without matching.
ghost use Rattle.std.specs.Prelude.{◌≡◌, true, Ok};
ghost use Rattle.fix_request.specs.ValidRequests.{IsValidNew, IsValidRequest};
ghost use Rattle.fix_request.specs.declared.request.Request.TheVariants.{New};
ghost use Rattle.plain_book.specs.Orders.{slot_named};
ghost use Rattle.plain_book.specs.Book.{live_orders};
ghost use Rattle.order_kinds.specs.NewOrders.{terms_of};
ghost use Rattle.order_kinds.specs.Collecting.{is_limit, is_collected, collected_on, collected_by, taken_out, collect_step_as};
ghost use Rattle.order_kinds.specs.Cores.{FitsProduct};
ghost use Rattle.order_kinds.specs.Inner.Collecting.{Collects, OrdersRose};
ghost use Rattle.order_kinds.specs.Inner.Taking.{IsCounted};
ghost use Rattle.order_kinds.specs.Inner.Terms.{terms_seen, IsAccepted};

use crate::new_orders::{Terms, may_rest};
use crate::state::EngineState;
use fix_request::{CancelOrder, NewOrder, Request};
use gx_base::Kind;
use plain_book::Book;
use product_file::Product;

/// Whether orders of this kind are collected.
fn is_limit(kind: Kind) -> bool
    ensures { result ≡ is_limit kind }
{
    match kind {
        Kind::Limit => true,
        Kind::Market | Kind::StopLimit => false,
    }
}

/// Whether a new order is collected: a limit order that may rest, without a minimum.
fn is_collected(new: &NewOrder) -> bool
    ensures { result ≡ is_collected new.now }
{
    is_limit(new.kind) && may_rest(new.life) && new.min == 0
}

/// A new order comes to rest under the next number.
fn rest_collected<B: Book>(state: &mut EngineState<B>, terms: &Terms<'_>, new: &NewOrder)
    requires collected { is_collected new.now ≡ true }
    requires accepted { IsAccepted state.old (terms_seen terms.now) new.now }
    requires counted { IsCounted state.old.desk }
    ensures collects { Collects (λ name. collected_by name (Ok (terms_seen terms.now)) new.now) state.old state.new }
    ensures rose { OrdersRose state.old.desk state.new.desk }
{
    state.desk.orders += 1;
    let order = terms.order(new, state.desk.orders);
    state.book.place(order, None);
    state.book.rules();
}

/// A new order comes to rest, unless a rule refuses it.
fn collect_new<B: Book>(state: &mut EngineState<B>, product: &Product, new: &NewOrder)
    requires valid { IsValidNew product.now.names new.now }
    requires fits { FitsProduct product.now state.old }
    requires counted { IsCounted state.old.desk }
    ensures collects { Collects (λ name. collect_step_as name product.now (New new.now)) state.old state.new }
    ensures rose { OrdersRose state.old.desk state.new.desk }
{
    product.limits();
    state.book.rules();
    if !is_collected(new) {
        return;
    }
    if let Ok(terms) = Terms::of(state, product, new) {
        rest_collected(state, &terms, new);
    }
}

/// A live order leaves.
fn collect_cancel<B: Book>(state: &mut EngineState<B>, request: &CancelOrder)
    ensures collects { Collects (λ name state. taken_out (slot_named request.now.sender.firm request.now.old (live_orders state.book)) state) state.old state.new }
    ensures rose { OrdersRose state.old.desk state.new.desk }
{
    state.book.rules();
    if let Some(slot) = state.book.find(request.sender.firm, &request.old) {
        state.book.leave(slot);
    }
    state.book.rules();
}

/// Collects a request that was counted as a message.
pub(crate) fn collect_counted<B: Book>(
    state: &mut EngineState<B>,
    product: &Product,
    request: &Request,
)
    requires valid { IsValidRequest product.now request.now }
    requires fits { FitsProduct product.now state.old }
    requires counted { IsCounted state.old.desk }
    ensures collects { Collects (λ name. collect_step_as name product.now request.now) state.old state.new }
    ensures rose { OrdersRose state.old.desk state.new.desk }
{
    state.book.rules();
    match request {
        Request::New(new) => collect_new(state, product, new),
        Request::Cancel(cancel) => collect_cancel(state, cancel),
        Request::Replace(_) | Request::Session(_) | Request::Passed(_) | Request::Refused(_) => {}
    }
}
