//! New orders: refused, or accepted and reported, and then they come in.
ghost use Rattle.std.specs.Prelude.{◌≡◌, ◌<◌, ◌≤◌, ◌+◌, ◌^◌, [], ◌∷◌, length, slice_index, Ok};
ghost use Rattle.gx_base.specs.Emits.{Emits};
ghost use Rattle.product_file.specs.declared.limits.TheConstants.{MOST_ORDERS};
ghost use Rattle.fix_request.specs.ValidRequests.{IsValidNew};
ghost use Rattle.plain_book.specs.Match.{report_counted};
ghost use Rattle.order_kinds.specs.NewOrders.{terms_of};
ghost use Rattle.order_kinds.specs.Accepting.{refused_of, refusal, accepted, new_step};
ghost use Rattle.order_kinds.specs.Cores.{FitsProduct};
ghost use Rattle.order_kinds.specs.Inner.Terms.{listed_instrument, terms_seen, IsAccepted};
ghost use Rattle.order_kinds.specs.Inner.ComingIn.{CanComeIn, brought_in, BroughtApart, most_reports};
ghost use Rattle.order_kinds.specs.Inner.Apart.{NewApart};
ghost use Rattle.order_kinds.specs.Inner.Taking.{Takes, CountsRose, IsCounted};

use crate::instruments::Instrument;
use crate::new_orders::Terms;
use crate::state::{EngineState, set_last};
use crate::stops::come_in;
use fix_request::NewOrder;
use gx_base::{Desk, Emit, Event, ExecType, Execution, MOST_FIRMS, NewFault, NewRefused, Taker};
use plain_book::{Book, count_report};
use product_file::Product;

/// What is said of a refused new order.
fn new_refused(new: &NewOrder) -> NewRefused
    ensures { result ≡ refused_of new.now }
{
    NewRefused {
        id: new.id,
        symbol: new.symbol,
        side: new.side,
        quantity: new.quantity,
        kind: new.kind,
        life: new.life,
    }
}

/// A new order is refused. Only its report is counted.
pub(crate) fn refuse_new<E: Emit>(desk: &mut Desk, new: &NewOrder, fault: NewFault, out: &mut E)
    requires firm { new.now.sender.firm < MOST_FIRMS }
    requires reports { desk.old.reports < 2 ^ 63 }
    requires lines { slice_index desk.old.lines new.now.sender.firm < 2 ^ 63 }
    ensures desk { desk.new ≡ report_counted desk.old new.now.sender.firm }
    ensures emits { Emits E.meanings out.old out.new (refusal fault new.now desk.old ∷ []) }
{
    let head = count_report(desk, new.sender.firm, new.sender.time);
    out.put(&Event::RefusedNew {
        head,
        order: new_refused(new),
        fault,
    });
}

/// An order that was reported comes in. The price of its last trade becomes that of its instrument.
pub(crate) fn bring_in<B: Book, E: Emit>(
    state: &mut EngineState<B>,
    instrument: &Instrument<'_>,
    taker: &mut Taker,
    out: &mut E,
)
    requires can { CanComeIn state.old.book state.old.desk taker.old }
    requires priced { instrument.now.number < length state.old.last }
    ensures takes { let on = listed_instrument instrument.now in Takes E.meanings (BroughtApart on taker.old) (λ naming. brought_in naming on taker.old) state.old
        state.new out.old out.new }
    ensures rose { CountsRose (most_reports taker.old state.old.book) state.old.desk state.new.desk }
{
    let last = come_in(
        &mut state.book,
        &mut state.desk,
        taker,
        &instrument.rule.steps,
        out,
    );
    set_last(&mut state.last, instrument.number, last);
}

/// A new order is accepted under the next number, reported, and comes in.
fn accept_new<B: Book, E: Emit>(
    state: &mut EngineState<B>,
    terms: &Terms<'_>,
    new: &NewOrder,
    out: &mut E,
)
    requires accepted { IsAccepted state.old (terms_seen terms.now) new.now }
    requires counted { IsCounted state.old.desk }
    requires few { length state.old.book.waiting ≤ MOST_ORDERS }
    ensures takes { Takes E.meanings (NewApart (Ok (terms_seen terms.now)) new.now) (λ naming. accepted naming (terms_seen terms.now) new.now) state.old
        state.new out.old out.new }
    ensures rose { CountsRose (2 ^ 38) (record state.old.desk { orders = state.old.desk.orders + 1 }) state.new.desk }
{
    state.desk.orders += 1;
    let mut taker = Taker {
        order: terms.order(new, state.desk.orders),
        time: new.sender.time,
        range: None,
    };
    let head = count_report(&mut state.desk, new.sender.firm, new.sender.time);
    out.put_execution(&Execution::new(&head, &taker.order, ExecType::New));
    bring_in(state, &terms.instrument, &mut taker, out);
}

/// A new order is refused by the first rule that holds, or else accepted.
pub(crate) fn apply_new<B: Book, E: Emit>(
    state: &mut EngineState<B>,
    product: &Product,
    new: &NewOrder,
    out: &mut E,
)
    requires valid { IsValidNew product.now.names new.now }
    requires fits { FitsProduct product.now state.old }
    requires counted { IsCounted state.old.desk }
    ensures takes { Takes E.meanings (λ state. NewApart (terms_of product.now new.now state) new.now state) (λ naming. new_step naming product.now new.now)
        state.old state.new out.old out.new }
    ensures orders { state.new.desk.orders ≤ state.old.desk.orders + 1 }
    ensures rose { CountsRose (2 ^ 38) (record state.old.desk { orders = state.new.desk.orders }) state.new.desk }
{
    product.limits();
    state.book.rules();
    match Terms::of(state, product, new) {
        Err(fault) => refuse_new(&mut state.desk, new, fault, out),
        Ok(terms) => accept_new(state, &terms, new, out),
    }
}
