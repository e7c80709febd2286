//! The core: the state of the engine over a book, and what each request does to it.
ghost use Rattle.std.specs.Prelude.{◌≡◌, ◌^◌, ◌≤◌, ◌<◌, ◌+◌, IsTrue, IfSome, length, replicate, slice_set, None};
ghost use Rattle.std.specs.Borrow.{Lends, sem};
ghost use Rattle.fix_request.specs.ValidRequests.{IsValidRequest};
ghost use Rattle.gx_base.specs.declared.trading.Trading.TheVariants.{Open, Closed};
ghost use Rattle.plain_book.specs.Book.{empty_book, book_cleared, live_orders};
ghost use Rattle.order_kinds.specs.State.{empty_desk, empty_state, state_numbered};
ghost use Rattle.order_kinds.specs.Collecting.{collect_step};
ghost use Rattle.order_kinds.specs.OrderRules.{last_of};
ghost use Rattle.order_kinds.specs.Amendments.{amended_state};
ghost use Rattle.order_kinds.specs.Step.{is_passed, open_step_as, closed_step_as, request_step_as};
ghost use Rattle.order_kinds.specs.TradingSessions.{AreUntilCancelled};
ghost use Rattle.order_kinds.specs.Cores.{AreCounters, IsInRange, FitsProduct, AreNumbered, TakesStep, PutsStep};
ghost use Rattle.order_kinds.specs.Inner.Apart.{OpenApart, StayApart};
ghost use Rattle.order_kinds.specs.Inner.Taking.{Takes, CountsRose, IsCounted};

use crate::accepting::{apply_new, refuse_new};
use crate::amending::end_tops;
use crate::cancels::{apply_cancel, refuse_message};
use crate::collecting::collect_counted;
use crate::order_rules::last_of;
use crate::replaces::{apply_replace, refuse_replace};
use crate::state::{EngineState, LastPrices, set_last_price};
use crate::trading_sessions::change_session;
use arrayvec::ArrayVec;
use fix_request::Request;
use gx_base::{ADDRESSEES, ChangeFault, Desk, Emit, MOST_INSTRUMENTS, NewFault, Price, Trading};
use plain_book::Book;
use product_file::Product;
use std::marker::Model;

/// How many messages a core takes at most: 2^24 (our own rule).
pub const MOST_MESSAGES: u64 = 16_777_216;

/// The live orders of a product in a book, the last trade price of each instrument, the counters, and the trading session.
/// Contracts see it as these. At every moment there are no more orders than messages, at most `MOST_MESSAGES` messages, and no other counter is
/// above 2^38 for each message.
#[derive(Drop)]
pub struct Core<B: Book> {
    state: EngineState<B>,
}

impl<B: Book> Model for Core<B> {
    ghost use Rattle.order_kinds.specs.State.{State};

    ghost Value = { State };

    ghost use Rattle.order_kinds.specs.Cores.{AreCounters};

    ghost view = { λ c. c.state };

    ghost invariant = { λ c. AreCounters c.state.desk };
}

/// Counters that have counted nothing.
fn new_desk() -> Desk
    ensures { result ≡ empty_desk }
{
    Desk {
        messages: 0,
        orders: 0,
        reports: 0,
        trades: 0,
        lines: [0; ADDRESSEES],
    }
}

/// No trade in so many instruments.
fn no_prices(instruments: usize) -> LastPrices
    requires { instruments ≤ MOST_INSTRUMENTS }
    ensures { result.items ≡ replicate instruments None }
{
    let mut last = ArrayVec::new();
    for _k in 0..instruments {
        last.push(None);
    }
    last
}

impl<B: Book> Core<B> {
    ghost use Rattle.order_kinds.specs.contracts.core_state.Core.{the_row};

    /// A core over an empty book that has the instruments of a product and room for as many orders as it allows. The market is
    /// open. Takes no memory.
    pub fn new(book: B, product: &Product) -> Core<B>
        requires { B.book book ≡ empty_book product.now.max_orders (length product.now.names.instruments) }
        ensures { result ≡ empty_state product.now }
    {
        product.limits();
        Core {
            state: EngineState {
                book,
                last: no_prices(product.names().instrument_count()),
                desk: new_desk(),
                trading: Trading::Open,
            },
        }
    }

    /// Applies a request, which counts as a message, and puts its events. It takes no memory and never fails: a refusal is
    /// an event, and leaves all but the counters as it was. The rules are those of the specs: a new order is refused by the
    /// first rule that holds, or waits or is entered by its kind; a cancel takes its order out; a replace is refused by the
    /// first rule that holds, or changes its order. While the market is closed both are refused before any other rule is
    /// tried. A change of the session opens the market or closes it, and at a close each live order that is not good till
    /// cancelled expires, with an event of its own. A session message has no event.
    pub fn apply<E: Emit>(&mut self, product: &Product, request: &Request, out: &mut E)
        requires few { self.old.desk.messages < MOST_MESSAGES }
        requires valid { IsValidRequest product.now request.now }
        requires fits { FitsProduct product.now self.old }

        // Where order numbers differ, this is the step of the engine, whatever the book and the emitter.
        ensures step { AreNumbered self.old → TakesStep E.meanings product.now request.now self.old self.new out.old out.new }

        // Whatever numbers the orders have, this is that step with some names of the orders that come to rest or wait. So
        // exactly its events are put, one after the other, and none for a session message.
        ensures puts { PutsStep E.meanings product.now request.now self.old self.new out.old out.new }
        ensures silent { IsTrue (is_passed request.now) → out.new ≡ out.old }

        ensures count { self.new.desk.messages ≡ self.old.desk.messages + 1 }
        ensures fits { FitsProduct product.now self.new }
    {
        self.state.book.rules();
        self.state.desk.messages += 1;
        apply_counted(&mut self.state, product, request, out);
    }

    /// Collects a request, which counts as a message: a limit order that may rest and has no minimum comes to rest under the
    /// next number, unless a rule of new orders refuses it, and is not TOP; a cancel takes its order out where it is live; any
    /// other request does nothing. The trading session has no effect. Nothing is matched or reported. It takes no memory and
    /// never fails.
    pub fn collect(&mut self, product: &Product, request: &Request)
        requires few { self.old.desk.messages < MOST_MESSAGES }
        requires valid { IsValidRequest product.now request.now }
        requires fits { FitsProduct product.now self.old }
        ensures step { AreNumbered self.old → state_numbered self.new ≡ collect_step product.now request.now (state_numbered self.old) }
        ensures numbered { AreNumbered self.old → AreNumbered self.new }
        ensures count { self.new.desk.messages ≡ self.old.desk.messages + 1 }
        ensures fits { FitsProduct product.now self.new }
    {
        self.state.book.rules();
        self.state.desk.messages += 1;
        collect_counted(&mut self.state, product, request);
    }

    /// Lends the book.
    pub fn book(&self) -> &B
        ensures { B.book result.now ≡ self.now.book }
    {
        &self.state.book
    }

    /// Lends the book for writing. The core has then the book that the borrower leaves, and nothing else of it changes.
    pub fn book_mut(&mut self) -> &mut B
        ensures* lends { sem 𝓛 (Lends (the_row B.row B.Book) B.row self.entry result (λ w. record self.old { book = B.book w })) }
        ensures book { B.book result.now ≡ self.old.book }
    {
        &mut self.state.book
    }

    /// Lends the counters.
    pub fn desk(&self) -> &Desk
        ensures desk { result.now ≡ self.now.desk }
        ensures counters { AreCounters result.now }
    {
        &self.state.desk
    }

    /// How many messages were applied, at most `MOST_MESSAGES`.
    pub fn messages(&self) -> u64
        ensures count { result ≡ self.now.desk.messages }
        ensures few { result ≤ MOST_MESSAGES }
    {
        self.state.desk.messages
    }

    /// The last trade price of an instrument. `None` exactly if it has none, as one that is not listed.
    pub fn last(&self, instrument: u8) -> Option<Price>
        ensures { result ≡ last_of instrument self.now.last }
    {
        last_of(instrument, &self.state.last)
    }

    /// Whether the market is open.
    pub fn trading(&self) -> Trading
        ensures { result ≡ self.now.trading }
    {
        self.state.trading
    }

    /// Opens or closes the market, and nothing else: no order leaves. So a market can be closed only if each live order is good
    /// till cancelled (our own rule).
    pub fn set_trading(&mut self, to: Trading)
        requires { to ≡ Closed → AreUntilCancelled (live_orders self.old.book) }
        ensures { self.new ≡ record self.old { trading = to } }
    {
        self.state.trading = to;
    }

    /// Goes over to a product that may follow the one before: TOP ends on both sides of each instrument that has no TOP step in
    /// it (our own rule). All else stays, and there is no event. Takes no memory.
    pub fn amend(&mut self, product: &Product)
        requires { FitsProduct product.now self.old }
        ensures amends { self.new ≡ amended_state product.now self.old }
        ensures fits { FitsProduct product.now self.new }
        ensures numbered { AreNumbered self.old → AreNumbered self.new }
    {
        end_tops(&mut self.state.book, product);
    }

    /// Sets the counters, and nothing else.
    pub fn restore(&mut self, desk: Desk)
        requires { AreCounters desk }
        ensures { self.new ≡ record self.old { desk = desk } }
    {
        self.state.desk = desk;
    }

    /// Sets the last trade price of an instrument, and nothing else.
    pub fn restore_last(&mut self, instrument: u8, price: Option<Price>)
        requires listed { instrument < length self.old.last }
        requires range { IfSome price IsInRange }
        ensures { self.new ≡ record self.old { last = slice_set self.old.last instrument price } }
    {
        set_last_price(&mut self.state.last, instrument, price);
    }

    /// Makes the core as `new` made it: no order, no trade, all counters 0, and an open market.
    pub fn clear(&mut self)
        ensures { self.new ≡ record { book = book_cleared self.old.book; last = replicate (length self.old.last) None; desk = empty_desk; trading = Open } }
    {
        self.state.book.clear();
        self.state.last = no_prices(self.state.last.len());
        self.state.desk = new_desk();
        self.state.trading = Trading::Open;
    }
}

/// Applies a request that was counted as a message, by the session that the market is in.
fn apply_counted<B: Book, E: Emit>(
    state: &mut EngineState<B>,
    product: &Product,
    request: &Request,
    out: &mut E,
)
    requires counted { IsCounted state.old.desk }
    requires valid { IsValidRequest product.now request.now }
    requires fits { FitsProduct product.now state.old }
    ensures takes { Takes E.meanings (StayApart product.now request.now) (λ naming. request_step_as naming product.now request.now) state.old state.new
        out.old out.new }
    ensures silent { IsTrue (is_passed request.now) → out.new ≡ out.old }
    ensures orders { state.new.desk.orders ≤ state.old.desk.orders + 1 }
    ensures rose { CountsRose (2 ^ 38) (record state.old.desk { orders = state.new.desk.orders }) state.new.desk }
{
    match state.trading {
        Trading::Open => apply_open(state, product, request, out),
        Trading::Closed => apply_closed(state, product, request, out),
    }
}

/// Applies a request in an open market.
fn apply_open<B: Book, E: Emit>(
    state: &mut EngineState<B>,
    product: &Product,
    request: &Request,
    out: &mut E,
)
    requires counted { IsCounted state.old.desk }
    requires valid { IsValidRequest product.now request.now }
    requires fits { FitsProduct product.now state.old }
    ensures takes { Takes E.meanings (OpenApart product.now request.now) (λ naming. open_step_as naming product.now request.now) state.old state.new
        out.old out.new }
    ensures silent { IsTrue (is_passed request.now) → out.new ≡ out.old }
    ensures orders { state.new.desk.orders ≤ state.old.desk.orders + 1 }
    ensures rose { CountsRose (2 ^ 38) (record state.old.desk { orders = state.new.desk.orders }) state.new.desk }
{
    product.limits();
    match request {
        Request::New(new) => apply_new(state, product, new, out),
        Request::Cancel(cancel) => apply_cancel(state, cancel, out),
        Request::Refused(refusal) => refuse_message(&mut state.desk, refusal, out),
        Request::Passed(_) => {}
        Request::Replace(replace) => apply_replace(state, product, replace, out),
        Request::Session(change) => change_session(state, change, out),
    }
}

/// Applies a request in a closed market: a new order and a replace are refused before any other rule is tried, and all else is
/// as in an open market.
fn apply_closed<B: Book, E: Emit>(
    state: &mut EngineState<B>,
    product: &Product,
    request: &Request,
    out: &mut E,
)
    requires counted { IsCounted state.old.desk }
    requires valid { IsValidRequest product.now request.now }
    requires fits { FitsProduct product.now state.old }
    ensures takes { Takes E.meanings (λ state naming. Unit {0}) (λ naming. closed_step_as naming product.now request.now) state.old state.new out.old out.new }
    ensures silent { IsTrue (is_passed request.now) → out.new ≡ out.old }
    ensures orders { state.new.desk.orders ≤ state.old.desk.orders + 1 }
    ensures rose { CountsRose (2 ^ 38) (record state.old.desk { orders = state.new.desk.orders }) state.new.desk }
{
    product.limits();
    match request {
        Request::New(new) => refuse_new(&mut state.desk, new, NewFault::Closed, out),
        Request::Replace(replace) => {
            refuse_replace(&mut state.desk, replace, ChangeFault::Closed, out)
        }
        _ => apply_open(state, product, request, out),
    }
}
