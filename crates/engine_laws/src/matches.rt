//! Laws of a match. Their functions do nothing: what is proved is what their contracts say.
ghost use Rattle.std.specs.Prelude.{◌≡◌, ◌≤◌, ◌+◌, ℕ, List, Option, Some, None, Ok};
ghost use Rattle.gx_base.specs.declared.order.Side.{Side};
ghost use Rattle.gx_base.specs.declared.price.Price.{Price};
ghost use Rattle.step_config.specs.declared.step.Step.{Step};
ghost use Rattle.product_file.specs.Products.{ProductLists};
ghost use Rattle.fix_request.specs.declared.request.NewOrder.{NewOrder};
ghost use Rattle.fix_request.specs.declared.request.ReplaceOrder.{ReplaceOrder};
ghost use Rattle.fix_request.specs.declared.request.SessionChange.{SessionChange};
ghost use Rattle.fix_request.specs.declared.request.Request.{Request};
ghost use Rattle.step_config.specs.RightSteps.{IsRightStep, AreRightSteps};
ghost use Rattle.plain_book.specs.declared.entry.Entry.{Entry};
ghost use Rattle.plain_book.specs.Orders.{order_of, slot_named, top_of};
ghost use Rattle.plain_book.specs.Book.{Book, IsRight, live_orders, book_placed, book_without};
ghost use Rattle.plain_book.specs.Match.{MatchState};
ghost use Rattle.plain_book.specs.Steps.{level_now, trade_head, fifo, IsLevelDone};
ghost use Rattle.level_sweep.specs.Sweep.{level_match, next_price, sweep, IsSweepDone};
ghost use Rattle.order_kinds.specs.State.{State};
ghost use Rattle.order_kinds.specs.NewOrders.{Terms, terms_of};
ghost use Rattle.order_kinds.specs.Accepting.{new_step};
ghost use Rattle.order_kinds.specs.Replaces.{replace_step};
ghost use Rattle.order_kinds.specs.Stops.{Naming, next_stop, stop_entered, stops_entered, entered_with_stops};
ghost use Rattle.order_kinds.specs.TradingSessions.{book_closed, session_step};
ghost use Rattle.order_kinds.specs.Step.{closed_step_as};
ghost use Rattle.engine_laws.specs.MatchLaws.{TradesFitShares, IsUncrossed};
ghost use Rattle.engine_laws.specs.Stops.{NoStopIsLeft, LeavesNoStop};

/// A step trades shares of the orders at its price, one after the other, in each round of FIFO too: each is no more than its
/// order shows and than is wanted, as it is traded. Together they are no more than what is wanted as the step starts, and
/// for each step but FIFO no more than what the level shows then.
pub fn shares_fit()
    ensures { (step : Step) (price : Price) (m : MatchState) → IsRightStep step → IsRight m.book → TradesFitShares step price m }
{}

/// FIFO without a count of rounds: where nothing is wanted or no order is left at the price, it does nothing; else the head
/// of the queue trades, and FIFO goes on.
pub fn fifo_goes_on()
    ensures done { (price : Price) (m : MatchState) → IsLevelDone price m.book m.taker → fifo price m ≡ m }
    ensures next { (price : Price) (m : MatchState) → IsRight m.book → fifo price m ≡ fifo price (trade_head (level_now price m) m) }
{}

/// A level match, in whose list FIFO stands last, leaves nothing wanted or no order at the price.
pub fn level_matches_end()
    ensures { (steps : List Step) (price : Price) (m : MatchState) → AreRightSteps steps → IsRight m.book
        → IsLevelDone price (level_match steps price m).book (level_match steps price m).taker }
{}

/// A sweep without a count of rounds: where there is no next price, it does nothing; else there is a level match at the next
/// price, and the sweep goes on.
pub fn sweeps_go_on()
    ensures none { (steps : List Step) (limit : Price) (m : MatchState) → next_price limit m.book m.taker ≡ None → sweep steps limit m ≡ m }
    ensures next { (steps : List Step) (limit : Price) (m : MatchState) (price : Price) → AreRightSteps steps → IsRight m.book
        → next_price limit m.book m.taker ≡ Some price → sweep steps limit m ≡ sweep steps limit (level_match steps price m) }
{}

/// A sweep leaves nothing wanted or no price within the limit.
pub fn sweeps_end()
    ensures { (steps : List Step) (limit : Price) (m : MatchState) → AreRightSteps steps → IsRight m.book
        → IsSweepDone limit (sweep steps limit m).book (sweep steps limit m).taker }
{}

/// A book that is not crossed is not crossed after a sweep to the limit of the incoming order either, once what is left of
/// that order has come to rest.
pub fn no_book_is_crossed()
    ensures { (steps : List Step) (m : MatchState) (slot : ℕ) (top_min : Option ℕ) → AreRightSteps steps → IsRight m.book → IsUncrossed m.book.resting
        → let end = sweep steps m.taker.order.price m in 1 ≤ end.taker.order.leaves
        → IsUncrossed (book_placed slot end.taker.order top_min end.book).resting }
{}

/// No order inherits TOP: who is TOP after a sweep, after an order has left, or after the market has closed, was TOP before.
pub fn nobody_inherits_top()
    ensures swept { (steps : List Step) (limit : Price) (m : MatchState) (instrument : ℕ) (side : Side) (slot : ℕ) → IsRight m.book
        → top_of instrument side (sweep steps limit m).book.resting ≡ Some slot → top_of instrument side m.book.resting ≡ Some slot }
    ensures left { (b : Book) (gone : ℕ) (instrument : ℕ) (side : Side) (slot : ℕ) → IsRight b
        → top_of instrument side (book_without gone b).resting ≡ Some slot → top_of instrument side b.resting ≡ Some slot }
    ensures closed { (b : Book) (instrument : ℕ) (side : Side) (slot : ℕ) → IsRight b
        → top_of instrument side (book_closed b).resting ≡ Some slot → top_of instrument side b.resting ≡ Some slot }
{}

/// A cascade of stops without a count of rounds: if no waiting stop is reached, nothing is done; else the next stop is
/// triggered and entered, and the cascade goes on.
pub fn stops_go_on()
    ensures none { (naming : Naming) (steps : List Step) (m : MatchState) → next_stop m ≡ None → stops_entered naming steps m ≡ m }
    ensures next { (naming : Naming) (steps : List Step) (m : MatchState) (stop : Entry) → next_stop m ≡ Some stop
        → stops_entered naming steps m ≡ stops_entered (λ before. naming (before + 1)) steps (stop_entered (Some stop) (naming 0) steps m) }
{}

/// A cascade of stops ends only once no waiting stop is reached.
pub fn stops_end()
    ensures { (naming : Naming) (steps : List Step) (m : MatchState) → next_stop (stops_entered naming steps m) ≡ None }
{}

/// No message leaves a stop of its instrument waiting whose stop price one of its fills reaches: neither an order that is
/// entered with the stops that follow, nor a new order that is accepted, nor a replace of a live order, nor a change of the
/// trading session, nor any message while the market is closed. Other messages have no fills.
pub fn no_stop_is_left()
    ensures entered { (naming : Naming) (steps : List Step) (m : MatchState)
        → let end = entered_with_stops naming steps m in NoStopIsLeft m.taker.order.instrument end.events end.book.waiting }
    ensures accepted { (naming : Naming) (product : ProductLists) (new : NewOrder) (state : State) (terms : Terms) → terms_of product new state ≡ Ok terms
        → LeavesNoStop terms.instrument.number (new_step naming product new state) }
    ensures replaced { (naming : Naming) (product : ProductLists) (request : ReplaceOrder) (state : State) (slot : ℕ)
        → let live = live_orders state.book in slot_named request.sender.firm request.old live ≡ Some slot
        → LeavesNoStop (order_of slot live).instrument (replace_step naming product request state) }
    ensures session { (change : SessionChange) (state : State) (instrument : ℕ) → LeavesNoStop instrument (session_step change state) }
    ensures closed { (naming : Naming) (product : ProductLists) (request : Request) (state : State) (instrument : ℕ)
        → LeavesNoStop instrument (closed_step_as naming product request state) }
{}
