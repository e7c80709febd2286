//! Laws of the market. Their functions do nothing: what is proved is what their contracts say.
ghost use Rattle.std.specs.Prelude.{◌≡◌, ℕ, ◌+◌, ◌*◌, ◌<◌, ◌≤◌, ◌++◌, true, List, [], ◌∷◌, map, Option};
ghost use Rattle.std.specs.List.{AllByRecursion};
ghost use Rattle.gx_base.specs.declared.order.LmmShare.{LmmShare};
ghost use Rattle.gx_base.specs.declared.price.Price.{Price};
ghost use Rattle.gx_base.specs.declared.event.Event.{Event};
ghost use Rattle.step_config.specs.declared.step.Step.{Step};
ghost use Rattle.product_file.specs.Products.{ProductLists};
ghost use Rattle.fix_request.specs.Requests.{request_of};
ghost use Rattle.fix_request.specs.declared.request.CancelOrder.{CancelOrder};
ghost use Rattle.fix_request.specs.declared.request.ReplaceOrder.{ReplaceOrder};
ghost use Rattle.fix_request.specs.declared.request.NewOrder.{NewOrder};
ghost use Rattle.fix_request.specs.declared.request.SessionChange.{SessionChange};
ghost use Rattle.fix_request.specs.declared.request.Request.TheVariants.{New, Cancel, Replace, Session};
ghost use Rattle.plain_book.specs.declared.entry.Entry.{Entry};
ghost use Rattle.plain_book.specs.Orders.{Level, shown_at, is_live, slot_named};
ghost use Rattle.plain_book.specs.Book.{live_orders};
ghost use Rattle.plain_book.specs.Match.{MatchState, Share};
ghost use Rattle.plain_book.specs.Steps.{split_shares, lmm_shares, top_shares};
ghost use Rattle.level_sweep.specs.Sweep.{sweep};
ghost use Rattle.engine_laws.specs.MatchLaws.{lots_shared, IsUncrossed};
ghost use Rattle.engine_laws.specs.Lines.{with_pairs};
ghost use Rattle.order_kinds.specs.State.{State};
ghost use Rattle.order_kinds.specs.Stops.{by_number, come_in};
ghost use Rattle.order_kinds.specs.Step.{with_message, step_of};
ghost use Rattle.order_kinds.specs.Amendments.{amended_state};
ghost use Rattle.order_kinds.specs.Histories.{History, AreRightProducts, IsHistory, last_product, with_messages, state_kept, events_kept};
ghost use Rattle.order_kinds.specs.Balance.{last_open};
ghost use Rattle.market_laws.specs.Streams.{OfEachHistory, OfEachState, OfEachReport, OfEachMessage};
ghost use Rattle.market_laws.specs.Acts.{EachAct, InEachMessage, OfEachTrade};
ghost use Rattle.market_laws.specs.Firms.{DifferInFirms, DifferInFirmsAlone, AreStopsNumbered, AreOfOtherFirms, AreServedAlike, new_of_firm, cancel_of_firm, replace_of_firm, HasBlindSteps, IsBalancedFor};
ghost use Rattle.market_laws.specs.Trades.{IsWithinLimits, KeepsLimit, IsProtectedMarket, IsAtBest, IsFirst, IsFit, IsNoStop};
ghost use Rattle.market_laws.specs.RightActs.{IsRightAct, KeepsMinimum, IsTopByPrice};
ghost use Rattle.market_laws.specs.Lines.{KeepsTheLine};
ghost use Rattle.market_laws.specs.Markets.{KeepsMarketsApart, IsAmendedMarket, IsOut, IsNotOn, IsNoStopReached, LeavesNoneReached, IsCancelled, IsFree, IsTopFirst};
ghost use Rattle.market_laws.specs.Shares.{IsInProportion, shares_of, of_firms, IsBlind, hiding, IsShownPart};

/// Each trade is of some lots, which its resting order shows and the incoming one wants, of two orders of one instrument and two
/// sides.
pub fn trades_are_fit()
    ensures { OfEachTrade IsFit }
{}

/// Nobody trades outside his limit, and both reports of each trade show it. The limit of a market order is its protection, counted
/// from the best opposite price when it comes in.
pub fn nobody_trades_outside_his_limit()
    ensures limit { OfEachTrade IsWithinLimits }
    ensures reports { OfEachReport KeepsLimit }
    ensures market { InEachMessage (λ product acts start. IsProtectedMarket product start) }
{}

/// Nobody is traded through.
pub fn nobody_is_traded_through()
    ensures { OfEachTrade IsAtBest }
{}

/// First come, first served: in a FIFO step the first in line trades first, and of two orders that rest the first stays before the
/// other one, unless nothing of it is shown any more or one of them is replaced with another price or a greater quantity.
pub fn the_first_in_line_trades_first()
    ensures trades { OfEachTrade IsFirst }
    ensures line { OfEachMessage KeepsTheLine }
{}

/// A pro rata share is at most its part of what is offered, less than a lot below it where it reaches the least, nothing
/// elsewhere, and never less for an order that shows more.
pub fn shares_are_in_proportion()
    ensures { (least pool total : ℕ) → 0 < total → IsInProportion least pool total }
{}

/// SPLIT and each lead market maker get no more than their percent of what is wanted, and TOP no more than its greatest.
pub fn steps_keep_their_percent()
    ensures split { (percent wanted : ℕ) (es : List Entry) → lots_shared (split_shares percent wanted es) * 100 ≤ wanted * percent }
    ensures maker { (maker : LmmShare) (wanted : ℕ) (es : List Entry) → lots_shared (lmm_shares (maker ∷ []) wanted es) * 100 ≤ wanted * maker.percent }
    ensures top { (most : ℕ) (top : Option ℕ) (wanted : ℕ) (es : List Entry)
        → AllByRecursion (λ (share : Share). share.1 ≤ most) (top_shares most top wanted es) }
{}

/// The TOP order of a side is the first in line there, and came to rest at a better price than every order there.
pub fn top_is_first_in_line()
    ensures line { OfEachState (λ state. IsTopFirst state.book.resting) }
    ensures price { InEachMessage (λ product acts start. EachAct IsTopByPrice acts start) }
{}

/// An order that has a minimum trades at least that or nothing, and a FOK order all or nothing: so the report of each order that is
/// cancelled or expires says. None that has a minimum, or may not rest, is left resting.
pub fn minimums_are_all_or_nothing()
    ensures reports { OfEachReport KeepsMinimum }
    ensures rests { OfEachState (λ state. AllByRecursion IsFree state.book.resting) }
{}

/// No order is left crossed: between messages no buy meets a sell of its instrument.
pub fn no_order_is_left_crossed()
    ensures { OfEachState (λ state. IsUncrossed state.book.resting) }
{}

/// No stop trades before it was reached, and none is left reached: neither by a fill of the message that has just been done, nor by
/// the last trade price of its instrument.
pub fn no_stop_is_left_reached()
    ensures trades { OfEachTrade IsNoStop }
    ensures fills { OfEachMessage (λ old step. LeavesNoneReached step) }
    ensures waits { OfEachState IsNoStopReached }
{}

/// Each act of each message is right: a trade is fair, what rests is open and may rest, what is cancelled is all or nothing, and
/// a stop that is triggered is the first that a trade of the message reaches.
pub fn acts_are_right()
    ensures { InEachMessage (λ product acts start. EachAct IsRightAct acts start) }
{}

/// Out means out. An order of which nothing is open by its last report is out, and one that is out is never reported again, whatever
/// messages and amendments follow.
pub fn out_means_out()
    ensures closed { (number : ℕ) → OfEachHistory (λ history.
        let state = state_kept history in
        number ≤ state.desk.orders → last_open number (events_kept history) ≡ 0 → IsOut number state) }
    ensures never { (number : ℕ) (history : History) (messages : List (List ℕ)) (pairs : List (ProductLists × List (List ℕ))) (more : List Event)
        → let longer = with_pairs (with_messages history messages) pairs in AreRightProducts longer → IsHistory longer
        → IsOut number (state_kept history) → events_kept longer ≡ events_kept history ++ more → AllByRecursion (IsNotOn number) more }
{}

/// A cancel of a live order by its firm is never refused, whether the market is open or closed, and the order is out.
pub fn cancels_are_never_refused()
    ensures { (next : List ℕ) (request : CancelOrder) → OfEachHistory (λ history.
        let product = last_product history in
        let state = state_kept history in
        request_of product next ≡ Cancel request → is_live request.sender.firm request.old (live_orders state.book) ≡ true
        → IsCancelled request (with_message state) (step_of product state next)) }
{}

/// Markets are apart: each message has one instrument and changes no other market, or it closes each market by the same rule. An
/// amendment changes nothing of a market but who is TOP.
pub fn markets_are_apart()
    ensures messages { OfEachMessage KeepsMarketsApart }
    ensures amendments { (product : ProductLists) (state : State) (instrument : ℕ) → IsAmendedMarket instrument state (amended_state product state) }
{}

/// Firms are equal: but for LMM, the shares of a step do not change with the firms of the orders, whatever they are, and a sweep
/// by such steps trades the same lots of the same orders. So does all that an order does that comes in, with the stops that it
/// triggers.
pub fn firms_are_equal()
    ensures shares { (firm : Entry → ℕ) (step : Step) (top : Option ℕ) (wanted : ℕ) (es : List Entry) → IsBlind step
        → shares_of step top wanted (of_firms firm es) ≡ shares_of step top wanted es }
    ensures sweep { (firm : ℕ → ℕ) (steps : List Step) (limit : Price) (a b : MatchState) → AllByRecursion IsBlind steps
        → DifferInFirms firm a b → DifferInFirms firm (sweep steps limit a) (sweep steps limit b) }
    ensures comes_in { (firm : ℕ → ℕ) (steps : List Step) (a b : MatchState) → AllByRecursion IsBlind steps → AreStopsNumbered a
        → DifferInFirmsAlone firm a b → DifferInFirmsAlone firm (come_in by_number steps a) (come_in by_number steps b) }
{}

/// Messages are served alike, whatever firms send them, but for LMM. Let two states differ in the firms of their orders alone, and two
/// messages in their own firms alone. If a new id is free in both states or in neither, and an old id names the same order in both or
/// none, then both messages are refused for the same reason, or the same lots of the same orders trade. The states after them differ in
/// firms alone again, so the law goes on with the next message. A change of the trading session does the same in both, too.
pub fn messages_are_served_alike()
    ensures new { (firm : ℕ → ℕ) (next other : List ℕ) (new : NewOrder) (b : State) → OfEachHistory (λ history.
        let product = last_product history in
        let a = state_kept history in
        let own = firm (a.desk.orders + 1) in
        AreOfOtherFirms firm a b → HasBlindSteps product new.named
        → request_of product next ≡ New new → request_of product other ≡ New (new_of_firm own new)
        → is_live own new.id (live_orders b.book) ≡ is_live new.sender.firm new.id (live_orders a.book)
        → AreServedAlike firm (step_of product a next) (step_of product b other)) }
    ensures cancel { (firm : ℕ → ℕ) (own : ℕ) (next other : List ℕ) (request : CancelOrder) (b : State) → OfEachHistory (λ history.
        let product = last_product history in
        let a = state_kept history in
        AreOfOtherFirms firm a b → request_of product next ≡ Cancel request → request_of product other ≡ Cancel (cancel_of_firm own request)
        → slot_named own request.old (live_orders b.book) ≡ slot_named request.sender.firm request.old (live_orders a.book)
        → AreServedAlike firm (step_of product a next) (step_of product b other)) }
    ensures replace { (firm : ℕ → ℕ) (own : ℕ) (next other : List ℕ) (request : ReplaceOrder) (b : State) → OfEachHistory (λ history.
        let product = last_product history in
        let a = state_kept history in
        AreOfOtherFirms firm a b → HasBlindSteps product request.named
        → request_of product next ≡ Replace request → request_of product other ≡ Replace (replace_of_firm own request)
        → slot_named own request.old (live_orders b.book) ≡ slot_named request.sender.firm request.old (live_orders a.book)
        → is_live own request.id (live_orders b.book) ≡ is_live request.sender.firm request.id (live_orders a.book)
        → AreServedAlike firm (step_of product a next) (step_of product b other)) }
    ensures session { (firm : ℕ → ℕ) (next : List ℕ) (change : SessionChange) (b : State) → OfEachHistory (λ history.
        let product = last_product history in
        let a = state_kept history in
        AreOfOtherFirms firm a b → request_of product next ≡ Session change → AreServedAlike firm (step_of product a next) (step_of product b next)) }
{}

/// A firm's fills add up: what its orders entered is filled, open, or cancelled.
pub fn firms_balance()
    ensures { (firm : ℕ) → OfEachHistory (λ history. IsBalancedFor firm (events_kept history) (state_kept history)) }
{}

/// Hidden stays hidden: what is shown at a level depends on no lot that is not shown, and an order never shows more than its display
/// quantity.
pub fn hidden_stays_hidden()
    ensures levels { (more : Entry → ℕ) (level : Level) (es : List Entry) → shown_at level (map (hiding more) es) ≡ shown_at level es }
    ensures orders { OfEachState (λ state. AllByRecursion IsShownPart state.book.resting) }
{}
