//! A law of trading sessions.
ghost use Rattle.std.specs.Prelude.{◌≡◌, ℕ, List};
ghost use Rattle.gx_base.specs.declared.trading.Trading.TheVariants.{Open};
ghost use Rattle.product_file.specs.Products.{ProductLists};
ghost use Rattle.order_kinds.specs.State.{State, empty_state};
ghost use Rattle.order_kinds.specs.Step.{events_of, events_from, state_after};
ghost use Rattle.engine_laws.specs.FirmSteps.{firm_events_from, firm_state_after, AreOfFirms};

/// Without a message whose body begins with `35=h` and SOH, the engine does what it does without trading sessions, where each
/// message comes from a firm and the market is open: from the start, and from any state in which the market is open, it has the
/// same events and the same state after them, and the market stays open.
pub fn firms_are_served_as_before()
    ensures from_start { (product : ProductLists) (frames : List (List ℕ)) → AreOfFirms frames
        → events_of product frames ≡ firm_events_from product (empty_state product) frames }
    ensures state_from_start { (product : ProductLists) (frames : List (List ℕ)) → AreOfFirms frames
        → state_after product (empty_state product) frames ≡ firm_state_after product (empty_state product) frames }
    ensures events { (product : ProductLists) (state : State) (frames : List (List ℕ)) → state.trading ≡ Open → AreOfFirms frames
        → events_from product state frames ≡ firm_events_from product state frames }
    ensures state { (product : ProductLists) (state : State) (frames : List (List ℕ)) → state.trading ≡ Open → AreOfFirms frames
        → state_after product state frames ≡ firm_state_after product state frames }
    ensures stays_open { (product : ProductLists) (state : State) (frames : List (List ℕ)) → state.trading ≡ Open → AreOfFirms frames
        → (state_after product state frames).trading ≡ Open }
{}
