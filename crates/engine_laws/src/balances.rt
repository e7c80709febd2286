//! The laws of balance. Their functions do nothing: what is proved is what their contracts say.
ghost use Rattle.order_kinds.specs.Histories.{History, AreRightProducts, IsBalanced};
ghost use Rattle.engine_laws.specs.Bounds.{StaysWithin};

/// The messages of every history balance, order by order, trade by trade, and in total.
pub fn histories_balance()
    ensures { (history : History) → AreRightProducts history → IsBalanced history }
{}

/// After each event of every history, what is asked for, entered, filled and cancelled is each at most 999,999 lots for each of
/// its messages, and there are at most 1,000,002 events for each.
pub fn totals_are_small()
    ensures { (history : History) → AreRightProducts history → StaysWithin history }
{}
