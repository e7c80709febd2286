//! The laws of line numbers. Their functions do nothing: what is proved is what their contracts say.
ghost use Rattle.std.specs.Prelude.{◌≡◌, ℕ, ◌<◌, ◌≤◌, ◌++◌, List, [], length, flat_map, false};
ghost use Rattle.std.specs.List.{AllByRecursion};
ghost use Rattle.gx_base.specs.NameLists.{NameLists};
ghost use Rattle.gx_base.specs.declared.limits.TheConstants.{ADDRESSEES};
ghost use Rattle.gx_base.specs.declared.event.Event.{Event};
ghost use Rattle.product_file.specs.Products.{ProductLists};
ghost use Rattle.order_kinds.specs.State.{State};
ghost use Rattle.order_kinds.specs.Step.{state_after, events_from};
ghost use Rattle.order_kinds.specs.Histories.{History, with_messages, state_kept, events_kept, lines_kept};
ghost use Rattle.engine_laws.specs.Lines.{line_in, count_at, lines_to, numbers_between, AreAbove, AreUpTo, goes_to_range, WritesOnly, with_pairs};

/// No message lowers an addressee's count of lines, and each event to the addressee has a line above the count before. Where the
/// list of counts has the addressee's place, the lines of the events to it are those above the count before, up to the count
/// after, each once and in order.
pub fn lines_rise()
    ensures never_fall { (product : ProductLists) (state : State) (messages : List (List ℕ)) (place : ℕ)
        → count_at place state ≤ count_at place (state_after product state messages) }
    ensures above { (product : ProductLists) (state : State) (messages : List (List ℕ)) (place : ℕ)
        → AreAbove place (count_at place state) (events_from product state messages) }
    ensures up_to { (product : ProductLists) (state : State) (messages : List (List ℕ)) (place : ℕ) → place < length state.desk.lines
        → AreUpTo place (count_at place (state_after product state messages)) (events_from product state messages) }
    ensures in_order { (product : ProductLists) (state : State) (messages : List (List ℕ)) (place : ℕ) → place < length state.desk.lines
        → lines_to place (events_from product state messages)
        ≡ numbers_between (count_at place state) (count_at place (state_after product state messages)) }
{}

/// The lines of a history to each addressee are 1, 2 and so on up to its count, in order. What follows lowers no count, and each
/// event of it has a line above the count that the history leaves, whether products change or not.
pub fn histories_number_lines()
    ensures from_one { (history : History) → AllByRecursion (λ (e : Event). 1 ≤ line_in e) (events_kept history) }
    ensures up_to { (history : History) (place : ℕ) → place < ADDRESSEES → AreUpTo place (count_at place (state_kept history)) (events_kept history) }
    ensures in_order { (history : History) (place : ℕ) → place < ADDRESSEES
        → lines_to place (events_kept history) ≡ numbers_between 0 (count_at place (state_kept history)) }
    ensures never_fall { (history : History) (messages : List (List ℕ)) (pairs : List (ProductLists × List (List ℕ))) (place : ℕ)
        → count_at place (state_kept history) ≤ count_at place (state_kept (with_pairs (with_messages history messages) pairs)) }
    ensures rest { (history : History) (messages : List (List ℕ)) (pairs : List (ProductLists × List (List ℕ))) (more : List Event) (place : ℕ)
        → events_kept (with_pairs (with_messages history messages) pairs) ≡ events_kept history ++ more
        → AreAbove place (count_at place (state_kept history)) more }
{}

/// Once a firm's count has reached the end of a range, no further event goes to the firm with a line in the range: not from
/// further messages, and not under further products. So where only events to the firm with a line in the range are written,
/// nothing more is written.
pub fn no_line_comes_back()
    ensures messages { (product : ProductLists) (state : State) (messages : List (List ℕ)) (firm low high : ℕ) → high ≤ count_at firm state
        → AllByRecursion (λ (e : Event). goes_to_range firm low high e ≡ false) (events_from product state messages) }
    ensures rest { (history : History) (messages : List (List ℕ)) (pairs : List (ProductLists × List (List ℕ))) (more : List Event) (firm low high : ℕ)
        → high ≤ count_at firm (state_kept history) → events_kept (with_pairs (with_messages history messages) pairs) ≡ events_kept history ++ more
        → AllByRecursion (λ (e : Event). goes_to_range firm low high e ≡ false) more }
    ensures silent { (text : Event → List ℕ) (product : ProductLists) (state : State) (messages : List (List ℕ)) (firm low high : ℕ)
        → ((e : Event) → goes_to_range firm low high e ≡ false → text e ≡ []) → high ≤ count_at firm state
        → flat_map text (events_from product state messages) ≡ [] }
    ensures written { (line : NameLists → Event → List ℕ) (history : History) (messages : List (List ℕ)) (pairs : List (ProductLists × List (List ℕ)))
        (firm low high : ℕ) → WritesOnly firm low high line → high ≤ count_at firm (state_kept history)
        → lines_kept line (with_pairs (with_messages history messages) pairs) ≡ lines_kept line history }
{}
