//! Laws of histories. The functions do nothing; what their contracts say is proved.
ghost use Rattle.std.specs.Prelude.{◌≡◌, ℕ, List, ◌++◌};
ghost use Rattle.product_file.specs.Products.{ProductLists};
ghost use Rattle.order_kinds.specs.State.{empty_state};
ghost use Rattle.order_kinds.specs.Step.{state_after, events_of, events_from, lines_of, reports_of};
ghost use Rattle.order_kinds.specs.Histories.{History, of_product, with_messages, last_product, state_kept, events_kept, reports_kept, new_reports};

/// A history of one product has the state, the events and the reports of its messages, from the empty state of the product on.
pub fn histories_of_one_product()
    ensures state { (product : ProductLists) (messages : List (List ℕ)) → state_kept (of_product product messages) ≡ state_after product (empty_state product) messages }
    ensures events { (product : ProductLists) (messages : List (List ℕ)) → events_kept (of_product product messages) ≡ events_of product messages }
    ensures reports { (product : ProductLists) (messages : List (List ℕ)) → reports_kept (of_product product messages) ≡ reports_of product messages }
    ensures more { (product : ProductLists) (kept messages : List (List ℕ)) → with_messages (of_product product kept) messages ≡ of_product product (kept ++ messages) }
{}

/// Further messages go on from the state of a history, under its last product, and their reports are new.
pub fn further_messages()
    ensures state { (history : History) (messages : List (List ℕ))
        → state_kept (with_messages history messages) ≡ state_after (last_product history) (state_kept history) messages }
    ensures events { (history : History) (messages : List (List ℕ))
        → events_kept (with_messages history messages) ≡ events_kept history ++ events_from (last_product history) (state_kept history) messages }
    ensures reports { (history : History) (messages : List (List ℕ))
        → reports_kept (with_messages history messages) ≡ reports_kept history ++ lines_of (last_product history) (events_from (last_product history) (state_kept history) messages) }
    ensures fresh { (history : History) (messages : List (List ℕ))
        → new_reports history messages ≡ lines_of (last_product history) (events_from (last_product history) (state_kept history) messages) }
{}
