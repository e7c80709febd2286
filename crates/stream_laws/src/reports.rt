//! Laws of reports. Their functions do nothing: what is proved is what their contracts say.
ghost use Rattle.std.specs.Prelude.{◌≡◌, ℕ, List, [], is_some, Ok};
ghost use Rattle.gx_base.specs.Line.{line_of};
ghost use Rattle.gx_base.specs.NameLists.{NameLists};
ghost use Rattle.gx_base.specs.declared.event.Event.{Event};
ghost use Rattle.gx_base.specs.declared.event.Event.TheVariants.{RefusedNew};
ghost use Rattle.gx_base.specs.declared.event.Head.{Head};
ghost use Rattle.gx_base.specs.declared.event.NewFault.{NewFault};
ghost use Rattle.gx_base.specs.declared.event.NewRefused.{NewRefused};
ghost use Rattle.fix_frame.specs.Grammar.{IsFrame};
ghost use Rattle.fix_frame.specs.Stream.{messages_of, rest_of};
ghost use Rattle.product_file.specs.Products.{ProductLists};
ghost use Rattle.product_file.specs.ProductTexts.{product_of};
ghost use Rattle.order_kinds.specs.Balance.{quantities_of};
ghost use Rattle.order_kinds.specs.Histories.{History, AreRightProducts, reports_kept};
ghost use Rattle.book_print.specs.LedgerText.{ledger_line};
ghost use Rattle.stream_laws.specs.Names.{AreNames};
ghost use Rattle.stream_laws.specs.Reading.{value_in, is_execution};
ghost use Rattle.stream_laws.specs.Texts.{HasTexts};
ghost use Rattle.stream_laws.specs.Told.{WritesWhatIsTold, lots_text, EndsWhole, ledger_line_read};
ghost use Rattle.stream_laws.specs.Histories.{HaveNames, each_report};
ghost use Rattle.stream_laws.specs.Sums.{IsReadBalanced};

/// The report of an event is a frame. Where the event tells quantities it is an execution report, which writes them in 38, 14, 151
/// and 9003, and the lots of a trade in 32; any other report has no 32.
pub fn reports_write_what_is_told()
    ensures frame { (names : NameLists) (event : Event) → AreNames names → HasTexts event → IsFrame (line_of names event) }
    ensures kind { (names : NameLists) (event : Event) → AreNames names → HasTexts event → is_execution (line_of names event) ≡ is_some (quantities_of event) }
    ensures quantities { (names : NameLists) (event : Event) → AreNames names → HasTexts event → WritesWhatIsTold (line_of names event) event }
    ensures lots { (names : NameLists) (event : Event) → AreNames names → HasTexts event → value_in 32 (line_of names event) ≡ lots_text event }
{}

/// The report of a new order that is refused writes that nothing is filled or open, and that all of it ended.
pub fn orders_refused_end_whole()
    ensures { (names : NameLists) (head : Head) (order : NewRefused) (fault : NewFault) → AreNames names → HasTexts (RefusedNew head order fault)
        → EndsWhole (line_of names (RefusedNew head order fault)) }
{}

/// The ledger's line of an event has the texts that its report has in 37, 38, 14, 151 and 9003, and there is none where it is no
/// execution report.
pub fn ledger_lines_tell_the_same()
    ensures { (names : NameLists) (event : Event) → AreNames names → HasTexts event → ledger_line event ≡ ledger_line_read (line_of names event) }
{}

/// What the other laws ask of the names of a product holds of each product that a text gives.
pub fn products_have_names()
    ensures { (text : List ℕ) (product : ProductLists) → product_of text ≡ Ok product → AreNames product.names }
{}

/// The reports of a history are whole messages themselves: one for each event, with no byte after them.
pub fn reports_are_messages()
    ensures each { (history : History) → HaveNames history → messages_of (reports_kept history) ≡ each_report history }
    ensures whole { (history : History) → HaveNames history → rest_of (reports_kept history) ≡ [] }
{}

/// What the bytes of the reports of every history say adds up, each by itself and in total, and the ledger writes the same.
pub fn reports_balance()
    ensures { (history : History) → AreRightProducts history → HaveNames history → IsReadBalanced history }
{}
