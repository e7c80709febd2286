//! One record: the frames that were read, kept, applied and reported.
ghost use Rattle.std.specs.Prelude.{◌≡◌, ◌+◌, ◌-◌, ◌<◌, ◌≤◌, ◌≢◌, [], true, length, IsTrue, OnOk, Err};
ghost use Rattle.std.specs.List.{concat};
ghost use Rattle.order_kinds.specs.Step.{events_from};
ghost use Rattle.order_kinds.specs.State.{state_numbered};
ghost use Rattle.order_kinds.specs.Cores.{FitsProduct, AreNumbered};
ghost use Rattle.order_kinds.specs.declared.core_state.TheConstants.{MOST_MESSAGES};
ghost use Rattle.book_recovery.specs.Records.{messages_in};
ghost use Rattle.globex_run.specs.Inner.Keeping.{KeepsEvents};
ghost use Rattle.globex_run.specs.Inner.Serving.{record_of, AnswersFrames};

use crate::ending::Ending;
use crate::session::Engine;
use exec_report::LineForm;
use fix_frame::Framer;
use gx_station::Station;
use journal_print::publish;
use match_journal::{AppendFault, EntryKind, Journal};
use plain_book::Book;
use product_file::Product;

/// Why a record was not served, or not to its end.
#[derive(Clone, Copy, Debug, PartialEq, Eq)]
pub enum Unserved {
    /// It was not kept, or nobody knows: a call on the store failed.
    StoreFault,
    /// It was kept and applied, and a send of what is published of it failed.
    SendFault,
}

impl Unserved {
    ghost use Rattle.globex_run.specs.Inner.Serving.{ending_by};

    /// How serving ends then.
    pub fn ending(self) -> Ending
        ensures { result ≡ ending_by self }
    {
        match self {
            Unserved::StoreFault => Ending::StoreFault,
            Unserved::SendFault => Ending::SendFault,
        }
    }
}

/// Keeps the frames that a framer has given in one record, then applies their messages, and then publishes their events; or says
/// why not. Where it has given none, nothing is done.
///
/// Where the order numbers of the core differ, the state, what is sent and the form are those of the engine's events. Over
/// any other core that fits, the record is kept as well, and its messages are counted.
pub fn serve_record<F: LineForm, B: Book, S: Station>(
    form: &mut F,
    product: &Product,
    engine: &mut Engine<B>,
    journal: &mut Journal,
    framer: &Framer,
    station: &mut S,
) -> Result<(), Unserved>
    requires at_end { journal.old.is_at_end ≡ true }
    requires reach { journal.old.known ≤ S.meanings.reach station.old }
    requires in_limit { journal.old.gate < journal.old.limit }
    requires room { length (concat framer.now.given) ≤ journal.old.limit - (journal.old.gate + 7) }
    requires few { engine.old.core.desk.messages + length framer.now.given < MOST_MESSAGES }
    requires fits { FitsProduct product.now engine.old.core }
    requires empty { engine.old.reports ≡ [] }
    ensures limit { journal.new.limit ≡ journal.old.limit }
    ensures bytes_read { S.meanings.bytes_read station.new ≡ S.meanings.bytes_read station.old }
    ensures answers { AnswersFrames S.meanings (AreNumbered engine.old.core)
        (F.meanings.text form.old) product.now journal.old.limit station.old station.new journal.old.gate journal.new.gate (state_numbered engine.old.core)
        (state_numbered engine.new.core) framer.now.given result }
    ensures published { AreNumbered engine.old.core → OnOk result (KeepsEvents F.meanings form.old form.new
        (events_from product.now (state_numbered engine.old.core) (messages_in (record_of framer.now.given)))) }
    ensures text { F.meanings.text form.new ≡ F.meanings.text form.old }
    ensures silent { IsTrue F.meanings.is_silent → result ≢ Err Unserved.SendFault }
    ensures at_end { OnOk result (journal.new.is_at_end ≡ true) }
    ensures reach { OnOk result (journal.new.known ≤ S.meanings.reach station.new) }
    ensures in_limit { OnOk result (journal.new.gate < journal.new.limit) }
    ensures counts { OnOk result (engine.new.core.desk.messages ≡ engine.old.core.desk.messages + length framer.now.given) }
    ensures few { OnOk result (engine.new.core.desk.messages < MOST_MESSAGES) }
    ensures fits { OnOk result (FitsProduct product.now engine.new.core) }
    ensures numbered { AreNumbered engine.old.core → OnOk result (AreNumbered engine.new.core) }
    ensures empty { OnOk result (engine.new.reports ≡ []) }
{
    if framer.given_count() == 0 {
        return Ok(());
    }
    match journal.append(station, EntryKind::Frames, framer.all_given()) {
        Ok(()) => {}
        Err(AppendFault::Full) => unreachable!(),
        Err(AppendFault::Store) => return Err(Unserved::StoreFault),
    }
    match publish(
        form,
        product,
        &mut engine.core,
        framer,
        &mut engine.reports,
        station,
    ) {
        Ok(()) => Ok(()),
        Err(_) => Err(Unserved::SendFault),
    }
}
