//! What is done with the messages of each record of a journal.
ghost use Rattle.std.specs.Prelude.{◌≡◌, ◌+◌, ◌≤◌, [], length, IsTrue, IsOk, OnOk};
ghost use Rattle.gx_station.specs.Counts.{HasCause};
ghost use Rattle.gx_station.specs.Quiet.{Quiet, Sends};
ghost use Rattle.order_kinds.specs.declared.core_state.TheConstants.{MOST_MESSAGES};
ghost use Rattle.order_kinds.specs.Cores.{FitsProduct, AreNumbered};
ghost use Rattle.order_kinds.specs.State.{state_numbered};
ghost use Rattle.order_kinds.specs.Step.{state_after};

use crate::publishing::{print_ending, publish};
use exec_report::{LineForm, ReportBuffer, SendFault};
use fix_frame::Framer;
use gx_station::Station;
use order_kinds::Core;
use plain_book::Book;
use product_file::Product;

/// What is done with the messages of each record, and what comes after all of them. A work sees the records' messages in their
/// order, each once.
pub trait RecordWork {
    ghost use Rattle.journal_print.specs.Works.{WorkMeanings};

    ghost meanings: { WorkMeanings Self };

    /// Applies the messages of the frames that a framer has given, in their order, and sends what the work says of them. The order numbers
    /// of the core are to differ, and the work to fit its state; both holds again then. `SendFault` comes only if the count of send faults
    /// rose; a part is sent then, and all messages are applied.
    fn take<B: Book, S: Station>(
        &mut self,
        product: &Product,
        core: &mut Core<B>,
        framer: &Framer,
        buffer: &mut ReportBuffer,
        station: &mut S,
    ) -> Result<(), SendFault>
        requires few { core.old.desk.messages + length framer.now.given ≤ MOST_MESSAGES }
        requires fits { FitsProduct product.now core.old }
        requires empty { buffer.old ≡ [] }
        requires numbered { AreNumbered core.old }
        requires work { meanings.Fits self.old core.old }
        ensures count { core.new.desk.messages ≡ core.old.desk.messages + length framer.now.given }
        ensures fits { FitsProduct product.now core.new }
        ensures quiet { Quiet S.meanings station.old station.new }
        ensures cause { HasCause (S.meanings.send_faults station.old) (S.meanings.send_faults station.new) result }
        ensures silent { IsTrue meanings.is_silent → IsOk result × (station.new ≡ station.old) }
        ensures empty { OnOk result (buffer.new ≡ []) }
        ensures numbered { AreNumbered core.new }
        ensures work { OnOk result (meanings.Fits self.new core.new) }
        ensures state { state_numbered core.new ≡ state_after product.now (state_numbered core.old) framer.now.given }
        ensures sends { Sends S.meanings station.old station.new
            (meanings.text self.old product.now (state_numbered core.old) framer.now.given) result }
        ensures after { OnOk result (self.new ≡ meanings.after self.old product.now (state_numbered core.old) framer.now.given) };

    /// Sends what comes after all messages, if so many lots are open of all live orders. `SendFault` comes only if the count of
    /// send faults rose, and a part is sent then.
    fn finish<S: Station>(
        &self,
        live: u64,
        buffer: &mut ReportBuffer,
        station: &mut S,
    ) -> Result<(), SendFault>
        requires { buffer.old ≡ [] }
        ensures { Sends S.meanings station.old station.new (meanings.ending self.now live) result };
}

/// The lines, in some form, of the events of all messages, and then the form's ending.
#[derive(Drop)]
pub struct Lines<F> {
    pub form: F,
}

impl<F: LineForm> RecordWork for Lines<F> {
    ghost use Rattle.journal_print.specs.LineWorks.{line_work};

    ghost meanings = { line_work F.meanings };

    fn take<B: Book, S: Station>(
        &mut self,
        product: &Product,
        core: &mut Core<B>,
        framer: &Framer,
        buffer: &mut ReportBuffer,
        station: &mut S,
    ) -> Result<(), SendFault> {
        publish(&mut self.form, product, core, framer, buffer, station)
    }

    fn finish<S: Station>(
        &self,
        live: u64,
        buffer: &mut ReportBuffer,
        station: &mut S,
    ) -> Result<(), SendFault> {
        print_ending(&self.form, live, buffer, station)
    }
}
