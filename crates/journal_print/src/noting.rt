//! Noting the messages that a journal keeps: nothing is sent.
ghost use Rattle.std.specs.Prelude.{◌≡◌, ℕ, ◌<◌, ◌≤◌, List, length, Some, Ok, OnOk, IfOk, IfSome, IsErrOf};
ghost use Rattle.gx_station.specs.Counts.{Rose};
ghost use Rattle.product_file.specs.ProductTexts.{product_of};
ghost use Rattle.product_file.specs.declared.limits.TheConstants.{LONGEST_TEXT};
ghost use Rattle.match_journal.specs.Causes.{ReadsOnly};
ghost use Rattle.order_kinds.specs.declared.core_state.TheConstants.{MOST_MESSAGES};
ghost use Rattle.fix_session.specs.SessionOut.{noted_all};
ghost use Rattle.journal_print.specs.KeptJournals.{CanBeReadAgain};
ghost use Rattle.journal_print.specs.Noted.{NotesMessages};
ghost use Rattle.journal_print.specs.Readers.{IsNewReader, IsIdleReader};

use crate::kept::{KeptJournal, publish_kept};
use crate::reader::Reader;
use crate::unprinted::Unprinted;
use crate::work::RecordWork;
use book_recovery::apply_given;
use exec_report::{ReportBuffer, SendFault};
use fix_frame::Framer;
use fix_request::read_request;
use fix_session::Sessions;
use gx_base::NullEmit;
use gx_station::Station;
use order_kinds::Core;
use plain_book::Book;
use product_file::Product;
use std::alloc::Global;

/// Notes the messages of the frames that a framer has given, in their order, as read under a product.
fn note_messages(sessions: &mut Sessions, product: &Product, framer: &Framer)
    ensures { sessions.new ≡ noted_all product.now sessions.old framer.now.given }
{
    product.limits();
    for number in 0..framer.given_count() {
        let request = read_request(framer.given(number), product);
        sessions.note(&request);
    }
}

/// The messages are noted, and nothing is sent.
impl RecordWork for Sessions {
    ghost use Rattle.journal_print.specs.NoteWorks.{note_work};

    ghost meanings = { note_work };

    fn take<B: Book, S: Station>(
        &mut self,
        product: &Product,
        core: &mut Core<B>,
        framer: &Framer,
        _buffer: &mut ReportBuffer,
        _station: &mut S,
    ) -> Result<(), SendFault> {
        note_messages(self, product, framer);
        let mut unseen = NullEmit;
        apply_given(core, product, framer, &mut unseen);
        Ok(())
    }

    fn finish<S: Station>(
        &self,
        _live: u64,
        _buffer: &mut ReportBuffer,
        _station: &mut S,
    ) -> Result<(), SendFault> {
        Ok(())
    }
}

/// Opens the journal of a product, and notes the messages that it keeps, each as read under the product of its time, by a new reader. The
/// products of all its texts are taken first, and then each record is read whole before its messages are noted; a book image is held to
/// its form and passed by. The messages are applied to the reader's core too, whose counters are then those after all of them. `Ok` has the
/// journal, whose records can be gone through again without memory, and `None` exactly for an unfinished creation, which keeps no message.
///
/// `Store` comes only if the count of store faults rose, `NoMemory` only if the journal has an amendment, and `Send` never. `NotAJournal`,
/// `Bad` and `ProductDiffers` come exactly as those of `print_events`. Nothing is written, synced or sent.
pub fn note_kept<'p, B: Book, S: Station>(
    alloc: Global,
    sessions: &mut Sessions,
    product: &'p Product,
    text: &[u8],
    reader: &mut Reader<B>,
    station: &mut S,
) -> Result<Option<KeptJournal<'p>>, Unprinted>
    requires short { length text.now ≤ LONGEST_TEXT }
    requires gives { product_of text.now ≡ Ok product.now }
    requires new { IsNewReader product.now reader.old }
    ensures reads { ReadsOnly S.meanings station.old station.new }
    ensures store { IsErrOf result Unprinted.Store → Rose (S.meanings.store_faults station.old) (S.meanings.store_faults station.new) }
    ensures no_store { (IsErrOf result Unprinted.Store → ⊥) → S.meanings.store_faults station.new ≡ S.meanings.store_faults station.old }
    ensures send { IsErrOf result Unprinted.Send → ⊥ }
    // The journal that was opened can be gone through again, with this reader.
    ensures again { IfOk result (λ found. IfSome found (λ kept. CanBeReadAgain S.meanings product.now kept station.new)) }
    ensures idle { OnOk result (IsIdleReader product.now reader.new) }
    ensures few { OnOk result (reader.new.core.desk.messages < MOST_MESSAGES) }
    ensures notes { (image : List ℕ) → S.meanings.holds station.old ≡ Some image
        → NotesMessages product.now text.now image sessions.old sessions.new reader.new.core result }
{
    publish_kept(alloc, sessions, product, text, reader, station)
}
