//! Sending report lines of a journal again.
ghost use Rattle.std.specs.Prelude.{◌≡◌, ℕ, List, Some, OnOk, IsErrOf};
ghost use Rattle.gx_station.specs.Counts.{Rose};
ghost use Rattle.order_kinds.specs.Histories.{History};
ghost use Rattle.book_recovery.specs.Kept.{HasKept};
ghost use Rattle.journal_print.specs.KeptJournals.{CanBeReadAgain, IsKeptOf};
ghost use Rattle.journal_print.specs.Reading.{ReadsAndSends};
ghost use Rattle.journal_print.specs.Readers.{IsIdleReader};
ghost use Rattle.journal_print.specs.Resent.{SendsAgain, lines_again_kept};

use crate::kept::KeptJournal;
use crate::reader::Reader;
use crate::records::{Until, publish_records};
use crate::unprinted::Unprinted;
use crate::work::Lines;
use fix_session::{AgainForm, ReportRange};
use gx_station::Station;
use plain_book::Book;

/// Goes over the records of a journal again, from the first one on, and sends the report lines of a range again. No record is read any
/// more once the firm has had all of them. No memory is taken, and the call can be made again.
///
/// `Store` and `Send` come only if the count of store or send faults rose, and a part is sent then. Over an image of which all messages were
/// noted there is no other fault. Nothing is written or synced.
pub fn resend_kept<B: Book, S: Station>(
    range: &ReportRange,
    kept: &mut KeptJournal<'_>,
    reader: &mut Reader<B>,
    station: &mut S,
) -> Result<(), Unprinted>
    requires again { CanBeReadAgain S.meanings kept.old.products.last.now kept.old station.old }
    requires idle { IsIdleReader kept.old.products.last.now reader.old }
    ensures reads { ReadsAndSends S.meanings station.old station.new }
    ensures store { IsErrOf result Unprinted.Store → Rose (S.meanings.store_faults station.old) (S.meanings.store_faults station.new) }
    ensures no_store { (IsErrOf result Unprinted.Store → ⊥) → S.meanings.store_faults station.new ≡ S.meanings.store_faults station.old }
    ensures send { IsErrOf result Unprinted.Send → Rose (S.meanings.send_faults station.old) (S.meanings.send_faults station.new) }
    ensures no_send { (IsErrOf result Unprinted.Send → ⊥) → S.meanings.send_faults station.new ≡ S.meanings.send_faults station.old }
    ensures memory { IsErrOf result Unprinted.NoMemory → ⊥ }
    // The records can be gone through again.
    ensures same { kept.new.products ≡ kept.old.products }
    ensures again { OnOk result (CanBeReadAgain S.meanings kept.old.products.last.now kept.new station.new) }
    ensures idle { OnOk result (IsIdleReader kept.old.products.last.now reader.new) }
    ensures stays { (image : List ℕ) → IsKeptOf image kept.old → OnOk result (IsKeptOf image kept.new) }
    // The lines are those of the history that the image keeps.
    ensures sends { (text image : List ℕ) (history : History) → S.meanings.holds station.old ≡ Some image → IsKeptOf image kept.old
        → HasKept kept.old.products.last.now text history image
        → SendsAgain S.meanings (lines_again_kept range.now history) station.old station.new result }
{
    kept.journal.rewind();
    reader.core.clear();
    let mut lines = Lines {
        form: AgainForm { range: *range },
    };
    publish_records(
        &mut lines,
        &kept.products,
        &mut kept.journal,
        reader,
        station,
        &Until::Lines(*range),
    )
}
