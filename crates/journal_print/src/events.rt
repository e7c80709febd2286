//! The messages that a journal keeps, printed by some work: as the reports again, the fills, or the ledger.
ghost use Rattle.std.specs.Prelude.{◌≡◌, ℕ, ◌≤◌, List, length, Some, Ok, IsErrOf};
ghost use Rattle.gx_station.specs.Counts.{Rose};
ghost use Rattle.product_file.specs.ProductTexts.{product_of};
ghost use Rattle.product_file.specs.declared.limits.TheConstants.{LONGEST_TEXT};
ghost use Rattle.match_journal.specs.Causes.{ReadsOnly};
ghost use Rattle.order_kinds.specs.State.{empty_state};
ghost use Rattle.journal_print.specs.Reading.{ReadsAndSends};
ghost use Rattle.journal_print.specs.Readers.{IsNewReader};
ghost use Rattle.journal_print.specs.Works.{work_text, work_whole};
ghost use Rattle.journal_print.specs.Printed.{PrintsMessages};

use crate::kept::publish_kept;
use crate::reader::Reader;
use crate::unprinted::Unprinted;
use crate::work::RecordWork;
use book_print::open_lots;
use gx_station::Station;
use plain_book::Book;
use product_file::Product;
use std::alloc::Global;

/// Has a work take the messages of each record that the journal of a product keeps, each under the product of its time, and then finish,
/// and answers how many messages these are: what is printed is what the work sends of them. `Lines` sends the lines of their events in some
/// form. The products of all texts are taken before anything is sent: the last one is that handed in, and only a journal with amendments
/// needs memory for others. Each record is read whole before its messages are taken, and a book image is held to its form and passed by; a
/// part of what comes after all messages is sent only if all messages kept were read. The reader is to be new, and the work to fit a market
/// without orders.
///
/// `Store` and `Send` come only if the count of store or send faults rose, and `NoMemory` only if the journal has an amendment; nothing was
/// sent then. `NotAJournal`, `Bad` and `ProductDiffers` come exactly if the image is none, is bad, or is of another product. `Bad` has the
/// gate of the first record with a bad head; else 9 if the header's text gives no product; else the gate of the first amendment with a bad
/// text, or a product that may not follow the one before; else that of the first bad record. What is sent of the messages before a bad
/// record was sent, and before any other fault of the journal nothing was. An unfinished creation keeps no message. Nothing is written or
/// synced.
pub fn print_events<W: RecordWork, B: Book, S: Station>(
    alloc: Global,
    work: &mut W,
    product: &Product,
    text: &[u8],
    reader: &mut Reader<B>,
    station: &mut S,
) -> Result<u64, Unprinted>
    requires short { length text.now ≤ LONGEST_TEXT }
    requires gives { product_of text.now ≡ Ok product.now }
    requires new { IsNewReader product.now reader.old }
    requires work { W.meanings.Fits work.old (empty_state product.now) }
    ensures reads { ReadsAndSends S.meanings station.old station.new }
    ensures store { IsErrOf result Unprinted.Store → Rose (S.meanings.store_faults station.old) (S.meanings.store_faults station.new) }
    ensures no_store { (IsErrOf result Unprinted.Store → ⊥) → S.meanings.store_faults station.new ≡ S.meanings.store_faults station.old }
    ensures send { IsErrOf result Unprinted.Send → Rose (S.meanings.send_faults station.old) (S.meanings.send_faults station.new) }
    ensures no_send { (IsErrOf result Unprinted.Send → ⊥) → S.meanings.send_faults station.new ≡ S.meanings.send_faults station.old }
    ensures memory { IsErrOf result Unprinted.NoMemory → ReadsOnly S.meanings station.old station.new }
    ensures prints { (image : List ℕ) → S.meanings.holds station.old ≡ Some image → PrintsMessages S.meanings product.now text.now image station.old station.new
        (work_text W.meanings work.old) (work_whole W.meanings work.old) result }
{
    let count = match publish_kept(alloc, work, product, text, reader, station) {
        Ok(_) => reader.core.messages(),
        Err(why) => return Err(why),
    };
    let live = open_lots(&reader.core, product);
    match work.finish(live, &mut reader.reports, station) {
        Ok(()) => Ok(count),
        Err(_) => Err(Unprinted::Send),
    }
}
