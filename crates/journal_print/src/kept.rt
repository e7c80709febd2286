//! A journal that is opened for reading, with the products of its texts, and the work on its records.
ghost use Rattle.std.specs.Prelude.{◌≡◌, ℕ, ◌<◌, ◌≤◌, List, [], length, Some, Ok, IsTrue, OnOk, IfOk, IfSome, IsErrOf};
ghost use Rattle.gx_station.specs.Counts.{Rose};
ghost use Rattle.product_file.specs.ProductTexts.{product_of};
ghost use Rattle.product_file.specs.declared.limits.TheConstants.{LONGEST_TEXT};
ghost use Rattle.match_journal.specs.Causes.{ReadsOnly};
ghost use Rattle.order_kinds.specs.State.{empty_state};
ghost use Rattle.order_kinds.specs.declared.core_state.TheConstants.{MOST_MESSAGES};
ghost use Rattle.book_recovery.specs.Recovering.{HasRoomFor};
ghost use Rattle.journal_print.specs.KeptJournals.{CanBeReadAgain};
ghost use Rattle.journal_print.specs.Reading.{ReadsAndSends};
ghost use Rattle.journal_print.specs.Readers.{IsNewReader, IsIdleReader};
ghost use Rattle.journal_print.specs.Inner.Keeping.{OpensKept};
ghost use Rattle.journal_print.specs.Inner.Publishing.{PublishesKept};

use crate::opening::open_journal;
use crate::reader::Reader;
use crate::records::{Until, publish_records};
use crate::unprinted::Unprinted;
use crate::work::RecordWork;
use book_recovery::{NoProducts, Products, Scratch, read_products};
use gx_station::Station;
use match_journal::Journal;
use plain_book::Book;
use product_file::Product;
use std::alloc::Global;

/// A journal that was opened for reading, and the products of its texts. Its records can be gone through more than once.
#[derive(Drop)]
pub struct KeptJournal<'p> {
    pub(crate) journal: Journal,
    pub(crate) products: Products<'p>,
}

/// Opens the journal of a product for reading, and takes the products of all its texts: `None` exactly for an unfinished creation. It
/// stands before its first record.
pub(crate) fn open_kept<'p, S: Station>(
    alloc: Global,
    product: &'p Product,
    text: &[u8],
    scratch: &mut Scratch,
    station: &mut S,
) -> Result<Option<KeptJournal<'p>>, Unprinted>
    requires short { length text.now ≤ LONGEST_TEXT }
    requires gives { product_of text.now ≡ Ok product.now }
    requires room { HasRoomFor product.now scratch.old }
    ensures reads { ReadsOnly S.meanings station.old station.new }
    ensures store { IsErrOf result Unprinted.Store → Rose (S.meanings.store_faults station.old) (S.meanings.store_faults station.new) }
    ensures none { (IsErrOf result Unprinted.Store → ⊥) → S.meanings.store_faults station.new ≡ S.meanings.store_faults station.old }
    ensures no_send { IsErrOf result Unprinted.Send → ⊥ }
    ensures room { HasRoomFor product.now scratch.new }
    ensures again { IfOk result (λ found. IfSome found (λ kept. CanBeReadAgain S.meanings product.now kept station.new)) }
    ensures first { IfOk result (λ found. IfSome found (λ kept. kept.journal.gate ≡ kept.journal.first)) }
    ensures opens { (image : List ℕ) → S.meanings.holds station.old ≡ Some image → OpensKept product.now text.now image result }
{
    let mut journal = match open_journal(product, text, station) {
        Ok(Some(journal)) => journal,
        Ok(None) => return Ok(None),
        Err(fault) => return Err(fault),
    };
    match read_products(alloc, station, &mut journal, product, scratch) {
        Ok(products) => Ok(Some(KeptJournal { journal, products })),
        Err(NoProducts::Store) => Err(Unprinted::Store),
        Err(NoProducts::NoMemory) => Err(Unprinted::NoMemory),
        Err(NoProducts::Bad(at)) => Err(Unprinted::Bad(at)),
    }
}

/// Opens the journal of a product, and has a work take the messages that it keeps, by a new reader. The products of all its texts are
/// taken first. `None` exactly for an unfinished creation.
pub(crate) fn publish_kept<'p, W: RecordWork, B: Book, S: Station>(
    alloc: Global,
    work: &mut W,
    product: &'p Product,
    text: &[u8],
    reader: &mut Reader<B>,
    station: &mut S,
) -> Result<Option<KeptJournal<'p>>, Unprinted>
    requires short { length text.now ≤ LONGEST_TEXT }
    requires gives { product_of text.now ≡ Ok product.now }
    requires new { IsNewReader product.now reader.old }
    requires work { W.meanings.Fits work.old (empty_state product.now) }
    ensures reads { ReadsAndSends S.meanings station.old station.new }
    ensures store { IsErrOf result Unprinted.Store → Rose (S.meanings.store_faults station.old) (S.meanings.store_faults station.new) }
    ensures no_store { (IsErrOf result Unprinted.Store → ⊥) → S.meanings.store_faults station.new ≡ S.meanings.store_faults station.old }
    ensures send { IsErrOf result Unprinted.Send → Rose (S.meanings.send_faults station.old) (S.meanings.send_faults station.new) }
    ensures no_send { (IsErrOf result Unprinted.Send → ⊥) → S.meanings.send_faults station.new ≡ S.meanings.send_faults station.old }
    ensures memory { IsErrOf result Unprinted.NoMemory → ReadsOnly S.meanings station.old station.new }
    ensures silent { IsTrue W.meanings.is_silent → ReadsOnly S.meanings station.old station.new }
    ensures never_sends { IsTrue W.meanings.is_silent → IsErrOf result Unprinted.Send → ⊥ }
    ensures again { IfOk result (λ found. IfSome found (λ kept. CanBeReadAgain S.meanings product.now kept station.new)) }
    ensures idle { OnOk result (IsIdleReader product.now reader.new) }
    ensures few { OnOk result (reader.new.core.desk.messages < MOST_MESSAGES) }
    ensures publishes { (image : List ℕ) → S.meanings.holds station.old ≡ Some image
        → PublishesKept S.meanings W.meanings product.now text.now image station.old station.new work.old work.new reader.new.core result }
{
    let mut kept = match open_kept(alloc, product, text, &mut reader.scratch, station) {
        Ok(Some(kept)) => kept,
        Ok(None) => return Ok(None),
        Err(fault) => return Err(fault),
    };
    let opened = &mut kept;
    let gone = publish_records(
        work,
        &opened.products,
        &mut opened.journal,
        reader,
        station,
        &Until::End,
    );
    match gone {
        Ok(()) => Ok(Some(kept)),
        Err(fault) => Err(fault),
    }
}
