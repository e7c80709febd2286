//! Reading the records one after the other, each whole when it is come to, under the product of its time.
ghost use Rattle.std.specs.Prelude.{◌≡◌, ℕ, ◌+◌, ◌<◌, ◌≤◌, List, length, true, false, Some, IfOk, IfSome, IsErrOf};
ghost use Rattle.std.specs.List.{concat};
ghost use Rattle.gx_station.specs.Counts.{Rose};
ghost use Rattle.fix_frame.specs.Stream.{messages_of};
ghost use Rattle.match_journal.specs.Causes.{ReadsOnly};
ghost use Rattle.match_journal.specs.Journal.{Record, journal_front, Header};
ghost use Rattle.match_journal.specs.Standing.{IsStanding, moved};
ghost use Rattle.match_journal.specs.Opening.{StandsIn};
ghost use Rattle.match_journal.specs.declared.entry.EntryKind.{EntryKind};
ghost use Rattle.match_journal.specs.declared.entry.EntryKind.TheVariants.{Frames};
ghost use Rattle.order_kinds.specs.State.{empty_state};
ghost use Rattle.order_kinds.specs.Cores.{FitsProduct};
ghost use Rattle.order_kinds.specs.declared.core_state.TheConstants.{MOST_MESSAGES};
ghost use Rattle.book_recovery.specs.Histories.{is_amendment};
ghost use Rattle.book_recovery.specs.Products.{all_products, IsReadTo, ReadsRecord};
ghost use Rattle.book_recovery.specs.Recovering.{HasRoomFor};

use crate::contents::{Met, read_record};
use crate::known::next_known;
use crate::products::Products;
use crate::recovery::RecoverFault;
use crate::scratch::Scratch;
use gx_station::Station;
use match_journal::{EntryKind, Journal, WalkFault};
use order_kinds::Core;
use plain_book::Book;
use product_file::Product;

/// What comes before a record: how many messages, and the number of the product that holds there.
#[derive(Clone, Copy, Debug, PartialEq, Eq)]
pub struct Passed {
    pub messages: u64,
    pub product: usize,
}

/// Whether records of a kind are amendments.
pub(crate) fn is_amendment(kind: EntryKind) -> bool
    ensures { result ≡ is_amendment kind }
{
    match kind {
        EntryKind::Amendment => true,
        EntryKind::Frames | EntryKind::OldImage | EntryKind::Image => false,
    }
}

/// The number of the product that holds after a record of a kind, by that of the one before. An amendment goes over to the next product.
fn number_behind(products: &Products<'_>, kind: EntryKind, number: usize) -> usize
    ensures amends { is_amendment kind ≡ true → number < length products.now.earlier.items → result ≡ number + 1 }
    ensures stays { is_amendment kind ≡ false → result ≡ number }
    ensures later { number ≤ result }
{
    if is_amendment(kind) {
        return products.after(number);
    }
    number
}

/// Makes a spare core new again after a record of a kind: only an image is read into it.
fn clear_spare<B: Book>(spare: &mut Core<B>, _product: &Product, kind: EntryKind)
    requires fits { FitsProduct _product.now spare.old }
    requires frames { kind ≡ Frames → spare.old ≡ empty_state _product.now }
    ensures { spare.new ≡ empty_state _product.now }
{
    match kind {
        EntryKind::Frames => {}
        EntryKind::OldImage | EntryKind::Image | EntryKind::Amendment => spare.clear(),
    }
}

/// Reads the next record, its head and its payload, under the product that holds after it, and passes it by. Messages and products before
/// it are counted: a record of frames adds its messages, a book image sets their count to that of its state, and an amendment goes over to
/// the next product too. `Ok` has what comes before the record after, and leaves the messages of this one in the scratch's framer, all
/// given: those of a book image are none, and an amendment has none. `Ok(None)` comes exactly at a closed gate. `Bad` comes exactly if the
/// record is bad, with its gate: it is not whole frames, or brings the count to 2^24 or more; or it has an image that is not right under
/// its product. `Store` comes only if the count of store faults rose. The spare core is new, and new again then. Nothing is written,
/// synced or sent. In a shared journal `Ok(None)` comes also before a record that another process has added since the opening, if its
/// head is bad by what the journal knows, or it is an amendment.
pub fn next_record<S: Station, B: Book>(
    station: &mut S,
    journal: &mut Journal,
    products: &Products<'_>,
    scratch: &mut Scratch,
    spare: &mut Core<B>,
    passed: Passed,
) -> Result<Option<Passed>, RecoverFault>
    requires reach { journal.old.known ≤ S.meanings.reach station.old }
    requires room { HasRoomFor products.now.last.now scratch.old }
    requires spare { spare.old ≡ empty_state products.now.last.now }
    requires few { passed.messages < MOST_MESSAGES }
    ensures reads { ReadsOnly S.meanings station.old station.new }
    ensures reach { S.meanings.reach station.new ≡ S.meanings.reach station.old }
    ensures store { IsErrOf result RecoverFault.Store → Rose (S.meanings.store_faults station.old) (S.meanings.store_faults station.new) }
    ensures none { (IsErrOf result RecoverFault.Store → ⊥) → S.meanings.store_faults station.new ≡ S.meanings.store_faults station.old }
    ensures stands { IsStanding journal.new }
    ensures same { journal.new ≡ moved journal.old journal.new.gate journal.new.is_at_end }
    ensures room { HasRoomFor products.now.last.now scratch.new }
    ensures spare { spare.new ≡ empty_state products.now.last.now }
    ensures few { IfOk result (λ found. IfSome found (λ behind. behind.messages < MOST_MESSAGES)) }
    ensures later { IfOk result (λ found. IfSome found (λ behind. passed.product ≤ behind.product)) }
    ensures rises { IfOk result (λ found. IfSome found (λ behind. journal.old.gate + 6 + length (concat scratch.new.framer.given) ≤ journal.new.gate)) }
    ensures frames { IfOk result (λ found. IfSome found (λ behind. scratch.new.framer.given ≡ messages_of (concat scratch.new.framer.given))) }
    ensures in_limit { IfOk result (λ found. IfSome found (λ behind. journal.new.gate < journal.new.limit)) }
    ensures records { (head : Header) (image : List ℕ) (records before : List Record) → S.meanings.holds station.old ≡ Some image → StandsIn journal.old image
        → IsReadTo head journal.old.limit image (all_products products.now) records before passed → journal.old.gate ≡ length (journal_front head before)
        → ReadsRecord head journal.old.limit image (all_products products.now) records before passed.product journal.new.gate scratch.new.framer.given result }
{
    let entry = match next_known(station, journal) {
        Ok(Some(entry)) => entry,
        Ok(None) => return Ok(None),
        Err(WalkFault::Store) => return Err(RecoverFault::Store),
        Err(WalkFault::Bad(at)) => return Err(RecoverFault::Bad(at)),
    };
    let number = number_behind(products, entry.kind, passed.product);
    let product = products.get(number);
    let met = Met {
        entry,
        count: passed.messages,
    };
    match read_record(station, journal, product, scratch, spare, met) {
        Ok(messages) => {
            clear_spare(spare, product, entry.kind);
            Ok(Some(Passed {
                messages,
                product: number,
            }))
        }
        Err(why) => Err(why),
    }
}
