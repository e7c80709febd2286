//! The state of a journal.
ghost use Rattle.std.specs.Prelude.{◌≡◌, ℕ, ◌+◌, ◌-◌, ◌*◌, ◌^◌, ◌<◌, ◌≤◌, List, [], false, true, length, Some, Ok, OnOk, IfOk, IsErrOf};
ghost use Rattle.product_file.specs.ProductTexts.{product_of};
ghost use Rattle.gx_station.specs.Counts.{Rose};
ghost use Rattle.match_journal.specs.Causes.{ReadsAtMost, ReadsOnly};
ghost use Rattle.match_journal.specs.Journal.{IsJournal, Record, Header};
ghost use Rattle.match_journal.specs.Opening.{IsOpened, StandsIn};
ghost use Rattle.match_journal.specs.Texts.{PlacedText};
ghost use Rattle.match_journal.specs.BadRecords.{BeginsWithRecords};
ghost use Rattle.match_journal.specs.Standing.{IsStanding, moved};
ghost use Rattle.match_journal.specs.declared.limits.TheConstants.{LEAST_LIMIT};
ghost use Rattle.order_kinds.specs.State.{empty_state};
ghost use Rattle.order_kinds.specs.Cores.{FitsProduct};
ghost use Rattle.order_kinds.specs.declared.core_state.TheConstants.{MOST_MESSAGES};
ghost use Rattle.book_recovery.specs.Recovering.{ChecksHeads, HasRoomFor, first_read, most_to_recover, Recovers};
ghost use Rattle.book_recovery.specs.Inner.Starting.{BeginsAt};
ghost use Rattle.book_recovery.specs.Inner.Counting.{Counts};

use crate::known::{end_at_bad, next_met};
use crate::replay::replay_records;
use crate::scratch::Scratch;
use gx_station::Station;
use match_journal::{Entry, EntryKind, Journal, WalkFault};
use order_kinds::Core;
use plain_book::Book;
use product_file::Product;
use thiserror::Error;

/// What a journal keeps: how many messages, in how many records, and the gate of the last book image, if there is one.
#[derive(Clone, Copy, Debug, PartialEq, Eq)]
pub struct Recovered {
    pub messages: u64,
    pub entries: u64,
    pub image_at: Option<u64>,
}

/// Why nothing was recovered.
#[derive(Clone, Copy, Debug, Error, PartialEq, Eq)]
pub enum RecoverFault {
    #[error("a call on the store has failed")]
    Store,
    /// With the place of the first bad record.
    #[error("the journal is bad, at {0}")]
    Bad(u64),
}

/// What the first pass tells the second.
#[derive(Clone, Copy)]
pub(crate) struct Heads {
    /// How many records there are.
    entries: u64,
    /// The gate of the last book image.
    image_at: Option<u64>,
    /// The entry that the second pass begins with: that of the last book image, or else of the first record.
    start: Option<Entry>,
}

impl Heads {
    ghost use Rattle.book_recovery.specs.Inner.Counting.{with_head};

    /// One head more was met.
    fn pass(&mut self, entry: Entry)
        requires { self.old.entries + 1 < 2 ^ 64 }
        ensures { self.new ≡ with_head self.old entry }
    {
        self.entries += 1;
        match entry.kind {
            EntryKind::Frames => self.start = self.start.or(Some(entry)),
            EntryKind::OldImage | EntryKind::Image | EntryKind::Amendment => {
                self.image_at = Some(entry.at);
                self.start = Some(entry);
            }
        }
    }
}

/// Goes over the heads of all records, from the first on. `Ok` leaves the journal at its end. A shared journal ends before a record that
/// another process has added since the opening, if its head is bad and the image has grown, or it is an amendment.
pub(crate) fn read_heads<S: Station>(
    station: &mut S,
    journal: &mut Journal,
) -> Result<Heads, RecoverFault>
    requires reach { journal.old.known ≤ S.meanings.reach station.old }
    requires not_lost { journal.old.is_lost ≡ false }
    ensures reads { ReadsOnly S.meanings station.old station.new }
    ensures bytes { IfOk result (λ heads. ReadsAtMost (6 * (heads.entries + 1)) (S.meanings.bytes_read station.old) (S.meanings.bytes_read station.new)) }
    // Six for each head that is met, also the one at which a call fails.
    ensures few_bytes { (head : Header) (image : List ℕ) (records : List Record) → S.meanings.holds station.old ≡ Some image → StandsIn journal.old image
        → IsJournal head journal.old.limit records image → journal.old.first ≡ 13 + length head.text
        → ReadsAtMost (6 * (length records + 1)) (S.meanings.bytes_read station.old) (S.meanings.bytes_read station.new) }
    ensures reach { S.meanings.reach station.old ≤ S.meanings.reach station.new }
    ensures store { IsErrOf result RecoverFault.Store → Rose (S.meanings.store_faults station.old) (S.meanings.store_faults station.new) }
    ensures none { (IsErrOf result RecoverFault.Store → ⊥) → S.meanings.store_faults station.new ≡ S.meanings.store_faults station.old }
    ensures stands { IsStanding journal.new }
    ensures same { journal.new ≡ moved journal.old journal.new.gate journal.new.is_at_end }
    ensures at_end { OnOk result (journal.new.is_at_end ≡ true) }
    ensures start { IfOk result (λ heads. BeginsAt journal.new heads) }
    ensures counts { (head : Header) (image : List ℕ) → S.meanings.holds station.old ≡ Some image → StandsIn journal.old image
        → BeginsWithRecords head journal.old.limit [] image → journal.old.first ≡ 13 + length head.text
        → Counts head journal.old.limit image journal.new.gate result }
{
    journal.rewind();
    let mut heads = Heads {
        entries: 0,
        image_at: None,
        start: None,
    };
    'heads: loop {
        match next_met(station, journal) {
            Ok(Some(entry)) => heads.pass(entry),
            Ok(None) => return Ok(heads),
            Err(WalkFault::Store) => return Err(RecoverFault::Store),
            Err(WalkFault::Bad(at)) => {
                return match end_at_bad(station, journal, at) {
                    Ok(()) => Ok(heads),
                    Err(fault) => Err(fault),
                };
            }
        }
    }
}

/// Goes over the heads of all records, wherever the journal stands. `Bad` comes exactly if a head is bad, with the gate of the first record
/// that has one, and `Store` only if the count of store faults rose. `Ok` leaves the journal at its end. Nothing is written, synced or
/// sent. A shared journal ends before a record that another process has added since the opening, if its head is bad by what the journal
/// knows and the image has grown, or it is an amendment.
pub fn check_heads<S: Station>(station: &mut S, journal: &mut Journal) -> Result<(), RecoverFault>
    requires reach { journal.old.known ≤ S.meanings.reach station.old }
    requires not_lost { journal.old.is_lost ≡ false }
    requires in_limit { journal.old.first < journal.old.limit }
    ensures reads { ReadsOnly S.meanings station.old station.new }
    ensures reach { S.meanings.reach station.old ≤ S.meanings.reach station.new }
    ensures store { IsErrOf result RecoverFault.Store → Rose (S.meanings.store_faults station.old) (S.meanings.store_faults station.new) }
    ensures none { (IsErrOf result RecoverFault.Store → ⊥) → S.meanings.store_faults station.new ≡ S.meanings.store_faults station.old }
    ensures stands { IsStanding journal.new }
    ensures same { journal.new ≡ moved journal.old journal.new.gate journal.new.is_at_end }
    ensures checks { (head : Header) (text : PlacedText) (image : List ℕ) → S.meanings.holds station.old ≡ Some image → StandsIn journal.old image
        → LEAST_LIMIT ≤ journal.old.limit → IsOpened head journal.old.limit text image → ChecksHeads head journal.old.limit image result }
{
    match read_heads(station, journal) {
        Ok(_) => Ok(()),
        Err(why) => Err(why),
    }
}

/// Brings a new core to the state after all messages that a journal of the product's text keeps, and reports nothing: it reads the last
/// book image, if there is one, which may be that of an amendment, and applies each message after it. It goes over all heads, wherever
/// the journal stands, before it reads a payload. `Ok` leaves the journal at its end.
///
/// `Store` comes only where the count of store faults rose. `Bad` comes exactly where a head is bad, or a record from the last
/// book image on: with the place of the first bad head, or else of the first of those records that is bad. After a fault nothing
/// is told of the content of the core, and `Core::clear` makes it as new. Nothing is written, synced or sent.
///
/// A right book image is believed, and no record before it is read. Where none of those is bad, and each image is that of the state
/// there, as `checkpoint` writes it, the core is as if all messages had been applied, each under the product of its time.
///
/// A shared journal ends where `check_heads` ends it, and no record is applied that another process adds after that.
pub fn recover<S: Station, B: Book>(
    station: &mut S,
    journal: &mut Journal,
    product: &Product,
    scratch: &mut Scratch,
    core: &mut Core<B>,
) -> Result<Recovered, RecoverFault>
    requires new { core.old ≡ empty_state product.now }
    requires room { HasRoomFor product.now scratch.old }
    requires reach { journal.old.known ≤ S.meanings.reach station.old }
    requires in_limit { journal.old.first < journal.old.limit }
    requires not_lost { journal.old.is_lost ≡ false }
    ensures reads { ReadsOnly S.meanings station.old station.new }
    ensures store { IsErrOf result RecoverFault.Store → Rose (S.meanings.store_faults station.old) (S.meanings.store_faults station.new) }
    ensures none { (IsErrOf result RecoverFault.Store → ⊥) → S.meanings.store_faults station.new ≡ S.meanings.store_faults station.old }
    ensures stands { IsStanding journal.new }
    ensures same { journal.new ≡ moved journal.old journal.new.gate journal.new.is_at_end }
    ensures reach { journal.new.known ≤ S.meanings.reach station.new }
    ensures at_end { OnOk result (journal.new.is_at_end ≡ true) }
    ensures in_limit { OnOk result (journal.new.gate < journal.new.limit) }
    ensures room { HasRoomFor product.now scratch.new }
    ensures fits { FitsProduct product.now core.new }
    ensures few { OnOk result (core.new.desk.messages < MOST_MESSAGES) }
    ensures counts { IfOk result (λ recovered. recovered.messages ≡ core.new.desk.messages) }
    // At most six bytes for each gate that is met, and once more all from the last book image, or the first gate, to the last gate.
    ensures bytes { IfOk result
        (λ recovered. ReadsAtMost (6 * (recovered.entries + 1) + (journal.new.gate - first_read recovered.image_at journal.old.first))
        (S.meanings.bytes_read station.old) (S.meanings.bytes_read station.new)) }
    // No more of a journal with these records, whatever is answered.
    ensures few_bytes { (head : Header) (image : List ℕ) (records : List Record) → S.meanings.holds station.old ≡ Some image → StandsIn journal.old image
        → IsJournal head journal.old.limit records image → journal.old.first ≡ 13 + length head.text
        → ReadsAtMost (most_to_recover records) (S.meanings.bytes_read station.old) (S.meanings.bytes_read station.new) }
    ensures recovers { (head : Header) (text : PlacedText) (image : List ℕ) → S.meanings.holds station.old ≡ Some image → StandsIn journal.old image
        → LEAST_LIMIT ≤ journal.old.limit → IsOpened head journal.old.limit text image → product_of text.bytes ≡ Ok product.now
        → Recovers product.now head journal.old.limit image journal.new.gate core.new result }
{
    let heads = read_heads(station, journal)?;
    replay_records(station, journal, product, scratch, core, heads.start)?;
    Ok(Recovered {
        messages: core.messages(),
        entries: heads.entries,
        image_at: heads.image_at,
    })
}
