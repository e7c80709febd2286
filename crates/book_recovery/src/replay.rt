//! Replaying the records from the last book image on.
ghost use Rattle.std.specs.Prelude.{◌≡◌, ℕ, ◌+◌, ◌-◌, ◌<◌, ◌≤◌, List, length, false, true, Some, Ok, OnOk, IsErrOf};
ghost use Rattle.gx_station.specs.Counts.{Rose};
ghost use Rattle.match_journal.specs.Causes.{LooksOnly};
ghost use Rattle.match_journal.specs.Journal.{IsJournal, Record, journal_front, most_payload, Header};
ghost use Rattle.match_journal.specs.Standing.{IsStanding, moved};
ghost use Rattle.match_journal.specs.Opening.{StandsIn};
ghost use Rattle.match_journal.specs.Texts.{last_text};
ghost use Rattle.match_journal.specs.Walking.{Walks};
ghost use Rattle.order_kinds.specs.State.{empty_state};
ghost use Rattle.order_kinds.specs.Cores.{FitsProduct};
ghost use Rattle.order_kinds.specs.declared.core_state.TheConstants.{MOST_MESSAGES};
ghost use Rattle.book_recovery.specs.Records.{before_last_image, GivesAs};
ghost use Rattle.book_recovery.specs.Recovering.{HasRoomFor};
ghost use Rattle.book_recovery.specs.Inner.Ahead.{IsAhead, GoesAhead};
ghost use Rattle.book_recovery.specs.Inner.Starting.{CanBegin, begins_from};
ghost use Rattle.book_recovery.specs.Inner.Replays.{payload_at, record_at, ReplaysOne, ReplaysAll};
ghost use Rattle.product_file.specs.ProductTexts.{product_of};

use crate::applying::apply_given;
use crate::contents::{Met, read_record_ahead};
use crate::next_ahead::{LastGate, next_ahead};
use crate::recovery::RecoverFault;
use crate::scratch::Scratch;
use gx_base::NullEmit;
use gx_station::Station;
use match_journal::{Entry, EntryKind, HEAD, Journal, WalkFault};
use order_kinds::Core;
use plain_book::Book;
use product_file::Product;

/// Replays a record: applies its messages, or takes its image for the state. It is `Bad` exactly if the record is bad, where the text of an
/// amendment gives the product.
fn replay_entry<S: Station, B: Book>(
    station: &mut S,
    product: &Product,
    scratch: &mut Scratch,
    core: &mut Core<B>,
    entry: &Entry,
    end: u64,
) -> Result<(), RecoverFault>
    requires room { HasRoomFor product.now scratch.old }
    requires reach { end ≤ S.meanings.reach station.old }
    requires inside { entry.now.at + 6 + entry.now.length ≤ end }
    requires length { entry.now.length ≤ most_payload entry.now.kind }
    requires ahead { IsAhead S.meanings station.old scratch.old.ahead (entry.now.at + 6) end }
    requires few { core.old.desk.messages < MOST_MESSAGES }
    requires fits { FitsProduct product.now core.old }
    ensures goes { GoesAhead S.meanings station.old station.new scratch.old.ahead scratch.new.ahead end }
    ensures ahead { OnOk result (IsAhead S.meanings station.new scratch.new.ahead (entry.now.at + 6 + entry.now.length) end) }
    ensures store { IsErrOf result RecoverFault.Store → Rose (S.meanings.store_faults station.old) (S.meanings.store_faults station.new) }
    ensures none { (IsErrOf result RecoverFault.Store → ⊥) → S.meanings.store_faults station.new ≡ S.meanings.store_faults station.old }
    ensures room { HasRoomFor product.now scratch.new }
    ensures few { OnOk result (core.new.desk.messages < MOST_MESSAGES) }
    ensures fits { FitsProduct product.now core.new }
    ensures replays { (image : List ℕ) → S.meanings.holds station.old ≡ Some image → end ≤ length image
        → GivesAs product.now entry.now.kind (payload_at image entry.now) → ReplaysOne product.now core.old core.new entry.now.at (record_at image entry.now) result }
{
    match entry.kind {
        EntryKind::Frames => {}
        EntryKind::OldImage | EntryKind::Image | EntryKind::Amendment => {
            core.clear();
            let met = Met {
                entry: *entry,
                count: 0,
            };
            return match read_record_ahead(station, product, scratch, core, met, end) {
                Ok(_) => Ok(()),
                Err(why) => Err(why),
            };
        }
    }
    let count = core.messages();
    let met = Met {
        entry: *entry,
        count,
    };
    match read_record_ahead(station, product, scratch, core, met, end) {
        Ok(_) => {
            apply_given(core, product, &scratch.framer, &mut NullEmit);
            Ok(())
        }
        Err(why) => Err(why),
    }
}

/// Replays the records from an entry on over a new core: from that of the last book image, or else of the first record. Without
/// one there is none. The journal is at its end, and the records go up to the same gate again; if they do not, which only a store can bring
/// about that gives other bytes than before, it is `Bad`.
pub(crate) fn replay_records<S: Station, B: Book>(
    station: &mut S,
    journal: &mut Journal,
    product: &Product,
    scratch: &mut Scratch,
    core: &mut Core<B>,
    start: Option<Entry>,
) -> Result<(), RecoverFault>
    requires new { core.old ≡ empty_state product.now }
    requires room { HasRoomFor product.now scratch.old }
    requires reach { journal.old.known ≤ S.meanings.reach station.old }
    requires in_limit { journal.old.first < journal.old.limit }
    requires not_lost { journal.old.is_lost ≡ false }
    requires stands { IsStanding journal.old }
    requires at_end { journal.old.is_at_end ≡ true }
    requires start { CanBegin journal.old start }
    // Whatever is answered, no byte is read twice, and none before the first payload or after the head at the last gate: at most as many as
    // stand between the gates.
    ensures looks { LooksOnly S.meanings station.old station.new (journal.old.gate - begins_from journal.old start) }
    ensures last { OnOk result (journal.new.gate ≡ journal.old.gate) }
    ensures reach { S.meanings.reach station.new ≡ S.meanings.reach station.old }
    ensures store { IsErrOf result RecoverFault.Store → Rose (S.meanings.store_faults station.old) (S.meanings.store_faults station.new) }
    ensures none { (IsErrOf result RecoverFault.Store → ⊥) → S.meanings.store_faults station.new ≡ S.meanings.store_faults station.old }
    ensures stands { IsStanding journal.new }
    ensures same { journal.new ≡ moved journal.old journal.new.gate journal.new.is_at_end }
    ensures at_end { OnOk result (journal.new.is_at_end ≡ true) }
    ensures in_limit { OnOk result (journal.new.gate < journal.new.limit) }
    ensures room { HasRoomFor product.now scratch.new }
    ensures fits { FitsProduct product.now core.new }
    ensures few { OnOk result (core.new.desk.messages < MOST_MESSAGES) }
    ensures replays { (head : Header) (image : List ℕ) (records : List Record) → S.meanings.holds station.old ≡ Some image → StandsIn journal.old image
        → IsJournal head journal.old.limit records image → journal.old.first ≡ 13 + length head.text
        → journal.old.gate ≡ length (journal_front head records) → product_of (last_text head records).bytes ≡ Ok product.now
        → Walks image journal.old.limit (length (journal_front head (before_last_image records))) (Ok start)
        → ReplaysAll product.now head journal.old.limit image records journal.new.gate core.new result }
{
    product.limits();
    let Some(first) = start else {
        return Ok(());
    };
    let gate = journal.end();
    let end = gate + journal.head_len() as u64;
    let last = LastGate { gate, end };
    // The pass over the heads has met this one, so its head is not read again.
    let place = first.at + HEAD as u64;
    scratch.ahead.begin(place);
    replay_entry(station, product, scratch, core, &first, end)?;
    journal.go_behind(&first);
    'records: loop {
        match next_ahead(station, journal, &mut scratch.ahead, last) {
            Ok(Some(entry)) => replay_entry(station, product, scratch, core, &entry, end)?,
            Ok(None) => return Ok(()),
            Err(WalkFault::Store) => return Err(RecoverFault::Store),
            Err(WalkFault::Bad(at)) => return Err(RecoverFault::Bad(at)),
        }
    }
}
