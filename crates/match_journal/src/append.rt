//! Adding a record.
ghost use Rattle.std.specs.Prelude.{◌≡◌, ℕ, ◌+◌, ◌<◌, ◌≤◌, ◌^◌, ◌↔◌, List, ◌∷◌, length, take, true, OnOk, IsErrOf};
ghost use Rattle.std.specs.Int.{w32, to_be_bytes};
ghost use Rattle.gx_station.specs.Counts.{Rose};
ghost use Rattle.match_journal.specs.declared.limits.TheConstants.{MOST_PAYLOAD};
ghost use Rattle.match_journal.specs.Causes.{SendsNothing};
ghost use Rattle.match_journal.specs.Steps.{Steps};
ghost use Rattle.match_journal.specs.Standing.{IsStanding, added, lost};
ghost use Rattle.match_journal.specs.Appending.{IsJournalTo, IsBeforeOrAfter, IsAdded};
ghost use Rattle.match_journal.specs.Journal.{Header, Record, IsRecord, has_kind, kind_byte, least_payload, most_payload};
ghost use Rattle.match_journal.specs.Texts.{HasText};
ghost use Rattle.match_journal.specs.declared.entry.EntryKind.TheVariants.{Amendment};
ghost use Rattle.match_journal.specs.Inner.Stores.{staged, Puts, Stored};
ghost use Rattle.gx_station.specs.Honest.{IsSettled};

use crate::entry::{AMENDMENT, AROUND, EntryKind, FRAMES, HEAD, IMAGE, OLD_IMAGE};
use crate::faults::AppendFault;
use crate::journal::{Journal, RECORD};
use crate::parts::{store, store_parts};
use gx_station::{Failed, Station};

/// The byte of a kind.
fn byte_of(kind: EntryKind) -> u8
    ensures { result ≡ kind_byte kind }
{
    match kind {
        EntryKind::Frames => FRAMES,
        EntryKind::OldImage => OLD_IMAGE,
        EntryKind::Image => IMAGE,
        EntryKind::Amendment => AMENDMENT,
    }
}

/// Puts a record after its gate into the buffer: its kind, its length, its payload, and the next gate, closed.
fn stage(buffer: &mut [u8; RECORD], kind: EntryKind, payload: &[u8])
    requires { length payload.now ≤ MOST_PAYLOAD }
    ensures { take (length payload.now + 6) buffer.new ≡ staged (record { kind = kind; payload = payload.now }) }
{
    buffer[0] = byte_of(kind);
    buffer[1..5].copy_from_slice(&(payload.len() as u32).to_be_bytes());
    buffer[5..5 + payload.len()].copy_from_slice(payload);
    buffer[5 + payload.len()] = 0;
}

/// What stands between the gate of a record and its payload.
fn head_of(kind: EntryKind, length: u32) -> [u8; 5]
    ensures { result ≡ kind_byte kind ∷ to_be_bytes w32 length }
{
    let mut head = [byte_of(kind); 5];
    head[1..].copy_from_slice(&length.to_be_bytes());
    head
}

/// Stores a record after its closed gate, with the next gate, closed: frames by one write out of the buffer; an image, which may
/// be long, from where it lies.
fn store_record<S: Station>(
    station: &mut S,
    gate: u64,
    kind: EntryKind,
    payload: &[u8],
    buffer: &mut [u8; RECORD],
) -> Result<(), Failed>
    requires reach { gate < S.meanings.reach station.old }
    requires small { gate + 7 + length payload.now ≤ 2 ^ 62 }
    requires few { length payload.now ≤ most_payload kind }
    ensures { Stored S.meanings station.old station.new (gate + 1) (staged (record { kind = kind; payload = payload.now })) result }
{
    match kind {
        EntryKind::Frames => {
            stage(buffer, kind, payload);
            store(station, gate + 1, &buffer[..payload.len() + HEAD])
        }
        EntryKind::OldImage | EntryKind::Image | EntryKind::Amendment => store_parts(
            station,
            gate + 1,
            &head_of(kind, payload.len() as u32),
            payload,
            &[0],
        ),
    }
}

/// Stores the record after its closed gate, and then opens the gate.
fn put_record<S: Station>(
    station: &mut S,
    gate: u64,
    kind: EntryKind,
    payload: &[u8],
    buffer: &mut [u8; RECORD],
) -> Result<(), Failed>
    requires reach { gate < S.meanings.reach station.old }
    requires small { gate + 7 + length payload.now ≤ 2 ^ 62 }
    requires few { length payload.now ≤ most_payload kind }
    ensures puts { Puts S.meanings station.old station.new result }
    ensures settled { OnOk result (S.meanings.is_honest station.old → IsSettled S.meanings station.new) }
    ensures reach_ok { OnOk result (gate + 7 + length payload.now ≤ S.meanings.reach station.new) }
    ensures appends { (head : Header) (image : List ℕ) (limit : ℕ) (records : List Record)
        → IsRecord head.version (record { kind = kind; payload = payload.now })
        → gate + 7 + length payload.now ≤ limit → IsJournalTo head limit records gate image
        → let added : Record = record { kind = kind; payload = payload.now } in
        let next = gate + 6 + length payload.now in
        Steps S.meanings station.old station.new image (IsBeforeOrAfter head limit records added image next) (IsAdded head limit records added image next)
        result }
{
    store_record(station, gate, kind, payload, buffer)?;
    store(station, gate, &[1])
}

impl Journal {
    /// Adds a record, by writes and two syncs, with no read. Only a journal of the second version takes an amendment, whose text is
    /// then the last one. At Ok every crash from then on leaves an image that keeps the record.
    /// After `Full`, which comes exactly where the record would end past the limit, nothing was done. After `Store` the
    /// journal is to be opened again.
    pub fn append<S: Station>(
        &mut self,
        station: &mut S,
        kind: EntryKind,
        payload: &[u8],
    ) -> Result<(), AppendFault>
        requires at_end { self.old.is_at_end ≡ true }
        requires reach { self.old.known ≤ S.meanings.reach station.old }
        requires some { least_payload kind ≤ length payload.now }
        requires few { length payload.now ≤ most_payload kind }
        requires known { has_kind self.old.version kind ≡ true }
        requires text { kind ≡ Amendment → HasText payload.now }
        ensures full { IsErrOf result AppendFault.Full ↔ (self.old.limit < self.old.gate + 7 + length payload.now) }
        ensures nothing { IsErrOf result AppendFault.Full → (station.new ≡ station.old) × (self.new ≡ self.old) }
        ensures store { IsErrOf result AppendFault.Store → Rose (S.meanings.store_faults station.old) (S.meanings.store_faults station.new) }
        ensures none { (IsErrOf result AppendFault.Store → ⊥) → S.meanings.store_faults station.new ≡ S.meanings.store_faults station.old }
        ensures is_lost { IsErrOf result AppendFault.Store → self.new ≡ lost self.old }
        ensures grows { OnOk result (self.new ≡ added self.old kind payload.now) }
        ensures stands { IsStanding self.new }
        ensures silent { SendsNothing S.meanings station.old station.new }
        ensures bytes_read { S.meanings.bytes_read station.new ≡ S.meanings.bytes_read station.old }
        ensures reach { self.new.known ≤ S.meanings.reach station.new }
        // At Ok nothing is pending, whatever was before.
        ensures settles { OnOk result (S.meanings.is_honest station.old → IsSettled S.meanings station.new) }
        // From a journal that ends here, by images that keep the records before, or those and the new one, to a journal that
        // keeps all of them.
        ensures appends { (head : Header) (image : List ℕ) (records : List Record) → has_kind head.version kind ≡ true → IsJournalTo head self.old.limit records self.old.gate image
            → let added : Record = record { kind = kind; payload = payload.now } in
            let next = self.old.gate + 6 + length payload.now in
            Steps S.meanings station.old station.new image (IsBeforeOrAfter head self.old.limit records added image next)
            (IsAdded head self.old.limit records added image next) result }
    {
        let gate = self.standing.gate;
        let count = payload.len();
        if self.standing.limit.saturating_sub(gate) < AROUND + count as u64 {
            return Err(AppendFault::Full);
        }
        if put_record(station, gate, kind, payload, &mut self.record).is_err() {
            self.standing.is_at_end = false;
            self.standing.is_lost = true;
            return Err(AppendFault::Store);
        }
        if let EntryKind::Amendment = kind {
            let size = [payload[0], payload[1], payload[2], payload[3]];
            self.standing.text_at = gate + HEAD as u64 + 4;
            self.standing.text_len = u32::from_be_bytes(size);
        }
        self.standing.gate = gate + HEAD as u64 + count as u64;
        self.standing.known = self.standing.known.max(gate + AROUND + count as u64);
        Ok(())
    }
}
