//! Going over the records.
ghost use Rattle.std.specs.Prelude.{◌≡◌, ℕ, ◌+◌, ◌-◌, ◌<◌, ◌≤◌, ◌↔◌, List, ◌++◌, length, take, drop, min, true, Some, None, OnOk, IfOk, IfSome, IsErrOf, IsTrue};
ghost use Rattle.gx_station.specs.Counts.{Rose};
ghost use Rattle.gx_station.specs.StoreCalls.{OnStore};
ghost use Rattle.match_journal.specs.Causes.{LooksOnly};
ghost use Rattle.match_journal.specs.Journal.{Header, IsJournal, Record, has_kind, kind_byte, version_of, least_payload, most_payload, journal_front};
ghost use Rattle.match_journal.specs.Standing.{IsStanding, Fits};
ghost use Rattle.match_journal.specs.Opening.{StandsIn};
ghost use Rattle.match_journal.specs.Walking.{Walks, InOrder, IsNext, stands_then};
ghost use Rattle.match_journal.specs.Inner.Heads.{HeadAnswers};
ghost use Rattle.match_journal.specs.declared.entry.EntryKind.{EntryKind};

use crate::entry::{AMENDMENT, AROUND, Entry, EntryKind, FRAMES, HEAD, IMAGE, OLD_IMAGE};
use crate::faults::{StoreFault, WalkFault};
use crate::journal::Journal;
use crate::limits::MOST_PAYLOAD;
use crate::standing::Standing;
use crate::version::Version;
use gx_station::Station;

/// The kind of a byte in a journal of a version. `None` exactly if it is that of no kind that such a journal has.
fn kind_of(byte: u8, version: Version) -> Option<EntryKind>
    ensures some { IfSome result (λ kind. (byte ≡ kind_byte kind) × (has_kind version kind ≡ true)) }
    ensures none { result ≡ None → (kind : EntryKind) → byte ≡ kind_byte kind → has_kind version kind ≡ true → ⊥ }
{
    match byte {
        FRAMES => Some(EntryKind::Frames),
        OLD_IMAGE => Some(EntryKind::OldImage),
        IMAGE => Some(EntryKind::Image),
        AMENDMENT => match version {
            Version::First => None,
            Version::Second => Some(EntryKind::Amendment),
        },
        _ => None,
    }
}

/// Whether a payload of a kind may have so many bytes.
fn is_length_of(kind: EntryKind, length: u32) -> bool
    ensures { IsTrue result ↔ ((least_payload kind ≤ length) × (length ≤ most_payload kind)) }
{
    match kind {
        EntryKind::Frames => (1..=MOST_PAYLOAD as u32).contains(&length),
        EntryKind::OldImage | EntryKind::Image | EntryKind::Amendment => true,
    }
}

/// The entry whose head these bytes are, after an open gate at a place in a journal of a version. `most` is where the image ends or,
/// where that is less, the limit.
fn entry_of(version: Version, head: &[u8], at: u64, most: u64) -> Option<Entry>
    ensures { HeadAnswers version head.now at most result }
{
    if head.len() < HEAD {
        return None;
    }
    let kind = kind_of(head[1], version)?;
    let length = u32::from_be_bytes([head[2], head[3], head[4], head[5]]);
    if !is_length_of(kind, length) {
        return None;
    }
    if most.saturating_sub(at) < AROUND + length as u64 {
        return None;
    }
    Some(Entry { at, kind, length })
}

/// The entry whose head these bytes are, which stand at the last gate met; `None` exactly at a closed gate, and `Bad` exactly at an open
/// one without a good head.
fn head_in(standing: &Standing, head: &[u8]) -> Result<Option<Entry>, WalkFault>
    requires stands { IsStanding standing.now }
    requires size { length head.now ≡ min 6 (standing.now.known - standing.now.gate) }
    ensures no_store { IsErrOf result WalkFault.Store → ⊥ }
    ensures entry { IfOk result (λ found. IfSome found (λ entry. (entry.at ≡ standing.now.gate) × Fits standing.now.known standing.now.limit entry)) }
    ensures walks { (image : List ℕ) → length image ≡ standing.now.known → version_of image ≡ standing.now.version
        → head.now ≡ take (length head.now) (drop standing.now.gate image) → Walks image standing.now.limit standing.now.gate result }
{
    if head[0] != 1 {
        return Ok(None);
    }
    let gate = standing.gate;
    let most = standing.known.min(standing.limit);
    match entry_of(standing.version, head, gate, most) {
        Some(entry) => Ok(Some(entry)),
        None => Err(WalkFault::Bad(gate)),
    }
}

/// Reads the head at the last gate met, at most six bytes.
pub(crate) fn read_head<S: Station>(
    station: &mut S,
    standing: &Standing,
) -> Result<Option<Entry>, WalkFault>
    requires stands { IsStanding standing.now }
    requires reach { standing.now.known ≤ S.meanings.reach station.old }
    ensures looks { LooksOnly S.meanings station.old station.new 6 }
    ensures reach { S.meanings.reach station.new ≡ S.meanings.reach station.old }
    ensures store { IsErrOf result WalkFault.Store → Rose (S.meanings.store_faults station.old) (S.meanings.store_faults station.new) }
    ensures none { (IsErrOf result WalkFault.Store → ⊥) → S.meanings.store_faults station.new ≡ S.meanings.store_faults station.old }
    ensures entry { IfOk result (λ found. IfSome found (λ entry. (entry.at ≡ standing.now.gate) × Fits standing.now.known standing.now.limit entry)) }
    ensures walks { (image : List ℕ) → S.meanings.holds station.old ≡ Some image → length image ≡ standing.now.known
        → version_of image ≡ standing.now.version → Walks image standing.now.limit standing.now.gate result }
{
    let gate = standing.gate;
    let count = (standing.known - gate).min(HEAD as u64) as usize;
    let mut head = [0; HEAD];
    if station.read(gate, &mut head[..count]).is_err() {
        return Err(WalkFault::Store);
    }
    head_in(standing, &head[..count])
}

impl Journal {
    /// Goes on to the next gate, by what was found at the last one met, and hands that back.
    fn go_on(&mut self, found: Result<Option<Entry>, WalkFault>) -> Result<Option<Entry>, WalkFault>
        requires entry { IfOk found (λ next. IfSome next (λ entry. (entry.at ≡ self.old.gate) × Fits self.old.known self.old.limit entry)) }
        ensures same { result ≡ found }
        ensures stands { IsStanding self.new }
        ensures moves { self.new ≡ stands_then self.old found }
    {
        match found {
            Ok(Some(entry)) => {
                self.standing.gate += HEAD as u64 + entry.length as u64;
                self.standing.is_at_end = false;
            }
            Ok(None) => self.standing.is_at_end = !self.standing.is_lost,
            Err(_) => {}
        }
        found
    }

    /// The head of the next record, which is passed by; `None` exactly at a closed gate, and `Bad` exactly where the gate is
    /// open and no good head stands there. Where each record is good, these are the records in their order. At most six bytes are
    /// read, and the length of the image is not asked for.
    pub fn next_entry<S: Station>(&mut self, station: &mut S) -> Result<Option<Entry>, WalkFault>
        requires reach { self.old.known ≤ S.meanings.reach station.old }
        ensures looks { LooksOnly S.meanings station.old station.new 6 }
        ensures reach { S.meanings.reach station.new ≡ S.meanings.reach station.old }
        ensures store { IsErrOf result WalkFault.Store → Rose (S.meanings.store_faults station.old) (S.meanings.store_faults station.new) }
        ensures none { (IsErrOf result WalkFault.Store → ⊥) → S.meanings.store_faults station.new ≡ S.meanings.store_faults station.old }
        ensures stands { IsStanding self.new }
        ensures moves { self.new ≡ stands_then self.old result }
        ensures entry { IfOk result (λ found. IfSome found (λ entry. (entry.at ≡ self.old.gate) × Fits self.old.known self.old.limit entry)) }
        ensures walks { (image : List ℕ) → S.meanings.holds station.old ≡ Some image → StandsIn self.old image
            → Walks image self.old.limit self.old.gate result }
        ensures in_order { (head : Header) (image : List ℕ) (before after : List Record) → S.meanings.holds station.old ≡ Some image → StandsIn self.old image
            → IsJournal head self.old.limit (before ++ after) image → self.old.gate ≡ length (journal_front head before)
            → InOrder head image before after self.new.gate result }
    {
        let found = read_head(station, &self.standing);
        self.go_on(found)
    }

    /// How many bytes of a head stand at the last gate met: six, or as many as the image has there.
    pub fn head_len(&self) -> usize
        ensures value { result ≡ min 6 (self.now.known - self.now.gate) }
        ensures stands { IsStanding self.now }
    {
        (self.standing.known - self.standing.gate).min(HEAD as u64) as usize
    }

    /// Passes the next record by as `next_entry` does, for one who has read the bytes at the last gate met: as many as `head_len`
    /// says. It reads nothing, so `Store` never comes.
    pub fn pass_head(&mut self, head: &[u8]) -> Result<Option<Entry>, WalkFault>
        requires size { length head.now ≡ min 6 (self.old.known - self.old.gate) }
        ensures no_store { IsErrOf result WalkFault.Store → ⊥ }
        ensures stands { IsStanding self.new }
        ensures moves { self.new ≡ stands_then self.old result }
        ensures entry { IfOk result (λ found. IfSome found (λ entry. (entry.at ≡ self.old.gate) × Fits self.old.known self.old.limit entry)) }
        ensures walks { (image : List ℕ) → StandsIn self.old image → head.now ≡ take (length head.now) (drop self.old.gate image)
            → Walks image self.old.limit self.old.gate result }
        ensures in_order { (header : Header) (image : List ℕ) (before after : List Record) → StandsIn self.old image
            → head.now ≡ take (length head.now) (drop self.old.gate image) → IsJournal header self.old.limit (before ++ after) image
            → self.old.gate ≡ length (journal_front header before) → InOrder header image before after self.new.gate result }
    {
        let found = head_in(&self.standing, head);
        self.go_on(found)
    }

    /// Fills `into` with the payload of an entry. Nothing else changes.
    pub fn read_entry<S: Station>(
        &mut self,
        station: &mut S,
        entry: &Entry,
        into: &mut [u8],
    ) -> Result<(), StoreFault>
        requires size { length into.old ≡ entry.now.length }
        requires inside { entry.now.at + 7 + entry.now.length ≤ self.old.known }
        requires reach { self.old.known ≤ S.meanings.reach station.old }
        ensures stays { self.new ≡ self.old }
        ensures looks { LooksOnly S.meanings station.old station.new entry.now.length }
        ensures reach { S.meanings.reach station.new ≡ S.meanings.reach station.old }
        ensures on_store { OnStore S.meanings station.old station.new result }
        ensures size { length into.new ≡ length into.old }
        ensures bytes { OnOk result ((image : List ℕ) → S.meanings.holds station.old ≡ Some image
            → into.new ≡ take entry.now.length (drop (entry.now.at + 6) image)) }
        ensures payload { OnOk result ((head : Header) (image : List ℕ) (before after : List Record) (gate : ℕ) → S.meanings.holds station.old ≡ Some image
            → (next : IsNext head image before after gate entry.now) → into.new ≡ next.found.payload) }
    {
        prove!(entry.at < self.standing.known);
        match station.read(entry.at + HEAD as u64, into) {
            Ok(()) => Ok(()),
            Err(_) => Err(StoreFault),
        }
    }
}
