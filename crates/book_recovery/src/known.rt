//! Going over the records of a journal that another process may append to.
ghost use Rattle.std.specs.Prelude.{◌≡◌, ◌⊎◌, ℕ, ◌+◌, ◌≤◌, List, ◌++◌, ◌∷◌, length, false, true, not, Some, IfOk, IfErr, IfSome, OnOk, IsErrOf};
ghost use Rattle.gx_station.specs.Counts.{Rose};
ghost use Rattle.match_journal.specs.Causes.{LooksOnly};
ghost use Rattle.match_journal.specs.BadRecords.{BeginsWithRecords};
ghost use Rattle.match_journal.specs.Journal.{Header, IsJournal, Record, journal_front};
ghost use Rattle.match_journal.specs.Opening.{StandsIn};
ghost use Rattle.match_journal.specs.Standing.{Fits, IsStanding, moved};
ghost use Rattle.match_journal.specs.Walking.{InOrder, Walks, stands_then};
ghost use Rattle.match_journal.specs.declared.entry.EntryKind.TheVariants.{Amendment};

use crate::records::is_amendment;
use crate::recovery::RecoverFault;
use gx_station::Station;
use match_journal::{Entry, Journal, WalkFault};

/// Whether a walk of a journal ends before an entry: it is an amendment that another process has added after the last one that the
/// opening met, so no product was taken of it. In a journal that is not shared there is none.
fn is_added(journal: &Journal, entry: &Entry) -> bool
    ensures amendment { result ≡ true → entry.now.kind ≡ Amendment }
    ensures known { (image : List ℕ) (head : Header) (before after : List Record) (r : Record) → StandsIn journal.now image
        → IsJournal head journal.now.limit (before ++ r ∷ after) image → r.kind ≡ entry.now.kind → entry.now.at ≡ length (journal_front head before)
        → result ≡ false }
{
    if !journal.is_shared() || !is_amendment(entry.kind) {
        return false;
    }
    match journal.amended_at() {
        Some(last_at) => last_at < entry.at,
        None => true,
    }
}

/// Passes the next record by as `Journal::next_entry` does. A walk of a shared journal ends before an amendment that was added since the
/// opening.
pub(crate) fn next_met<S: Station>(
    station: &mut S,
    journal: &mut Journal,
) -> Result<Option<Entry>, WalkFault>
    requires reach { journal.old.known ≤ S.meanings.reach station.old }
    ensures looks { LooksOnly S.meanings station.old station.new 6 }
    ensures reach { S.meanings.reach station.new ≡ S.meanings.reach station.old }
    ensures store { IsErrOf result WalkFault.Store → Rose (S.meanings.store_faults station.old) (S.meanings.store_faults station.new) }
    ensures none { (IsErrOf result WalkFault.Store → ⊥) → S.meanings.store_faults station.new ≡ S.meanings.store_faults station.old }
    ensures stands { IsStanding journal.new }
    ensures moves { journal.new ≡ stands_then journal.old result }
    ensures entry { IfOk result (λ found. IfSome found (λ entry. (entry.at ≡ journal.old.gate) × Fits journal.old.known journal.old.limit entry)) }
    ensures walks { (head : Header) (image : List ℕ) (before : List Record) → S.meanings.holds station.old ≡ Some image → StandsIn journal.old image
        → journal.old.first ≡ 13 + length head.text → BeginsWithRecords head journal.old.limit before image
        → journal.old.gate ≡ length (journal_front head before) → Walks image journal.old.limit journal.old.gate result }
    ensures in_order { (head : Header) (image : List ℕ) (before after : List Record) → S.meanings.holds station.old ≡ Some image → StandsIn journal.old image
        → IsJournal head journal.old.limit (before ++ after) image → journal.old.gate ≡ length (journal_front head before)
        → InOrder head image before after journal.new.gate result }
{
    let gate = journal.end();
    match journal.next_entry(station) {
        Ok(Some(entry)) => {
            if is_added(journal, &entry) {
                journal.stop_at(gate);
                return Ok(None);
            }
            Ok(Some(entry))
        }
        Ok(None) => Ok(None),
        Err(fault) => Err(fault),
    }
}

/// Passes the next record by as `next_met` does. A walk of a shared journal ends at a bad head too: the pass over all heads met none,
/// so another process has added that record since.
pub(crate) fn next_known<S: Station>(
    station: &mut S,
    journal: &mut Journal,
) -> Result<Option<Entry>, WalkFault>
    requires reach { journal.old.known ≤ S.meanings.reach station.old }
    ensures looks { LooksOnly S.meanings station.old station.new 6 }
    ensures reach { S.meanings.reach station.new ≡ S.meanings.reach station.old }
    ensures store { IsErrOf result WalkFault.Store → Rose (S.meanings.store_faults station.old) (S.meanings.store_faults station.new) }
    ensures none { (IsErrOf result WalkFault.Store → ⊥) → S.meanings.store_faults station.new ≡ S.meanings.store_faults station.old }
    ensures stands { IsStanding journal.new }
    ensures moves { journal.new ≡ stands_then journal.old result }
    ensures entry { IfOk result (λ found. IfSome found (λ entry. (entry.at ≡ journal.old.gate) × Fits journal.old.known journal.old.limit entry)) }
    ensures in_order { (head : Header) (image : List ℕ) (before after : List Record) → S.meanings.holds station.old ≡ Some image → StandsIn journal.old image
        → IsJournal head journal.old.limit (before ++ after) image → journal.old.gate ≡ length (journal_front head before)
        → InOrder head image before after journal.new.gate result }
{
    match next_met(station, journal) {
        Ok(found) => Ok(found),
        Err(WalkFault::Store) => Err(WalkFault::Store),
        Err(WalkFault::Bad(at)) => {
            if journal.is_shared() {
                let gate = journal.end();
                journal.stop_at(gate);
                return Ok(None);
            }
            Err(WalkFault::Bad(at))
        }
    }
}

/// Ends the walk of a shared journal at a bad head, if the image has grown since the opening: another process has added that record
/// then. Else the journal is bad at this place.
pub(crate) fn end_at_bad<S: Station>(
    station: &mut S,
    journal: &mut Journal,
    at: u64,
) -> Result<(), RecoverFault>
    requires stands { IsStanding journal.old }
    requires not_lost { journal.old.is_lost ≡ false }
    ensures looks { LooksOnly S.meanings station.old station.new 0 }
    ensures store { IsErrOf result RecoverFault.Store → Rose (S.meanings.store_faults station.old) (S.meanings.store_faults station.new) }
    ensures none { (IsErrOf result RecoverFault.Store → ⊥) → S.meanings.store_faults station.new ≡ S.meanings.store_faults station.old }
    ensures stands { IsStanding journal.new }
    ensures same { journal.new ≡ moved journal.old journal.old.gate journal.new.is_at_end }
    ensures at_end { OnOk result (journal.new.is_at_end ≡ true) }
    ensures fault { IfErr result (λ why. (why ≡ RecoverFault.Store) ⊎ (why ≡ RecoverFault.Bad at)) }
    // Over the image that the journal was opened in, a bad head stays bad.
    ensures stays { (image : List ℕ) → S.meanings.holds station.old ≡ Some image → StandsIn journal.old image → OnOk result ⊥ }
{
    if !journal.is_shared() {
        return Err(RecoverFault::Bad(at));
    }
    match journal.has_grown(station) {
        Ok(true) => {
            let gate = journal.end();
            journal.stop_at(gate);
            Ok(())
        }
        Ok(false) => Err(RecoverFault::Bad(at)),
        Err(_) => Err(RecoverFault::Store),
    }
}
