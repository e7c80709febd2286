//! Going over the records by what is read ahead.
ghost use Rattle.std.specs.Prelude.{◌≡◌, ℕ, ◌+◌, ◌-◌, ◌≤◌, List, ◌++◌, length, min, Some, None, Ok, OnOk, IfOk, IfSome, IsErrOf};
ghost use Rattle.gx_station.specs.Counts.{Rose};
ghost use Rattle.match_journal.specs.Journal.{IsJournal, Record, journal_front, Header};
ghost use Rattle.match_journal.specs.Standing.{IsStanding, Fits, moved};
ghost use Rattle.match_journal.specs.Opening.{StandsIn};
ghost use Rattle.match_journal.specs.Walking.{InOrder, stands_then};
ghost use Rattle.book_recovery.specs.Inner.Ahead.{IsAhead, GoesAhead};

use crate::read_ahead::ReadAhead;
use gx_station::Station;
use match_journal::{Entry, HEAD, Journal, WalkFault};

/// The last gate that the pass over the heads has met, and the end of the bytes of a head there. Nothing after it is read.
#[derive(Clone, Copy)]
pub(crate) struct LastGate {
    pub gate: u64,
    pub end: u64,
}

/// Passes the next record by as `Journal::next_entry` does, whose head is read ahead. A record that ends after the last gate is `Bad`,
/// and so is a closed gate before it: only a store that gives other bytes than before has them. A walk of a shared journal ends at the last
/// gate, also if it is open.
pub(crate) fn next_ahead<S: Station>(
    station: &mut S,
    journal: &mut Journal,
    ahead: &mut ReadAhead,
    last: LastGate,
) -> Result<Option<Entry>, WalkFault>
    requires reach { last.end ≤ S.meanings.reach station.old }
    requires within { journal.old.gate ≤ last.gate }
    requires end { last.end ≡ last.gate + min 6 (journal.old.known - last.gate) }
    requires ahead { IsAhead S.meanings station.old ahead.old journal.old.gate last.end }
    ensures goes { GoesAhead S.meanings station.old station.new ahead.old ahead.new last.end }
    ensures ahead { IfOk result (λ found. IfSome found (λ entry. IsAhead S.meanings station.new ahead.new (entry.at + 6) last.end)) }
    ensures store { IsErrOf result WalkFault.Store → Rose (S.meanings.store_faults station.old) (S.meanings.store_faults station.new) }
    ensures none { (IsErrOf result WalkFault.Store → ⊥) → S.meanings.store_faults station.new ≡ S.meanings.store_faults station.old }
    ensures stands { IsStanding journal.new }
    ensures same { journal.new ≡ moved journal.old journal.new.gate journal.new.is_at_end }
    ensures moves { IfOk result (λ found. journal.new ≡ stands_then journal.old (Ok found)) }
    ensures entry { IfOk result (λ found. IfSome found (λ entry. (entry.at ≡ journal.old.gate) × Fits journal.old.known journal.old.limit entry)) }
    ensures within { OnOk result (journal.new.gate ≤ last.gate) }
    ensures last { IfOk result (λ found. found ≡ None → journal.new.gate ≡ last.gate) }
    ensures in_order { (head : Header) (image : List ℕ) (before after : List Record) → S.meanings.holds station.old ≡ Some image → StandsIn journal.old image
        → IsJournal head journal.old.limit (before ++ after) image → journal.old.gate ≡ length (journal_front head before)
        → last.gate ≡ length (journal_front head (before ++ after)) → InOrder head image before after journal.new.gate result }
{
    let gate = journal.end();
    // The pass over the heads ended at the last gate. A record that another process adds there later is not met.
    if gate == last.gate && journal.is_shared() {
        journal.stop_at(gate);
        return Ok(None);
    }
    let count = journal.head_len();
    let mut head = [0; HEAD];
    if ahead
        .take(station, gate, last.end, &mut head[..count])
        .is_err()
    {
        return Err(WalkFault::Store);
    }
    match journal.pass_head(&head[..count]) {
        Ok(Some(entry)) => {
            if journal.end() > last.gate {
                return Err(WalkFault::Bad(gate));
            }
            Ok(Some(entry))
        }
        Ok(None) => {
            if gate != last.gate {
                return Err(WalkFault::Bad(gate));
            }
            Ok(None)
        }
        Err(fault) => Err(fault),
    }
}
