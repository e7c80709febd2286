//! Measuring an image again.
ghost use Rattle.std.specs.Prelude.{◌≡◌, ℕ, ◌<◌, ◌≤◌, ◌↔◌, List, length, Some, false, IfOk, OnErr, OnOk, IsTrue};
ghost use Rattle.gx_station.specs.Counts.{Rose};
ghost use Rattle.match_journal.specs.Causes.{LooksOnly};
ghost use Rattle.match_journal.specs.Opening.{StandsIn};

use crate::access::Access;
use crate::faults::StoreFault;
use crate::journal::Journal;
use gx_station::Station;

/// How long the image is now, of which `known` bytes were known. It is measured again only if another process may have added to it, and
/// is never less than what was known.
pub(crate) fn measured_again<S: Station>(
    station: &mut S,
    known: u64,
    access: Access,
) -> Result<u64, StoreFault>
    requires reach { known ≤ S.meanings.reach station.old }
    ensures looks { LooksOnly S.meanings station.old station.new 0 }
    ensures store { OnErr result (Rose (S.meanings.store_faults station.old) (S.meanings.store_faults station.new)) }
    ensures none { OnOk result (S.meanings.store_faults station.new ≡ S.meanings.store_faults station.old) }
    ensures reach { IfOk result (λ len. len ≤ S.meanings.reach station.new) }
    ensures grows { IfOk result (λ len. known ≤ len) }
    ensures stays { (image : List ℕ) → S.meanings.holds station.old ≡ Some image → length image ≡ known → IfOk result (λ len. len ≡ known) }
{
    match access {
        Access::Exclusive => Ok(known),
        Access::Shared => match station.length() {
            Ok(len) => Ok(len.max(known)),
            Err(_) => Err(StoreFault),
        },
    }
}

impl Journal {
    /// Whether the image is longer now than this journal knows, so that another process has added to it since.
    pub fn has_grown<S: Station>(&self, station: &mut S) -> Result<bool, StoreFault>
        ensures looks { LooksOnly S.meanings station.old station.new 0 }
        ensures rises { S.meanings.reach station.old ≤ S.meanings.reach station.new }
        ensures store { OnErr result (Rose (S.meanings.store_faults station.old) (S.meanings.store_faults station.new)) }
        ensures none { OnOk result (S.meanings.store_faults station.new ≡ S.meanings.store_faults station.old) }
        ensures value { (image : List ℕ) → S.meanings.holds station.old ≡ Some image → IfOk result (λ grown. IsTrue grown ↔ (self.now.known < length image)) }
        // Measuring again changes nothing over the image that the journal was opened in.
        ensures stays { (image : List ℕ) → S.meanings.holds station.old ≡ Some image → StandsIn self.now image → IfOk result (λ grown. grown ≡ false) }
    {
        match station.length() {
            Ok(len) => Ok(len > self.standing.known),
            Err(_) => Err(StoreFault),
        }
    }
}
