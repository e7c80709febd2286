//! Reading the texts of a journal that is open.
ghost use Rattle.std.specs.Prelude.{◌≡◌, ℕ, ◌+◌, ◌≤◌, List, length, option_map, Some, None, OnOk};
ghost use Rattle.gx_station.specs.StoreCalls.{OnStore};
ghost use Rattle.match_journal.specs.Causes.{LooksOnly};
ghost use Rattle.match_journal.specs.Journal.{Header, IsJournal, Record};
ghost use Rattle.match_journal.specs.Texts.{last_amendment};
ghost use Rattle.match_journal.specs.Standing.{IsStanding};
ghost use Rattle.match_journal.specs.Opening.{StandsIn};

use crate::class::TEXT_AT;
use crate::entry::HEAD;
use crate::faults::StoreFault;
use crate::journal::Journal;
use gx_station::Station;

impl Journal {
    /// How many bytes the last text has, which is that of the journal's product.
    pub fn text_len(&self) -> u32
        ensures value { result ≡ self.now.text_len }
        ensures stands { IsStanding self.now }
    {
        self.standing.text_len
    }

    /// Fills `into` with the last text. Nothing else changes.
    pub fn read_text<S: Station>(
        &mut self,
        station: &mut S,
        into: &mut [u8],
    ) -> Result<(), StoreFault>
        requires size { length into.old ≡ self.old.text_len }
        requires reach { self.old.known ≤ S.meanings.reach station.old }
        ensures stays { self.new ≡ self.old }
        ensures looks { LooksOnly S.meanings station.old station.new self.old.text_len }
        ensures reach { S.meanings.reach station.new ≡ S.meanings.reach station.old }
        ensures on_store { OnStore S.meanings station.old station.new result }
        ensures size { length into.new ≡ length into.old }
        ensures text { OnOk result ((image : List ℕ) → S.meanings.holds station.old ≡ Some image → (stands : StandsIn self.old image)
            → into.new ≡ stands.text.bytes) }
    {
        match station.read(self.standing.text_at, into) {
            Ok(()) => Ok(()),
            Err(_) => Err(StoreFault),
        }
    }

    /// The gate of the last amendment; `None` if the journal has none. So it is where the last text is the header's, whether the heads of
    /// the records are good or not.
    pub fn amended_at(&self) -> Option<u64>
        ensures header { self.now.text_at ≡ 13 → result ≡ None }
        ensures gate { (image : List ℕ) (head : Header) (records : List Record) → StandsIn self.now image → IsJournal head self.now.limit records image
            → result ≡ option_map (λ last. last.gate) (last_amendment head records) }
    {
        let text_at = self.standing.text_at;
        // The header's text comes after the first gate, the magic, and the length.
        if text_at == TEXT_AT as u64 {
            return None;
        }
        Some(text_at.saturating_sub(HEAD as u64 + 4))
    }

    /// How many bytes the header's text has, which is that of the journal's first product.
    pub fn first_len(&self) -> u32
        ensures value { 13 + result ≡ self.now.first }
        ensures stands { IsStanding self.now }
    {
        (self.standing.first - TEXT_AT as u64) as u32
    }

    /// Fills `into` with the header's text. Nothing else changes.
    pub fn read_first<S: Station>(
        &mut self,
        station: &mut S,
        into: &mut [u8],
    ) -> Result<(), StoreFault>
        requires size { 13 + length into.old ≡ self.old.first }
        requires reach { self.old.known ≤ S.meanings.reach station.old }
        ensures stays { self.new ≡ self.old }
        ensures looks { LooksOnly S.meanings station.old station.new (length into.old) }
        ensures reach { S.meanings.reach station.new ≡ S.meanings.reach station.old }
        ensures on_store { OnStore S.meanings station.old station.new result }
        ensures size { length into.new ≡ length into.old }
        ensures text { OnOk result ((image : List ℕ) → S.meanings.holds station.old ≡ Some image → (stands : StandsIn self.old image)
            → into.new ≡ stands.head.text) }
    {
        let _ = &self.standing;
        match station.read(TEXT_AT as u64, into) {
            Ok(()) => Ok(()),
            Err(_) => Err(StoreFault),
        }
    }
}
