//! A journal, and its places.
ghost use Rattle.std.specs.Prelude.{◌≡◌, ◌+◌, ◌-◌, ◌<◌, ◌≤◌, length, not, false};
ghost use Rattle.match_journal.specs.Standing.{IsStanding, moved, at_first, version_number};
ghost use Rattle.match_journal.specs.declared.limits.TheConstants.{MOST_LIMIT, MOST_TEXT};

use crate::access::Access;
use crate::class::TEXT_AT;
use crate::entry::{AROUND, Entry, HEAD};
use crate::limits::MOST_PAYLOAD;
use crate::standing::Standing;
use crate::text::TextPlace;
use crate::version::Version;
use std::marker::Model;

/// How many bytes a record has at most, from its kind to the gate after it.
pub(crate) const RECORD: usize = MOST_PAYLOAD + HEAD;

/// A place in the journal that a station's image is. It keeps the length of the image too, and asks for neither twice. No
/// call but `append` changes the image of a journal that is open.
#[derive(Drop)]
pub struct Journal {
    pub(crate) standing: Standing,
    access: Access,
    /// A record on its way out, from its kind to the gate after it.
    pub(crate) record: [u8; RECORD],
}

impl Model for Journal {
    ghost use Rattle.match_journal.specs.declared.standing.Standing.{Standing};
    ghost use Rattle.match_journal.specs.Standing.{IsStanding};

    ghost Value = { Standing };

    ghost view = { λ j. j.standing };

    ghost invariant = { λ j. IsStanding j.standing };
}

impl Journal {
    /// A journal of a version that was just opened in an image of `known` bytes, at its first gate. Its header has a text of `size`
    /// bytes, and its last text stands at `text`.
    pub(crate) fn opened(
        version: Version,
        size: u32,
        text: TextPlace,
        known: u64,
        limit: u64,
        access: Access,
    ) -> Journal
        requires known { 13 + size < known }
        requires short { size ≤ MOST_TEXT }
        requires text { text.at + text.len < known }
        requires text_short { text.len ≤ MOST_TEXT }
        requires most { limit ≤ MOST_LIMIT }
        ensures { result ≡ at_first version (13 + size) known limit text.at text.len }
    {
        let first = TEXT_AT as u64 + size as u64;
        Journal {
            standing: Standing {
                version,
                first,
                gate: first,
                known,
                limit,
                is_at_end: false,
                is_lost: false,
                text_at: text.at,
                text_len: text.len,
            },
            access,
            record: [0; RECORD],
        }
    }

    /// Whether another process may append while this journal is read, as its opening was told. One that was opened for writing is never
    /// shared.
    pub fn is_shared(&self) -> bool {
        matches!(self.access, Access::Shared)
    }

    /// The version of the journal: 1 or 2.
    pub fn version(&self) -> u8
        ensures { result ≡ version_number self.now.version }
    {
        match self.standing.version {
            Version::First => 1,
            Version::Second => 2,
        }
    }

    /// The next entry is the first again.
    pub fn rewind(&mut self)
        ensures { self.new ≡ moved self.old self.old.first false }
    {
        self.standing.gate = self.standing.first;
        self.standing.is_at_end = false;
    }

    /// The next entry is the one after this.
    pub fn go_behind(&mut self, entry: &Entry)
        requires { entry.now.at + 7 + entry.now.length ≤ self.old.known }
        ensures { self.new ≡ moved self.old (entry.now.at + 6 + entry.now.length) false }
    {
        prove!(entry.at < self.standing.known);
        self.standing.gate = entry.at + HEAD as u64 + entry.length as u64;
        self.standing.is_at_end = false;
    }

    /// Ends a walk at a gate: a reader does not meet a record there that another process has added.
    pub fn stop_at(&mut self, gate: u64)
        requires inside { gate < self.old.known }
        ensures { self.new ≡ moved self.old gate (not self.old.is_lost) }
    {
        self.standing.gate = gate;
        self.standing.is_at_end = !self.standing.is_lost;
    }

    /// Whether the journal stands at the closed gate after all records: from a `next_entry` that answers `None`, an `append`
    /// that is Ok, or a `stop_at`, until the next `rewind`, `go_behind`, or `next_entry` that answers an entry. Never again once
    /// an `append` has failed.
    pub fn at_end(&self) -> bool
        ensures value { result ≡ self.now.is_at_end }
        ensures stands { IsStanding self.now }
    {
        self.standing.is_at_end
    }

    /// The place of the last gate met.
    pub fn end(&self) -> u64
        ensures value { result ≡ self.now.gate }
        ensures stands { IsStanding self.now }
    {
        self.standing.gate
    }

    /// How many bytes the payload of a record after the last gate met may have, so that the record ends within the limit.
    pub fn room(&self) -> u64
        ensures { result ≡ self.now.limit - (self.now.gate + 7) }
    {
        let behind = self.standing.limit.saturating_sub(self.standing.gate);
        behind.saturating_sub(AROUND)
    }
}
