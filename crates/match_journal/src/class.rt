//! What an image is, by its first bytes.
ghost use Rattle.std.specs.Prelude.{◌≡◌, ℕ, ◌+◌, ◌<◌, ◌≤◌, List, length, take, min, IfOk, IsErrOf};
ghost use Rattle.match_journal.specs.Journal.{magic};
ghost use Rattle.match_journal.specs.Classes.{first_difference};
ghost use Rattle.match_journal.specs.Inner.Fronts.{MagicAnswers, SizeAnswers, FrontAnswers, least_length, version_or};
ghost use Rattle.match_journal.specs.declared.limits.TheConstants.{MOST_UNFINISHED};

use crate::faults::StartFault;
use crate::limits::{MOST_TEXT, MOST_UNFINISHED};
use crate::version::Version;

/// What an image is before it is opened, with the version that its header tells, and how many bytes the product text in it has.
#[derive(Clone, Copy, Debug, PartialEq, Eq)]
pub(crate) enum Class {
    /// No gate yet, or one alone.
    Empty,
    /// A closed gate, and after it a header or a part of it, or anything.
    Blank,
    /// All but the first gate.
    Sealed(Version, u32),
    /// A journal.
    Open(Version, u32),
}

impl Class {
    /// The version of the journal, or where there is none yet, this one.
    pub(crate) fn version_or(self, new: Version) -> Version
        ensures { result ≡ version_or self new }
    {
        match self {
            Class::Empty | Class::Blank => new,
            Class::Sealed(version, _) | Class::Open(version, _) => version,
        }
    }
}

/// What stands after the first gate of a journal.
const FIRST_MAGIC: [u8; 8] = *b"GXJOURN1";

const SECOND_MAGIC: [u8; 8] = *b"GXJOURN2";

/// How many bytes stand before the product text.
pub(crate) const TEXT_AT: usize = 13;

/// How many bytes two texts have in common from their fronts on.
pub(crate) fn common_front(a: &[u8], b: &[u8]) -> usize
    ensures value { result ≡ first_difference a.now b.now }
{
    let most = a.len().min(b.len());
    for i in 0..most {
        if a[i] != b[i] {
            return i;
        }
    }
    most
}

/// The magic of a version.
pub(crate) fn magic_of(version: Version) -> [u8; 8]
    ensures { result ≡ magic version }
{
    match version {
        Version::First => FIRST_MAGIC,
        Version::Second => SECOND_MAGIC,
    }
}

/// The version whose magic a text begins with, or the first place that fits the magic of neither version.
fn version_at(text: &[u8]) -> Result<Version, usize>
    ensures { MagicAnswers text.now result }
{
    let first = common_front(&FIRST_MAGIC, text);
    if first == FIRST_MAGIC.len() {
        return Ok(Version::First);
    }
    let second = common_front(&SECOND_MAGIC, text);
    if second == SECOND_MAGIC.len() {
        return Ok(Version::Second);
    }
    Err(first.max(second))
}

/// The length of the product text, where a text of that length and a gate have room in an image of `len` bytes.
fn size_of(head: &[u8], len: u64) -> Option<u32>
    requires head { length head.now ≡ min len 13 }
    ensures size { SizeAnswers head.now len result }
{
    if head.len() < TEXT_AT {
        return None;
    }
    let size = u32::from_be_bytes([head[9], head[10], head[11], head[12]]);
    if size as usize > MOST_TEXT || len < 14 + size as u64 {
        return None;
    }
    Some(size)
}

/// What an image of `len` bytes is that begins with these; of a sealed one the gate after the text is not yet looked at.
pub(crate) fn class_of(head: &[u8], len: u64) -> Result<Class, StartFault>
    requires some { 1 < len }
    requires head { length head.now ≡ min len 13 }
    ensures least { IfOk result (λ class. (least_length class ≤ len) × (least_length class ≤ MOST_UNFINISHED)) }
    ensures fault { IsErrOf result StartFault.Store → ⊥ }
    ensures front { (image : List ℕ) → length image ≡ len → head.now ≡ take 13 image → FrontAnswers image result }
{
    if head[0] == 0 {
        return if len <= MOST_UNFINISHED {
            Ok(Class::Blank)
        } else {
            Err(StartFault::NotAJournal(0))
        };
    }
    let version = match version_at(&head[1..]) {
        Ok(version) => version,
        Err(same) => {
            return if head[0] == 1 {
                Err(StartFault::NotAJournal(1 + same as u64))
            } else {
                Err(StartFault::NotAJournal(0))
            };
        }
    };
    match size_of(head, len) {
        Some(size) => {
            if head[0] == 1 {
                Ok(Class::Open(version, size))
            } else {
                Ok(Class::Sealed(version, size))
            }
        }
        None => {
            if head[0] == 1 {
                Err(StartFault::Bad(9))
            } else {
                Err(StartFault::NotAJournal(0))
            }
        }
    }
}
