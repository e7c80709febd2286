//! Opening for writing: a blank image is made a journal of the second version, and a sealed one of the product a journal of its
//! own, one step after the other.
ghost use Rattle.std.specs.Prelude.{◌≡◌, ◌⊎◌, ℕ, ◌+◌, ◌<◌, ◌≤◌, max, List, [], ◌++◌, length, Some, true, false, OnOk, IfOk, IfErr, IsErrOf};
ghost use Rattle.gx_station.specs.Counts.{Rose};
ghost use Rattle.gx_station.specs.Honest.{KeepsImage, IsSettled};
ghost use Rattle.match_journal.specs.Causes.{SendsNothing, ReadsAtMost};
ghost use Rattle.match_journal.specs.Steps.{Steps, StepsFrom, HoldsOne};
ghost use Rattle.match_journal.specs.Standing.{IsStanding, at_first};
ghost use Rattle.match_journal.specs.Texts.{HasLastText};
ghost use Rattle.std.specs.Int.{w32, to_be_bytes};
ghost use Rattle.match_journal.specs.Journal.{Header, Record, IsJournal, in_version, magic};
ghost use Rattle.match_journal.specs.Classes.{HasOpenGate, IsOfSecondVersion, IsBlank, IsSealed, Keeps};
ghost use Rattle.match_journal.specs.Opening.{Starts, StandsIn, IsOpening, IsRefusal, most_to_open};
ghost use Rattle.match_journal.specs.Inner.Stores.{Puts};
ghost use Rattle.match_journal.specs.Inner.Fronts.{IsHeld, IsInside, HasSizeOf, IsClosed, IsMade, is_open, is_sealed, version_or, journal_then};
ghost use Rattle.match_journal.specs.declared.limits.TheConstants.{MOST_TEXT, MOST_LIMIT, LEAST_LIMIT, MOST_UNFINISHED};
ghost use Rattle.match_journal.specs.declared.version.Version.TheVariants.{Second};

use crate::access::Access;
use crate::class::{Class, magic_of};
use crate::faults::StartFault;
use crate::journal::Journal;
use crate::look::{Found, header_text, hold_text, look_at};
use crate::parts::{store, store_parts};
use crate::version::Version;
use gx_station::{Failed, Station};

/// The magic of a version, and the length of the text.
fn head_of(version: Version, size: u32) -> [u8; 12]
    ensures { result ≡ magic version ++ to_be_bytes w32 size }
{
    let mut head = [0; 12];
    head[..8].copy_from_slice(&magic_of(version));
    head[8..].copy_from_slice(&size.to_be_bytes());
    head
}

/// Writes the header of a version after the first gate, which is closed, and a closed gate after it; and then opens the first.
fn create<S: Station>(station: &mut S, version: Version, product: &[u8]) -> Result<(), Failed>
    requires reach { 1 ≤ S.meanings.reach station.old }
    requires short { length product.now ≤ MOST_TEXT }
    ensures puts { Puts S.meanings station.old station.new result }
    ensures reach { OnOk result (14 + length product.now ≤ S.meanings.reach station.new) }
    ensures settled { OnOk result (S.meanings.is_honest station.old → IsSettled S.meanings station.new) }
    ensures steps { (image : List ℕ) (limit : ℕ) → LEAST_LIMIT ≤ limit → IsClosed image
        → let head = in_version version product.now in
        Steps S.meanings station.old station.new image (IsOpening product.now limit [] image) (IsMade head limit (max (length image) (14 + length product.now))) result }
{
    store_parts(
        station,
        1,
        &head_of(version, product.len() as u32),
        product,
        &[0],
    )?;
    store(station, 0, &[1])
}

/// Makes a journal of what was found, where there is none yet one of this version.
fn finish<S: Station>(
    station: &mut S,
    found: &Found,
    version: Version,
    product: &[u8],
) -> Result<(), Failed>
    requires short { length product.now ≤ MOST_TEXT }
    requires reach { found.now.len ≤ S.meanings.reach station.old }
    requires inside { IsInside found.now.class found.now.text found.now.len }
    requires size { HasSizeOf (length product.now) found.now.class found.now.text }
    ensures puts { Puts S.meanings station.old station.new result }
    ensures reach { OnOk result (is_open found.now.class ≡ false → max found.now.len (14 + length product.now) ≤ S.meanings.reach station.new) }
    ensures settled { OnOk result (S.meanings.is_honest station.old → IsSettled S.meanings station.old → IsSettled S.meanings station.new) }
    ensures opened { is_open found.now.class ≡ true → station.new ≡ station.old }
    ensures makes_one { (image : List ℕ) (limit : ℕ) → LEAST_LIMIT ≤ limit → is_open found.now.class ≡ false → IsHeld product.now limit image found.now
        → S.meanings.holds station.old ≡ Some image → version ≡ version_or found.now.class Second
        → OnOk result (HoldsOne S.meanings (IsMade (in_version version product.now) limit (max found.now.len (14 + length product.now))) station.new) }
    ensures makes { (image : List ℕ) (limit : ℕ) → LEAST_LIMIT ≤ limit → is_sealed found.now.class ≡ true → IsSealed (in_version version product.now) image
        → S.meanings.holds station.old ≡ Some image
        → OnOk result (HoldsOne S.meanings (IsJournal (in_version version product.now) limit []) station.new) }
    ensures steps { (image : List ℕ) (limit : ℕ) (head : Header) (records : List Record) → LEAST_LIMIT ≤ limit → IsHeld product.now limit image found.now
        → version ≡ version_or found.now.class Second → HasLastText head records product.now → Keeps head limit records image
        → Steps S.meanings station.old station.new image (IsOpening product.now limit records image) (IsJournal head limit records) result }
{
    match found.class {
        Class::Empty => {
            store(station, 0, &[0])?;
            create(station, version, product)
        }
        Class::Blank => create(station, version, product),
        Class::Sealed(_, _) => store(station, 0, &[1]),
        Class::Open(_, _) => Ok(()),
    }
}

/// How long the image is once it is a journal.
fn length_then(found: &Found, product: &[u8]) -> u64
    requires short { length product.now ≤ MOST_TEXT }
    ensures { result ≡ max found.now.len (14 + length product.now) }
{
    found.len.max(product.len() as u64 + 14)
}

/// The journal that was found, or was made of what was found.
fn journal_then(found: &Found, version: Version, product: &[u8], limit: u64) -> Journal
    requires inside { IsInside found.now.class found.now.text found.now.len }
    requires short { length product.now ≤ MOST_TEXT }
    requires most { limit ≤ MOST_LIMIT }
    ensures { result ≡ journal_then found.now version (length product.now) limit }
{
    match found.class {
        Class::Open(version, size) => Journal::opened(
            version,
            size,
            found.text,
            found.len,
            limit,
            Access::Exclusive,
        ),
        Class::Empty | Class::Blank | Class::Sealed(_, _) => {
            let size = product.len() as u32;
            Journal::opened(
                version,
                size,
                header_text(size),
                length_then(found, product),
                limit,
                Access::Exclusive,
            )
        }
    }
}

impl Journal {
    /// Opens for writing, which begins with a sync: a blank image becomes a journal of the second version that keeps nothing, and
    /// a sealed one of this product such a journal of its own version. A journal of either version stays as it is, and so does
    /// what is refused. What is refused, and in which order, is as for `look`.
    pub fn start<S: Station>(
        station: &mut S,
        product: &[u8],
        limit: u64,
    ) -> Result<Journal, StartFault>
        requires short { length product.now ≤ MOST_TEXT }
        requires least { LEAST_LIMIT ≤ limit }
        requires most { limit ≤ MOST_LIMIT }
        ensures silent { SendsNothing S.meanings station.old station.new }
        ensures store { IsErrOf result StartFault.Store → Rose (S.meanings.store_faults station.old) (S.meanings.store_faults station.new) }
        ensures none { (IsErrOf result StartFault.Store → ⊥) → S.meanings.store_faults station.new ≡ S.meanings.store_faults station.old }
        // How many bytes are read: of an image whose heads are not gone over, and of a journal of good heads.
        ensures front_bytes { (image : List ℕ) → S.meanings.holds station.old ≡ Some image → (IsOfSecondVersion image → ⊥)
            → ReadsAtMost MOST_UNFINISHED (S.meanings.bytes_read station.old) (S.meanings.bytes_read station.new) }
        ensures few_bytes { (head : Header) (image : List ℕ) (records : List Record) → S.meanings.holds station.old ≡ Some image → IsJournal head limit records image
            → ReadsAtMost (most_to_open records) (S.meanings.bytes_read station.old) (S.meanings.bytes_read station.new) }
        ensures place { IfOk result (λ journal. (journal ≡ at_first journal.version journal.first journal.known limit journal.text_at (length product.now)) × IsStanding journal) }
        ensures reach { IfOk result (λ journal. journal.known ≤ S.meanings.reach station.new) }
        ensures stands_in { IfOk result (λ journal. (before after : List ℕ) → S.meanings.holds station.old ≡ Some before
            → S.meanings.holds station.new ≡ Some after → StandsIn journal after) }
        // Which images are opened, and which fault comes with the others, at which place.
        ensures answers { (image : List ℕ) → S.meanings.holds station.old ≡ Some image → Starts product.now limit image result }
        // An image that keeps some records is opened by images that keep the same.
        ensures starts { (image : List ℕ) (head : Header) (records : List Record) → HasLastText head records product.now → Keeps head limit records image
            → StepsFrom S.meanings station.old station.new image (IsOpening product.now limit records image) (IsJournal head limit records) result }
        // A blank image is made a journal of the second version that keeps nothing, and a sealed one of this text such a journal of its own.
        ensures creates { (image : List ℕ) → S.meanings.holds station.old ≡ Some image → IsBlank image
            → OnOk result (HoldsOne S.meanings (IsJournal (in_version Second product.now) limit []) station.new) }
        ensures makes { (image : List ℕ) (head : Header) → S.meanings.holds station.old ≡ Some image → head.text ≡ product.now → IsSealed head image
            → OnOk result (HoldsOne S.meanings (IsJournal head limit []) station.new) }
        // Whatever the answer, a read gives an image that keeps the same then.
        ensures keeps { (image : List ℕ) (head : Header) (records : List Record) → S.meanings.is_honest station.old → S.meanings.holds station.old ≡ Some image
            → HasLastText head records product.now → Keeps head limit records image
            → HoldsOne S.meanings (IsOpening product.now limit records image) station.new }
        // Whatever the image was, nothing is pending at the end.
        ensures settles { OnOk result (S.meanings.is_honest station.old → IsSettled S.meanings station.new) }
        // A journal stays as it is, also one with a bad record; and so does what is refused.
        ensures opened { (image : List ℕ) → S.meanings.holds station.old ≡ Some image → HasOpenGate image → KeepsImage S.meanings station.old station.new }
        ensures stays { IfErr result (λ fault. IsRefusal fault → KeepsImage S.meanings station.old station.new) }
    {
        if station.sync().is_err() {
            return Err(StartFault::Store);
        }
        let found = match look_at(station, limit, Access::Exclusive) {
            Ok(found) => found,
            Err(fault) => return Err(fault),
        };
        match hold_text(station, &found, product) {
            Ok(()) => {}
            Err(fault) => return Err(fault),
        }
        let version = found.class.version_or(Version::Second);
        if finish(station, &found, version, product).is_err() {
            return Err(StartFault::Store);
        }
        Ok(journal_then(&found, version, product, limit))
    }
}
