//! Opening for reading.
ghost use Rattle.std.specs.Prelude.{◌≡◌, ℕ, ◌+◌, ◌*◌, ◌<◌, ◌≤◌, ◌^◌, List, length, take, drop, Some, IfOk, OnOk, IfSome, IsErrOf};
ghost use Rattle.gx_station.specs.Counts.{Rose};
ghost use Rattle.match_journal.specs.Causes.{LooksOnly, ReadsOnly, ReadsAtMost};
ghost use Rattle.match_journal.specs.Journal.{Header, IsJournal, Record};
ghost use Rattle.match_journal.specs.Classes.{HasOpenGate, HasHeader, IsOfSecondVersion};
ghost use Rattle.match_journal.specs.Standing.{at_first, IsStanding, Fits};
ghost use Rattle.match_journal.specs.Opening.{Looks, LooksAny, StandsIn, most_to_open};
ghost use Rattle.match_journal.specs.Inner.Fronts.{IsFront, FrontAnswers, EndAnswers, HeadsAnswers, AmendedAnswers, LastTextAnswers, HoldAnswers, SameAnswers, FoundAnswers, IsFound, IsInside, HasSizeOf, PlaceAnswers, JournalAnswers, has_closed_end, least_length};
ghost use Rattle.match_journal.specs.declared.limits.TheConstants.{MOST_TEXT, MOST_LIMIT, LEAST_LIMIT, MOST_UNFINISHED, MOST_OPENING};
ghost use Rattle.match_journal.specs.declared.version.Version.TheVariants.{Second};

use crate::access::Access;
use crate::class::{Class, TEXT_AT, class_of};
use crate::entry::{Entry, EntryKind, HEAD};
use crate::faults::{StartFault, WalkFault};
use crate::journal::Journal;
use crate::limits::MOST_TEXT;
use crate::measure::measured_again;
use crate::standing::Standing;
use crate::text::{TextPlace, difference};
use crate::version::Version;
use crate::walk::read_head;
use gx_station::Station;

/// What was found in an image: its class, its length, and where the text of its product stands, if it has one yet.
#[derive(Clone, Copy, Debug, PartialEq, Eq)]
pub(crate) struct Found {
    pub class: Class,
    pub len: u64,
    pub text: TextPlace,
}

/// Reads what an image of `len` bytes is, but for the gate after the text of a sealed one.
fn read_front<S: Station>(station: &mut S, len: u64) -> Result<Class, StartFault>
    requires reach { len ≤ S.meanings.reach station.old }
    ensures looks { LooksOnly S.meanings station.old station.new 13 }
    ensures reach { S.meanings.reach station.new ≡ S.meanings.reach station.old }
    ensures store { IsErrOf result StartFault.Store → Rose (S.meanings.store_faults station.old) (S.meanings.store_faults station.new) }
    ensures none { (IsErrOf result StartFault.Store → ⊥) → S.meanings.store_faults station.new ≡ S.meanings.store_faults station.old }
    ensures least { IfOk result (λ class. (least_length class ≤ len) × (least_length class ≤ MOST_UNFINISHED)) }
    ensures front { (image : List ℕ) → S.meanings.holds station.old ≡ Some image → length image ≡ len → FrontAnswers image result }
{
    if len <= 1 {
        return Ok(Class::Empty);
    }
    let mut head = [0; TEXT_AT];
    let count = len.min(TEXT_AT as u64) as usize;
    match station.read(0, &mut head[..count]) {
        Ok(()) => class_of(&head[..count], len),
        Err(_) => Err(StartFault::Store),
    }
}

/// Reads the gate after the text of a sealed image, which is closed.
fn read_end<S: Station>(station: &mut S, class: Class) -> Result<(), StartFault>
    requires reach { least_length class ≤ S.meanings.reach station.old }
    requires few { least_length class ≤ MOST_UNFINISHED }
    ensures looks { LooksOnly S.meanings station.old station.new 1 }
    ensures reach { S.meanings.reach station.new ≡ S.meanings.reach station.old }
    ensures store { IsErrOf result StartFault.Store → Rose (S.meanings.store_faults station.old) (S.meanings.store_faults station.new) }
    ensures none { (IsErrOf result StartFault.Store → ⊥) → S.meanings.store_faults station.new ≡ S.meanings.store_faults station.old }
    ensures end { (image : List ℕ) → S.meanings.holds station.old ≡ Some image → IsFront image class → EndAnswers image class result }
{
    match class {
        Class::Sealed(_, size) => {
            let mut gate = [0; 1];
            if station
                .read(TEXT_AT as u64 + size as u64, &mut gate)
                .is_err()
            {
                return Err(StartFault::Store);
            }
            if gate[0] == 0 {
                Ok(())
            } else {
                Err(StartFault::NotAJournal(0))
            }
        }
        Class::Empty => Ok(()),
        Class::Blank => Ok(()),
        Class::Open(_, _) => Ok(()),
    }
}

/// Reads the front of an image of `len` bytes: what it is, and the gate after the text of a sealed one.
fn front_at<S: Station>(station: &mut S, len: u64) -> Result<Class, StartFault>
    requires reach { len ≤ S.meanings.reach station.old }
    ensures looks { LooksOnly S.meanings station.old station.new 14 }
    ensures reach { S.meanings.reach station.new ≡ S.meanings.reach station.old }
    ensures store { IsErrOf result StartFault.Store → Rose (S.meanings.store_faults station.old) (S.meanings.store_faults station.new) }
    ensures none { (IsErrOf result StartFault.Store → ⊥) → S.meanings.store_faults station.new ≡ S.meanings.store_faults station.old }
    ensures least { IfOk result (λ class. (least_length class ≤ len) × (least_length class ≤ MOST_UNFINISHED)) }
    ensures front { (image : List ℕ) → S.meanings.holds station.old ≡ Some image → length image ≡ len → FrontAnswers image result }
    ensures end { (image : List ℕ) → S.meanings.holds station.old ≡ Some image → length image ≡ len → IfOk result (λ class. has_closed_end image class) }
{
    let class = match read_front(station, len) {
        Ok(class) => class,
        Err(fault) => return Err(fault),
    };
    match read_end(station, class) {
        Ok(()) => Ok(class),
        Err(fault) => Err(fault),
    }
}

/// Reads the front of the image as `front_at` does. If it is refused, the image is measured again. If it is longer now, another process
/// has created the journal meanwhile, and the front is read once more. `len` is the last length that was measured.
fn front_of<S: Station>(station: &mut S, len: &mut u64, access: Access) -> Result<Class, StartFault>
    requires reach { len.old ≤ S.meanings.reach station.old }
    ensures reads { ReadsOnly S.meanings station.old station.new }
    ensures reach { len.new ≤ S.meanings.reach station.new }
    ensures grows { len.old ≤ len.new }
    ensures stays { (image : List ℕ) → S.meanings.holds station.old ≡ Some image → length image ≡ len.old → len.new ≡ len.old }
    ensures store { IsErrOf result StartFault.Store → Rose (S.meanings.store_faults station.old) (S.meanings.store_faults station.new) }
    ensures none { (IsErrOf result StartFault.Store → ⊥) → S.meanings.store_faults station.new ≡ S.meanings.store_faults station.old }
    ensures least { IfOk result (λ class. (least_length class ≤ len.new) × (least_length class ≤ MOST_UNFINISHED)) }
    ensures few_bytes { (image : List ℕ) → S.meanings.holds station.old ≡ Some image → length image ≡ len.old
        → ReadsAtMost 14 (S.meanings.bytes_read station.old) (S.meanings.bytes_read station.new) }
    ensures front { (image : List ℕ) → S.meanings.holds station.old ≡ Some image → length image ≡ len.old → FrontAnswers image result }
    ensures end { (image : List ℕ) → S.meanings.holds station.old ≡ Some image → length image ≡ len.old → IfOk result (λ class. has_closed_end image class) }
{
    let fault = match front_at(station, *len) {
        Ok(class) => return Ok(class),
        Err(fault) => fault,
    };
    if fault == StartFault::Store {
        return Err(fault);
    }
    let known = match measured_again(station, *len, access) {
        Ok(known) => known,
        Err(_) => return Err(StartFault::Store),
    };
    if known == *len {
        return Err(fault);
    }
    *len = known;
    front_at(station, known)
}

/// Goes over the heads of all records of a journal of the second version, whose header has a text of `size` bytes. The entry is that of
/// the last amendment, if there is one. At a bad head the image is measured again. If another process has added records meanwhile, the
/// image is longer, and the walk goes on at that gate. `len` is the last length that was measured.
fn last_amendment<S: Station>(
    station: &mut S,
    size: u32,
    len: &mut u64,
    limit: u64,
    access: Access,
) -> Result<Option<Entry>, StartFault>
    requires few { size ≤ MOST_TEXT }
    requires inside { 13 + size < len.old }
    requires least { LEAST_LIMIT ≤ limit }
    requires most { limit ≤ MOST_LIMIT }
    requires reach { len.old ≤ S.meanings.reach station.old }
    ensures reads { ReadsOnly S.meanings station.old station.new }
    ensures reach { len.new ≤ S.meanings.reach station.new }
    ensures grows { len.old ≤ len.new }
    ensures stays { (image : List ℕ) → S.meanings.holds station.old ≡ Some image → length image ≡ len.old → len.new ≡ len.old }
    ensures store { IsErrOf result StartFault.Store → Rose (S.meanings.store_faults station.old) (S.meanings.store_faults station.new) }
    ensures none { (IsErrOf result StartFault.Store → ⊥) → S.meanings.store_faults station.new ≡ S.meanings.store_faults station.old }
    ensures entry { IfOk result (λ found. IfSome found (λ entry. Fits len.new limit entry)) }
    ensures few_bytes { (head : Header) (image : List ℕ) (records : List Record) → S.meanings.holds station.old ≡ Some image → length image ≡ len.old
        → head.version ≡ Second → length head.text ≡ size → IsJournal head limit records image
        → ReadsAtMost (6 * (length records + 1)) (S.meanings.bytes_read station.old) (S.meanings.bytes_read station.new) }
    ensures heads { (head : Header) (image : List ℕ) → S.meanings.holds station.old ≡ Some image → length image ≡ len.old → HasOpenGate image
        → HasHeader head image → head.version ≡ Second → length head.text ≡ size → HeadsAnswers head limit image result }
{
    let first = TEXT_AT as u64 + size as u64;
    let mut standing = Standing {
        version: Version::Second,
        first,
        gate: first,
        known: *len,
        limit,
        is_at_end: false,
        is_lost: false,
        text_at: TEXT_AT as u64,
        text_len: size,
    };
    let mut last = None;
    'heads: loop {
        match read_head(station, &standing) {
            Ok(Some(entry)) => {
                standing.gate += HEAD as u64 + entry.length as u64;
                last = match entry.kind {
                    EntryKind::Amendment => Some(entry),
                    EntryKind::Frames | EntryKind::OldImage | EntryKind::Image => last,
                };
            }
            Ok(None) => {
                *len = standing.known;
                return Ok(last);
            }
            Err(WalkFault::Store) => return Err(StartFault::Store),
            Err(WalkFault::Bad(at)) => {
                let known = match measured_again(station, standing.known, access) {
                    Ok(known) => known,
                    Err(_) => return Err(StartFault::Store),
                };
                if known == standing.known {
                    return Err(StartFault::Bad(at));
                }
                standing.known = known;
            }
        }
    }
}

/// Where the text of an amendment stands. `Bad` is that it is too long, or does not end in the payload.
fn amended_text<S: Station>(station: &mut S, entry: &Entry) -> Result<TextPlace, StartFault>
    requires inside { entry.now.at + 7 + entry.now.length ≤ S.meanings.reach station.old }
    requires most { entry.now.at ≤ MOST_LIMIT }
    ensures looks { LooksOnly S.meanings station.old station.new 4 }
    ensures reach { S.meanings.reach station.new ≡ S.meanings.reach station.old }
    ensures store { IsErrOf result StartFault.Store → Rose (S.meanings.store_faults station.old) (S.meanings.store_faults station.new) }
    ensures none { (IsErrOf result StartFault.Store → ⊥) → S.meanings.store_faults station.new ≡ S.meanings.store_faults station.old }
    ensures inside { IfOk result (λ place. (place.at + place.len < entry.now.at + 7 + entry.now.length) × (place.len ≤ MOST_TEXT)) }
    ensures text { (image payload : List ℕ) → S.meanings.holds station.old ≡ Some image → entry.now.length ≡ length payload
        → take entry.now.length (drop (entry.now.at + 6) image) ≡ payload → AmendedAnswers image entry.now.at payload result }
{
    if entry.length < 4 {
        return Err(StartFault::Bad(entry.at));
    }
    let mut size = [0; 4];
    if station.read(entry.at + HEAD as u64, &mut size).is_err() {
        return Err(StartFault::Store);
    }
    let len = u32::from_be_bytes(size);
    if len as usize > MOST_TEXT || entry.length - 4 < len {
        return Err(StartFault::Bad(entry.at));
    }
    Ok(TextPlace {
        at: entry.at + HEAD as u64 + 4,
        len,
    })
}

/// Where the header's text of `size` bytes stands.
pub(crate) fn header_text(size: u32) -> TextPlace
    ensures { (result.at ≡ 13) × (result.len ≡ size) }
{
    TextPlace {
        at: TEXT_AT as u64,
        len: size,
    }
}

/// Where the last text of a journal of the second version stands, whose header has a text of `size` bytes.
fn last_text<S: Station>(
    station: &mut S,
    size: u32,
    len: &mut u64,
    limit: u64,
    access: Access,
) -> Result<TextPlace, StartFault>
    requires few { size ≤ MOST_TEXT }
    requires inside { 13 + size < len.old }
    requires least { LEAST_LIMIT ≤ limit }
    requires most { limit ≤ MOST_LIMIT }
    requires reach { len.old ≤ S.meanings.reach station.old }
    ensures reads { ReadsOnly S.meanings station.old station.new }
    ensures reach { len.new ≤ S.meanings.reach station.new }
    ensures grows { len.old ≤ len.new }
    ensures stays { (image : List ℕ) → S.meanings.holds station.old ≡ Some image → length image ≡ len.old → len.new ≡ len.old }
    ensures store { IsErrOf result StartFault.Store → Rose (S.meanings.store_faults station.old) (S.meanings.store_faults station.new) }
    ensures none { (IsErrOf result StartFault.Store → ⊥) → S.meanings.store_faults station.new ≡ S.meanings.store_faults station.old }
    ensures inside { IfOk result (λ place. (place.at + place.len < len.new) × (place.len ≤ MOST_TEXT)) }
    ensures few_bytes { (head : Header) (image : List ℕ) (records : List Record) → S.meanings.holds station.old ≡ Some image → length image ≡ len.old
        → head.version ≡ Second → length head.text ≡ size → IsJournal head limit records image
        → ReadsAtMost (4 + 6 * (length records + 1)) (S.meanings.bytes_read station.old) (S.meanings.bytes_read station.new) }
    ensures text { (head : Header) (image : List ℕ) → S.meanings.holds station.old ≡ Some image → length image ≡ len.old → HasOpenGate image
        → HasHeader head image → head.version ≡ Second → length head.text ≡ size → LastTextAnswers head limit image result }
{
    match last_amendment(station, size, len, limit, access) {
        Ok(None) => Ok(header_text(size)),
        Ok(Some(entry)) => amended_text(station, &entry),
        Err(fault) => Err(fault),
    }
}

/// Where the text of the product stands in an image of `len` bytes, if its class has one.
fn text_of<S: Station>(
    station: &mut S,
    class: Class,
    len: &mut u64,
    limit: u64,
    access: Access,
) -> Result<TextPlace, StartFault>
    requires few { least_length class ≤ MOST_UNFINISHED }
    requires inside { least_length class ≤ len.old }
    requires least { LEAST_LIMIT ≤ limit }
    requires most { limit ≤ MOST_LIMIT }
    requires reach { len.old ≤ S.meanings.reach station.old }
    ensures reads { ReadsOnly S.meanings station.old station.new }
    ensures reach { len.new ≤ S.meanings.reach station.new }
    ensures grows { len.old ≤ len.new }
    ensures stays { (image : List ℕ) → S.meanings.holds station.old ≡ Some image → length image ≡ len.old → len.new ≡ len.old }
    ensures store { IsErrOf result StartFault.Store → Rose (S.meanings.store_faults station.old) (S.meanings.store_faults station.new) }
    ensures none { (IsErrOf result StartFault.Store → ⊥) → S.meanings.store_faults station.new ≡ S.meanings.store_faults station.old }
    ensures inside { IfOk result (λ place. IsInside class place len.new) }
    ensures front_bytes { (image : List ℕ) → S.meanings.holds station.old ≡ Some image → IsFront image class → (IsOfSecondVersion image → ⊥)
        → station.new ≡ station.old }
    ensures few_bytes { (head : Header) (image : List ℕ) (records : List Record) → S.meanings.holds station.old ≡ Some image → length image ≡ len.old
        → IsFront image class → IsJournal head limit records image
        → ReadsAtMost (4 + 6 * (length records + 1)) (S.meanings.bytes_read station.old) (S.meanings.bytes_read station.new) }
    ensures found { (image : List ℕ) → S.meanings.holds station.old ≡ Some image → length image ≡ len.old → IsFront image class → has_closed_end image class
        → PlaceAnswers limit image class result }
{
    match class {
        Class::Open(version, size) => match version {
            Version::First => Ok(header_text(size)),
            Version::Second => last_text(station, size, len, limit, access),
        },
        Class::Sealed(_, size) => Ok(header_text(size)),
        Class::Empty | Class::Blank => Ok(header_text(0)),
    }
}

/// Holds the text that stands there to the product.
fn same_text<S: Station>(
    station: &mut S,
    place: TextPlace,
    product: &[u8],
) -> Result<(), StartFault>
    requires few { place.len ≤ MOST_TEXT }
    requires reach { place.at + place.len ≤ S.meanings.reach station.old }
    requires small { place.at + place.len < 2 ^ 64 }
    ensures looks { LooksOnly S.meanings station.old station.new place.len }
    ensures reach { S.meanings.reach station.new ≡ S.meanings.reach station.old }
    ensures store { IsErrOf result StartFault.Store → Rose (S.meanings.store_faults station.old) (S.meanings.store_faults station.new) }
    ensures none { (IsErrOf result StartFault.Store → ⊥) → S.meanings.store_faults station.new ≡ S.meanings.store_faults station.old }
    ensures size { OnOk result (place.len ≡ length product.now) }
    ensures text { (image text : List ℕ) → S.meanings.holds station.old ≡ Some image → take place.len (drop place.at image) ≡ text → length text ≡ place.len
        → SameAnswers text place.at product.now result }
{
    match difference(station, place, product) {
        Ok(None) => Ok(()),
        Ok(Some(at)) => Err(StartFault::ProductDiffers(place.at + at as u64)),
        Err(_) => Err(StartFault::Store),
    }
}

/// Holds the text of what was found, if it has one, to the product.
pub(crate) fn hold_text<S: Station>(
    station: &mut S,
    found: &Found,
    product: &[u8],
) -> Result<(), StartFault>
    requires inside { IsInside found.now.class found.now.text found.now.len }
    requires reach { found.now.len ≤ S.meanings.reach station.old }
    ensures looks { LooksOnly S.meanings station.old station.new MOST_TEXT }
    ensures reach { S.meanings.reach station.new ≡ S.meanings.reach station.old }
    ensures store { IsErrOf result StartFault.Store → Rose (S.meanings.store_faults station.old) (S.meanings.store_faults station.new) }
    ensures none { (IsErrOf result StartFault.Store → ⊥) → S.meanings.store_faults station.new ≡ S.meanings.store_faults station.old }
    ensures size { OnOk result (HasSizeOf (length product.now) found.now.class found.now.text) }
    ensures text { (image : List ℕ) (limit : ℕ) → S.meanings.holds station.old ≡ Some image → IsFound limit image found.now
        → HoldAnswers product.now limit image found.now result }
{
    match found.class {
        Class::Sealed(_, _) | Class::Open(_, _) => {
            prove!(found.text.at < found.len);
            same_text(station, found.text, product)
        }
        Class::Empty | Class::Blank => Ok(()),
    }
}

/// Looks at the image, and adds nothing. The heads of a journal of the second version are gone over.
pub(crate) fn look_at<S: Station>(
    station: &mut S,
    limit: u64,
    access: Access,
) -> Result<Found, StartFault>
    requires least { LEAST_LIMIT ≤ limit }
    requires most { limit ≤ MOST_LIMIT }
    ensures reads { ReadsOnly S.meanings station.old station.new }
    ensures store { IsErrOf result StartFault.Store → Rose (S.meanings.store_faults station.old) (S.meanings.store_faults station.new) }
    ensures none { (IsErrOf result StartFault.Store → ⊥) → S.meanings.store_faults station.new ≡ S.meanings.store_faults station.old }
    ensures reach { IfOk result (λ found. found.len ≤ S.meanings.reach station.new) }
    ensures inside { IfOk result (λ found. IsInside found.class found.text found.len) }
    ensures front_bytes { (image : List ℕ) → S.meanings.holds station.old ≡ Some image → (IsOfSecondVersion image → ⊥)
        → ReadsAtMost 14 (S.meanings.bytes_read station.old) (S.meanings.bytes_read station.new) }
    ensures few_bytes { (head : Header) (image : List ℕ) (records : List Record) → S.meanings.holds station.old ≡ Some image → IsJournal head limit records image
        → ReadsAtMost (18 + 6 * (length records + 1)) (S.meanings.bytes_read station.old) (S.meanings.bytes_read station.new) }
    ensures found { (image : List ℕ) → S.meanings.holds station.old ≡ Some image → FoundAnswers limit image result }
{
    let Ok(mut len) = station.length() else {
        return Err(StartFault::Store);
    };
    let class = match front_of(station, &mut len, access) {
        Ok(class) => class,
        Err(fault) => return Err(fault),
    };
    match text_of(station, class, &mut len, limit, access) {
        Ok(text) => Ok(Found { class, len, text }),
        Err(fault) => Err(fault),
    }
}

/// The journal that was found, just opened; `None` exactly if there is none yet.
fn journal_of(found: &Found, limit: u64, access: Access) -> Option<Journal>
    requires inside { IsInside found.now.class found.now.text found.now.len }
    requires most { limit ≤ MOST_LIMIT }
    ensures { JournalAnswers found.now limit result }
{
    match found.class {
        Class::Open(version, size) => Some(Journal::opened(
            version, size, found.text, found.len, limit, access,
        )),
        Class::Empty | Class::Blank | Class::Sealed(_, _) => None,
    }
}

impl Journal {
    /// Opens for reading a journal of either version: `None` exactly for an unfinished creation of this product. It writes nothing and
    /// does not sync. Of a journal of the second version it goes over the heads of all records, so `Bad` comes first: with 9 if the
    /// header is bad, else with the gate of the first record with a bad head, and if there is none, with the gate of the last amendment if its
    /// text is longer than a product text may be, or does not end in its payload. `ProductDiffers` comes if the last text is another
    /// one, with the first place at which it differs from this, or one of both ends. Where the access is shared and another process adds
    /// records meanwhile, the journal is that of some moment in this call.
    pub fn look<S: Station>(
        station: &mut S,
        product: &[u8],
        limit: u64,
        access: Access,
    ) -> Result<Option<Journal>, StartFault>
        requires short { length product.now ≤ MOST_TEXT }
        requires least { LEAST_LIMIT ≤ limit }
        requires most { limit ≤ MOST_LIMIT }
        ensures reads { ReadsOnly S.meanings station.old station.new }
        ensures store { IsErrOf result StartFault.Store → Rose (S.meanings.store_faults station.old) (S.meanings.store_faults station.new) }
        ensures none { (IsErrOf result StartFault.Store → ⊥) → S.meanings.store_faults station.new ≡ S.meanings.store_faults station.old }
        // How many bytes are read: of an image whose heads are not gone over, and of a journal of good heads.
        ensures front_bytes { (image : List ℕ) → S.meanings.holds station.old ≡ Some image → (IsOfSecondVersion image → ⊥)
            → ReadsAtMost MOST_UNFINISHED (S.meanings.bytes_read station.old) (S.meanings.bytes_read station.new) }
        ensures few_bytes { (head : Header) (image : List ℕ) (records : List Record) → S.meanings.holds station.old ≡ Some image → IsJournal head limit records image
            → ReadsAtMost (most_to_open records) (S.meanings.bytes_read station.old) (S.meanings.bytes_read station.new) }
        ensures place { IfOk result (λ found. IfSome found (λ journal.
            (journal ≡ at_first journal.version journal.first journal.known limit journal.text_at (length product.now)) × IsStanding journal)) }
        ensures stands_in { (image : List ℕ) → S.meanings.holds station.old ≡ Some image → IfOk result (λ found. IfSome found (λ journal. StandsIn journal image)) }
        ensures reach { IfOk result (λ found. IfSome found (λ journal. journal.known ≤ S.meanings.reach station.new)) }
        ensures answers { (image : List ℕ) → S.meanings.holds station.old ≡ Some image → Looks product.now limit image result }
    {
        let found = match look_at(station, limit, access) {
            Ok(found) => found,
            Err(fault) => return Err(fault),
        };
        match hold_text(station, &found, product) {
            Ok(()) => Ok(journal_of(&found, limit, access)),
            Err(fault) => Err(fault),
        }
    }

    /// Opens for reading a journal of whatever product: `None` exactly for an unfinished creation. All else is as `look` does it, but
    /// no text is compared, so `ProductDiffers` never comes.
    pub fn look_any<S: Station>(
        station: &mut S,
        limit: u64,
        access: Access,
    ) -> Result<Option<Journal>, StartFault>
        requires least { LEAST_LIMIT ≤ limit }
        requires most { limit ≤ MOST_LIMIT }
        ensures reads { ReadsOnly S.meanings station.old station.new }
        ensures store { IsErrOf result StartFault.Store → Rose (S.meanings.store_faults station.old) (S.meanings.store_faults station.new) }
        ensures none { (IsErrOf result StartFault.Store → ⊥) → S.meanings.store_faults station.new ≡ S.meanings.store_faults station.old }
        ensures front_bytes { (image : List ℕ) → S.meanings.holds station.old ≡ Some image → (IsOfSecondVersion image → ⊥)
            → ReadsAtMost MOST_UNFINISHED (S.meanings.bytes_read station.old) (S.meanings.bytes_read station.new) }
        ensures few_bytes { (head : Header) (image : List ℕ) (records : List Record) → S.meanings.holds station.old ≡ Some image → IsJournal head limit records image
            → ReadsAtMost (most_to_open records) (S.meanings.bytes_read station.old) (S.meanings.bytes_read station.new) }
        ensures place { IfOk result (λ found. IfSome found (λ journal.
            (journal ≡ at_first journal.version journal.first journal.known limit journal.text_at journal.text_len) × IsStanding journal)) }
        ensures stands_in { (image : List ℕ) → S.meanings.holds station.old ≡ Some image → IfOk result (λ found. IfSome found (λ journal. StandsIn journal image)) }
        ensures reach { IfOk result (λ found. IfSome found (λ journal. journal.known ≤ S.meanings.reach station.new)) }
        ensures answers { (image : List ℕ) → S.meanings.holds station.old ≡ Some image → LooksAny limit image result }
    {
        match look_at(station, limit, access) {
            Ok(found) => Ok(journal_of(&found, limit, access)),
            Err(fault) => Err(fault),
        }
    }
}
