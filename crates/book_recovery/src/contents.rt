//! Reading what a record holds, whose entry is known.
ghost use Rattle.std.specs.Prelude.{◌≡◌, ℕ, ◌+◌, ◌<◌, ◌≤◌, ◌↔◌, List, [], ◌++◌, length, true, option_map, Some, IsTrue, OnOk, IfOk, IsErr, IsErrOf};
ghost use Rattle.std.specs.List.{concat};
ghost use Rattle.gx_station.specs.Counts.{Rose};
ghost use Rattle.fix_frame.specs.Stream.{messages_of, rest_of};
ghost use Rattle.match_journal.specs.Causes.{LooksOnly};
ghost use Rattle.match_journal.specs.Journal.{most_payload};
ghost use Rattle.match_journal.specs.Standing.{Fits};
ghost use Rattle.match_journal.specs.Opening.{StandsIn};
ghost use Rattle.match_journal.specs.declared.entry.EntryKind.TheVariants.{Frames};
ghost use Rattle.match_journal.specs.declared.limits.TheConstants.{MOST_PAYLOAD, MOST_TEXT};
ghost use Rattle.order_kinds.specs.State.{empty_state};
ghost use Rattle.order_kinds.specs.Cores.{FitsProduct};
ghost use Rattle.order_kinds.specs.declared.core_state.TheConstants.{MOST_MESSAGES};
ghost use Rattle.book_recovery.specs.Records.{is_image_kind, image_kind, GivesAs};
ghost use Rattle.book_recovery.specs.Recovering.{HasRoomFor};
ghost use Rattle.book_recovery.specs.Inner.Ahead.{IsAhead, GoesAhead};
ghost use Rattle.book_recovery.specs.Inner.Replays.{payload_at, ReadsImage};
ghost use Rattle.book_recovery.specs.Inner.Contents.{CountsBehind, FindsImage, FindsText, ReadsFrames, ReadsContent};

use crate::recovery::RecoverFault;
use crate::scratch::{Scratch, TEXT_SIZE, open_to};
use book_image::read_image;
use fix_frame::{Framer, Next};
use gx_station::Station;
use match_journal::{Entry, EntryKind, HEAD, Journal, MOST_TEXT};
use order_kinds::{Core, MOST_MESSAGES};
use plain_book::Book;
use product_file::Product;

/// Feeds a framer these bytes alone.
fn hold(framer: &mut Framer, bytes: &[u8])
    requires { length bytes.now ≤ MOST_PAYLOAD }
    ensures rest { framer.new.rest ≡ bytes.now }
    ensures given { framer.new.given ≡ [] }
{
    framer.clear();
    let _ = framer.feed(bytes);
}

/// The text in the payload of an amendment. `None` exactly if it is longer than a product text may be, or does not end in the payload.
pub(crate) fn text_in(payload: &[u8]) -> Option<&[u8]>
    ensures { FindsText payload.now (option_map (λ text. text.now) result) }
{
    if payload.len() < TEXT_SIZE {
        return None;
    }
    let size = u32::from_be_bytes([payload[0], payload[1], payload[2], payload[3]]) as usize;
    if size > MOST_TEXT || payload.len() - TEXT_SIZE < size {
        return None;
    }
    Some(&payload[TEXT_SIZE..TEXT_SIZE + size])
}

/// The book image in a payload of a kind; of an amendment, what comes after its text. `None` exactly if the text of an amendment is longer
/// than a product text may be, or does not end in the payload.
fn image_in(kind: EntryKind, payload: &[u8]) -> Option<&[u8]>
    ensures { FindsImage kind payload.now (option_map (λ image. image.now) result) }
{
    match kind {
        EntryKind::Amendment => {
            let text = text_in(payload)?;
            Some(&payload[TEXT_SIZE + text.len()..])
        }
        EntryKind::Frames | EntryKind::OldImage | EntryKind::Image => Some(payload),
    }
}

/// The kind of the book image in a payload of a kind.
fn image_kind(kind: EntryKind) -> EntryKind
    ensures { result ≡ image_kind kind }
{
    match kind {
        EntryKind::Amendment => EntryKind::Image,
        EntryKind::Frames | EntryKind::OldImage | EntryKind::Image => kind,
    }
}

/// Reads the book image in a payload, and brings a new core to the state that it is of. It is `Bad` exactly where the image is not right, or
/// the text of an amendment does not end in its payload; the core is new then, as it was.
fn read_image_record<B: Book>(
    product: &Product,
    payload: &[u8],
    core: &mut Core<B>,
    entry: &Entry,
) -> Result<(), RecoverFault>
    requires image { is_image_kind entry.now.kind ≡ true }
    requires new { core.old ≡ empty_state product.now }
    ensures no_store { IsErrOf result RecoverFault.Store → ⊥ }
    ensures few { OnOk result (core.new.desk.messages < MOST_MESSAGES) }
    ensures fits { FitsProduct product.now core.new }
    ensures new { IsErr result → core.new ≡ core.old }
    ensures reads { ReadsImage entry.now.kind product.now payload.now core.new entry.now.at result }
{
    let Some(image) = image_in(entry.kind, payload) else {
        return Err(RecoverFault::Bad(entry.at));
    };
    match read_image(image_kind(entry.kind), image, product, core) {
        Ok(()) => Ok(()),
        Err(_) => Err(RecoverFault::Bad(entry.at)),
    }
}

/// Whether the bytes that a framer holds are whole frames. The frames are given.
fn are_whole(framer: &mut Framer) -> bool
    ensures whole { IsTrue result ↔ (rest_of framer.old.rest ≡ []) }
    ensures given { framer.new.given ≡ framer.old.given ++ messages_of framer.old.rest }
    ensures rest { framer.new.rest ≡ rest_of framer.old.rest }
{
    'frames: while let Next::Frame(_, _) = framer.next() {}
    framer.rest() == 0
}

/// Reads a payload of frames after `count` messages, and answers the count after it. Its frames are then all given.
fn read_frame_record(
    payload: &[u8],
    framer: &mut Framer,
    entry: &Entry,
    count: u64,
) -> Result<u64, RecoverFault>
    requires short { length payload.now ≤ MOST_PAYLOAD }
    requires few { count < MOST_MESSAGES }
    ensures no_store { IsErrOf result RecoverFault.Store → ⊥ }
    ensures few { IfOk result (λ behind. behind < MOST_MESSAGES) }
    ensures counts { IfOk result (λ behind. behind ≡ count + length framer.new.given) }
    ensures given { OnOk result (framer.new.given ≡ messages_of (concat framer.new.given)) }
    ensures size { OnOk result (length (concat framer.new.given) ≤ length payload.now) }
    ensures reads { ReadsFrames count payload.now entry.now.at framer.new.given result }
{
    hold(framer, payload);
    let are_whole = are_whole(framer);
    let behind = count + framer.given_count() as u64;
    if are_whole && behind < MOST_MESSAGES {
        return Ok(behind);
    }
    Err(RecoverFault::Bad(entry.at))
}

/// A record whose entry is known, and how many messages come before it.
#[derive(Clone, Copy)]
pub(crate) struct Met {
    pub entry: Entry,
    pub count: u64,
}

/// Reads what a record that was met holds, by its payload, and answers the count after it. Of a record of frames, the framer has then given
/// all, and the core is as it was. A book image gives no message; it is read into the core, which is new before, and says the count
/// itself. So is that of an amendment, whose text is known to give the product. It is `Bad` exactly if the record is bad: it is not
/// whole frames, or they bring the count to 2^24 or more; or its image is not right, or the text of an amendment does not end in its
/// payload. The core is as it was then.
fn read_content<B: Book>(
    product: &Product,
    payload: &[u8],
    framer: &mut Framer,
    core: &mut Core<B>,
    met: Met,
) -> Result<u64, RecoverFault>
    requires short { met.entry.kind ≡ Frames → length payload.now ≤ MOST_PAYLOAD }
    requires few { met.count < MOST_MESSAGES }
    requires fits { FitsProduct product.now core.old }
    requires new { is_image_kind met.entry.kind ≡ true → core.old ≡ empty_state product.now }
    ensures no_store { IsErrOf result RecoverFault.Store → ⊥ }
    ensures few { IfOk result (λ behind. behind < MOST_MESSAGES) }
    ensures fits { FitsProduct product.now core.new }
    ensures frames { met.entry.kind ≡ Frames → core.new ≡ core.old }
    ensures unread { IsErr result → core.new ≡ core.old }
    ensures counts { IfOk result (CountsBehind met.count met.entry.kind framer.new.given core.new) }
    ensures given { OnOk result (framer.new.given ≡ messages_of (concat framer.new.given)) }
    ensures size { OnOk result (length (concat framer.new.given) ≤ length payload.now) }
    ensures reads { GivesAs product.now met.entry.kind payload.now
        → ReadsContent product.now met.count met.entry.kind payload.now met.entry.at framer.new.given core.new result }
{
    match met.entry.kind {
        EntryKind::Frames => read_frame_record(payload, framer, &met.entry, met.count),
        EntryKind::OldImage | EntryKind::Image | EntryKind::Amendment => {
            framer.clear();
            match read_image_record(product, payload, core, &met.entry) {
                Ok(()) => Ok(core.messages()),
                Err(why) => Err(why),
            }
        }
    }
}

/// Reads the payload of a record that was met by one call on the station, and then what it holds, as `read_content` does. A payload that
/// is longer than the room for one is bad, and is not read: no right image is so long, nor is an amendment with one.
pub(crate) fn read_record<S: Station, B: Book>(
    station: &mut S,
    journal: &mut Journal,
    product: &Product,
    scratch: &mut Scratch,
    core: &mut Core<B>,
    met: Met,
) -> Result<u64, RecoverFault>
    requires room { HasRoomFor product.now scratch.old }
    requires reach { journal.old.known ≤ S.meanings.reach station.old }
    requires entry { Fits journal.old.known journal.old.limit met.entry }
    requires few { met.count < MOST_MESSAGES }
    requires fits { FitsProduct product.now core.old }
    requires new { is_image_kind met.entry.kind ≡ true → core.old ≡ empty_state product.now }
    ensures looks { LooksOnly S.meanings station.old station.new met.entry.length }
    ensures reach { S.meanings.reach station.new ≡ S.meanings.reach station.old }
    ensures store { IsErrOf result RecoverFault.Store → Rose (S.meanings.store_faults station.old) (S.meanings.store_faults station.new) }
    ensures none { (IsErrOf result RecoverFault.Store → ⊥) → S.meanings.store_faults station.new ≡ S.meanings.store_faults station.old }
    ensures stays { journal.new ≡ journal.old }
    ensures room { HasRoomFor product.now scratch.new }
    ensures few { IfOk result (λ behind. behind < MOST_MESSAGES) }
    ensures fits { FitsProduct product.now core.new }
    ensures frames { met.entry.kind ≡ Frames → core.new ≡ core.old }
    ensures unread { IsErr result → core.new ≡ core.old }
    ensures counts { IfOk result (CountsBehind met.count met.entry.kind scratch.new.framer.given core.new) }
    ensures given { OnOk result (scratch.new.framer.given ≡ messages_of (concat scratch.new.framer.given)) }
    ensures size { OnOk result (length (concat scratch.new.framer.given) ≤ met.entry.length) }
    ensures reads { (image : List ℕ) → S.meanings.holds station.old ≡ Some image → StandsIn journal.old image
        → GivesAs product.now met.entry.kind (payload_at image met.entry) → ReadsContent product.now met.count met.entry.kind (payload_at image met.entry) met.entry.at scratch.new.framer.given core.new result }
{
    let length = met.entry.length as usize;
    if length > scratch.payload.capacity() {
        return Err(RecoverFault::Bad(met.entry.at));
    }
    open_to(&mut scratch.payload, length);
    let payload = &mut scratch.payload.as_mut_slice()[0..length];
    if journal.read_entry(station, &met.entry, payload).is_err() {
        return Err(RecoverFault::Store);
    }
    read_content(product, payload, &mut scratch.framer, core, met)
}

/// The same for one who reads ahead, and nothing at the end or after it: it copies the payload from the block, and reads the blocks that
/// are missing.
pub(crate) fn read_record_ahead<S: Station, B: Book>(
    station: &mut S,
    product: &Product,
    scratch: &mut Scratch,
    core: &mut Core<B>,
    met: Met,
    end: u64,
) -> Result<u64, RecoverFault>
    requires room { HasRoomFor product.now scratch.old }
    requires reach { end ≤ S.meanings.reach station.old }
    requires inside { met.entry.at + 6 + met.entry.length ≤ end }
    requires length { met.entry.length ≤ most_payload met.entry.kind }
    requires ahead { IsAhead S.meanings station.old scratch.old.ahead (met.entry.at + 6) end }
    requires few { met.count < MOST_MESSAGES }
    requires fits { FitsProduct product.now core.old }
    requires new { is_image_kind met.entry.kind ≡ true → core.old ≡ empty_state product.now }
    ensures goes { GoesAhead S.meanings station.old station.new scratch.old.ahead scratch.new.ahead end }
    ensures ahead { OnOk result (IsAhead S.meanings station.new scratch.new.ahead (met.entry.at + 6 + met.entry.length) end) }
    ensures store { IsErrOf result RecoverFault.Store → Rose (S.meanings.store_faults station.old) (S.meanings.store_faults station.new) }
    ensures none { (IsErrOf result RecoverFault.Store → ⊥) → S.meanings.store_faults station.new ≡ S.meanings.store_faults station.old }
    ensures room { HasRoomFor product.now scratch.new }
    ensures few { IfOk result (λ behind. behind < MOST_MESSAGES) }
    ensures fits { FitsProduct product.now core.new }
    ensures frames { met.entry.kind ≡ Frames → core.new ≡ core.old }
    ensures unread { IsErr result → core.new ≡ core.old }
    ensures counts { IfOk result (CountsBehind met.count met.entry.kind scratch.new.framer.given core.new) }
    ensures reads { (image : List ℕ) → S.meanings.holds station.old ≡ Some image → end ≤ length image
        → GivesAs product.now met.entry.kind (payload_at image met.entry) → ReadsContent product.now met.count met.entry.kind (payload_at image met.entry) met.entry.at scratch.new.framer.given core.new result }
{
    let length = met.entry.length as usize;
    if length > scratch.payload.capacity() {
        return Err(RecoverFault::Bad(met.entry.at));
    }
    let place = met.entry.at + HEAD as u64;
    open_to(&mut scratch.payload, length);
    let payload = &mut scratch.payload.as_mut_slice()[0..length];
    if scratch.ahead.take(station, place, end, payload).is_err() {
        return Err(RecoverFault::Store);
    }
    read_content(product, payload, &mut scratch.framer, core, met)
}
