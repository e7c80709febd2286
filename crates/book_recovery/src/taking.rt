//! Taking the products of all texts of a journal, before any record is read whole.
ghost use Rattle.std.specs.Prelude.{◌≡◌, ℕ, ◌+◌, ◌<◌, ◌≤◌, List, [], ◌∷◌, ◌++◌, length, false, Some, Ok, IfOk, OnOk, IsErrOf};
ghost use Rattle.gx_station.specs.Counts.{Rose};
ghost use Rattle.product_file.specs.ProductTexts.{product_of};
ghost use Rattle.match_journal.specs.Causes.{ReadsOnly};
ghost use Rattle.match_journal.specs.Journal.{Header, IsJournal, Record};
ghost use Rattle.match_journal.specs.Opening.{IsOpened, StandsIn};
ghost use Rattle.match_journal.specs.Standing.{Fits, IsStanding, moved};
ghost use Rattle.match_journal.specs.Texts.{PlacedText};
ghost use Rattle.match_journal.specs.declared.limits.TheConstants.{LEAST_LIMIT, MOST_TEXT};
ghost use Rattle.book_recovery.specs.Histories.{FollowEachOther};
ghost use Rattle.book_recovery.specs.Products.{AreProducts, TakesProducts};
ghost use Rattle.book_recovery.specs.Recovering.{HasRoomFor};
ghost use Rattle.book_recovery.specs.Inner.Keeping.{IsSplit, KeepsProduct, KeepsAmended, KeepsAll, TakesEarlier};
ghost use Rattle.book_recovery.specs.Inner.Replays.{payload_at};

use crate::contents::text_in;
use crate::known::next_known;
use crate::products::{NoProducts, Products};
use crate::records::is_amendment;
use crate::recovery::{RecoverFault, read_heads};
use crate::scratch::{Scratch, TEXT_SIZE, open_to};
use gx_station::Station;
use match_journal::{Entry, Journal, MOST_TEXT, WalkFault};
use product_file::{Product, ProductFault, may_follow, read_product};
use std::alloc::Global;

/// Keeps the product of a text after those before it, the last of which it may follow. It is `Bad` at this place if the text gives no
/// product, or one that may not follow.
fn keep_product(
    alloc: Global,
    text: &[u8],
    earlier: &mut Vec<Product>,
    place: u64,
) -> Result<(), NoProducts>
    requires follow { FollowEachOther earlier.old.items }
    ensures follow { OnOk result (FollowEachOther earlier.new.items) }
    ensures no_store { IsErrOf result NoProducts.Store → ⊥ }
    ensures keeps { KeepsProduct text.now place earlier.old.items earlier.new.items result }
{
    let product = match read_product(alloc, text) {
        Ok(product) => product,
        Err(ProductFault::NoMemory) => return Err(NoProducts::NoMemory),
        Err(_) => return Err(NoProducts::Bad(place)),
    };
    if let Some(before) = earlier.last() {
        if may_follow(before, &product).is_err() {
            return Err(NoProducts::Bad(place));
        }
    }
    match earlier.push(product) {
        Ok(()) => Ok(()),
        Err(_) => Err(NoProducts::NoMemory),
    }
}

/// Keeps the product of the header's text.
fn keep_first<S: Station>(
    alloc: Global,
    station: &mut S,
    journal: &mut Journal,
    payload: &mut [u8],
    earlier: &mut Vec<Product>,
) -> Result<(), NoProducts>
    requires room { 4 + MOST_TEXT ≤ length payload.old }
    requires reach { journal.old.known ≤ S.meanings.reach station.old }
    requires follow { FollowEachOther earlier.old.items }
    ensures reads { ReadsOnly S.meanings station.old station.new }
    ensures reach { S.meanings.reach station.new ≡ S.meanings.reach station.old }
    ensures store { IsErrOf result NoProducts.Store → Rose (S.meanings.store_faults station.old) (S.meanings.store_faults station.new) }
    ensures none { (IsErrOf result NoProducts.Store → ⊥) → S.meanings.store_faults station.new ≡ S.meanings.store_faults station.old }
    ensures stays { journal.new ≡ journal.old }
    ensures room { length payload.new ≡ length payload.old }
    ensures follow { OnOk result (FollowEachOther earlier.new.items) }
    ensures keeps { (image : List ℕ) → S.meanings.holds station.old ≡ Some image → (stands : StandsIn journal.old image)
        → KeepsProduct stands.head.text 9 earlier.old.items earlier.new.items result }
{
    let length = journal.first_len() as usize;
    if journal
        .read_first(station, &mut payload[0..length])
        .is_err()
    {
        return Err(NoProducts::Store);
    }
    // The header's text begins after the first gate and the magic, with its length.
    keep_product(alloc, &payload[..length], earlier, 9)
}

/// Keeps the product of an amendment's text. No more of the payload is read than the longest text has.
fn keep_amended<S: Station>(
    alloc: Global,
    station: &mut S,
    journal: &mut Journal,
    payload: &mut [u8],
    earlier: &mut Vec<Product>,
    entry: &Entry,
) -> Result<(), NoProducts>
    requires room { 4 + MOST_TEXT ≤ length payload.old }
    requires reach { journal.old.known ≤ S.meanings.reach station.old }
    requires entry { Fits journal.old.known journal.old.limit entry.now }
    requires follow { FollowEachOther earlier.old.items }
    ensures reads { ReadsOnly S.meanings station.old station.new }
    ensures reach { S.meanings.reach station.new ≡ S.meanings.reach station.old }
    ensures store { IsErrOf result NoProducts.Store → Rose (S.meanings.store_faults station.old) (S.meanings.store_faults station.new) }
    ensures none { (IsErrOf result NoProducts.Store → ⊥) → S.meanings.store_faults station.new ≡ S.meanings.store_faults station.old }
    ensures stays { journal.new ≡ journal.old }
    ensures room { length payload.new ≡ length payload.old }
    ensures follow { OnOk result (FollowEachOther earlier.new.items) }
    ensures keeps { (image : List ℕ) → S.meanings.holds station.old ≡ Some image → length image ≡ journal.old.known
        → KeepsAmended (payload_at image entry.now) entry.now.at earlier.old.items earlier.new.items result }
{
    let length = (entry.length as usize).min(TEXT_SIZE + MOST_TEXT);
    let front = Entry {
        at: entry.at,
        kind: entry.kind,
        length: length as u32,
    };
    if journal
        .read_entry(station, &front, &mut payload[0..length])
        .is_err()
    {
        return Err(NoProducts::Store);
    }
    match text_in(&payload[..length]) {
        Some(text) => keep_product(alloc, text, earlier, entry.at),
        None => Err(NoProducts::Bad(entry.at)),
    }
}

/// Keeps the products of the amendments from the first record on, but for the last one, whose gate is known. In a shared journal no
/// record is met that another process has added since the opening, if its head is bad by what the journal knows, or it is an amendment.
fn keep_all_amended<S: Station>(
    alloc: Global,
    station: &mut S,
    journal: &mut Journal,
    payload: &mut [u8],
    earlier: &mut Vec<Product>,
    last_at: u64,
) -> Result<(), NoProducts>
    requires room { 4 + MOST_TEXT ≤ length payload.old }
    requires reach { journal.old.known ≤ S.meanings.reach station.old }
    requires follow { FollowEachOther earlier.old.items }
    ensures reads { ReadsOnly S.meanings station.old station.new }
    ensures reach { S.meanings.reach station.new ≡ S.meanings.reach station.old }
    ensures store { IsErrOf result NoProducts.Store → Rose (S.meanings.store_faults station.old) (S.meanings.store_faults station.new) }
    ensures none { (IsErrOf result NoProducts.Store → ⊥) → S.meanings.store_faults station.new ≡ S.meanings.store_faults station.old }
    ensures stands { IsStanding journal.new }
    ensures same { journal.new ≡ moved journal.old journal.new.gate journal.new.is_at_end }
    ensures room { length payload.new ≡ length payload.old }
    ensures follow { OnOk result (FollowEachOther earlier.new.items) }
    ensures keeps { (head : Header) (image : List ℕ) (records : List Record) (split : IsSplit head records last_at) → S.meanings.holds station.old ≡ Some image
        → StandsIn journal.old image → IsJournal head journal.old.limit records image → journal.old.gate ≡ 13 + length head.text
        → AreProducts head [] earlier.old.items → KeepsAll head journal.old.limit image split.front earlier.new.items result }
{
    'records: loop {
        match next_known(station, journal) {
            Ok(Some(entry)) => {
                if is_amendment(entry.kind) && entry.at != last_at {
                    keep_amended(alloc, station, journal, payload, earlier, &entry)?;
                }
            }
            Ok(None) => return Ok(()),
            Err(WalkFault::Store) => return Err(NoProducts::Store),
            Err(WalkFault::Bad(at)) => return Err(NoProducts::Bad(at)),
        }
    }
}

/// Takes the products of all texts but the last, which gives this product and has to follow them. The journal is left before its first
/// record.
fn read_earlier<S: Station>(
    alloc: Global,
    station: &mut S,
    journal: &mut Journal,
    product: &Product,
    payload: &mut [u8],
    earlier: &mut Vec<Product>,
) -> Result<(), NoProducts>
    requires room { 4 + MOST_TEXT ≤ length payload.old }
    requires reach { journal.old.known ≤ S.meanings.reach station.old }
    requires not_lost { journal.old.is_lost ≡ false }
    requires none_yet { earlier.old.items ≡ [] }
    ensures reads { ReadsOnly S.meanings station.old station.new }
    ensures reach { S.meanings.reach station.old ≤ S.meanings.reach station.new }
    ensures store { IsErrOf result NoProducts.Store → Rose (S.meanings.store_faults station.old) (S.meanings.store_faults station.new) }
    ensures none { (IsErrOf result NoProducts.Store → ⊥) → S.meanings.store_faults station.new ≡ S.meanings.store_faults station.old }
    ensures stands { IsStanding journal.new }
    ensures rewound { OnOk result (journal.new ≡ moved journal.old journal.old.first false) }
    ensures room { length payload.new ≡ length payload.old }
    ensures follow { OnOk result (FollowEachOther (earlier.new.items ++ product.now ∷ [])) }
    ensures takes { (head : Header) (text : PlacedText) (image : List ℕ) → S.meanings.holds station.old ≡ Some image → StandsIn journal.old image
        → LEAST_LIMIT ≤ journal.old.limit → IsOpened head journal.old.limit text image → product_of text.bytes ≡ Ok product.now
        → TakesEarlier head journal.old.limit image (earlier.new.items ++ product.now ∷ []) result }
{
    match read_heads(station, journal) {
        Ok(_) => {}
        Err(RecoverFault::Store) => return Err(NoProducts::Store),
        Err(RecoverFault::Bad(at)) => return Err(NoProducts::Bad(at)),
    }
    journal.rewind();
    let Some(last_at) = journal.amended_at() else {
        return Ok(());
    };
    keep_first(alloc, station, journal, payload, earlier)?;
    keep_all_amended(alloc, station, journal, payload, earlier, last_at)?;
    journal.rewind();
    if let Some(before) = earlier.last() {
        if may_follow(before, product).is_err() {
            return Err(NoProducts::Bad(last_at));
        }
    }
    Ok(())
}

/// Takes the products of all texts of a journal whose last text gives this product, and leaves the journal before its first record. It
/// goes over all heads first, in both versions. If there is no amendment, no memory is taken, and nothing else is read. Else it reads the
/// header's text and that of each amendment but the last one.
///
/// `Store` comes only if the count of store faults rose, and `NoMemory` only if there is an amendment. `Bad` comes exactly if a head or a
/// text is bad: at the gate of the first record with a bad head; else at 9 if the header's text gives no product; else at the gate of the
/// first amendment whose text is longer than a product text may be, does not end in its payload, or gives no product, or one that may not
/// follow the one before. Nothing is written, synced or sent. A shared journal ends where `check_heads` ends it.
pub fn read_products<'a, S: Station>(
    alloc: Global,
    station: &mut S,
    journal: &mut Journal,
    product: &'a Product,
    scratch: &mut Scratch,
) -> Result<Products<'a>, NoProducts>
    requires room { HasRoomFor product.now scratch.old }
    requires reach { journal.old.known ≤ S.meanings.reach station.old }
    requires in_limit { journal.old.first < journal.old.limit }
    requires not_lost { journal.old.is_lost ≡ false }
    ensures reads { ReadsOnly S.meanings station.old station.new }
    ensures reach { S.meanings.reach station.old ≤ S.meanings.reach station.new }
    ensures store { IsErrOf result NoProducts.Store → Rose (S.meanings.store_faults station.old) (S.meanings.store_faults station.new) }
    ensures none { (IsErrOf result NoProducts.Store → ⊥) → S.meanings.store_faults station.new ≡ S.meanings.store_faults station.old }
    ensures stands { IsStanding journal.new }
    ensures rewound { IfOk result (λ products. journal.new ≡ moved journal.old journal.old.first false) }
    ensures room { HasRoomFor product.now scratch.new }
    ensures last { IfOk result (λ products. products.last.now ≡ product.now) }
    ensures takes { (head : Header) (text : PlacedText) (image : List ℕ) → S.meanings.holds station.old ≡ Some image → StandsIn journal.old image
        → LEAST_LIMIT ≤ journal.old.limit → IsOpened head journal.old.limit text image → product_of text.bytes ≡ Ok product.now
        → TakesProducts head journal.old.limit image result }
{
    let mut earlier = Vec::new(alloc);
    open_to(&mut scratch.payload, TEXT_SIZE + MOST_TEXT);
    let taken = read_earlier(
        alloc,
        station,
        journal,
        product,
        &mut scratch.payload,
        &mut earlier,
    );
    match taken {
        Ok(()) => Ok(Products {
            earlier,
            last: product,
        }),
        Err(why) => Err(why),
    }
}
