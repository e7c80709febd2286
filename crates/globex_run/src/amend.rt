//! An amendment: the product handed in is added to the journal, which then goes on under it.
ghost use Rattle.std.specs.Prelude.{◌≡◌, ◌≢◌, ◌⊎◌, ℕ, ◌<◌, ◌≤◌, List, length, true, Some, Ok, IfOk, OnErr, IsErrOf};
ghost use Rattle.gx_station.specs.Counts.{Rose};
ghost use Rattle.product_file.specs.Products.{IsRightProduct};
ghost use Rattle.product_file.specs.Amendments.{may_follow};
ghost use Rattle.match_journal.specs.Causes.{SendsNothing};
ghost use Rattle.match_journal.specs.Journal.{Header, Record};
ghost use Rattle.match_journal.specs.Classes.{IsBlank, IsSealed, IsSealedOf};
ghost use Rattle.match_journal.specs.declared.limits.TheConstants.{MOST_LIMIT, MOST_TEXT};
ghost use Rattle.match_journal.specs.declared.entry.EntryKind.TheVariants.{Amendment};
ghost use Rattle.order_kinds.specs.State.{empty_state, state_numbered};
ghost use Rattle.order_kinds.specs.Cores.{FitsProduct};
ghost use Rattle.book_image.specs.Image.{image_of};
ghost use Rattle.book_recovery.specs.Records.{amendment_of};
ghost use Rattle.book_recovery.specs.Recovering.{HasRoomFor};
ghost use Rattle.globex_run.specs.Inner.Amending.{AmendsJournal, AmendResult};
ghost use Rattle.globex_run.specs.Inner.AmendParts.{unopened_by, MayAmend, HasGoodHeads, IsSecondOf, IsLookedAt, IsLooked, TellsNoProduct, AddsRecord};

use crate::open::{Unopened, open_journal};
use crate::outcome::Outcome;
use crate::session::new_core;
use crate::taken::Taken;
use crate::unamended::{Unamended, outcome_amended};
use book_recovery::{RecoverFault, Scratch, check_heads, recover};
use gx_station::Station;
use match_journal::{Access, AppendFault, EntryKind, Journal, MOST_LIMIT, MOST_TEXT, StartFault};
use order_kinds::Core;
use plain_book::Book;
use product_file::{Product, ProductFault, may_follow, read_product};
use std::alloc::{AllocError, Global};

/// The version of a journal that takes no amendment.
const FIRST_VERSION: u8 = 1;

/// Why a journal was not opened.
fn unopened(fault: StartFault) -> Unopened
    ensures { result ≡ unopened_by fault }
{
    match fault {
        StartFault::Store => Unopened::Store,
        StartFault::NotAJournal(at) => Unopened::NotAJournal(at),
        StartFault::Bad(at) => Unopened::Bad(at),
        StartFault::ProductDiffers(at) => Unopened::ProductDiffers(at),
    }
}

/// Makes a journal of the product in an image that has none yet, or all of it but its first gate. It keeps no message.
fn create<S: Station>(taken: &Taken<'_>, station: &mut S) -> Result<u64, Unamended>
    requires unfinished { (image : List ℕ) → S.meanings.holds station.old ≡ Some image → IsBlank image ⊎ IsSealedOf taken.now.text.now image }
    requires right { IsRightProduct taken.now.product.now }
    ensures did { AmendsJournal S.meanings taken.now.product.now taken.now.text.now station.old station.new result }
{
    match Journal::start(station, taken.text, MOST_LIMIT) {
        Ok(_) => Ok(0),
        Err(fault) => Err(Unamended::of_unopened(unopened(fault))),
    }
}

/// Begins the journal of a product in an image that has none yet, or all of one but its first gate. That of another text is refused
/// while it was only read.
fn begin<S: Station>(taken: &Taken<'_>, station: &mut S) -> Result<u64, Unamended>
    requires unfinished { (image : List ℕ) → S.meanings.holds station.old ≡ Some image → IsBlank image ⊎ ((head : Header) × IsSealed head image) }
    requires right { IsRightProduct taken.now.product.now }
    ensures did { AmendsJournal S.meanings taken.now.product.now taken.now.text.now station.old station.new result }
{
    match Journal::look(station, taken.text, MOST_LIMIT, Access::Exclusive) {
        Ok(_) => create(taken, station),
        Err(fault) => Err(Unamended::of_unopened(unopened(fault))),
    }
}

/// Recovers from a journal that has the product's text already, and answers how many messages it keeps. Nothing is written.
fn keep<B: Book, S: Station>(
    taken: &Taken<'_>,
    journal: &mut Journal,
    scratch: &mut Scratch,
    core: &mut Core<B>,
    station: &mut S,
) -> Result<u64, Unamended>
    requires new { core.old ≡ empty_state taken.now.product.now }
    requires space { HasRoomFor taken.now.product.now scratch.old }
    requires looked { IsLooked S.meanings station.old journal.old taken.now.text.now }
    requires right { IsRightProduct taken.now.product.now }
    ensures did { AmendsJournal S.meanings taken.now.product.now taken.now.text.now station.old station.new result }
{
    match recover(station, journal, taken.product, scratch, core) {
        Ok(recovered) => Ok(recovered.messages),
        Err(RecoverFault::Store) => Err(Unamended::Store),
        Err(RecoverFault::Bad(at)) => Err(Unamended::Bad(at)),
    }
}

/// Whether a journal of this version goes over from a product to another one; or the number of the reason why not.
fn may_amend(version: u8, before: &Product, after: &Product) -> Result<(), u64>
    ensures { MayAmend version before.now after.now result }
{
    if version == FIRST_VERSION {
        return Err(1);
    }
    match may_follow(before, after) {
        Ok(()) => Ok(()),
        Err(fault) => Err(u64::from(fault.number())),
    }
}

/// Adds the product handed in, with the state under it, to a journal that was opened. Answers how many messages the journal keeps.
fn add_record<B: Book, S: Station>(
    taken: &Taken<'_>,
    scratch: &mut Scratch,
    core: &Core<B>,
    journal: &mut Journal,
    station: &mut S,
) -> Result<u64, Unamended>
    requires fits { FitsProduct taken.now.product.now core.now }
    requires space { HasRoomFor taken.now.product.now scratch.old }
    requires right { IsRightProduct taken.now.product.now }
    requires limit { journal.old.limit ≡ MOST_LIMIT }
    requires in_limit { journal.old.gate < journal.old.limit }
    requires at_end { journal.old.is_at_end ≡ true }
    requires reach { journal.old.known ≤ S.meanings.reach station.old }
    ensures silent { SendsNothing S.meanings station.old station.new }
    ensures store { IsErrOf result Unamended.Store → Rose (S.meanings.store_faults station.old) (S.meanings.store_faults station.new) }
    ensures none { (IsErrOf result Unamended.Store → ⊥) → S.meanings.store_faults station.new ≡ S.meanings.store_faults station.old }
    ensures adds { AddsRecord S.meanings station.old station.new journal.old taken.now.product.now.journal_limit core.now.desk.messages
        (record { kind = Amendment; payload = amendment_of taken.now.text.now (image_of (state_numbered core.now)) }) result }
{
    let payload = scratch.write_amendment(core, taken.product, taken.text);
    let end = journal.end();
    // The version was read anew when the journal was opened.
    if journal.version() == FIRST_VERSION {
        return Err(Unamended::NotAmendable(1));
    }
    // The limit of the product handed in holds from now on.
    if end + 7 + payload.len() as u64 > taken.product.journal_limit() {
        return Err(Unamended::Full(end));
    }
    match journal.append(station, EntryKind::Amendment, payload) {
        Ok(()) => Ok(core.messages()),
        Err(AppendFault::Full) => unreachable!(),
        Err(AppendFault::Store) => Err(Unamended::Store),
    }
}

/// Opens the journal with the text that it has, recovers the state under the product of that text, and adds one record: the product
/// handed in, with the state under it. Answers how many messages the journal keeps.
fn add_product<B: Book, S: Station>(
    taken: &Taken<'_>,
    kept: &Taken<'_>,
    scratch: &mut Scratch,
    core: &mut Core<B>,
    station: &mut S,
) -> Result<u64, Unamended>
    requires new { core.old ≡ empty_state taken.now.product.now }
    requires space { HasRoomFor taken.now.product.now scratch.old }
    requires right { IsRightProduct taken.now.product.now }
    requires may { may_follow kept.now.product.now taken.now.product.now ≡ Ok tt }
    requires other { kept.now.text.now ≢ taken.now.text.now }
    requires second { (image : List ℕ) → S.meanings.holds station.old ≡ Some image → IsSecondOf kept.now.text.now image }
    ensures did { AmendsJournal S.meanings taken.now.product.now taken.now.text.now station.old station.new result }
{
    let opened = open_journal(kept.product, kept.text, MOST_LIMIT, scratch, core, station);
    match opened {
        Ok(mut journal) => {
            core.amend(taken.product);
            add_record(taken, scratch, core, &mut journal, station)
        }
        Err(why) => Err(Unamended::of_unopened(why)),
    }
}

/// Why a journal whose text gives no product was not amended.
fn without_product(fault: ProductFault, journal: &Journal) -> Unamended
    ensures { TellsNoProduct journal.now fault result }
{
    match fault {
        ProductFault::NoMemory => Unamended::NoMemory,
        // The header's text begins after the first gate and the magic, with its length.
        _ => Unamended::Bad(journal.amended_at().unwrap_or(9)),
    }
}

/// Takes the product of a journal's text, where all heads are good, and adds the product handed in if it may follow.
fn follow<B: Book, S: Station>(
    alloc: Global,
    taken: &Taken<'_>,
    kept_text: &[u8],
    journal: &Journal,
    scratch: &mut Scratch,
    core: &mut Core<B>,
    station: &mut S,
) -> Result<u64, Unamended>
    requires short { length kept_text.now ≤ MOST_TEXT }
    requires new { core.old ≡ empty_state taken.now.product.now }
    requires space { HasRoomFor taken.now.product.now scratch.old }
    requires right { IsRightProduct taken.now.product.now }
    requires looked { IsLooked S.meanings station.old journal.now kept_text.now }
    requires other { kept_text.now ≢ taken.now.text.now }
    requires heads { (image : List ℕ) → S.meanings.holds station.old ≡ Some image → HasGoodHeads image }
    ensures did { AmendsJournal S.meanings taken.now.product.now taken.now.text.now station.old station.new result }
{
    let product = match read_product(alloc, kept_text) {
        Ok(product) => product,
        Err(fault) => return Err(without_product(fault, journal)),
    };
    match may_amend(journal.version(), &product, taken.product) {
        Ok(()) => {
            let kept = Taken {
                product: &product,
                text: kept_text,
            };
            add_product(taken, &kept, scratch, core, station)
        }
        Err(reason) => Err(Unamended::NotAmendable(reason)),
    }
}

/// Goes over the heads of a journal with another text, takes the product of that text, and adds the product handed in if it may follow.
fn go_over<B: Book, S: Station>(
    alloc: Global,
    taken: &Taken<'_>,
    kept_text: &[u8],
    journal: &mut Journal,
    scratch: &mut Scratch,
    core: &mut Core<B>,
    station: &mut S,
) -> Result<u64, Unamended>
    requires short { length kept_text.now ≤ MOST_TEXT }
    requires new { core.old ≡ empty_state taken.now.product.now }
    requires space { HasRoomFor taken.now.product.now scratch.old }
    requires right { IsRightProduct taken.now.product.now }
    requires looked { IsLooked S.meanings station.old journal.old kept_text.now }
    requires other { kept_text.now ≢ taken.now.text.now }
    ensures did { AmendsJournal S.meanings taken.now.product.now taken.now.text.now station.old station.new result }
{
    match check_heads(station, journal) {
        Ok(()) => follow(alloc, taken, kept_text, journal, scratch, core, station),
        Err(RecoverFault::Store) => Err(Unamended::Store),
        Err(RecoverFault::Bad(at)) => Err(Unamended::Bad(at)),
    }
}

/// Adds the product handed in to a journal whose text was read, if it is of another one.
fn amend_read<B: Book, S: Station>(
    alloc: Global,
    taken: &Taken<'_>,
    kept_text: &[u8],
    journal: &mut Journal,
    scratch: &mut Scratch,
    core: &mut Core<B>,
    station: &mut S,
) -> Result<u64, Unamended>
    requires short { length kept_text.now ≤ MOST_TEXT }
    requires new { core.old ≡ empty_state taken.now.product.now }
    requires space { HasRoomFor taken.now.product.now scratch.old }
    requires right { IsRightProduct taken.now.product.now }
    requires looked { IsLooked S.meanings station.old journal.old kept_text.now }
    ensures did { AmendsJournal S.meanings taken.now.product.now taken.now.text.now station.old station.new result }
{
    if kept_text == taken.text {
        keep(taken, journal, scratch, core, station)
    } else {
        go_over(alloc, taken, kept_text, journal, scratch, core, station)
    }
}

/// Reads the text of a journal, and adds the product handed in if it is of another one.
fn amend_looked<B: Book, S: Station>(
    alloc: Global,
    taken: &Taken<'_>,
    kept_text: &mut [u8],
    journal: &mut Journal,
    scratch: &mut Scratch,
    core: &mut Core<B>,
    station: &mut S,
) -> Result<u64, Unamended>
    requires size { length kept_text.old ≡ journal.old.text_len }
    requires new { core.old ≡ empty_state taken.now.product.now }
    requires space { HasRoomFor taken.now.product.now scratch.old }
    requires right { IsRightProduct taken.now.product.now }
    requires looked { IsLookedAt S.meanings station.old journal.old }
    ensures did { AmendsJournal S.meanings taken.now.product.now taken.now.text.now station.old station.new result }
{
    match journal.read_text(station, kept_text) {
        Ok(()) => amend_read(alloc, taken, kept_text, journal, scratch, core, station),
        Err(_) => Err(Unamended::Store),
    }
}

/// Finds the journal's text, and adds the product handed in if it is of another one.
fn amend_journal<B: Book, S: Station>(
    alloc: Global,
    taken: &Taken<'_>,
    room: &mut [u8],
    scratch: &mut Scratch,
    core: &mut Core<B>,
    station: &mut S,
) -> Result<u64, Unamended>
    requires size { MOST_TEXT ≤ length room.old }
    requires new { core.old ≡ empty_state taken.now.product.now }
    requires space { HasRoomFor taken.now.product.now scratch.old }
    ensures did { AmendsJournal S.meanings taken.now.product.now taken.now.text.now station.old station.new result }
{
    taken.product.limits();
    match Journal::look_any(station, MOST_LIMIT, Access::Exclusive) {
        Ok(Some(mut journal)) => {
            let length = journal.text_len() as usize;
            amend_looked(
                alloc,
                taken,
                &mut room[0..length],
                &mut journal,
                scratch,
                core,
                station,
            )
        }
        Ok(None) => begin(taken, station),
        Err(fault) => Err(Unamended::of_unopened(unopened(fault))),
    }
}

/// Takes memory, and amends the journal by the product handed in. An `Err` is want of memory, and nothing was touched then. The product
/// that the journal keeps is taken once its text was read: want of memory for it is status 1, and the station was only read then.
///
/// An image without a journal gets one of the product's text. A journal that has the text already is recovered from, and stays as it
/// is. Any other goes over to the product, if this may follow its own: it gets one record, with the text and the image of its state.
/// Nothing is sent.
pub fn amend<S: Station>(
    alloc: Global,
    taken: &Taken<'_>,
    station: &mut S,
) -> Result<Outcome, AllocError>
    ensures did { IfOk result (AmendResult S.meanings taken.now.product.now taken.now.text.now station.old station.new) }
    ensures none { OnErr result (station.new ≡ station.old) }
{
    taken.product.limits();
    let mut room = vec![in alloc; 0; MOST_TEXT]?;
    let mut scratch = Scratch::new(alloc, taken.product)?;
    let mut core = new_core(alloc, taken.product)?;
    let amended = amend_journal(
        alloc,
        taken,
        room.as_mut_slice(),
        &mut scratch,
        &mut core,
        station,
    );
    Ok(outcome_amended(amended))
}
