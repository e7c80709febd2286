//! Reading an image back into a core.
ghost use Rattle.std.specs.Prelude.{◌≡◌, ◌≢◌, IsErr, OnOk, option_map};
ghost use Rattle.gx_base.specs.FirstFault.{unless_fault};
ghost use Rattle.match_journal.specs.declared.entry.EntryKind.TheVariants.{Frames, Amendment};
ghost use Rattle.order_kinds.specs.State.{empty_state, state_numbered};
ghost use Rattle.order_kinds.specs.Cores.{FitsProduct};
ghost use Rattle.book_image.specs.Faults.{image_fault};
ghost use Rattle.book_image.specs.Reading.{state_of_image};

use crate::check::{parts_fault, tops_fault};
use crate::format::OPEN;
use crate::kinds::{part_of, session_of, trading_of};
use crate::load::load_image;
use match_journal::EntryKind;
use order_kinds::Core;
use plain_book::Book;
use product_file::Product;
use thiserror::Error;

/// A payload is no image of a state of the product, with the place of the first fault in it: that of the counter, the part, the row or
/// the byte of the session that breaks a rule.
#[derive(Clone, Copy, Debug, Error, PartialEq, Eq)]
#[error("the book image is bad, at {0}")]
pub struct ImageBad(pub u64);

/// Brings a new core to the state that an image is of. An image of the old form is of an open market. The image of an
/// amendment is given as an image, without what comes before it in its payload. `ImageBad` comes exactly where
/// the payload breaks a rule of images of its kind, with the first place that does (our own rules); the core is new then, as it was.
///
/// It takes no memory, and a time in proportion to the payload's length.
pub fn read_image<B: Book>(
    kind: EntryKind,
    payload: &[u8],
    product: &Product,
    core: &mut Core<B>,
) -> Result<(), ImageBad>
    requires image { kind ≢ Frames }
    requires alone { kind ≢ Amendment }
    requires new { core.old ≡ empty_state product.now }
    ensures reads { result ≡ unless_fault (option_map (λ at. record { 0 = at }) (image_fault kind product.now payload.now)) tt }
    ensures state { OnOk result (state_numbered core.new ≡ state_of_image kind product.now payload.now) }
    ensures new { IsErr result → core.new ≡ core.old }
    ensures fits { FitsProduct product.now core.new }
{
    let part = part_of(kind, payload);
    let session = session_of(kind, payload);
    let trading = trading_of(session);
    if let Some(at) = parts_fault(part, trading, product, core) {
        return Err(ImageBad(at));
    }
    if session > OPEN {
        return Err(ImageBad(part.len() as u64));
    }
    if let Some(at) = tops_fault(part, product) {
        return Err(ImageBad(at));
    }
    load_image(part, trading, product, core);
    Ok(())
}
