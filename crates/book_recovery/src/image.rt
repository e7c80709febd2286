//! The image of a state, in the memory of a recovery.
ghost use Rattle.std.specs.Prelude.{◌≡◌, ◌+◌, ◌≤◌, ◌++◌, length, take};
ghost use Rattle.std.specs.Int.{w32, to_be_bytes};
ghost use Rattle.plain_book.specs.Book.{live_orders};
ghost use Rattle.order_kinds.specs.State.{state_numbered};
ghost use Rattle.order_kinds.specs.Cores.{FitsProduct};
ghost use Rattle.book_image.specs.Image.{image_of, image_len};
ghost use Rattle.match_journal.specs.declared.limits.TheConstants.{MOST_TEXT};
ghost use Rattle.book_recovery.specs.Records.{amendment_of};

use crate::scratch::{Scratch, TEXT_SIZE, open_to};
use book_image::{image_len, write_image};
use order_kinds::Core;
use plain_book::Book;
use product_file::Product;

/// Writes what comes before the book image of an amendment: the length of its text, and the text. Answers how many bytes that takes.
fn write_text(text: &[u8], into: &mut [u8]) -> usize
    requires short { length text.now ≤ MOST_TEXT }
    requires room { 4 + length text.now ≤ length into.old }
    ensures text { take result into.new ≡ to_be_bytes w32 (length text.now) ++ text.now }
    ensures count { result ≡ 4 + length text.now }
    ensures size { length into.new ≡ length into.old }
{
    let front = TEXT_SIZE + text.len();
    into[..TEXT_SIZE].copy_from_slice(&(text.len() as u32).to_be_bytes());
    into[TEXT_SIZE..front].copy_from_slice(text);
    front
}

/// Writes the payload of an amendment into the front of `into`, and answers how many bytes that takes.
fn write_payload<B: Book>(core: &Core<B>, product: &Product, text: &[u8], into: &mut [u8]) -> usize
    requires fits { FitsProduct product.now core.now }
    requires short { length text.now ≤ MOST_TEXT }
    requires room { 4 + length text.now + image_len core.now.book.instruments (length (live_orders core.now.book)) ≤ length into.old }
    ensures payload { take result into.new ≡ amendment_of text.now (image_of (state_numbered core.now)) }
    ensures few { result ≤ 4 + MOST_TEXT + image_len (length product.now.names.instruments) product.now.max_orders }
    ensures within { result ≤ length into.new }
    ensures size { length into.new ≡ length into.old }
{
    core.book().rules();
    let front = write_text(text, into);
    let count = write_image(core, product, &mut into[front..]);
    front + count
}

/// How many bytes the book image of a core's state takes.
fn image_room<B: Book>(core: &Core<B>, product: &Product) -> usize
    requires fits { FitsProduct product.now core.now }
    ensures room { result ≡ image_len core.now.book.instruments (length (live_orders core.now.book)) }
    ensures few { result ≤ image_len (length product.now.names.instruments) product.now.max_orders }
{
    core.book().rules();
    image_len(
        product.names().instrument_count() as u32,
        core.book().live(),
    )
}

impl Scratch {
    ghost use Rattle.book_recovery.specs.Recovering.{HasRoomFor};

    /// Writes the book image of a core's state, and lends it.
    pub fn write_image<B: Book>(&mut self, core: &Core<B>, product: &Product) -> &[u8]
        requires fits { FitsProduct product.now core.now }
        requires room { HasRoomFor product.now self.old }
        ensures image { result.now ≡ image_of (state_numbered core.now) }
        ensures few { length result.now ≤ image_len (length product.now.names.instruments) product.now.max_orders }
    {
        core.book().rules();
        open_to(&mut self.payload, image_room(core, product));
        let count = write_image(core, product, self.payload.as_mut_slice());
        &self.payload.as_slice()[..count]
    }

    /// Writes the payload of an amendment: the text of a product, and the book image of a core's state under it. Lends it.
    pub fn write_amendment<B: Book>(
        &mut self,
        core: &Core<B>,
        product: &Product,
        text: &[u8],
    ) -> &[u8]
        requires fits { FitsProduct product.now core.now }
        requires room { HasRoomFor product.now self.old }
        requires short { length text.now ≤ MOST_TEXT }
        ensures payload { result.now ≡ amendment_of text.now (image_of (state_numbered core.now)) }
        ensures few { length result.now ≤ 4 + MOST_TEXT + image_len (length product.now.names.instruments) product.now.max_orders }
    {
        core.book().rules();
        let front = TEXT_SIZE + text.len();
        open_to(&mut self.payload, front + image_room(core, product));
        let count = write_payload(core, product, text, self.payload.as_mut_slice());
        &self.payload.as_slice()[..count]
    }
}
