//! What a command works with that keeps one core: its product, its state, and all its memory.
ghost use Rattle.std.specs.Prelude.{◌≡◌, ◌≤◌, length, vec_len, Ok, IfOk};
ghost use Rattle.fix_frame.specs.declared.framer.TheConstants.{ROOM};
ghost use Rattle.product_file.specs.ProductTexts.{product_of};
ghost use Rattle.product_file.specs.declared.limits.TheConstants.{LONGEST_TEXT};
ghost use Rattle.order_kinds.specs.State.{empty_state};

use crate::taken::Taken;
use book_recovery::Scratch;
use book_side::LinkedBook;
use exec_report::ReportBuffer;
use fix_frame::{Framer, ROOM};
use order_kinds::Core;
use plain_book::Book;
use product_file::{LONGEST_TEXT, Product};
use std::alloc::{AllocError, Global};

/// A core, and the buffer in which the lines of its events wait.
#[derive(Drop)]
pub struct Engine<B: Book> {
    pub core: Core<B>,
    pub reports: ReportBuffer,
}

/// What a command works with: the product with its text, the core and its lines, and the memory for the journal and the input.
#[derive(Drop)]
pub struct Session<'a, B: Book> {
    pub product: &'a Product,
    pub text: &'a [u8],
    pub engine: Engine<B>,
    /// The memory in which the journal is recovered.
    pub scratch: Scratch,
    pub framer: Framer,
    /// The bytes of one read.
    pub chunk: Vec<u8>,
    ghost short: { length text.now ≤ LONGEST_TEXT },
    ghost gives: { product_of text.now ≡ Ok product.now },
    ghost chunk_room: { vec_len chunk ≡ ROOM },
}

/// A core over an empty book with room for as many orders as the product allows. An `Err` is want of memory.
pub fn new_core(alloc: Global, product: &Product) -> Result<Core<LinkedBook>, AllocError>
    ensures { IfOk result (λ core. core ≡ empty_state product.now) }
{
    let instruments = product.names().instrument_count() as u8;
    let book = LinkedBook::new(alloc, product.max_orders(), instruments)?;
    Ok(Core::new(book, product))
}

impl Engine<LinkedBook> {
    ghost use Rattle.globex_run.specs.Inner.Working.{IsNewEngine};

    /// A new core, and an empty buffer. An `Err` is want of memory.
    pub fn new(alloc: Global, product: &Product) -> Result<Engine<LinkedBook>, AllocError>
        ensures { IfOk result (IsNewEngine product.now) }
    {
        let reports = ReportBuffer::new(alloc)?;
        let core = new_core(alloc, product)?;
        Ok(Engine { core, reports })
    }
}

impl<'a> Session<'a, LinkedBook> {
    ghost use Rattle.globex_run.specs.Inner.Working.{IsNewSession};

    /// Takes all the memory of a session over a product that was taken. An `Err` is want of memory.
    pub fn new(alloc: Global, taken: &Taken<'a>) -> Result<Session<'a, LinkedBook>, AllocError>
        ensures new { IfOk result IsNewSession }
        ensures product { IfOk result (λ session. session.product.now ≡ taken.now.product.now) }
        ensures text { IfOk result (λ session. session.text.now ≡ taken.now.text.now) }
    {
        let scratch = Scratch::new(alloc, taken.product)?;
        let framer = Framer::new(alloc)?;
        let chunk = vec![in alloc; 0; ROOM]?;
        let engine = Engine::new(alloc, taken.product)?;
        Ok(Session {
            product: taken.product,
            text: taken.text,
            engine,
            scratch,
            framer,
            chunk,
        })
    }
}
