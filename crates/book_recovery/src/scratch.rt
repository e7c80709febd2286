//! The memory of a recovery.
ghost use Rattle.std.specs.Prelude.{◌≡◌, ◌≤◌, IfOk, vec_len, vec_capacity};
ghost use Rattle.match_journal.specs.declared.limits.TheConstants.{MOST_PAYLOAD};

use crate::read_ahead::ReadAhead;
use book_image::image_len;
use fix_frame::Framer;
use match_journal::MOST_TEXT;
use product_file::Product;
use std::alloc::{AllocError, Global};

/// How many bytes the length of an amendment's text has.
pub(crate) const TEXT_SIZE: usize = 4;

/// Room for the payload of one record, a framer for its messages, and a block to read ahead. No call makes one grow.
///
/// Nothing is written to the room of a payload before a record needs it: the longest payload of a product with many orders has
/// megabytes, and most records have some hundred bytes.
#[derive(Drop)]
pub struct Scratch {
    /// As many bytes as the longest payload so far has. There is room for the longest one that may come.
    pub(crate) payload: Vec<u8>,
    pub framer: Framer,
    pub(crate) ahead: ReadAhead,
    ghost room: { MOST_PAYLOAD ≤ vec_capacity payload },
}

/// There are at least so many bytes. Those that no payload needed before are zero.
pub(crate) fn open_to(payload: &mut Vec<u8>, count: usize)
    requires { count ≤ vec_capacity payload.old }
    ensures opened { count ≤ vec_len payload.new }
    ensures room { vec_capacity payload.new ≡ vec_capacity payload.old }
{
    for _ in payload.len()..count {
        payload.push_reserved(0);
    }
}

impl Scratch {
    ghost use Rattle.book_recovery.specs.Recovering.{HasRoomFor};

    /// Takes all the memory of a recovery of a product's journals: that of an amendment with the longest product text, and the image
    /// of a book with as many orders as the product allows, for no other record is longer; and that of a block. A recovery takes no more.
    /// An `Err` is want of memory.
    pub fn new(alloc: Global, product: &Product) -> Result<Scratch, AllocError>
        ensures { IfOk result (HasRoomFor product.now) }
    {
        let instruments = product.names().instrument_count();
        let image = image_len(instruments as u32, product.max_orders());
        Ok(Scratch {
            payload: Vec::with_capacity(alloc, TEXT_SIZE + MOST_TEXT + image)?,
            framer: Framer::new(alloc)?,
            ahead: ReadAhead::new(alloc)?,
        })
    }
}
