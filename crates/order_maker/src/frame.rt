//! The frame of a message (FIX 4.2).
ghost use Rattle.std.specs.Prelude.{◌≡◌, ◌+◌, ◌<◌, ◌≤◌, ◌++◌, length, take};
ghost use Rattle.order_maker.specs.Inner.{IsTurn};
ghost use Rattle.order_maker.specs.Stream.{frame_at};

use crate::body::write_body;
use crate::made::Made;
use crate::turn::Turn;
use gx_base::LONGEST_LINE;
use line_parts::fields::{GAP, put_frame};
use product_file::Product;

/// Writes the frame of a message after the first `at` bytes of `into`, and answers where it ends.
pub(crate) fn write_message(
    into: &mut [u8],
    at: usize,
    product: &Product,
    turn: &Turn,
    made: &Made,
) -> usize
    requires room { at + LONGEST_LINE ≤ length into.old }
    requires turn { IsTurn product.now turn.now }
    ensures frame { take result into.new ≡ take at into.old ++ frame_at product.now turn.now.number made.now }
    ensures some { at < result }
    ensures short { result ≤ at + LONGEST_LINE }
{
    at + write_frame(&mut into[at..], product, turn, made)
}

/// Writes the frame of a message into the front of `into`, and answers how many bytes it has. The head of a frame, which comes later,
/// ends with the byte that the body begins to write with.
fn write_frame(into: &mut [u8], product: &Product, turn: &Turn, made: &Made) -> usize
    requires room { LONGEST_LINE ≤ length into.old }
    requires turn { IsTurn product.now turn.now }
    ensures frame { take result into.new ≡ frame_at product.now turn.now.number made.now }
    ensures some { 0 < result }
    ensures short { result ≤ LONGEST_LINE }
{
    let end = write_body(into, GAP - 1, product, turn, made);
    put_frame(into, end)
}
