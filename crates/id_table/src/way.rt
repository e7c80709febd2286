//! The way of an id through a tree: at each depth a bit of the id says on which side it goes on.
ghost use Rattle.std.specs.Prelude.{◌≡◌, slice_index, reverse};
ghost use Rattle.id_table.specs.Ids.{key};
ghost use Rattle.id_table.specs.Inner.Ways.{is_high};

use gx_base::ShortId;

/// The byte so far from the end of the id, in front of which the number of the firm stands; 0 where there is none.
#[inline]
fn byte_from_end(back: usize, firm: u8, id: &ShortId) -> u8
    ensures { result ≡ slice_index (reverse (key firm id.now)) back }
{
    let bytes = id.bytes();
    if back < bytes.len() {
        bytes[bytes.len() - 1 - back]
    } else if back == bytes.len() {
        firm
    } else {
        0
    }
}

/// Whether the id goes to the high side of a node at this depth: the bit of the id at this depth, where the last byte's
/// lowest bit is the first. Ids differ at their end, so their ways part soon.
#[inline]
pub(crate) fn is_high(depth: usize, firm: u8, id: &ShortId) -> bool
    ensures { result ≡ is_high depth (key firm id.now) }
{
    let byte = byte_from_end(depth / 8, firm, id);
    (byte >> (depth % 8)) % 2 == 1
}
