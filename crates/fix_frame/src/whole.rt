//! A frame that is at hand whole, in one pass.
ghost use Rattle.std.specs.Prelude.{◌≤◌, length, take, IfSome};
ghost use Rattle.fix_frame.specs.Grammar.{IsFrame};
ghost use Rattle.fix_frame.specs.Scans.{IsLengthText};

use crate::words::{begin_with_trailer, begins_frame};
use gx_base::SOH;
use line_parts::{TRAILER_LENGTH, block_checksum, trailer_with};

/// How many bytes a body has at least that is read in one pass. With its head it is a block then, of which the sum is made.
const SHORTEST_BODY: usize = 17;

/// The length of the frame with which the bytes held begin, where all of it is there and its body has `SHORTEST_BODY` to 999
/// bytes. `None` says nothing.
#[inline]
pub fn whole_frame(held: &[u8]) -> Option<usize>
    ensures { IfSome result (λ n. (n ≤ length held.now) × IsFrame (take n held.now)) }
{
    if held.len() < 16 || !begins_frame(held) {
        return None;
    }
    // The digits of the length follow the begin string, two or three.
    let digits = if held[14] == SOH { 2 } else { 3 };
    if held[12 + digits] != SOH {
        return None;
    }
    let count = read_length(&held[12..12 + digits])?;
    let end = 13 + digits + count;
    if count < SHORTEST_BODY || held.len() < end + TRAILER_LENGTH {
        return None;
    }
    if held[end - 1] != SOH {
        return None;
    }
    let trailer = trailer_with(block_checksum(&held[..end]));
    if !begin_with_trailer(&held[end..], &trailer) {
        return None;
    }
    Some(end + TRAILER_LENGTH)
}

/// The number that at most three digits write. `None` where a byte is no digit.
#[inline]
fn read_length(text: &[u8]) -> Option<usize>
    requires { length text.now ≤ 3 }
    ensures { IfSome result (λ n. IsLengthText text.now n) }
{
    let mut number = 0;
    for byte in text {
        if !byte.is_ascii_digit() {
            return None;
        }
        number = number * 10 + (*byte - b'0') as usize;
    }
    Some(number)
}
