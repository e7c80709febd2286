//! The end of a frame: the checksum of what stands before it (FIX 4.2).
ghost use Rattle.std.specs.Prelude.{◌≡◌};
ghost use Rattle.gx_base.specs.Frames.{checksum_of, trailer_with};

use crate::decimal::pair;
use gx_base::SOH;

/// How many bytes a trailer has: the tag 10 and `=`, three digits, and SOH (FIX 4.2).
pub const TRAILER_LENGTH: usize = 7;

/// The checksum of FIX 4.2: the sum of the bytes modulo 256.
pub fn checksum(bytes: &[u8]) -> u8
    ensures { result ≡ checksum_of bytes.now }
{
    let mut sum: u8 = 0;
    for byte in bytes {
        sum = sum.wrapping_add(*byte);
    }
    sum
}

/// The trailer with this checksum, in three digits.
pub fn trailer_with(checksum: u8) -> [u8; TRAILER_LENGTH]
    ensures { result ≡ trailer_with checksum }
{
    let hundreds = b'0' + checksum / 100;
    let rest = pair(u64::from(checksum % 100));
    [b'1', b'0', b'=', hundreds, rest[0], rest[1], SOH]
}
