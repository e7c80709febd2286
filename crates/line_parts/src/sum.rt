//! The checksum of many bytes, a block at a time.
ghost use Rattle.std.specs.Prelude.{◌≡◌, ◌+◌, ◌-◌, ◌%◌, ◌≤◌, length, sum, drop};
ghost use Rattle.gx_base.specs.Frames.{checksum_of};

use std::simd::prelude::*;

/// How many bytes are summed at a time.
pub const BLOCK: usize = 32;

/// The places of the bytes in a block.
const PLACES: [u8; BLOCK] = [
    0, 1, 2, 3, 4, 5, 6, 7, 8, 9, 10, 11, 12, 13, 14, 15, 16, 17, 18, 19, 20, 21, 22, 23, 24, 25,
    26, 27, 28, 29, 30, 31,
];

/// As `checksum` does, of at least a block of bytes. The last block is read whole, and of it only those bytes count that no block
/// before it has: so no bytes are left that go one by one.
#[inline]
pub fn block_checksum(bytes: &[u8]) -> u8
    requires { BLOCK ≤ length bytes.now }
    ensures { result ≡ checksum_of bytes.now }
{
    let mut sums = u8x32::splat(0);
    let mut at = 0;
    while bytes.len() - at > BLOCK {
        sums = added(sums, u8x32::from_slice(&bytes[at..]));
        at += BLOCK;
    }
    let last = u8x32::from_slice(&bytes[bytes.len() - BLOCK..]);
    total(added(sums, last_of(last, bytes.len() - at)))
}

/// As `checksum` does, of whole blocks, two at a time.
#[inline]
pub(crate) fn checksum_of_blocks(bytes: &[u8]) -> u8
    requires { length bytes.now % BLOCK ≡ 0 }
    ensures { result ≡ checksum_of bytes.now }
{
    let mut sums = u8x32::splat(0);
    let mut at = 0;
    while bytes.len() - at > BLOCK {
        let first = added(sums, u8x32::from_slice(&bytes[at..]));
        sums = added(first, u8x32::from_slice(&bytes[at + BLOCK..]));
        at += 2 * BLOCK;
    }
    if at < bytes.len() {
        sums = added(sums, u8x32::from_slice(&bytes[at..]));
    }
    total(sums)
}

/// The sums of two blocks, place by place.
#[inline]
fn added(a: u8x32, b: u8x32) -> u8x32
    ensures { checksum_of result ≡ (sum a + sum b) % 256 }
{
    a + b
}

/// The last bytes of a block, so many, with zeros before them.
#[inline]
fn last_of(block: u8x32, count: usize) -> u8x32
    requires { count ≤ BLOCK }
    ensures { sum result ≡ sum (drop (BLOCK - count) block) }
{
    u8x32::from_array(PLACES)
        .simd_ge(u8x32::splat((BLOCK - count) as u8))
        .select(block, u8x32::splat(0))
}

/// The checksum of the bytes of a block.
#[inline]
fn total(sums: u8x32) -> u8
    ensures { result ≡ checksum_of sums }
{
    sums.reduce_sum()
}
