//! Rows of bytes: split at a byte, marked at each SOH, and written one after the other.
ghost use Rattle.std.specs.Prelude.{◌≡◌, ◌+◌, ◌<◌, ◌≤◌, ◌++◌, ◌==◌, length, take, drop, map, position};
ghost use Rattle.std.specs.List.{before_first, after_first};
ghost use Rattle.std.specs.Simd.Lanes.{mask_l};
ghost use Rattle.gx_base.specs.Frames.{soh};

use crate::limits::SOH;
use std::simd::prelude::*;

/// How many bytes are marked at once: as many as a word has bits.
const BLOCK: usize = 64;

/// The bytes before the first of such a byte and those after it, which are none if it is not there.
#[inline(always)]
pub fn split_at_byte(bytes: &[u8], byte: u8) -> (&[u8], &[u8])
    ensures before { result.0.now ≡ before_first (λ c. c == byte) bytes.now }
    ensures behind { result.1.now ≡ after_first (λ c. c == byte) bytes.now }
{
    match find_byte(bytes, byte) {
        Some(at) => (&bytes[..at], &bytes[at + 1..]),
        None => (bytes, &[]),
    }
}

/// The index of the first of such a byte: sixteen bytes at a time, and the last ones one by one. Fields are short, and most bytes of a
/// body lie in front of sixteen more.
#[inline(always)]
fn find_byte(bytes: &[u8], byte: u8) -> Option<usize>
    ensures { result ≡ position (λ c. c == byte) bytes.now }
{
    let mut at = 0;
    while bytes.len() - at >= 16 {
        if let Some(k) = find_in_sixteen(&bytes[at..at + 16], byte) {
            return Some(at + k);
        }
        at += 16;
    }
    for k in at..bytes.len() {
        if bytes[k] == byte {
            return Some(k);
        }
    }
    None
}

/// The same among just sixteen, which are compared at once.
#[inline(always)]
fn find_in_sixteen(bytes: &[u8], byte: u8) -> Option<usize>
    requires { length bytes.now ≡ 16 }
    ensures { result ≡ position (λ c. c == byte) bytes.now }
{
    let marks = u8x16::from_slice(bytes)
        .simd_eq(u8x16::splat(byte))
        .to_bitmask();
    if marks == 0 {
        None
    } else {
        Some(marks.trailing_zeros() as usize)
    }
}

/// Which of the bytes from `start` on are SOH: bit k tells of the byte k places further, for 64 bytes or for as many as there
/// are. The fields of a message end there (FIX 4.2).
#[inline(always)]
pub fn soh_marks(bytes: &[u8], start: usize) -> u64
    requires { start < length bytes.now }
    ensures { result ≡ mask_l (map (λ c. c == soh) (take 64 (drop start bytes.now))) }
{
    if bytes.len() - start >= BLOCK {
        return marks_of(u8x64::from_slice(&bytes[start..]));
    }
    if bytes.len() >= BLOCK {
        // The last 64 bytes, without those before `start`: nothing is read past the end.
        let last = bytes.len() - BLOCK;
        return marks_of(u8x64::from_slice(&bytes[last..])) >> (start - last);
    }
    short_marks(&bytes[start..])
}

/// The same of fewer than 64 bytes, with zeros after them.
#[cold]
#[inline(never)]
fn short_marks(bytes: &[u8]) -> u64
    requires { length bytes.now < 64 }
    ensures { result ≡ mask_l (map (λ c. c == soh) bytes.now) }
{
    let mut block = [0; BLOCK];
    block[..bytes.len()].copy_from_slice(bytes);
    marks_of(u8x64::from_array(block))
}

/// Which of 64 bytes are SOH.
#[inline(always)]
fn marks_of(block: u8x64) -> u64
    ensures { result ≡ mask_l (map (λ c. c == soh) block) }
{
    block.simd_eq(u8x64::splat(SOH)).to_bitmask()
}

/// Writes these bytes after the first `at` of `into`, and answers where they end.
#[inline]
pub fn append(into: &mut [u8], at: usize, bytes: &[u8]) -> usize
    requires { at + length bytes.now ≤ length into.old }
    ensures bytes { take result into.new ≡ take at into.old ++ bytes.now }
    ensures behind { drop result into.new ≡ drop result into.old }
    ensures end { result ≡ at + length bytes.now }
{
    let end = at + bytes.len();
    into[at..end].copy_from_slice(bytes);
    end
}

/// Writes these bytes as `append` does, one by one: for the few bytes of a constant, of which the compiler makes a store or two.
#[inline(always)]
pub fn append_few(into: &mut [u8], at: usize, bytes: &[u8]) -> usize
    requires { at + length bytes.now ≤ length into.old }
    ensures bytes { take result into.new ≡ take at into.old ++ bytes.now }
    ensures behind { drop result into.new ≡ drop result into.old }
    ensures end { result ≡ at + length bytes.now }
{
    for k in 0..bytes.len() {
        into[at + k] = bytes[k];
    }
    at + bytes.len()
}
