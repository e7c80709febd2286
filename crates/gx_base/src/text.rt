//! Short texts in fixed room, which can be copied.
ghost use Rattle.std.specs.Prelude.{◌≡◌, ◌+◌, ◌-◌, ◌≤◌, [], ◌++◌, SomeIff, IsTrue, length, take, drop, replicate};
ghost use Rattle.std.specs.List.{list_all};
ghost use Rattle.gx_base.specs.Texts.{is_name_byte};

use crate::bytes::append_few;
use std::marker::Model;
use std::simd::prelude::*;

/// At most `N` bytes, and `N` is below 256, so that one byte holds how many they are. Contracts see it as these bytes.
#[derive(Clone, Copy, Debug, PartialEq, Eq)]
pub struct Text<const N: usize> {
    bytes: [u8; N],
    len: u8,
}

impl<const N: usize> Model for Text<N> {
    ghost use Rattle.std.specs.Prelude.{List, ℕ};

    ghost Value = { List ℕ };

    ghost use Rattle.std.specs.Prelude.{◌≡◌, ◌≤◌, ◌-◌, ◌++◌, length, take, replicate};

    ghost view = { λ t. take t.len t.bytes };

    ghost invariant = { λ t. (t.len ≤ N) × (t.bytes ≡ take t.len t.bytes ++ replicate (N - t.len) 0) × (length t.bytes ≡ N) };

    ghost inverse = { λ xs. record { bytes = xs ++ replicate (N - length xs) 0; len = length xs } };
}

impl<const N: usize> Text<N> {
    /// A copy of these bytes, of which there are at most `N`.
    #[inline]
    pub fn new(bytes: &[u8]) -> Text<N>
        requires room { N ≤ 255 }
        requires short { length bytes.now ≤ N }
        ensures { result ≡ bytes.now }
    {
        let mut room = [0; N];
        room[..bytes.len()].copy_from_slice(bytes);
        Text {
            bytes: room,
            len: bytes.len() as u8,
        }
    }

    /// A copy of these bytes, of which there are 1 to `N`. `None` where one of them is not printable ASCII.
    #[inline]
    pub(crate) fn new_if_printable(bytes: &[u8]) -> Option<Text<N>>
        requires room { N ≤ 32 }
        requires some { 1 ≤ length bytes.now }
        requires short { length bytes.now ≤ N }
        ensures { SomeIff result (IsTrue (list_all is_name_byte bytes.now)) bytes.now }
    {
        if !are_printable(bytes) {
            return None;
        }
        let mut room = [0; N];
        fill_front(&mut room, bytes);
        Some(Text {
            bytes: room,
            len: bytes.len() as u8,
        })
    }

    /// Lends the bytes.
    #[inline]
    pub fn bytes(&self) -> &[u8]
        ensures { result.now ≡ self.now }
    {
        &self.bytes[..self.len as usize]
    }

    /// Lends the bytes and after them zeros, `N` bytes together.
    #[inline]
    pub(crate) fn room(&self) -> &[u8; N]
        ensures { result.now ≡ self.now ++ replicate (N - length self.now) 0 }
    {
        &self.bytes
    }

    /// Writes the bytes after the first `at` of `into`, and answers where they end. All `N` bytes of its room are copied, a
    /// number that the compiler knows, so what stands after the end is left open.
    #[inline]
    pub(crate) fn append_to(&self, into: &mut [u8], at: usize) -> usize
        requires { at + N ≤ length into.old }
        ensures bytes { take result into.new ≡ take at into.old ++ self.now }
        ensures end { result ≡ at + length self.now }
        ensures short { result ≤ at + N }
    {
        let room = self.bytes;
        append_few(into, at, &room);
        at + self.len as usize
    }
}

/// The text of no bytes.
impl<const N: usize> Default for Text<N> {
    ghost is_default = { λ text. text ≡ [] };

    fn default() -> Text<N> {
        Text {
            bytes: [0; N],
            len: 0,
        }
    }
}

/// Whether 1 to 32 bytes are printable ASCII. The first few and the last few are tried, which overlap: so there is no loop, and no
/// byte outside is read.
#[inline(always)]
fn are_printable(bytes: &[u8]) -> bool
    requires some { 1 ≤ length bytes.now }
    requires few { length bytes.now ≤ 32 }
    ensures { result ≡ list_all is_name_byte bytes.now }
{
    match bytes.len() {
        0..=3 => are_three_printable(bytes),
        4..=7 => are_eight_printable(ends_of_four(bytes)),
        8..=16 => are_sixteen_printable(ends_of_eight(bytes)),
        _ => are_ends_printable(bytes),
    }
}

/// Writes 1 to 32 bytes at the front of some room, and leaves what stands after them. The first few and the last few are copied, which
/// overlap: so each copy is a load and a store.
#[inline(always)]
fn fill_front(room: &mut [u8], bytes: &[u8])
    requires some { 1 ≤ length bytes.now }
    requires few { length bytes.now ≤ 32 }
    requires fits { length bytes.now ≤ length room.old }
    ensures { room.new ≡ bytes.now ++ drop (length bytes.now) room.old }
{
    match bytes.len() {
        0..=3 => copy_three(room, bytes),
        4..=7 => copy_ends(room, bytes, 4),
        8..=16 => copy_ends(room, bytes, 8),
        _ => copy_ends(room, bytes, 16),
    }
}

/// Whether 1 to 3 bytes are printable ASCII.
#[inline(always)]
fn are_three_printable(bytes: &[u8]) -> bool
    requires some { 1 ≤ length bytes.now }
    requires few { length bytes.now ≤ 3 }
    ensures { result ≡ list_all is_name_byte bytes.now }
{
    let len = bytes.len();
    is_printable(bytes[0]) && is_printable(bytes[len / 2]) && is_printable(bytes[len - 1])
}

/// Writes 1 to 3 bytes at the front of some room.
#[inline(always)]
fn copy_three(room: &mut [u8], bytes: &[u8])
    requires some { 1 ≤ length bytes.now }
    requires few { length bytes.now ≤ 3 }
    requires fits { length bytes.now ≤ length room.old }
    ensures { room.new ≡ bytes.now ++ drop (length bytes.now) room.old }
{
    let len = bytes.len();
    room[0] = bytes[0];
    room[len / 2] = bytes[len / 2];
    room[len - 1] = bytes[len - 1];
}

/// Writes the first `width` of some bytes at the front of some room, and the last `width` at their place.
#[inline(always)]
fn copy_ends(room: &mut [u8], bytes: &[u8], width: usize)
    requires wide { width ≤ length bytes.now }
    requires narrow { length bytes.now ≤ width + width }
    requires fits { length bytes.now ≤ length room.old }
    ensures { room.new ≡ bytes.now ++ drop (length bytes.now) room.old }
{
    let len = bytes.len();
    room[..width].copy_from_slice(&bytes[..width]);
    room[len - width..len].copy_from_slice(&bytes[len - width..]);
}

/// The first four bytes and the last four.
#[inline(always)]
fn ends_of_four(bytes: &[u8]) -> u8x8
    requires { 4 ≤ length bytes.now }
    ensures { result ≡ take 4 bytes.now ++ drop (length bytes.now - 4) bytes.now }
{
    let front = u8x4::from_slice(bytes);
    let back = u8x4::from_slice(&bytes[bytes.len() - 4..]);
    front.shuffle(back, [0, 1, 2, 3, 4, 5, 6, 7])
}

/// The first eight bytes and the last eight.
#[inline(always)]
fn ends_of_eight(bytes: &[u8]) -> u8x16
    requires { 8 ≤ length bytes.now }
    ensures { result ≡ take 8 bytes.now ++ drop (length bytes.now - 8) bytes.now }
{
    let front = u8x8::from_slice(bytes);
    let back = u8x8::from_slice(&bytes[bytes.len() - 8..]);
    front.shuffle(back, [0, 1, 2, 3, 4, 5, 6, 7, 8, 9, 10, 11, 12, 13, 14, 15])
}

/// Whether the first sixteen bytes and the last sixteen are printable ASCII.
#[inline(always)]
fn are_ends_printable(bytes: &[u8]) -> bool
    requires wide { 16 ≤ length bytes.now }
    requires narrow { length bytes.now ≤ 32 }
    ensures { result ≡ list_all is_name_byte bytes.now }
{
    are_sixteen_printable(u8x16::from_slice(bytes))
        && are_sixteen_printable(u8x16::from_slice(&bytes[bytes.len() - 16..]))
}

/// Whether eight bytes are printable ASCII. All are compared at once.
#[inline(always)]
fn are_eight_printable(block: u8x8) -> bool
    ensures { result ≡ list_all is_name_byte block }
{
    let within = block.simd_ge(u8x8::splat(32)) & block.simd_le(u8x8::splat(126));
    within.to_bitmask() == 0xff
}

/// The same of sixteen bytes.
#[inline(always)]
fn are_sixteen_printable(block: u8x16) -> bool
    ensures { result ≡ list_all is_name_byte block }
{
    let within = block.simd_ge(u8x16::splat(32)) & block.simd_le(u8x16::splat(126));
    within.to_bitmask() == 0xffff
}

/// Whether a byte is printable ASCII.
#[inline]
fn is_printable(byte: u8) -> bool
    ensures { result ≡ is_name_byte byte }
{
    (32..=126).contains(&byte)
}
