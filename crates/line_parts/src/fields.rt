//! Fields in a row, and the frame round them. Each call writes after the first `at` bytes of the room that it is lent,
//! and answers where what it wrote ends.
ghost use Rattle.std.specs.Prelude.{◌≡◌, ◌+◌, ◌-◌, ◌<◌, ◌≤◌, [], ◌∷◌, ◌++◌, length, take, drop, decimal};
ghost use Rattle.gx_base.specs.Frames.{head_of, checksum_of, trailer_of, trailer_with, frame_of};
ghost use Rattle.gx_base.specs.Numbers.{price_text};

use crate::decimal::{append_number, append_pair, append_three, hundredth};
use crate::price::append_price;
use crate::sum::{BLOCK, checksum_of_blocks};
use crate::trailer::TRAILER_LENGTH;
use gx_base::{
    LONGEST_LINE, LONGEST_VALUE, MOST_DECIMALS, Price, SOH, ShortId, Stamp, append, append_few,
};

/// How many bytes a tag has at most, with its `=`.
pub const LONGEST_TAG: usize = 5;

/// How many bytes a field has at most, with the byte that ends it.
pub const LONGEST_FIELD: usize = LONGEST_TAG + LONGEST_VALUE + 1;

/// Room before a body for its head, whose length has at most three digits.
pub const GAP: usize = 16;

/// Writes a field: its tag and `=`, its value, and SOH. Answers where it ends, at most `LONGEST_FIELD` bytes further.
#[inline]
pub fn field(into: &mut [u8], at: usize, tag: &[u8], value: &[u8]) -> usize
    requires room { at + LONGEST_FIELD ≤ length into.old }
    requires tag { length tag.now ≤ LONGEST_TAG }
    requires value { length value.now ≤ LONGEST_VALUE }
    ensures field { take result into.new ≡ take at into.old ++ (tag.now ++ value.now ++ SOH ∷ []) }
    ensures behind { drop result into.new ≡ drop result into.old }
    ensures end { result ≡ at + length tag.now + length value.now + 1 }
    ensures short { result ≤ at + LONGEST_FIELD }
{
    let end = append_few(into, at, tag);
    let end = append(into, end, value);
    append_few(into, end, &[SOH])
}

/// Writes a field whose value is a number, as `field` does.
#[inline]
pub fn number(into: &mut [u8], at: usize, tag: &[u8], n: u64) -> usize
    requires room { at + LONGEST_FIELD ≤ length into.old }
    requires tag { length tag.now ≤ LONGEST_TAG }
    ensures field { take result into.new ≡ take at into.old ++ (tag.now ++ decimal n ++ SOH ∷ []) }
    ensures behind { drop result into.new ≡ drop result into.old }
    ensures end { result ≡ at + length tag.now + length (decimal n) + 1 }
    ensures short { result ≤ at + LONGEST_FIELD }
{
    let end = append_few(into, at, tag);
    let end = append_number(into, end, n);
    append_few(into, end, &[SOH])
}

/// Writes a field whose value is a price with so many decimals, as `field` does.
#[inline]
pub fn price(into: &mut [u8], at: usize, tag: &[u8], price: Price, decimals: u8) -> usize
    requires room { at + LONGEST_FIELD ≤ length into.old }
    requires tag { length tag.now ≤ LONGEST_TAG }
    requires decimals { decimals ≤ MOST_DECIMALS }
    ensures field { take result into.new ≡ take at into.old ++ (tag.now ++ price_text price decimals ++ SOH ∷ []) }
    ensures short { result ≤ at + LONGEST_FIELD }
{
    let end = append_few(into, at, tag);
    let end = append_price(into, end, price, decimals);
    append_few(into, end, &[SOH])
}

/// Writes a field whose value is a name, as `field` does; what stands after it is left open.
#[inline]
pub fn name(into: &mut [u8], at: usize, tag: &[u8], name: &ShortId) -> usize
    requires room { at + LONGEST_FIELD ≤ length into.old }
    requires tag { length tag.now ≤ LONGEST_TAG }
    ensures field { take result into.new ≡ take at into.old ++ (tag.now ++ name.now ++ SOH ∷ []) }
    ensures short { result ≤ at + LONGEST_FIELD }
{
    let end = append_few(into, at, tag);
    let end = name.append_to(into, end);
    append_few(into, end, &[SOH])
}

/// Writes a field whose value is a time, as `name` does.
#[inline]
pub fn time(into: &mut [u8], at: usize, tag: &[u8], time: &Stamp) -> usize
    requires room { at + LONGEST_FIELD ≤ length into.old }
    requires tag { length tag.now ≤ LONGEST_TAG }
    ensures field { take result into.new ≡ take at into.old ++ (tag.now ++ time.now ++ SOH ∷ []) }
    ensures short { result ≤ at + LONGEST_FIELD }
{
    let end = append_few(into, at, tag);
    let end = time.append_to(into, end);
    append_few(into, end, &[SOH])
}

/// Writes a field whose value is a constant, as `field` does, byte by byte: the compiler makes a few stores of that.
#[inline]
pub fn word(into: &mut [u8], at: usize, tag: &[u8], word: &[u8]) -> usize
    requires room { at + LONGEST_FIELD ≤ length into.old }
    requires tag { length tag.now ≤ LONGEST_TAG }
    requires word { length word.now ≤ LONGEST_VALUE }
    ensures field { take result into.new ≡ take at into.old ++ (tag.now ++ word.now ++ SOH ∷ []) }
    ensures behind { drop result into.new ≡ drop result into.old }
    ensures end { result ≡ at + length tag.now + length word.now + 1 }
    ensures short { result ≤ at + LONGEST_FIELD }
{
    let end = append_few(into, at, tag);
    let end = append_few(into, end, word);
    append_few(into, end, &[SOH])
}

/// Puts the frame round a body that stands after the gap and ends at `end`: its head, its length and its checksum (FIX
/// 4.2). Moves it to the front, and answers where it ends.
pub fn put_frame(into: &mut [u8], end: usize) -> usize
    requires gap { GAP ≤ end }
    requires short { end + LONGEST_FIELD ≤ 1000 }
    requires room { LONGEST_LINE ≤ length into.old }
    ensures frame { take result into.new ≡ frame_of (decimal (end - GAP)) (drop GAP (take end into.old)) }
    ensures short { result ≤ end + LONGEST_FIELD }
{
    let end = put_head(into, end);
    put_trailer(into, end)
}

/// Puts the head of a body, which stands after the gap and ends at `end`, right before it at the front, and answers where the two
/// end. Most bodies have 100 bytes or more: their head fills the gap, and nothing moves.
#[inline]
fn put_head(into: &mut [u8], end: usize) -> usize
    requires gap { GAP ≤ end }
    requires short { end + LONGEST_FIELD ≤ 1000 }
    requires room { LONGEST_LINE ≤ length into.old }
    ensures head { take result into.new ≡ head_of (decimal (end - GAP)) ++ drop GAP (take end into.old) }
    ensures end { result ≤ end }
{
    let count = end - GAP;
    if count < 100 {
        return put_short_head(into, end);
    }
    fill_gap(into, count);
    end
}

/// Writes the head of a body of 100 to 999 bytes, which fills the gap.
#[inline]
fn fill_gap(into: &mut [u8], count: usize)
    requires count { (100 ≤ count) × (count < 1000) }
    requires room { LONGEST_LINE ≤ length into.old }
    ensures head { take GAP into.new ≡ head_of (decimal count) }
    ensures behind { drop GAP into.new ≡ drop GAP into.old }
{
    let at = append_few(into, 0, b"8=FIX.4.2\x019=");
    let at = append_three(into, at, count as u64);
    append_few(into, at, &[SOH]);
}

/// Puts the head of a body of fewer than 100 bytes as `put_head` does: it is shorter than the gap, so the body is moved.
#[cold]
#[inline(never)]
fn put_short_head(into: &mut [u8], end: usize) -> usize
    requires gap { (GAP ≤ end) × (end - GAP < 100) }
    requires room { LONGEST_LINE ≤ length into.old }
    ensures head { take result into.new ≡ head_of (decimal (end - GAP)) ++ drop GAP (take end into.old) }
    ensures end { result ≤ end }
{
    let count = end - GAP;
    let at = head_fields(into, count);
    move_body(into, end, at);
    at + count
}

/// Moves the body, which stands after the gap and ends at `end`, after the first `to` bytes, a block at a time: a copy within a
/// slice takes twice as long, since it may go either way. What stands after it is left open.
fn move_body(into: &mut [u8], end: usize, to: usize)
    requires gap { (GAP ≤ end) × (to < GAP) }
    requires room { end + BLOCK ≤ length into.old }
    ensures { take (to + (end - GAP)) into.new ≡ take to into.old ++ drop GAP (take end into.old) }
{
    let mut from = GAP;
    while from < end {
        let mut block = [0; BLOCK];
        block.copy_from_slice(&into[from..from + BLOCK]);
        append_few(into, to + (from - GAP), &block);
        from += BLOCK;
    }
}

/// Writes the head of a body of so few bytes into the gap.
#[tactic(auto, using(crate::proofs::Framing::few_digits))]
fn head_fields(into: &mut [u8], count: usize) -> usize
    requires few { count < 100 }
    requires room { LONGEST_LINE ≤ length into.old }
    ensures fields { take result into.new ≡ head_of (decimal count) }
    ensures behind { drop result into.new ≡ drop result into.old }
    ensures short { result < GAP }
{
    let at = word(into, 0, b"8=", b"FIX.4.2");
    number(into, at, b"9=", count as u64)
}

/// Writes the trailer of the first `end` bytes after them.
fn put_trailer(into: &mut [u8], end: usize) -> usize
    requires { end + BLOCK ≤ length into.old }
    ensures trailer { take result into.new ≡ take end into.old ++ trailer_of (take end into.old) }
    ensures short { result ≤ end + LONGEST_FIELD }
{
    let sum = checksum_before(into, end);
    append_trailer(into, end, sum)
}

/// Writes the trailer with this checksum after the first `at` bytes.
#[inline]
fn append_trailer(into: &mut [u8], at: usize, sum: u8) -> usize
    requires { at + TRAILER_LENGTH ≤ length into.old }
    ensures trailer { take result into.new ≡ take at into.old ++ trailer_with sum }
    ensures end { result ≡ at + TRAILER_LENGTH }
{
    let hundreds = hundredth(u64::from(sum));
    let end = append_few(into, at, b"10=");
    let end = append_few(into, end, &[b'0' + hundreds as u8]);
    let end = append_pair(into, end, u64::from(sum) - hundreds * 100);
    append_few(into, end, &[SOH])
}

/// The checksum of the first `end` bytes. The block after them is filled with zeros, so that whole blocks are summed.
fn checksum_before(into: &mut [u8], end: usize) -> u8
    requires { end + BLOCK ≤ length into.old }
    ensures sum { result ≡ checksum_of (take end into.old) }
    ensures before { take end into.new ≡ take end into.old }
{
    append_few(into, end, &[0; BLOCK]);
    let whole = (end + BLOCK - 1) / BLOCK * BLOCK;
    checksum_of_blocks(&into[..whole])
}
