//! Fields in a row, each of which begins with the byte that ends the one before it: this byte, a tag, and whole fields between that are
//! constants are one text, of which the compiler makes a store or two. Each call writes after the first `at` bytes of the room that
//! it is lent, and answers where the value that it wrote ends.
ghost use Rattle.std.specs.Prelude.{◌≡◌, ◌+◌, ◌≤◌, [], ◌∷◌, ◌++◌, length, take, drop, decimal};
ghost use Rattle.gx_base.specs.Numbers.{price_text};
ghost use Rattle.line_parts.specs.Rows.{ended};

use crate::decimal::{append_counter, append_number};
use crate::price::append_price;
use gx_base::{LONGEST_VALUE, MOST_DECIMALS, Price, SOH, ShortId, Stamp, append, append_few};

/// Ends the field before, and writes a constant text.
#[inline]
pub fn text(into: &mut [u8], at: usize, text: &[u8]) -> usize
    requires room { at + length text.now ≤ length into.old }
    requires begins { take 1 text.now ≡ SOH ∷ [] }
    ensures fields { ended result into.new ≡ ended at into.old ++ (drop 1 text.now ++ SOH ∷ []) }
    ensures end { result ≡ at + length text.now }
{
    append_few(into, at, text)
}

/// Ends the field before, and writes a constant front and a value. Answers where this ends.
#[inline]
pub fn field(into: &mut [u8], at: usize, front: &[u8], value: &[u8]) -> usize
    requires room { at + length front.now + length value.now ≤ length into.old }
    requires begins { take 1 front.now ≡ SOH ∷ [] }
    ensures field { ended result into.new ≡ ended at into.old ++ (drop 1 front.now ++ value.now ++ SOH ∷ []) }
    ensures end { result ≡ at + length front.now + length value.now }
{
    let end = append_few(into, at, front);
    append(into, end, value)
}

/// Writes a value of one byte, as `field` does.
#[inline]
pub fn letter(into: &mut [u8], at: usize, front: &[u8], letter: u8) -> usize
    requires room { at + length front.now + 1 ≤ length into.old }
    requires begins { take 1 front.now ≡ SOH ∷ [] }
    ensures field { ended result into.new ≡ ended at into.old ++ (drop 1 front.now ++ (letter ∷ []) ++ SOH ∷ []) }
    ensures end { result ≡ at + length front.now + 1 }
{
    let end = append_few(into, at, front);
    append_few(into, end, &[letter])
}

/// Writes a value that is a number, as `field` does.
#[inline]
pub fn number(into: &mut [u8], at: usize, front: &[u8], n: u64) -> usize
    requires room { at + length front.now + LONGEST_VALUE ≤ length into.old }
    requires begins { take 1 front.now ≡ SOH ∷ [] }
    ensures field { ended result into.new ≡ ended at into.old ++ (drop 1 front.now ++ decimal n ++ SOH ∷ []) }
    ensures short { result ≤ at + length front.now + LONGEST_VALUE }
{
    let end = append_few(into, at, front);
    append_number(into, end, n)
}

/// Writes a value that is a counter, which mostly has five or six digits, as `field` does.
#[inline]
pub fn counter(into: &mut [u8], at: usize, front: &[u8], n: u64) -> usize
    requires room { at + length front.now + LONGEST_VALUE ≤ length into.old }
    requires begins { take 1 front.now ≡ SOH ∷ [] }
    ensures field { ended result into.new ≡ ended at into.old ++ (drop 1 front.now ++ decimal n ++ SOH ∷ []) }
    ensures short { result ≤ at + length front.now + LONGEST_VALUE }
{
    let end = append_few(into, at, front);
    append_counter(into, end, n)
}

/// Writes a value that is a price with so many decimals, as `field` does.
#[inline]
pub fn price(into: &mut [u8], at: usize, front: &[u8], price: Price, decimals: u8) -> usize
    requires room { at + length front.now + LONGEST_VALUE ≤ length into.old }
    requires begins { take 1 front.now ≡ SOH ∷ [] }
    requires decimals { decimals ≤ MOST_DECIMALS }
    ensures field { ended result into.new ≡ ended at into.old ++ (drop 1 front.now ++ price_text price decimals ++ SOH ∷ []) }
    ensures short { result ≤ at + length front.now + LONGEST_VALUE }
{
    let end = append_few(into, at, front);
    append_price(into, end, price, decimals)
}

/// Writes a value that is a name, as `field` does; what stands after it is left open.
#[inline]
pub fn name(into: &mut [u8], at: usize, front: &[u8], name: &ShortId) -> usize
    requires room { at + length front.now + LONGEST_VALUE ≤ length into.old }
    requires begins { take 1 front.now ≡ SOH ∷ [] }
    ensures field { ended result into.new ≡ ended at into.old ++ (drop 1 front.now ++ name.now ++ SOH ∷ []) }
    ensures short { result ≤ at + length front.now + LONGEST_VALUE }
{
    let end = append_few(into, at, front);
    name.append_to(into, end)
}

/// Writes a value that is a time, as `name` does.
#[inline]
pub fn time(into: &mut [u8], at: usize, front: &[u8], time: &Stamp) -> usize
    requires room { at + length front.now + LONGEST_VALUE ≤ length into.old }
    requires begins { take 1 front.now ≡ SOH ∷ [] }
    ensures field { ended result into.new ≡ ended at into.old ++ (drop 1 front.now ++ time.now ++ SOH ∷ []) }
    ensures short { result ≤ at + length front.now + LONGEST_VALUE }
{
    let end = append_few(into, at, front);
    time.append_to(into, end)
}

/// Writes a value that is a number after the tag of its field, with which the first `at` bytes end. Answers where it ends.
#[inline]
pub fn number_value(into: &mut [u8], at: usize, n: u64) -> usize
    requires { at + LONGEST_VALUE ≤ length into.old }
    ensures value { ended result into.new ≡ take at into.old ++ (decimal n ++ SOH ∷ []) }
    ensures short { result ≤ at + LONGEST_VALUE }
{
    append_number(into, at, n)
}

/// Writes a value that is a counter, as `number_value` does.
#[inline]
pub fn counter_value(into: &mut [u8], at: usize, n: u64) -> usize
    requires { at + LONGEST_VALUE ≤ length into.old }
    ensures value { ended result into.new ≡ take at into.old ++ (decimal n ++ SOH ∷ []) }
    ensures short { result ≤ at + LONGEST_VALUE }
{
    append_counter(into, at, n)
}

/// Writes a value that is a time, as `number_value` does; what stands after it is left open.
#[inline]
pub fn time_value(into: &mut [u8], at: usize, time: &Stamp) -> usize
    requires { at + LONGEST_VALUE ≤ length into.old }
    ensures value { ended result into.new ≡ take at into.old ++ (time.now ++ SOH ∷ []) }
    ensures short { result ≤ at + LONGEST_VALUE }
{
    time.append_to(into, at)
}

/// Ends the field before, and writes a constant text that ends the row.
#[inline]
pub fn last_text(into: &mut [u8], at: usize, text: &[u8]) -> usize
    requires room { at + length text.now ≤ length into.old }
    requires begins { take 1 text.now ≡ SOH ∷ [] }
    ensures row { take result into.new ≡ ended at into.old ++ drop 1 text.now }
    ensures end { result ≡ at + length text.now }
{
    append_few(into, at, text)
}

/// Ends the last field of a row.
#[inline]
pub fn end_row(into: &mut [u8], at: usize) -> usize
    requires { at + 1 ≤ length into.old }
    ensures row { take result into.new ≡ ended at into.old }
    ensures end { result ≡ at + 1 }
{
    append_few(into, at, &[SOH])
}
