//! Prices as reports write them, after other bytes.
ghost use Rattle.std.specs.Prelude.{◌≡◌, ◌+◌, ◌*◌, ◌/◌, ◌^◌, ◌<◌, ◌≤◌, ◌++◌, length, take, decimal};
ghost use Rattle.gx_base.specs.Numbers.{fraction_text, price_text};

use crate::decimal::{append_number, append_pair, append_short, write_fixed_digits};
use gx_base::{LONGEST_VALUE, MOST_DECIMALS, Price, append, append_few, power_of_ten};

/// Writes a price with exactly `decimals` digits after the point, at most `MOST_DECIMALS`, into the front of `into`, and
/// answers how many bytes that takes; what stands after them is left open. There is at least one digit before the point,
/// and no point where `decimals` is 0. It takes every `i64`, also those that `read_price` refuses.
pub fn write_price(price: Price, decimals: u8, into: &mut [u8; LONGEST_VALUE]) -> usize
    requires { decimals ≤ MOST_DECIMALS }
    ensures text { take result into.new ≡ price_text price decimals }
    ensures count { result ≡ length (price_text price decimals) }
    ensures short { result ≤ LONGEST_VALUE }
{
    append_price(into, 0, price, decimals)
}

/// Writes a price as `write_price` does, but after the first `at` bytes of `into`, and answers where it ends. Most prices have two
/// decimals and at most four digits before the point: these are written in place, without a quotient by a power that is read.
#[inline(always)]
pub(crate) fn append_price(into: &mut [u8], at: usize, price: Price, decimals: u8) -> usize
    requires few { decimals ≤ MOST_DECIMALS }
    requires room { at + LONGEST_VALUE ≤ length into.old }
    ensures text { take result into.new ≡ take at into.old ++ price_text price decimals }
    ensures end { result ≡ at + length (price_text price decimals) }
    ensures short { result ≤ at + LONGEST_VALUE }
{
    if decimals == 2 {
        return append_usual_price(into, at, price);
    }
    append_any_price(into, at, price, decimals)
}

/// Writes a price of two decimals, as `append_price` does.
#[inline(always)]
fn append_usual_price(into: &mut [u8], at: usize, price: Price) -> usize
    requires { at + LONGEST_VALUE ≤ length into.old }
    ensures text { take result into.new ≡ take at into.old ++ price_text price 2 }
    ensures end { result ≡ at + length (price_text price 2) }
    ensures short { result ≤ at + LONGEST_VALUE }
{
    if price.0 >= 0 && price.0 < 1_000_000 {
        return append_hundredths(into, at, price.0 as u64);
    }
    append_any_price(into, at, price, 2)
}

/// Writes a price of two decimals that is not negative, and below 10,000.
#[inline(always)]
fn append_hundredths(into: &mut [u8], at: usize, units: u64) -> usize
    requires { (units < 1000000) × (at + 7 ≤ length into.old) }
    ensures text { take result into.new ≡ take at into.old ++ (decimal (units / 100) ++ fraction_text 2 units) }
    ensures end { result ≡ at + length (decimal (units / 100)) + 3 }
    ensures short { result ≤ at + 7 }
{
    let whole = units / 100;
    let end = append_short(into, at, whole);
    let end = append_few(into, end, b".");
    append_pair(into, end, units - whole * 100)
}

/// Writes any price, as `append_price` does.
#[inline(never)]
fn append_any_price(into: &mut [u8], at: usize, price: Price, decimals: u8) -> usize
    requires few { decimals ≤ MOST_DECIMALS }
    requires room { at + LONGEST_VALUE ≤ length into.old }
    ensures text { take result into.new ≡ take at into.old ++ price_text price decimals }
    ensures end { result ≡ at + length (price_text price decimals) }
    ensures short { result ≤ at + LONGEST_VALUE }
{
    let units = price.0.unsigned_abs();
    let sign: &[u8] = if price.0 < 0 { b"-" } else { b"" };
    let end = append(into, at, sign);
    let end = append_number(into, end, units / power_of_ten(decimals));
    append_fraction(into, end, units, decimals)
}

/// Writes a point and the last `decimals` digits of a number after the first `end` bytes of `into`, or nothing where
/// `decimals` is 0. Answers where they end. Two digits, which most instruments have, are written at once.
#[inline]
fn append_fraction(into: &mut [u8], end: usize, units: u64, decimals: u8) -> usize
    requires few { decimals ≤ MOST_DECIMALS }
    requires room { end + decimals + 1 ≤ length into.old }
    ensures text { take result into.new ≡ take end into.old ++ fraction_text decimals units }
    ensures end { result ≡ end + length (fraction_text decimals units) }
{
    if decimals == 0 {
        return end;
    }
    let start = append(into, end, b".");
    if decimals == 2 {
        return append_pair(into, start, units % 100);
    }
    let end = start + decimals as usize;
    write_fixed_digits(units, &mut into[start..end]);
    end
}
