//! Numbers in decimal digits, written after other bytes, two digits at a time.
ghost use Rattle.std.specs.Prelude.{◌≡◌, ◌+◌, ◌/◌, ◌%◌, ◌<◌, ◌≤◌, [], ◌∷◌, ◌++◌, decimal, length, take, drop};
ghost use Rattle.gx_base.specs.Numbers.{fixed_digits};

use gx_base::{append, append_few};
use itoa::Buffer;

/// How many digits a number has at most.
pub(crate) const MOST_NUMBER_DIGITS: usize = 20;

/// The two digits of each number below 100.
static PAIRS: [u8; 200] =
    *b"00010203040506070809101112131415161718192021222324252627282930313233343536373839404142434445464748495051525354555657585960616263646566676869707172737475767778798081828384858687888990919293949596979899";

/// Writes the digits of a number after the first `at` bytes of `into`, and answers where they end. Up to four digits, which most
/// quantities have, are written in place, and more of them by a call.
#[inline(always)]
pub(crate) fn append_number(into: &mut [u8], at: usize, n: u64) -> usize
    requires { at + MOST_NUMBER_DIGITS ≤ length into.old }
    ensures digits { take result into.new ≡ take at into.old ++ decimal n }
    ensures behind { drop result into.new ≡ drop result into.old }
    ensures end { result ≡ at + length (decimal n) }
    ensures short { result ≤ at + MOST_NUMBER_DIGITS }
{
    if n < 100 {
        return append_first(into, at, n);
    }
    if n >= 10_000 {
        return append_any(into, at, n);
    }
    append_hundreds(into, at, n)
}

/// Writes the digits of a counter, as `append_number` does. Five or six digits, which it has for most of a day, are written in place.
#[inline(always)]
pub(crate) fn append_counter(into: &mut [u8], at: usize, n: u64) -> usize
    requires { at + MOST_NUMBER_DIGITS ≤ length into.old }
    ensures digits { take result into.new ≡ take at into.old ++ decimal n }
    ensures behind { drop result into.new ≡ drop result into.old }
    ensures end { result ≡ at + length (decimal n) }
    ensures short { result ≤ at + MOST_NUMBER_DIGITS }
{
    if n < 10_000 || n >= 1_000_000 {
        return append_any(into, at, n);
    }
    let hundreds = n / 100;
    let first = hundredth(hundreds);
    let end = append_first(into, at, first);
    let end = append_pair(into, end, hundreds - first * 100);
    append_pair(into, end, n - hundreds * 100)
}

/// Writes the digits of any number, as `append_number` does.
#[inline(never)]
fn append_any(into: &mut [u8], at: usize, n: u64) -> usize
    requires { at + MOST_NUMBER_DIGITS ≤ length into.old }
    ensures digits { take result into.new ≡ take at into.old ++ decimal n }
    ensures behind { drop result into.new ≡ drop result into.old }
    ensures end { result ≡ at + length (decimal n) }
    ensures short { result ≤ at + MOST_NUMBER_DIGITS }
{
    if n < 10_000 {
        return append_short(into, at, n);
    }
    if n < 100_000_000 {
        let end = append_short(into, at, n / 10_000);
        return append_four(into, end, n % 10_000);
    }
    append(into, at, Buffer::new().format(n).as_bytes())
}

/// Writes the digits of a number of at most four, as `append_number` does.
#[inline(always)]
pub(crate) fn append_short(into: &mut [u8], at: usize, n: u64) -> usize
    requires { (n < 10000) × (at + 4 ≤ length into.old) }
    ensures digits { take result into.new ≡ take at into.old ++ decimal n }
    ensures behind { drop result into.new ≡ drop result into.old }
    ensures end { result ≡ at + length (decimal n) }
    ensures short { result ≤ at + 4 }
{
    if n < 100 {
        return append_first(into, at, n);
    }
    append_hundreds(into, at, n)
}

/// Writes the digits of a number of three or four, as `append_number` does.
#[inline(always)]
fn append_hundreds(into: &mut [u8], at: usize, n: u64) -> usize
    requires { (100 ≤ n) × (n < 10000) × (at + 4 ≤ length into.old) }
    ensures digits { take result into.new ≡ take at into.old ++ decimal n }
    ensures behind { drop result into.new ≡ drop result into.old }
    ensures end { result ≡ at + length (decimal n) }
    ensures short { result ≤ at + 4 }
{
    let hundreds = hundredth(n);
    let end = append_first(into, at, hundreds);
    append_pair(into, end, n - hundreds * 100)
}

/// Writes the digits of a number of just three.
#[inline]
pub(crate) fn append_three(into: &mut [u8], at: usize, n: u64) -> usize
    requires three { (100 ≤ n) × (n < 1000) }
    requires room { at + 3 ≤ length into.old }
    ensures digits { take result into.new ≡ take at into.old ++ decimal n }
    ensures behind { drop result into.new ≡ drop result into.old }
    ensures end { result ≡ at + 3 }
{
    let hundreds = hundredth(n);
    let end = append_few(into, at, &[b'0' + hundreds as u8]);
    append_pair(into, end, n - hundreds * 100)
}

/// Writes all four digits of a number below 10,000, the first of which may be 0.
#[inline(always)]
fn append_four(into: &mut [u8], at: usize, n: u64) -> usize
    requires { (n < 10000) × (at + 4 ≤ length into.old) }
    ensures digits { take result into.new ≡ take at into.old ++ (48 + n / 100 / 10) ∷ (48 + n / 100 % 10) ∷ (48 + n % 100 / 10) ∷ (48 + n % 10) ∷ [] }
    ensures behind { drop result into.new ≡ drop result into.old }
    ensures end { result ≡ at + 4 }
{
    let hundreds = hundredth(n);
    let end = append_pair(into, at, hundreds);
    append_pair(into, end, n - hundreds * 100)
}

/// A hundredth of a number below 10,000: a product and a shift, which take less than a quotient.
#[inline]
pub(crate) fn hundredth(n: u64) -> u64
    requires { n < 10000 }
    ensures { result ≡ n / 100 }
{
    n * 5_243 >> 19
}

/// Writes the digits of a number of one or two, as `append_number` does.
#[inline(always)]
fn append_first(into: &mut [u8], at: usize, n: u64) -> usize
    requires { (n < 100) × (at + 2 ≤ length into.old) }
    ensures digits { take result into.new ≡ take at into.old ++ decimal n }
    ensures behind { drop result into.new ≡ drop result into.old }
    ensures end { result ≡ at + length (decimal n) }
    ensures short { result ≤ at + 2 }
{
    if n < 10 {
        return append_few(into, at, &[b'0' + n as u8]);
    }
    append_pair(into, at, n)
}

/// Writes both digits of a number below 100, the first of which may be 0.
#[inline]
pub(crate) fn append_pair(into: &mut [u8], at: usize, n: u64) -> usize
    requires { (n < 100) × (at + 2 ≤ length into.old) }
    ensures digits { take result into.new ≡ take at into.old ++ (48 + n / 10) ∷ (48 + n % 10) ∷ [] }
    ensures behind { drop result into.new ≡ drop result into.old }
    ensures end { result ≡ at + 2 }
{
    append_few(into, at, &pair(n))
}

/// Both digits of a number below 100, the first of which may be 0.
#[inline]
pub(crate) fn pair(n: u64) -> [u8; 2]
    requires { n < 100 }
    ensures { result ≡ (48 + n / 10) ∷ (48 + n % 10) ∷ [] }
{
    let place = n as usize * 2;
    [PAIRS[place], PAIRS[place + 1]]
}

/// Fills `into` with the last digits of a number, with zeros in front where it has fewer. Two at a time, from the end.
pub(crate) fn write_fixed_digits(n: u64, into: &mut [u8])
    ensures { into.new ≡ fixed_digits (length into.old) n }
{
    let mut front = n;
    let mut at = into.len();
    while at >= 2 {
        at -= 2;
        let digits = pair(front % 100);
        into[at] = digits[0];
        into[at + 1] = digits[1];
        front /= 100;
    }
    if at == 1 {
        into[0] = b'0' + (front % 10) as u8;
    }
}
