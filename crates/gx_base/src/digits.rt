//! Digits in texts.
ghost use Rattle.std.specs.Prelude.{◌≡◌, ◌≤◌, IsTrue, Some, None, if◌then◌else◌, length, min};
ghost use Rattle.std.specs.Str.Parse.{digits_value, digits_value_after};
ghost use Rattle.gx_base.specs.Numbers.{are_digits, are_zeros};

use crate::limits::MOST_PRICE_UNITS;
use std::cmp;

/// How many digits a quantity, a tag and a sequence number have at most: any number of so many fits `u32`.
pub const MOST_DIGITS: usize = 9;

/// One more than the greatest price in units. Numbers that are read stop growing there, so that no text overflows.
pub(crate) const CEILING: u64 = MOST_PRICE_UNITS + 1;

/// Whether each byte is a digit.
#[inline]
pub fn are_digits(text: &[u8]) -> bool
    ensures { result ≡ are_digits text.now }
{
    text.iter().all(|c| c.is_ascii_digit())
}

/// Whether each byte is the digit 0.
#[inline]
pub(crate) fn are_zeros(text: &[u8]) -> bool
    ensures { result ≡ are_zeros text.now }
{
    text.iter().all(|c| *c == b'0')
}

/// The number that these digits write after those of `front`, or `CEILING` where that is less.
#[inline]
pub(crate) fn read_on(front: u64, digits: &[u8]) -> u64
    requires low { front ≤ CEILING }
    requires digits { IsTrue (are_digits digits.now) }
    ensures { result ≡ min CEILING (digits_value_after 10 front digits.now) }
{
    let mut number = front;
    for digit in digits {
        number = cmp::min(CEILING, number * 10 + u64::from(*digit - b'0'));
    }
    number
}

/// The number that `read_on` reads, where each byte is a digit, in one pass. `None` where one is not.
#[inline]
pub(crate) fn read_if_digits(front: u64, text: &[u8]) -> Option<u64>
    requires low { front ≤ CEILING }
    ensures { result ≡ (if are_digits text.now then Some (min CEILING (digits_value_after 10 front text.now)) else None) }
{
    let mut number = front;
    for c in text {
        let digit = u64::from(*c).wrapping_sub(u64::from(b'0'));
        if digit > 9 {
            return None;
        }
        number = cmp::min(CEILING, number * 10 + digit);
    }
    Some(number)
}

/// The number that at most `MOST_DIGITS` digits write.
#[inline]
pub fn read_digits(digits: &[u8]) -> u32
    requires digits { IsTrue (are_digits digits.now) }
    requires short { length digits.now ≤ MOST_DIGITS }
    ensures { result ≡ digits_value 10 digits.now }
{
    read_on(0, digits) as u32
}
