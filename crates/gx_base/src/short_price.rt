//! Prices of few bytes, as nearly all are, which are read in one pass.
ghost use Rattle.std.specs.Prelude.{◌≡◌, ◌+◌, ◌*◌, ◌^◌, ◌≤◌, IfSome, IsTrue, Ok, length, take};
ghost use Rattle.std.specs.Str.Parse.{digits_value_after};
ghost use Rattle.gx_base.specs.Numbers.{are_digits, price_of};
ghost use Rattle.gx_base.specs.Inner.ShortPrices.{HasUnits};

use crate::limits::{MOST_DECIMALS, MOST_PRICE_UNITS};
use crate::price::{Price, power_of_ten};

/// How many bytes such a price has at most: so many digits and `MOST_DECIMALS` zeros after them fit `u64`.
const LONGEST: usize = 11;

/// The price that a text writes, if it has few bytes, begins with a digit, and has no more decimals than these. `None` says nothing
/// of the text.
#[inline]
pub(crate) fn read_short_price(text: &[u8], decimals: u8) -> Option<Price>
    requires { decimals ≤ MOST_DECIMALS }
    ensures { IfSome result (λ price. price_of text.now decimals ≡ Ok price) }
{
    let units = read_short_units(text, decimals)?;
    if units > MOST_PRICE_UNITS {
        return None;
    }
    Some(Price(units as i64))
}

/// The number of such a text, in units.
#[inline]
fn read_short_units(text: &[u8], decimals: u8) -> Option<u64>
    requires { decimals ≤ MOST_DECIMALS }
    ensures { IfSome result (λ units. HasUnits text.now decimals units) }
{
    if text.len() > LONGEST {
        return None;
    }
    let (whole, number) = read_run(text, 0);
    if whole == 0 {
        return None;
    }
    if whole == text.len() {
        return Some(number * power_of_ten(decimals));
    }
    if text[whole] != b'.' {
        return None;
    }
    let fraction = &text[whole + 1..];
    let (count, number) = read_run(fraction, number);
    if count < fraction.len() || fraction.len() > decimals as usize {
        return None;
    }
    Some(number * power_of_ten(decimals - fraction.len() as u8))
}

/// How many digits a text begins with, and the number that they write after those of `front`.
#[inline(always)]
fn read_run(text: &[u8], front: u64) -> (usize, u64)
    requires { (front + 1) * 10 ^ length text.now ≤ 10 ^ LONGEST }
    ensures count { result.0 ≤ length text.now }
    ensures digits { IsTrue (are_digits (take result.0 text.now)) }
    ensures number { result.1 ≡ digits_value_after 10 front (take result.0 text.now) }
    ensures low { result.1 + 1 ≤ (front + 1) * 10 ^ result.0 }
{
    let mut number = front;
    for k in 0..text.len() {
        let digit = u64::from(text[k]).wrapping_sub(u64::from(b'0'));
        if digit > 9 {
            return (k, number);
        }
        number = number * 10 + digit;
    }
    (text.len(), number)
}
