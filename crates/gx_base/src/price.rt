//! Prices in units, and how they are read from texts.
ghost use Rattle.std.specs.Prelude.{◌≡◌, ◌+◌, ◌*◌, ◌^◌, ◌≤◌, ◌++◌, ◌&&◌, Some, None, if◌then◌else◌, nat_le, min, length, take, drop, replicate};
ghost use Rattle.std.specs.Str.Parse.{digits_value};
ghost use Rattle.gx_base.specs.Numbers.{are_digits, are_zeros, has_minus, signed_units, unsigned_text, price_of};

use crate::bytes::split_at_byte;
use crate::digits::{CEILING, are_digits, are_zeros, read_if_digits};
use crate::limits::{MOST_DECIMALS, MOST_PRICE_UNITS};
use crate::short_price::read_short_price;
use std::cmp;
use thiserror::Error;

/// How many bytes a price has at most in a message (our own rule, within the float format of FIX 4.2).
const LONGEST_PRICE: usize = 32;

const POWERS_OF_TEN: [u64; MOST_DECIMALS as usize + 1] = [
    1,
    10,
    100,
    1_000,
    10_000,
    100_000,
    1_000_000,
    10_000_000,
    100_000_000,
];

/// How many units there are in one, if prices have so many decimals.
#[inline]
pub fn power_of_ten(decimals: u8) -> u64
    requires { decimals ≤ MOST_DECIMALS }
    ensures value { result ≡ 10 ^ decimals }
    ensures low { result ≤ 10 ^ MOST_DECIMALS }
{
    POWERS_OF_TEN[decimals as usize]
}

/// A price in units, which are 10 to the power of minus the instrument's decimals.
#[derive(Clone, Copy, Debug, PartialEq, Eq)]
pub struct Price(pub i64);

/// Why a text is no price of an instrument. The faults are tried in this order.
#[derive(Clone, Copy, Debug, Error, PartialEq, Eq)]
pub enum PriceFault {
    /// Not an optional minus sign, digits, and optionally a point and digits, in at most `LONGEST_PRICE` bytes.
    #[error("the price is not written as a number in at most 32 bytes")]
    Format,
    /// A digit after the instrument's decimals is not 0.
    #[error("the price has more decimals than the instrument")]
    Scale,
    /// Beyond `MOST_PRICE_UNITS` units, either way.
    #[error("the price is beyond 999999999999 units")]
    Range,
}

/// The price that a text writes, in units of 10 to the power of minus `decimals`, of which there are at most
/// `MOST_DECIMALS`; or the
/// first fault in the order of `PriceFault`. Our own rule, within the float format of FIX 4.2.
#[inline(never)] // Else what reads the prices of a message grows too large to be put into its caller.
pub fn read_price(text: &[u8], decimals: u8) -> Result<Price, PriceFault>
    requires { decimals ≤ MOST_DECIMALS }
    ensures { result ≡ price_of text.now decimals }
{
    match read_short_price(text, decimals) {
        Some(price) => Ok(price),
        None => read_any_price(text, decimals),
    }
}

/// The same, of a text of any length.
#[inline(never)]
fn read_any_price(text: &[u8], decimals: u8) -> Result<Price, PriceFault>
    requires { decimals ≤ MOST_DECIMALS }
    ensures { result ≡ price_of text.now decimals }
{
    let (whole, fraction) = split_at_byte(without_minus(text), b'.');
    if text.len() > LONGEST_PRICE {
        return Err(PriceFault::Format);
    }
    let units = read_units(whole, fraction, decimals).ok_or(PriceFault::Format)?;
    if !are_zeros_behind(fraction, decimals) {
        return Err(PriceFault::Scale);
    }
    if units > MOST_PRICE_UNITS {
        return Err(PriceFault::Range);
    }
    Ok(Price(with_sign(units, has_minus(text))))
}

/// Whether the first byte is a minus sign.
#[inline]
fn has_minus(text: &[u8]) -> bool
    ensures { result ≡ has_minus text.now }
{
    !text.is_empty() && text[0] == b'-'
}

/// The text after its minus sign, if it has one.
#[inline]
fn without_minus(text: &[u8]) -> &[u8]
    ensures { result.now ≡ unsigned_text text.now }
{
    if has_minus(text) { &text[1..] } else { text }
}

/// The number whose digits are those of `whole` and the first `decimals` of `fraction`, filled up with zeros, or
/// `CEILING` where that is less. `None` where there is no digit at all, or a byte is none.
#[inline]
fn read_units(whole: &[u8], fraction: &[u8], decimals: u8) -> Option<u64>
    ensures { result ≡ (if nat_le 1 (length whole.now + length fraction.now) && are_digits whole.now && are_digits fraction.now then Some
        (min CEILING (digits_value 10 (whole.now ++ take decimals (fraction.now ++ replicate decimals 48)))) else None) }
{
    let kept = cmp::min(fraction.len(), decimals as usize);
    if whole.len() + fraction.len() == 0 || !are_digits(&fraction[kept..]) {
        return None;
    }
    let units = read_if_digits(read_if_digits(0, whole)?, &fraction[..kept])?;
    Some(with_zeros(units, decimals - kept as u8))
}

/// The number with so many zeros after its digits, or `CEILING` where that is less.
#[inline]
fn with_zeros(number: u64, zeros: u8) -> u64
    requires { number ≤ CEILING }
    ensures { result ≡ min CEILING (number * 10 ^ zeros) }
{
    let mut longer = number;
    for _ in 0..zeros {
        longer = cmp::min(CEILING, longer * 10);
    }
    longer
}

/// Whether each digit after the first `decimals` is 0.
#[inline]
fn are_zeros_behind(fraction: &[u8], decimals: u8) -> bool
    ensures { result ≡ are_zeros (drop decimals fraction.now) }
{
    let kept = cmp::min(fraction.len(), decimals as usize);
    are_zeros(&fraction[kept..])
}

/// So many units, or as many below zero.
#[inline]
fn with_sign(units: u64, negative: bool) -> i64
    requires { units ≤ MOST_PRICE_UNITS }
    ensures { result ≡ signed_units negative units }
{
    let units = units as i64;
    if negative { -units } else { units }
}
