//! Times as messages write them.
ghost use Rattle.std.specs.Prelude.{◌≡◌, ◌+◌, ◌*◌, ◌≤◌, ◌++◌, SomeIff, IsTrue, length, take, codes};
ghost use Rattle.gx_base.specs.Texts.{is_time_text, is_time_of_seconds, part_of, is_stamp};
ghost use Rattle.gx_base.specs.Inner.Times.{has_form, has_ranges, is_between};

use crate::digits::are_digits;
use crate::text::Text;
use std::marker::Model;
use std::simd::prelude::*;

/// How many bytes a time has at most.
pub const LONGEST_STAMP: usize = 21;

/// The least byte at each of the first sixteen places of a time.
const LEAST: [u8; 16] = *b"00000000-00:00:0";

/// The greatest one.
const GREATEST: [u8; 16] = *b"99991939-29:59:6";

/// A time of a message, as its text: `YYYYMMDD-HH:MM:SS`, with or without `.` and three digits (the UTC timestamp of
/// FIX 4.2), or `00000000-00:00:00` for none. Contracts see it as this text.
#[derive(Clone, Copy, Debug, PartialEq, Eq)]
pub struct Stamp {
    text: Text<LONGEST_STAMP>,
}

impl Model for Stamp {
    ghost use Rattle.std.specs.Prelude.{List, ℕ};

    ghost Value = { List ℕ };

    ghost use Rattle.std.specs.Prelude.{IsTrue};
    ghost use Rattle.gx_base.specs.Texts.{is_stamp};

    ghost view = { λ stamp. stamp.text };

    ghost invariant = { λ stamp. IsTrue (is_stamp stamp.text) };

    ghost inverse = { λ xs. record { text = xs } };
}

impl Stamp {
    /// The stamp with this text. `None` exactly where it is no time: the form is `YYYYMMDD-HH:MM:SS`, or the same
    /// and `.` and three digits, with month 01 to 12, day 01 to 31, hour 00 to 23, minute 00 to 59, second 00 to 60.
    pub fn new(text: &[u8]) -> Option<Stamp>
        ensures { SomeIff result (IsTrue (is_time_text text.now)) text.now }
    {
        if !is_time_text(text) {
            return None;
        }
        Some(Stamp {
            text: copy_of(text),
        })
    }

    /// The text `00000000-00:00:00`, which stands where there is no time. `new` refuses it.
    pub fn none() -> Stamp
        ensures { result ≡ codes "00000000-00:00:00" }
    {
        Stamp {
            text: Text::new(b"00000000-00:00:00"),
        }
    }

    /// Lends the text.
    #[inline]
    pub fn bytes(&self) -> &[u8]
        ensures bytes { result.now ≡ self.now }
        ensures stamp { IsTrue (is_stamp result.now) }
    {
        self.text.bytes()
    }

    /// Writes the text after the first `at` bytes of `into`, and answers where it ends; what stands after it is left open.
    #[inline]
    pub fn append_to(&self, into: &mut [u8], at: usize) -> usize
        requires { at + LONGEST_STAMP ≤ length into.old }
        ensures bytes { take result into.new ≡ take at into.old ++ self.now }
        ensures short { result ≤ at + LONGEST_STAMP }
    {
        self.text.append_to(into, at)
    }
}

/// A copy of the text of a time. One of a length that the compiler knows is a few stores.
#[inline]
fn copy_of(text: &[u8]) -> Text<LONGEST_STAMP>
    requires { length text.now ≤ LONGEST_STAMP }
    ensures { result ≡ text.now }
{
    if text.len() == 17 {
        return Text::new(&text[..17]);
    }
    Text::new(text)
}

/// Whether a text is a time, without or with milliseconds.
#[inline]
fn is_time_text(text: &[u8]) -> bool
    ensures { result ≡ is_time_text text.now }
{
    match text.len() {
        17 => is_time_of_seconds(text),
        21 => text[17] == b'.' && are_digits(&text[18..21]) && is_time_of_seconds(text),
        _ => false,
    }
}

/// Whether a text begins with `YYYYMMDD-HH:MM:SS`.
#[tactic(auto, using(crate::proofs::Times::spread))]
#[inline]
fn is_time_of_seconds(text: &[u8]) -> bool
    requires { 17 ≤ length text.now }
    ensures { result ≡ is_time_of_seconds text.now }
{
    // The pairs first: after the block they would be taken out of it, which takes more than to read them.
    has_ranges(text) && text[16].is_ascii_digit() && has_form(text)
}

/// Whether each of the first sixteen bytes lies between those of `LEAST` and of `GREATEST`. All are compared at once.
#[inline]
fn has_form(text: &[u8]) -> bool
    requires { 17 ≤ length text.now }
    ensures { result ≡ has_form text.now }
{
    let block = u8x16::from_slice(text);
    let within = block.simd_ge(u8x16::from_array(LEAST))
        & block.simd_le(u8x16::from_array(GREATEST));
    within.to_bitmask() == 0xffff
}

/// Whether month, day, hour and second lie in their ranges, if they are digits. The form leaves nothing to try of the minute.
#[inline]
fn has_ranges(text: &[u8]) -> bool
    requires { 17 ≤ length text.now }
    ensures { result ≡ has_ranges text.now }
{
    is_between(text, 4, b"01", b"12")
        && is_between(text, 6, b"01", b"31")
        && is_between(text, 9, b"00", b"23")
        && is_between(text, 15, b"00", b"60")
}

/// Whether the two bytes from `start` on come no earlier than `low` in the order of texts, and no later than `high`. Digits have the
/// order of their numbers.
#[inline]
fn is_between(text: &[u8], start: usize, low: &[u8; 2], high: &[u8; 2]) -> bool
    requires { start + 2 ≤ length text.now }
    ensures { result ≡ is_between (part_of text.now start 2) low.now high.now }
{
    let written = pair(text[start], text[start + 1]);
    pair(low[0], low[1]) <= written && written <= pair(high[0], high[1])
}

/// Two bytes as a number, which has the order of their texts.
#[inline]
fn pair(first: u8, second: u8) -> u32
    ensures { result ≡ first * 256 + second }
{
    u32::from(first) * 256 + u32::from(second)
}
