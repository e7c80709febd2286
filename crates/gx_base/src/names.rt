//! The names that a product lists.
ghost use Rattle.std.specs.Prelude.{◌≡◌, ◌+◌, ◌<◌, ◌≤◌, ◌++◌, Some, length, take, position, bytes_eq, slice_get};
ghost use Rattle.gx_base.specs.NameLists.{AreRight, instrument_names};
ghost use Rattle.gx_base.specs.Line.{firm_name, instrument_name};
ghost use Rattle.gx_base.specs.Fronts.{exchange_front, firm_front, instrument_front};

use crate::fronts::{Fronts, LONGEST_NAME_FRONT, LONGEST_SIDE_FRONT};
use crate::id::ShortId;
use crate::limits::{MOST_DECIMALS, MOST_FIRMS, MOST_INSTRUMENTS};
use crate::order::Side;
use arrayvec::ArrayVec;
use std::marker::Model;

/// How many bytes of a name are compared by words: so few take less than a call of the library's comparison.
const FEW: usize = 8;

/// An instrument's name, and how many decimals its prices have.
#[derive(Clone, Copy, Debug, Default, PartialEq, Eq)]
pub struct Listed {
    pub name: ShortId,
    /// A price unit is 10 to the power of minus this.
    pub decimals: u8,
}

/// The exchange's name, the firms and the instruments, each numbered from 0 on in the order of its list. There are at
/// most `MOST_FIRMS` firms and `MOST_INSTRUMENTS` instruments, no two firms and no two instruments have one name, and
/// an instrument has at most `MOST_DECIMALS` decimals. Contracts see it as the name and the two lists.
#[derive(Drop)]
pub struct Names {
    exchange: ShortId,
    firms: ArrayVec<ShortId, MOST_FIRMS>,
    instruments: ArrayVec<Listed, MOST_INSTRUMENTS>,
    fronts: Fronts,
}

impl Model for Names {
    ghost use Rattle.gx_base.specs.NameLists.{NameLists};

    ghost Value = { NameLists };

    ghost use Rattle.gx_base.specs.NameLists.{AreRight};
    ghost use Rattle.gx_base.specs.Fronts.{AreFronts};

    ghost view = { λ names. record { exchange = names.exchange; firms = names.firms.items; instruments = names.instruments.items } };

    ghost invariant = { λ names.
        AreRight (record { exchange = names.exchange; firms = names.firms.items; instruments = names.instruments.items })
        × AreFronts (record { exchange = names.exchange; firms = names.firms.items; instruments = names.instruments.items }) names.fronts };
}

impl Names {
    /// The names with these lists. Takes no memory.
    pub fn new(exchange: ShortId, firms: &[ShortId], instruments: &[Listed]) -> Names
        requires { AreRight (record { exchange = exchange; firms = firms.now; instruments = instruments.now }) }
        ensures { result ≡ record { exchange = exchange; firms = firms.now; instruments = instruments.now } }
    {
        let fronts = Fronts::new(&exchange, firms, instruments);
        let mut kept_firms = ArrayVec::new();
        for firm in firms {
            kept_firms.push(*firm);
        }
        let mut kept_instruments = ArrayVec::new();
        for listed in instruments {
            kept_instruments.push(*listed);
        }
        Names {
            exchange,
            firms: kept_firms,
            instruments: kept_instruments,
            fronts,
        }
    }

    /// The exchange's name.
    pub fn exchange(&self) -> &ShortId
        ensures { result.now ≡ self.now.exchange }
    {
        &self.exchange
    }

    /// How many firms are listed, at most `MOST_FIRMS`.
    pub fn firm_count(&self) -> usize
        ensures count { result ≡ length self.now.firms }
        ensures few { result ≤ MOST_FIRMS }
    {
        self.firms.len()
    }

    /// How many instruments are listed, at most `MOST_INSTRUMENTS`.
    pub fn instrument_count(&self) -> usize
        ensures count { result ≡ length self.now.instruments }
        ensures few { result ≤ MOST_INSTRUMENTS }
    {
        self.instruments.len()
    }

    /// The name of the firm with this number, which is below `firm_count`.
    pub fn firm(&self, number: u8) -> &ShortId
        requires { number < length self.now.firms }
        ensures { slice_get self.now.firms number ≡ Some result.now }
    {
        &self.firms[number as usize]
    }

    /// The instrument with this number, which is below `instrument_count`. Its prices have at most
    /// `MOST_DECIMALS` decimals.
    pub fn listed(&self, number: u8) -> &Listed
        requires { number < length self.now.instruments }
        ensures listed { slice_get self.now.instruments number ≡ Some result.now }
        ensures decimals { result.now.decimals ≤ MOST_DECIMALS }
    {
        &self.instruments[number as usize]
    }

    /// The number of the firm with this name. `None` exactly where no firm has it.
    pub fn find_firm(&self, name: &[u8]) -> Option<u8>
        ensures { result ≡ position (λ firm. bytes_eq firm name.now) self.now.firms }
    {
        let n = find_name(&self.firms, name)?;
        Some(n as u8)
    }

    /// The number of the instrument with this name. `None` exactly where no instrument has it.
    pub fn find_instrument(&self, name: &[u8]) -> Option<u8>
        ensures { result ≡ position (λ listed. bytes_eq listed name.now) (instrument_names self.now.instruments) }
    {
        let n = find_listed(&self.instruments, name)?;
        Some(n as u8)
    }

    /// Writes SOH, the exchange as the sender (49) and the tag of a time (52) after the first `at` bytes of `into`, and answers where
    /// this ends; what stands after it is left open.
    #[inline]
    pub fn append_exchange_front(&self, into: &mut [u8], at: usize) -> usize
        requires { at + LONGEST_NAME_FRONT ≤ length into.old }
        ensures bytes { take result into.new ≡ take at into.old ++ exchange_front self.now.exchange }
        ensures short { result ≤ at + LONGEST_NAME_FRONT }
    {
        self.fronts.exchange.append_to(into, at)
    }

    /// Writes SOH, the firm with this number as the addressee (56) and the tag of an order's number (37), as `append_exchange_front`
    /// does.
    #[inline]
    pub fn append_firm_front(&self, number: u8, into: &mut [u8], at: usize) -> usize
        requires listed { number < length self.now.firms }
        requires room { at + LONGEST_NAME_FRONT ≤ length into.old }
        ensures bytes { take result into.new ≡ take at into.old ++ firm_front (firm_name self.now number) }
        ensures short { result ≤ at + LONGEST_NAME_FRONT }
    {
        self.fronts.firms[number as usize].append_to(into, at)
    }

    /// Writes SOH, the instrument with this number (55), a side (54) and the tag of a quantity (38), as `append_exchange_front` does.
    #[inline]
    pub fn append_instrument_front(
        &self,
        number: u8,
        side: Side,
        into: &mut [u8],
        at: usize,
    ) -> usize
        requires listed { number < length self.now.instruments }
        requires room { at + LONGEST_SIDE_FRONT ≤ length into.old }
        ensures bytes { take result into.new ≡ take at into.old ++ instrument_front (instrument_name self.now number) side }
        ensures short { result ≤ at + LONGEST_SIDE_FRONT }
    {
        let fronts = &self.fronts.instruments[number as usize];
        fronts.of_side(side).append_to(into, at)
    }
}

/// The index of the first of these names that has these bytes.
fn find_name(names: &[ShortId], bytes: &[u8]) -> Option<usize>
    ensures { result ≡ position (λ name. bytes_eq name bytes.now) names.now }
{
    names.iter().position(|name| is_named(name, bytes))
}

/// The index of the first of these instruments whose name has these bytes.
fn find_listed(listed: &[Listed], bytes: &[u8]) -> Option<usize>
    ensures { result ≡ position (λ l. bytes_eq l.name bytes.now) listed.now }
{
    listed.iter().position(|l| is_named(&l.name, bytes))
}

/// Whether a name has these bytes.
#[inline(always)]
fn is_named(name: &ShortId, bytes: &[u8]) -> bool
    ensures { result ≡ bytes_eq name.now bytes.now }
{
    let name = name.bytes();
    let len = bytes.len();
    if len == 0 || len > FEW {
        return name == bytes;
    }
    if name.len() != len {
        return false;
    }
    if len < 4 {
        are_same_three(name, bytes)
    } else {
        are_same_ends(name, bytes)
    }
}

/// Whether 1 to 3 bytes are the same.
#[inline(always)]
fn are_same_three(left: &[u8], right: &[u8]) -> bool
    requires some { 1 ≤ length left.now }
    requires few { length left.now ≤ 3 }
    requires as_many { length right.now ≡ length left.now }
    ensures { result ≡ bytes_eq left.now right.now }
{
    let len = left.len();
    left[0] == right[0] && left[len - 1] == right[len - 1] && left[len / 2] == right[len / 2]
}

/// Whether 4 to 8 bytes are the same: the first four and the last four, which overlap.
#[inline(always)]
fn are_same_ends(left: &[u8], right: &[u8]) -> bool
    requires some { 4 ≤ length left.now }
    requires few { length left.now ≤ 8 }
    requires as_many { length right.now ≡ length left.now }
    ensures { result ≡ bytes_eq left.now right.now }
{
    let last = left.len() - 4;
    is_same_word(&left[..4], &right[..4]) && is_same_word(&left[last..], &right[last..])
}

/// Whether four bytes are the same.
#[inline(always)]
fn is_same_word(left: &[u8], right: &[u8]) -> bool
    requires left { length left.now ≡ 4 }
    requires right { length right.now ≡ 4 }
    ensures { result ≡ bytes_eq left.now right.now }
{
    let seen = u32::from_le_bytes([right[0], right[1], right[2], right[3]]);
    let sought = u32::from_le_bytes([left[0], left[1], left[2], left[3]]);
    seen == sought
}
