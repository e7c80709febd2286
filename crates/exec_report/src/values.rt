//! What the fields of reports say: the codes of FIX 4.2, and our own words.
ghost use Rattle.std.specs.Prelude.{◌≡◌, ◌≤◌, [], ◌∷◌, ◌==◌, if◌then◌else◌, codes, length};
ghost use Rattle.gx_base.specs.Line.{side_text, kind_text, life_text, step_text, fill_status, fault_text, reject_reason, change_text, change_reason, change_status, response_text, rule_text};

use gx_base::{ChangeFault, Kind, LONGEST_VALUE, Life, NewFault, Side, StepName};

/// The value of tag 40 in FIX 4.2.
pub(crate) fn kind_text(kind: Kind) -> &'static [u8]
    ensures text { result.now ≡ kind_text kind }
    ensures short { length result.now ≤ LONGEST_VALUE }
{
    match kind {
        Kind::Market => b"1",
        Kind::Limit => b"2",
        Kind::StopLimit => b"4",
    }
}

/// The digit of tag 54 in FIX 4.2. The sides stand in the order of their digits.
#[inline(always)]
pub(crate) fn side_digit(side: Side) -> u8
    ensures { result ∷ [] ≡ side_text side }
{
    b'1' + side as u8
}

/// The digit of tag 59 in FIX 4.2.
#[inline(always)]
pub(crate) fn life_digit(life: Life) -> u8
    ensures { result ∷ [] ≡ life_text life }
{
    match life {
        Life::Day => b'0',
        Life::Gtc => b'1',
        Life::Fak => b'3',
        Life::Fok => b'4',
    }
}

/// The value of our tag 9001.
pub fn step_text(step: StepName) -> &'static [u8]
    ensures text { result.now ≡ step_text step }
    ensures short { length result.now ≤ LONGEST_VALUE }
{
    match step {
        StepName::Top => b"TOP",
        StepName::Lmm => b"LMM",
        StepName::Split => b"SPLIT",
        StepName::ProRata => b"PRORATA",
        StepName::Leveling => b"LEVELING",
        StepName::Fifo => b"FIFO",
    }
}

/// The value of tag 58 for a refused new order, in our own words.
pub(crate) fn fault_text(fault: NewFault) -> &'static [u8]
    ensures text { result.now ≡ fault_text fault }
    ensures short { length result.now ≤ LONGEST_VALUE }
{
    match fault {
        NewFault::Closed => b"CLOSED",
        NewFault::Symbol => b"SYMBOL",
        NewFault::Duplicate => b"DUPLICATE",
        NewFault::Quantity => b"QUANTITY",
        NewFault::Tick => b"TICK",
        NewFault::StopLimit => b"STOP LIMIT",
        NewFault::StopReached => b"STOP REACHED",
        NewFault::MinQty => b"MINQTY",
        NewFault::Show => b"SHOW",
        NewFault::BookFull => b"BOOK FULL",
        NewFault::NoMarket => b"NO MARKET",
    }
}

/// The value of tag 103 in FIX 4.2 for a refused new order. Which fault has which reason is our own rule.
pub(crate) fn reject_reason(fault: NewFault) -> &'static [u8]
    ensures text { result.now ≡ reject_reason fault }
    ensures short { length result.now ≤ LONGEST_VALUE }
{
    match fault {
        NewFault::Closed => b"2",
        NewFault::Symbol => b"1",
        NewFault::Duplicate => b"6",
        NewFault::Quantity | NewFault::BookFull => b"3",
        NewFault::Tick
        | NewFault::StopLimit
        | NewFault::StopReached
        | NewFault::MinQty
        | NewFault::Show
        | NewFault::NoMarket => b"0",
    }
}

/// The digit of tags 39 and 150 in FIX 4.2 for a fill: partly filled, or filled if nothing is open.
pub(crate) fn fill_status(leaves: u32) -> u8
    ensures { result ∷ [] ≡ fill_status leaves }
{
    if leaves == 0 { b'2' } else { b'1' }
}

/// The value of tag 58 for a refused cancel or replace, in our own words.
pub(crate) fn change_text(fault: ChangeFault) -> &'static [u8]
    ensures text { result.now ≡ change_text fault }
    ensures short { length result.now ≤ LONGEST_VALUE }
{
    match fault {
        ChangeFault::Closed => b"CLOSED",
        ChangeFault::Unknown => b"UNKNOWN",
        ChangeFault::Mismatch => b"MISMATCH",
        ChangeFault::Duplicate => b"DUPLICATE",
        ChangeFault::Quantity => b"QUANTITY",
        ChangeFault::Filled => b"FILLED",
        ChangeFault::Tick => b"TICK",
        ChangeFault::StopLimit => b"STOP LIMIT",
        ChangeFault::StopReached => b"STOP REACHED",
        ChangeFault::Show => b"SHOW",
    }
}

/// The value of tag 102 in FIX 4.2 for a refused cancel or replace. Which fault has which reason is our own rule.
pub(crate) fn change_reason(fault: ChangeFault) -> &'static [u8]
    ensures text { result.now ≡ change_reason fault }
    ensures short { length result.now ≤ LONGEST_VALUE }
{
    match fault {
        ChangeFault::Unknown => b"1",
        ChangeFault::Filled => b"0",
        ChangeFault::Closed
        | ChangeFault::Mismatch
        | ChangeFault::Duplicate
        | ChangeFault::Quantity
        | ChangeFault::Tick
        | ChangeFault::StopLimit
        | ChangeFault::StopReached
        | ChangeFault::Show => b"2",
    }
}

/// The value of tag 39 in FIX 4.2 for a refused cancel or replace, of an order with so many lots filled: rejected if
/// the order is unknown or the market is closed, else new or partly filled.
pub(crate) fn change_status(fault: ChangeFault, filled: u32) -> &'static [u8]
    ensures text { result.now ≡ change_status fault filled }
    ensures short { length result.now ≤ LONGEST_VALUE }
{
    match fault {
        ChangeFault::Closed | ChangeFault::Unknown => b"8",
        ChangeFault::Mismatch
        | ChangeFault::Duplicate
        | ChangeFault::Quantity
        | ChangeFault::Filled
        | ChangeFault::Tick
        | ChangeFault::StopLimit
        | ChangeFault::StopReached
        | ChangeFault::Show => open_status(filled),
    }
}

/// The value of tag 39 in FIX 4.2 for an order that is open: new, or partly filled.
fn open_status(filled: u32) -> &'static [u8]
    ensures text { result.now ≡ (if filled == 0 then codes "0" else codes "1") }
    ensures short { length result.now ≤ LONGEST_VALUE }
{
    if filled == 0 { b"0" } else { b"1" }
}

/// The value of tag 434 in FIX 4.2: what was refused.
pub(crate) fn response_text(replace: bool) -> &'static [u8]
    ensures text { result.now ≡ response_text replace }
    ensures short { length result.now ≤ LONGEST_VALUE }
{
    if replace { b"2" } else { b"1" }
}

/// The value of tag 58 for a message that breaks a session rule, in our own words.
pub(crate) fn rule_text(rule: u8) -> &'static [u8]
    ensures text { result.now ≡ rule_text rule }
    ensures short { length result.now ≤ LONGEST_VALUE }
{
    match rule {
        1 => b"FIRST TAG",
        2 => b"BAD TAG",
        3 => b"NO VALUE",
        4 => b"SENDER",
        5 => b"TARGET",
        6 => b"HEADER",
        7 => b"MSGTYPE",
        8 => b"MISSING",
        9 => b"FORMAT",
        10 => b"VALUE",
        _ => b"UNKNOWN",
    }
}
