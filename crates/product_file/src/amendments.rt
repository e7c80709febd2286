//! Which product may follow another one in a journal.
ghost use Rattle.std.specs.Prelude.{◌≡◌, bytes_eq};
ghost use Rattle.product_file.specs.Amendments.{begins_with, are_same, is_same_listed, has_same_tick, may_follow, amend_fault_number};

use crate::product::{InstrumentRule, Product};
use gx_base::{Listed, Names};
use thiserror::Error;

/// Why a product may not follow another one: the first of these that holds (our own rule).
#[derive(Clone, Copy, Debug, Error, PartialEq, Eq)]
pub enum AmendFault {
    /// The exchange differs.
    #[error("the exchange differs")]
    Exchange,
    /// The firms do not begin with those of the earlier product, in their order.
    #[error("the firms do not begin with those before")]
    Firms,
    /// The number of orders that may be live differs.
    #[error("`max_orders` differs")]
    MaxOrders,
    /// The journal may have fewer bytes than before.
    #[error("`journal_limit` is lower")]
    JournalLimit,
    /// There are more instruments or fewer, or the name, the decimals or the tick of one differs.
    #[error("the instruments differ")]
    Instruments,
}

impl AmendFault {
    /// The number of the fault, 2 for `Exchange` to 6 for `Instruments`.
    pub fn number(self) -> u8
        ensures { result ≡ amend_fault_number self }
    {
        match self {
            AmendFault::Exchange => 2,
            AmendFault::Firms => 3,
            AmendFault::MaxOrders => 4,
            AmendFault::JournalLimit => 5,
            AmendFault::Instruments => 6,
        }
    }
}

/// Whether a product may follow another one, as `may_follow` of the specs says, with the first reason why not: the exchange,
/// the firms of before, the number of live orders, and the names, decimals and ticks of the instruments stay, and the journal
/// may have no fewer bytes. All else may change. Takes no memory.
pub fn may_follow(old: &Product, new: &Product) -> Result<(), AmendFault>
    ensures { result ≡ may_follow old.now new.now }
{
    if old.names().exchange().bytes() != new.names().exchange().bytes() {
        return Err(AmendFault::Exchange);
    }
    if !begins_with_firms(old.names(), new.names()) {
        return Err(AmendFault::Firms);
    }
    if old.max_orders() != new.max_orders() {
        return Err(AmendFault::MaxOrders);
    }
    if new.journal_limit() < old.journal_limit() {
        return Err(AmendFault::JournalLimit);
    }
    if !has_same_listed(old.names(), new.names()) || !has_same_ticks(old.rules(), new.rules()) {
        return Err(AmendFault::Instruments);
    }
    Ok(())
}

/// Whether the firms of the later names begin with all those before, in their order.
fn begins_with_firms(before: &Names, after: &Names) -> bool
    ensures { result ≡ begins_with bytes_eq before.now.firms after.now.firms }
{
    if after.firm_count() < before.firm_count() {
        return false;
    }
    for number in 0..before.firm_count() as u8 {
        if before.firm(number).bytes() != after.firm(number).bytes() {
            return false;
        }
    }
    true
}

/// Whether there are as many instruments as before, with the same names and decimals.
fn has_same_listed(before: &Names, after: &Names) -> bool
    ensures { result ≡ are_same is_same_listed before.now.instruments after.now.instruments }
{
    if before.instrument_count() != after.instrument_count() {
        return false;
    }
    for number in 0..before.instrument_count() as u8 {
        if !is_same_listed(before.listed(number), after.listed(number)) {
            return false;
        }
    }
    true
}

/// Whether two instruments have one name and as many decimals.
fn is_same_listed(before: &Listed, after: &Listed) -> bool
    ensures { result ≡ is_same_listed before.now after.now }
{
    before.name.bytes() == after.name.bytes() && before.decimals == after.decimals
}

/// Whether there are as many rules as before, with the same ticks.
fn has_same_ticks(before: &[InstrumentRule], after: &[InstrumentRule]) -> bool
    ensures { result ≡ are_same has_same_tick before.now after.now }
{
    if before.len() != after.len() {
        return false;
    }
    for (number, rule) in before.iter().enumerate() {
        if !has_same_tick(rule, &after[number]) {
            return false;
        }
    }
    true
}

/// Whether the prices of two instruments have one least step.
fn has_same_tick(before: &InstrumentRule, after: &InstrumentRule) -> bool
    ensures { result ≡ has_same_tick before.now after.now }
{
    before.tick == after.tick
}
