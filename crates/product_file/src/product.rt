//! A product: the names, the limits, and what each instrument's orders are held to.
ghost use Rattle.std.specs.Prelude.{◌≡◌, ◌<◌, ◌≤◌, Some, length, slice_get};
ghost use Rattle.product_file.specs.Products.{IsRightProduct};

use crate::limits::{LEAST_JOURNAL, MOST_JOURNAL, MOST_ORDERS};
use arrayvec::ArrayVec;
use gx_base::{MOST_INSTRUMENTS, Names};
use std::marker::Model;
use step_config::{Letter, Steps};

/// What the orders of one instrument are held to, and how they share an incoming order.
#[derive(Debug, Default, Drop)]
pub struct InstrumentRule {
    /// The least step of its prices, in price units: 1 to `MOST_TICK`.
    pub tick: i64,
    /// How far from the best opposite price a market order trades, in ticks: 0 to `MOST_PROTECTION`.
    pub protection: u32,
    /// The letter of its algorithm. The letters are named after the exchange's; what each stands for is our own, after
    /// the published outline.
    pub letter: Letter,
    /// The steps of that algorithm.
    pub steps: Steps,
}

/// The names, the limits, and a rule for each instrument, in the order of the names. There are at least one firm and one
/// instrument, each firm of an LMM step is listed, and each number is within its limits (our own). Contracts see it as
/// these lists and numbers.
#[derive(Drop)]
pub struct Product {
    names: Names,
    max_orders: u32,
    journal_limit: u64,
    rules: ArrayVec<InstrumentRule, MOST_INSTRUMENTS>,
}

impl Model for Product {
    ghost use Rattle.product_file.specs.Products.{ProductLists};

    ghost Value = { ProductLists };

    ghost use Rattle.product_file.specs.Products.{IsRightProduct};

    ghost view = { λ p. record { names = p.names; max_orders = p.max_orders; journal_limit = p.journal_limit; rules = p.rules.items } };

    ghost invariant = { λ p. IsRightProduct (record { names = p.names; max_orders = p.max_orders; journal_limit = p.journal_limit; rules = p.rules.items }) };
}

impl Product {
    /// The product of these parts, which are right together. Takes no memory.
    pub(crate) fn new(
        names: Names,
        max_orders: u32,
        journal_limit: u64,
        rules: ArrayVec<InstrumentRule, MOST_INSTRUMENTS>,
    ) -> Product
        requires { IsRightProduct (record { names = names; max_orders = max_orders; journal_limit = journal_limit; rules = rules.items }) }
        ensures { result ≡ record { names = names; max_orders = max_orders; journal_limit = journal_limit; rules = rules.items } }
    {
        Product {
            names,
            max_orders,
            journal_limit,
            rules,
        }
    }

    /// Lends the names.
    pub fn names(&self) -> &Names
        ensures { result.now ≡ self.now.names }
    {
        &self.names
    }

    /// How many orders may be live at once, 1 to `MOST_ORDERS`.
    pub fn max_orders(&self) -> u32
        ensures most { result ≡ self.now.max_orders }
        ensures some { 1 ≤ result }
        ensures few { result ≤ MOST_ORDERS }
    {
        self.max_orders
    }

    /// How many bytes the journal may have, `LEAST_JOURNAL` to `MOST_JOURNAL`.
    pub fn journal_limit(&self) -> u64
        ensures limit { result ≡ self.now.journal_limit }
        ensures some { LEAST_JOURNAL ≤ result }
        ensures few { result ≤ MOST_JOURNAL }
    {
        self.journal_limit
    }

    /// The rule of the instrument with this number, which is below the number of instruments.
    pub fn rule(&self, number: u8) -> &InstrumentRule
        requires { number < length self.now.names.instruments }
        ensures { slice_get self.now.rules number ≡ Some result.now }
    {
        &self.rules[number as usize]
    }

    /// Lends the rules, one for each instrument.
    pub fn rules(&self) -> &[InstrumentRule]
        ensures { result.now ≡ self.now.rules }
    {
        &self.rules
    }

    /// What holds of each product.
    pub fn limits(&self)
        ensures { IsRightProduct self.now }
    {
        let _ = &self.names;
    }
}
