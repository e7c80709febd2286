//! A worked example of each container, and a long run of drawn calls beside plain lists and beside std's map.
mod pools;
mod tables;

use gx_base::{Kind, Life, Order, Price, ShortId, Side};

/// How many calls a run has.
const CALLS: u64 = 20_000;

/// A limit order with this number.
fn order(number: u64) -> Order {
    Order {
        number,
        firm: 0,
        instrument: 0,
        side: Side::Buy,
        id: ShortId::default(),
        kind: Kind::Limit,
        price: Price(10_000),
        trigger: Price(0),
        quantity: 1,
        filled: 0,
        leaves: 1,
        show: 0,
        shown: 1,
        min: 0,
        life: Life::Day,
        prorated: 0,
    }
}
