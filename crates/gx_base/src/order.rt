//! Orders, and the counters of the engine.
use crate::id::ShortId;
use crate::limits::ADDRESSEES;
use crate::price::Price;
use crate::stamp::Stamp;

/// Side (54 in FIX 4.2).
#[derive(Clone, Copy, Debug, PartialEq, Eq)]
pub enum Side {
    Buy,
    Sell,
}

/// Order type (40 in FIX 4.2). That a market order is one with protection, which trades within a range of prices, is our
/// own rule.
#[derive(Clone, Copy, Debug, PartialEq, Eq)]
pub enum Kind {
    Limit,
    Market,
    StopLimit,
}

/// Time in force (59 in FIX 4.2). Its immediate or cancel is read as fill and kill, which is our own rule.
#[derive(Clone, Copy, Debug, PartialEq, Eq)]
pub enum Life {
    /// Good for the day.
    Day,
    /// Good till cancelled.
    Gtc,
    /// Fill and kill: what is not filled at once is cancelled.
    Fak,
    /// Fill or kill: it is filled at once and whole, or cancelled whole.
    Fok,
}

/// The name of a live order in its container.
#[derive(Clone, Copy, Debug, PartialEq, Eq)]
pub struct Slot(pub u32);

/// An order. Quantities are in lots, prices in units of its instrument.
#[derive(Clone, Copy, Debug, PartialEq, Eq)]
pub struct Order {
    /// The number that the engine gave it, from 1 on.
    pub number: u64,
    /// The number of its firm in the product's list.
    pub firm: u8,
    /// The number of its instrument in the product's list.
    pub instrument: u8,
    pub side: Side,
    /// The client's id (11).
    pub id: ShortId,
    pub kind: Kind,
    /// The limit: it buys at no higher price, and sells at no lower one. Reports write it (44) where the kind is not
    /// `Market`.
    pub price: Price,
    /// The stop price (99). 0 where the kind is not `StopLimit`.
    pub trigger: Price,
    /// What was ordered (38).
    pub quantity: u32,
    /// What was traded of it (14).
    pub filled: u32,
    /// What is open (151).
    pub leaves: u32,
    /// How much of it is shown at a time, 0 for all.
    pub show: u32,
    /// What is shown now.
    pub shown: u32,
    /// The least quantity that has to be filled at once, 0 for none.
    pub min: u32,
    pub life: Life,
    /// The share that a pro rata step last gave it, in lots.
    pub prorated: u32,
}

/// The counters of the engine, each from the start on.
#[derive(Clone, Copy, Debug, PartialEq, Eq)]
pub struct Desk {
    /// Messages applied.
    pub messages: u64,
    /// Orders accepted, which is the number of the last one.
    pub orders: u64,
    /// Execution reports.
    pub reports: u64,
    /// Trades, which is the number of the last one.
    pub trades: u64,
    /// Report lines, by the number of the firm that they go to. The last one counts those to nobody known.
    pub lines: [u64; ADDRESSEES],
}

/// The incoming order while it matches. Its `leaves` is what it still wants.
#[derive(Clone, Copy, Debug, PartialEq, Eq)]
pub struct Taker {
    pub order: Order,
    /// The time of its message.
    pub time: Stamp,
    /// The least and the greatest price of the trades of its message so far.
    pub range: Option<(Price, Price)>,
}

/// Limits of the step that favors the order that bettered the market, in lots. What bettering is, how an order loses
/// that favor, and these limits are our own rule, after the exchange's published outline.
#[derive(Clone, Copy, Debug, PartialEq, Eq)]
pub struct TopRule {
    /// The least open quantity of an order that it favors.
    pub min: u32,
    /// The most that it gives to one incoming order.
    pub max: u32,
}

/// What a lead market maker gets of an incoming order: our own rule, after the exchange's published outline.
#[derive(Clone, Copy, Debug, Default, PartialEq, Eq)]
pub struct LmmShare {
    /// The number of its firm in the product's list.
    pub firm: u8,
    /// How many hundredths of what is wanted at a price.
    pub percent: u8,
}
