//! What happened to orders, and is reported.
use crate::id::ShortId;
use crate::order::{Kind, Life, Order, Side};
use crate::price::Price;
use crate::stamp::Stamp;

/// The step of a match that gave a fill. A report names it in tag 9001, which is our own. The steps follow the
/// exchange's published outline; their names, and what each gives, are our own rule.
#[derive(Clone, Copy, Debug, PartialEq, Eq)]
pub enum StepName {
    /// To the order that bettered the market.
    Top,
    /// To lead market makers, a percentage each.
    Lmm,
    /// A percentage, by priority.
    Split,
    /// To each order in proportion to what it shows.
    ProRata,
    /// One lot to each order that the pro rata step gave nothing.
    Leveling,
    /// By priority.
    Fifo,
}

/// Where a report goes, and its numbers.
#[derive(Clone, Copy, Debug, PartialEq, Eq)]
pub struct Head {
    /// The number of the firm that it goes to, or `None` if it goes to `UNKNOWN`: the sender is not known, or the exchange sent what is
    /// refused.
    pub firm: Option<u8>,
    /// How many report lines that addressee has had, with this one. It is the line's sequence number (34).
    pub line: u64,
    /// How many execution reports there were, with this one; 0 where this is none. It is the report's id (17).
    pub report: u64,
    /// The time of the message that is applied.
    pub time: Stamp,
}

/// Why a new order is refused.
#[derive(Clone, Copy, Debug, PartialEq, Eq)]
pub enum NewFault {
    /// The market is closed.
    Closed,
    /// No instrument has the name.
    Symbol,
    /// A live order of the firm has this ClOrdID (11).
    Duplicate,
    /// The quantity is 0 or above `MOST_LOTS`.
    Quantity,
    /// A price has a non-zero digit below the decimals, or is no multiple of the tick.
    Tick,
    /// The price of a stop limit is on the wrong side of its stop price.
    StopLimit,
    /// The stop price is reached already.
    StopReached,
    /// MinQty (110) is above the quantity, or above 0 for a Day or GTC order.
    MinQty,
    /// MaxShow (210) is above the quantity.
    Show,
    /// The live orders are as many as there may be.
    BookFull,
    /// It is a market order, and the other side is empty.
    NoMarket,
}

/// What is said of a refused new order.
#[derive(Clone, Copy, Debug, PartialEq, Eq)]
pub struct NewRefused {
    /// The client's id (11).
    pub id: ShortId,
    /// The name of the instrument (55), as the client wrote it.
    pub symbol: ShortId,
    pub side: Side,
    /// What was to be ordered (38), in lots.
    pub quantity: u32,
    pub kind: Kind,
    pub life: Life,
}

/// Why what was open of an order is cancelled.
#[derive(Clone, Copy, Debug, PartialEq, Eq)]
pub enum Cause {
    /// The client asked for it.
    Asked,
    /// It is fill and kill, and this was not filled.
    Fak,
    /// The least quantity that had to be filled at once was not there.
    MinQty,
}

/// Why a cancel or a replace is refused. A cancel is refused as `Unknown` only.
#[derive(Clone, Copy, Debug, PartialEq, Eq)]
pub enum ChangeFault {
    /// The market is closed.
    Closed,
    /// No live order of the firm has the id in tag 41.
    Unknown,
    /// Instrument, side or order type is not that of the order.
    Mismatch,
    /// A live order of the firm has the new ClOrdID (11).
    Duplicate,
    /// The new quantity is 0 or above `MOST_LOTS`.
    Quantity,
    /// The new quantity is no more than what is filled already.
    Filled,
    /// A price has a non-zero digit below the decimals, or is no multiple of the tick.
    Tick,
    /// The price of a stop limit is on the wrong side of its stop price.
    StopLimit,
    /// The stop price is reached already.
    StopReached,
    /// MaxShow is above the new quantity.
    Show,
}

/// One thing that happened to an order or to a message, and is reported.
#[derive(Clone, Copy, Debug, PartialEq, Eq)]
pub enum Event {
    /// A new order is accepted. It is not matched yet, and does not wait yet.
    Accepted {
        head: Head,
        order: Order,
    },
    /// A stop became a limit order.
    Triggered {
        head: Head,
        order: Order,
    },
    /// A trade, told to one of its two orders, which is as the trade leaves it.
    Fill {
        head: Head,
        order: Order,
        /// How many lots were traded (32).
        lots: u32,
        /// The price of the trade (31), in units of the order's instrument.
        price: Price,
        step: StepName,
        /// The number of the trade, which its two reports share (9002).
        trade: u64,
    },
    /// What was open of an order is cancelled.
    Cancelled {
        head: Head,
        /// The order after it: nothing is open or shown.
        order: Order,
        /// What was open, in lots (9003).
        gone: u32,
        /// The id of the cancel that asked for it (11), or `None` where none did.
        by: Option<ShortId>,
        cause: Cause,
    },
    /// The market closed, and what was open of an order that is not good till cancelled ended with that.
    Expired {
        head: Head,
        /// The order after it: nothing is open or shown.
        order: Order,
        /// What was open, in lots (9003).
        gone: u32,
    },
    /// A replace is accepted. What it changed is not matched again yet.
    Replaced {
        head: Head,
        /// The order with its new id, quantity and prices.
        order: Order,
        /// The id before (41).
        old: ShortId,
        /// The quantity before, in lots. No report writes it.
        old_quantity: u32,
    },
    /// A new order is refused. It gets no number, and nothing of it is open.
    RefusedNew {
        head: Head,
        order: NewRefused,
        fault: NewFault,
    },
    /// A cancel or a replace is refused, which changes no order. This is no execution report.
    RefusedChange {
        head: Head,
        /// The id of the cancel or the replace (11).
        id: ShortId,
        /// The id of the order that it was to change (41).
        old: ShortId,
        /// The number of that order (37), or 0 if it is unknown or the market is closed.
        number: u64,
        /// What is filled of that order, in lots, or 0 if it is unknown or the market is closed.
        filled: u32,
        /// Whether it is a replace.
        replace: bool,
        fault: ChangeFault,
    },
    /// A message breaks a session rule, which changes no order. This is no execution report.
    RefusedSession {
        head: Head,
        /// The sequence number of the message (45), or 0 where it has none that can be read.
        seq: u32,
        /// The tag that breaks the rule (371), or 0 where it is none.
        tag: u32,
        /// The reason in FIX 4.2 (373).
        reason: u8,
        /// The number of the rule, from 1 to 10 in the order in which they are tried: 1 the first tag, 2 a bad tag,
        /// 3 no value, 4 the sender, 5 the target, 6 sequence number and time, 7 the type, 8 a missing tag, 9 the form
        /// of a value, 10 a value. A report has words for it (58).
        rule: u8,
    },
}
