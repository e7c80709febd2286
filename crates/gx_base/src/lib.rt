//! The plain data that every part of the engine shares: names, numbers that are read, prices, orders and events.
#![tactic(auto)]

mod bytes;
mod digits;
mod emit;
mod event;
mod execution;
mod fronts;
mod id;
mod laws;
mod limits;
mod names;
mod order;
mod price;
mod quantity;
mod short_price;
mod stamp;
mod text;
mod trading;
mod unlisted;

pub use bytes::{append, append_few, soh_marks, split_at_byte};
pub use digits::{MOST_DIGITS, are_digits, read_digits};
pub use emit::{Emit, NullEmit};
pub use event::{Cause, ChangeFault, Event, Head, NewFault, NewRefused, StepName};
pub use execution::{ExecType, Execution};
pub use fronts::{LONGEST_NAME_FRONT, LONGEST_SIDE_FRONT};
pub use id::ShortId;
pub use laws::printed_texts_are_read_back;
pub use limits::{
    ADDRESSEES, LONGEST_LINE, LONGEST_NAME, LONGEST_VALUE, MOST_DECIMALS, MOST_FIRMS,
    MOST_INSTRUMENTS, MOST_LOTS, MOST_PRICE_UNITS, SOH,
};
pub use names::{Listed, Names};
pub use order::{Desk, Kind, Life, LmmShare, Order, Side, Slot, Taker, TopRule};
pub use price::{Price, PriceFault, power_of_ten, read_price};
pub use quantity::read_quantity;
pub use stamp::{LONGEST_STAMP, Stamp};
pub use trading::Trading;
pub use unlisted::{addressee, listed};
