//! The live orders: what a book of them does, a book that keeps them in two lists, one trade over any book, and a walk along
//! a level in which each order trades its share.
#![tactic(auto)]

mod book;
mod edits;
mod entry;
mod percent;
mod plain;
mod scan;
mod trade;
mod walk;

pub use book::Book;
pub use edits::{changed, first_shown, makes_top};
pub use entry::Entry;
pub use percent::percent_of;
pub use plain::PlainBook;
pub use trade::{OrderShare, count_report, opposite_side, trade_lots, trade_share};
pub use walk::{ShareRule, StepLevel, trade_level};
