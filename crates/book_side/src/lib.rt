//! A book that walks over no orders: it keeps them in queues, one for each level and one for the stops of each instrument.
#![tactic(auto)]

mod clearing;
mod linked;
mod steps;
mod tops;

pub use linked::LinkedBook;
