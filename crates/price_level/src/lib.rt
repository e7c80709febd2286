//! The price levels of a book, in book order, each with what its orders sum to.
#![tactic(auto)]

mod levels;
mod queues;
mod row;

pub use levels::Levels;
pub use row::LevelRow;
