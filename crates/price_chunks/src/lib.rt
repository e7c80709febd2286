//! The price levels of all sides, the worst price first, in chunks from a pool that all sides share. A level that comes or goes
//! moves the levels of one chunk, or of two, and not those of its whole side.
#![tactic(auto)]

mod chunk;
mod place;
mod pool;
mod side;
mod sides;

pub use place::{Spot, Step};
pub use sides::Sides;
