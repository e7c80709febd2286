//! The steps SPLIT and FIFO of a match, over any book.
#![tactic(auto)]

mod fifo;
mod split;

pub use fifo::fifo_pass;
pub use split::split_pass;
