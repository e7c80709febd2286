//! A level match, which goes through a list of steps at one price, and a sweep over the prices within a limit.
#![tactic(auto)]

mod levels;
mod sweeping;

pub use levels::match_level;
pub use sweeping::sweep;
