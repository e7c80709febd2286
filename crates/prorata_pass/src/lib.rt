//! The pro rata step of a match: each order of a level trades its part of what is wanted.
#![tactic(auto)]

mod pass;
mod ratio;

pub use pass::prorata_pass;
