//! The leveling step of a match, over any book.
#![tactic(auto)]

mod pass;

pub use pass::leveling_pass;
