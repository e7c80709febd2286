//! The step TOP of a match, over any book.
#![tactic(auto)]

mod pass;

pub use pass::top_pass;
