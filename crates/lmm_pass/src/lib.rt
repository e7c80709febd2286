//! The LMM step of a match: lead market makers get their percentages, over any book.
#![tactic(auto)]

mod firms;
mod pass;
mod present;

pub use pass::lmm_pass;
