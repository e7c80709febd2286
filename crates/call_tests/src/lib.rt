//! The tests of the commands that need a call inside: want of memory, crashes at each call, streams that are made, and single parts. It offers
//! nothing. All other cases are in case_runs.
#![tactic(auto)]

#[cfg(test)]
mod tests;
