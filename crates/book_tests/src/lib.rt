//! The tests of both books beside each other. It offers nothing.
#![tactic(auto)]

#[cfg(test)]
mod calls;
#[cfg(test)]
mod tests;
