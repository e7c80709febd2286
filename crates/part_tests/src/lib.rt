//! The tests of parts that need no engine: sources and stations, openings of a journal, the pool, and the table of ids. It offers nothing.
#![tactic(auto)]

#[cfg(test)]
mod tests;
