//! Reads a level feed from a source, in pieces of any size, into a table.
#![tactic(auto)]

mod feed;
mod laws;
mod line;
mod reading;
mod unread;

pub use feed::{MOST_FEED, read_feed};
pub use laws::broken_feeds_stay_broken;
pub use unread::Unread;
