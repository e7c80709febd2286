//! The level feed of the messages that a journal keeps.
#![tactic(auto)]

mod applying;
mod feed_work;
mod sent;

pub use feed_work::FeedWork;
