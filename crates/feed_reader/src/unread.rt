//! Why a feed was not read.
use level_feed::FeedFault;
use thiserror::Error;

/// Why a feed was not read to a good end. Places are offsets in the input, in bytes.
#[derive(Clone, Copy, Debug, Error, PartialEq, Eq)]
pub enum Unread {
    /// A read failed, after so many bytes. They have no line with a fault.
    #[error("a read failed behind {0} bytes of the level feed")]
    ReadFault(u64),
    /// The line that begins here is the first with a fault, and has this one. A line with no line feed among its first 128
    /// bytes has the fault `Form`.
    #[error("at byte {0}: {1}")]
    Broken(u64, FeedFault),
    /// The feed ends inside the block that begins here, or between blocks inside the line that begins here.
    #[error("the level feed ends inside the block or line at byte {0}")]
    Cut(u64),
    /// The feed ends well, but has no snapshot.
    #[error("the level feed has no snapshot")]
    NoSnapshot,
    /// There are more than `MOST_FEED` bytes, of which the first `MOST_FEED` have no line with a fault.
    #[error("the level feed is too long")]
    TooLong,
}
