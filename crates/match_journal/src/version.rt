//! The versions of a journal.

/// The version of a journal, which the last byte of its magic tells.
#[derive(Clone, Copy, Debug, PartialEq, Eq)]
pub enum Version {
    /// GXJOURN1: that of older programs. Such a journal goes on as it is.
    First,
    /// GXJOURN2: that of each new journal.
    Second,
}
