//! Who may write while a journal is read.

/// What another process may do while a journal is read.
#[derive(Clone, Copy, Debug, PartialEq, Eq)]
pub enum Access {
    /// Nobody else writes: the caller holds the exclusive lock.
    Exclusive,
    /// Another process may append meanwhile.
    Shared,
}
