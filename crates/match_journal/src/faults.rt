//! What can be wrong with an image, and with a station.
use thiserror::Error;

/// Why a journal was not opened, with the place in the image.
#[derive(Clone, Copy, Debug, Error, PartialEq, Eq)]
pub enum StartFault {
    #[error("a call on the store has failed")]
    Store,
    #[error("the file is no journal, at {0}")]
    NotAJournal(u64),
    #[error("the journal is bad, at {0}")]
    Bad(u64),
    #[error("the journal is of another product, at {0}")]
    ProductDiffers(u64),
}

/// Why the next record has no head, with the place of its gate.
#[derive(Clone, Copy, Debug, Error, PartialEq, Eq)]
pub enum WalkFault {
    #[error("a call on the store has failed")]
    Store,
    #[error("the journal is bad, at {0}")]
    Bad(u64),
}

/// Why a record was not added.
#[derive(Clone, Copy, Debug, Error, PartialEq, Eq)]
pub enum AppendFault {
    #[error("the journal is full")]
    Full,
    #[error("a call on the store has failed")]
    Store,
}

/// A call on the store has failed.
#[derive(Clone, Copy, Debug, Error, PartialEq, Eq)]
#[error("a call on the store has failed")]
pub struct StoreFault;
