//! The head of a record.

/// The kind of a record.
#[derive(Clone, Copy, Debug, PartialEq, Eq)]
pub enum EntryKind {
    /// One or more messages.
    Frames,
    /// A book image without the session: it stands for an open market. Read, and no longer written.
    OldImage,
    /// A book image.
    Image,
    /// A product text that takes the place of the one before, and a book image under its product. A journal of the first version has
    /// none.
    Amendment,
}

/// A record in a journal: the place of its gate, its kind, and how many bytes its payload has.
#[derive(Clone, Copy, Debug, PartialEq, Eq)]
pub struct Entry {
    pub at: u64,
    pub kind: EntryKind,
    pub length: u32,
}

/// How many bytes of a record stand before its payload: the gate, the kind and the length.
pub const HEAD: usize = 6;

/// How many bytes a record has besides its payload: its head, and the next gate.
pub(crate) const AROUND: u64 = 7;

/// The bytes of the kinds.
pub(crate) const FRAMES: u8 = b'M';

pub(crate) const OLD_IMAGE: u8 = b'C';

pub(crate) const IMAGE: u8 = b'D';

pub(crate) const AMENDMENT: u8 = b'P';
