//! Where a journal stands.

use crate::version::Version;

/// What contracts see of a journal: where it stands in the image of a station.
#[derive(Clone, Copy, Debug, PartialEq, Eq)]
pub struct Standing {
    /// The version that the header tells.
    pub version: Version,
    /// The gate after the product text.
    pub first: u64,
    /// The last gate met, which is that of the next entry.
    pub gate: u64,
    /// How long the image is, as the opening left it, or the end of a later append where that is greater.
    pub known: u64,
    /// Where the last record has to end.
    pub limit: u64,
    /// That gate was found closed, or made by an append, or a walk was ended there.
    pub is_at_end: bool,
    /// An append has failed.
    pub is_lost: bool,
    /// The first byte of the last text: that of the last amendment, or else the header's.
    pub text_at: u64,
    /// How many bytes the last text has.
    pub text_len: u32,
}
