//! Limits of a journal, our own rules.

/// How many bytes a product text has at most.
pub const MOST_TEXT: usize = 65_536;

/// How many bytes the frames of a record have at most.
pub const MOST_PAYLOAD: usize = 8_192;

/// How many bytes a book image has at most, as the head of a record counts them.
pub const MOST_IMAGE: usize = 4_294_967_295;

/// How many bytes the unfinished creation of a journal may have: the first gate, the header of the longest product text, and
/// a gate.
pub const MOST_UNFINISHED: u64 = 65_550;

/// How many bytes an opening reads at most, besides the heads of records: the front of the header, the longest product text, and its
/// length.
pub const MOST_OPENING: u64 = 65_600;

/// The least place at which the last record may have to end.
pub const LEAST_LIMIT: u64 = 131_072;

/// The greatest place at which the last record may have to end.
pub const MOST_LIMIT: u64 = 268_435_456;
