//! The limits of a product file, and the usual values where it gives none (our own rules).

/// How many bytes a product file has at most.
pub const LONGEST_TEXT: usize = 65_536;

/// How many orders may be live at once, at most.
pub const MOST_ORDERS: u32 = 100_000;

/// How many orders may be live at once, where the file says nothing of it.
pub const USUAL_ORDERS: u32 = 10_000;

/// The least limit of the journal, in bytes.
pub const LEAST_JOURNAL: u32 = 131_072;

/// The greatest limit of the journal, in bytes.
pub const MOST_JOURNAL: u32 = 268_435_456;

/// The limit of the journal where the file gives none, in bytes.
pub const USUAL_JOURNAL: u32 = 16_777_216;

/// The greatest tick of an instrument, in price units.
pub const MOST_TICK: u32 = 1_000_000;

/// The greatest protection of market orders, in ticks.
pub const MOST_PROTECTION: u32 = 10_000;
