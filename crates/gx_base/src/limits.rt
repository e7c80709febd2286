//! Limits of the engine. They are our own rules, but for the byte that ends a field, which is that of FIX 4.2.

/// The greatest quantity of an order, in lots (our own rule).
pub const MOST_LOTS: u32 = 999_999;

/// How many firms a product lists at most (our own rule).
pub const MOST_FIRMS: usize = 64;

/// How many instruments a product lists at most (our own rule).
pub const MOST_INSTRUMENTS: usize = 16;

/// How many decimals the prices of an instrument have at most (our own rule).
pub const MOST_DECIMALS: u8 = 8;

/// The greatest price either way, in price units (our own rule).
pub const MOST_PRICE_UNITS: u64 = 999_999_999_999;

/// Whom reports go to: the firms by their numbers and, last, the addressee `UNKNOWN` (our own rule).
pub const ADDRESSEES: usize = 65;

/// How many bytes a name has at most: that of a firm, an instrument or the exchange, and the id of an order (our own
/// rule).
pub const LONGEST_NAME: usize = 24;

/// How many bytes the value of a field of a report has at most: names, prices, numbers, times and our own words (our own
/// rule).
pub const LONGEST_VALUE: usize = 24;

/// How many bytes a report line has at most (our own rule).
pub const LONGEST_LINE: usize = 1024;

/// The byte that ends a field (FIX 4.2).
pub const SOH: u8 = 1;
