//! An opening at a price.
use gx_base::Price;

/// What an opening at a price would be (our own rule, the usual one of a call auction).
#[derive(Clone, Copy, Debug, PartialEq, Eq)]
pub struct Opening {
    /// In price units of the instrument.
    pub price: Price,
    /// What would trade, in lots: the lesser of demand and supply.
    pub volume: u64,
    /// What is open of the buys at the price or above, in lots.
    pub demand: u64,
    /// What is open of the sells at the price or below, in lots.
    pub supply: u64,
}
