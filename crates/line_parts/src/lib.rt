//! Parts of lines, written after other bytes: numbers, prices, fields and the frame round them, and pieces of a printed line.
#![tactic(auto)]

mod decimal;
pub mod fields;
pub mod pieces;
mod price;
mod room;
pub mod rows;
mod sides;
mod sum;
mod trailer;

pub use price::write_price;
pub use room::zeros;
pub use sides::{side_letter, side_text};
pub use sum::block_checksum;
pub use trailer::{TRAILER_LENGTH, checksum, trailer_with};
