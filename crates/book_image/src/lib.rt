//! Book images: the state of the engine as bytes, written and read back.
#![tactic(auto)]

mod check;
mod check_rows;
mod format;
mod kinds;
mod load;
mod mark_tops;
mod numbers;
mod place_rows;
mod read;
mod read_row;
mod rules;
mod wait_rows;
mod write;
mod write_row;

pub use format::{COUNT_BYTES, DESK_BYTES, INSTRUMENT_BYTES, ROW_BYTES, SESSION_BYTES, image_len};
pub use read::{ImageBad, read_image};
pub use write::write_image;
