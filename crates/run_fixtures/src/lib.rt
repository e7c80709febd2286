//! What the crates of tests share of whole runs.
#![tactic(auto)]

mod applying;
mod example;
mod frames;
mod orders;
mod product;
mod runs;
mod unmet;

pub use applying::apply_held;
pub use example::{
    ACCEPTED, DUPLICATE, FILLED, ORDER, SECOND_ACCEPTED, SECOND_FILLED, SECOND_ORDER,
};
pub use frames::{bytes_of, concat, frames_of, join, push_frame, with_byte, words_of};
pub use product::PRODUCT;
pub use runs::{
    NEVER, ROOM, cut_source, ended, execute, execute_frames, execute_well, failing_source,
    failing_station, image_then, run, run_over, source_of, source_of_frames, station_of,
    station_then,
};
pub use unmet::Unmet;
