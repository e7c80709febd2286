//! Recovery: the state of the engine from a journal, by replaying its records; and the messages of a record, applied.
#![tactic(auto)]

mod applying;
mod contents;
mod image;
mod known;
mod laws;
mod next_ahead;
mod products;
mod read_ahead;
mod records;
mod recovery;
mod replay;
mod scratch;
mod taking;
mod true_images;

pub use applying::apply_given;
pub use laws::{an_image_is_recovered_one_way, one_place_is_the_first_bad_one};
pub use products::{NoProducts, Products};
pub use records::{Passed, next_record};
pub use recovery::{RecoverFault, Recovered, check_heads, recover};
pub use scratch::Scratch;
pub use taking::read_products;
pub use true_images::{
    good_records_are_good_from_the_last_image, recovery_from_an_image_is_a_full_replay,
    true_records_are_good,
};
