//! The indicative opening price: at which one price an instrument would open, if its orders were collected without matching,
//! and which orders would trade then.
#![tactic(auto)]

mod choice;
mod collecting;
mod laws;
mod lines;
mod print;
mod quote;
mod side_walk;
mod walk;

pub use choice::opening;
pub use collecting::collect;
pub use laws::{
    candidates_are_the_prices, no_price_opens_more, pairs_add_up, ties_fall_by_the_rules,
};
pub use print::print_opening;
pub use quote::Opening;
