//! The product file: what the operator of an exchange writes, read into the names, limits and steps that the engine serves.
#![tactic(auto)]

mod algorithms;
mod amendments;
mod faults;
mod firms;
mod instruments;
mod keys;
mod laws;
mod limits;
mod product;
mod read;
mod shares;
mod step_lists;

pub use amendments::{AmendFault, may_follow};
pub use faults::{Key, ProductFault};
pub use laws::products_of_texts_are_right;
pub use limits::{
    LEAST_JOURNAL, LONGEST_TEXT, MOST_JOURNAL, MOST_ORDERS, MOST_PROTECTION, MOST_TICK,
    USUAL_JOURNAL, USUAL_ORDERS,
};
pub use product::{InstrumentRule, Product};
pub use read::read_product;
