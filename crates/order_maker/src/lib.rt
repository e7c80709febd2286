//! A generator of messages, which are made by rule: always the same stream for a product, a first number and a count.
#![tactic(auto)]

mod body;
mod draws;
mod frame;
mod made;
mod maker_source;
mod turn;

pub use maker_source::MakerSource;
