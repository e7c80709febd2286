//! The slots of live orders, by the firm and the id that the firm gave the order.
#![tactic(auto)]

mod forest;
mod free;
mod hash;
mod node;
mod rooms;
mod spot;
mod table;
mod way;

pub use table::IdTable;
