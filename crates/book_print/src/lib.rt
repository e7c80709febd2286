//! Printed forms: the book, the steps, the fills, the ledger and the summary of a drill as text.
#![tactic(auto)]

mod book;
mod fills;
mod ledger;
mod lots;
mod sending;
mod steps;
mod tally;

pub use book::print_book;
pub use fills::FillForm;
pub use ledger::Totals;
pub use lots::open_lots;
pub use sending::send_line;
pub use steps::print_steps;
pub use tally::{Tally, print_tally};
