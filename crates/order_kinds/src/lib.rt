//! The rules of orders: what each request does to the live orders, the last trade prices and the counters, and what is
//! reported.
#![tactic(auto)]

mod accepting;
mod amending;
mod cancels;
mod closing;
mod collecting;
mod core_state;
mod entering;
mod histories;
mod instruments;
mod new_orders;
mod order_rules;
mod replaces;
mod reports;
mod state;
mod stops;
mod trades;
mod trading_sessions;

pub use closing::is_until_cancelled;
pub use core_state::{Core, MOST_MESSAGES};
pub use histories::{further_messages, histories_of_one_product};
