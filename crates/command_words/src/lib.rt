//! The words of the command line: which command they give.
#![tactic(auto)]

mod command;
mod reading;

pub use command::{Command, WordsFault};
pub use reading::read_command;
