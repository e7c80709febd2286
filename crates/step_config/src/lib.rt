//! The steps by which an instrument's orders share an incoming order: which lists of them are right, and which lists
//! letters stand for.
#![tactic(auto)]

mod faults;
mod presets;
mod share_faults;
mod step;
mod steps;

pub use presets::{Letter, Params, preset};
pub use step::{MOST_SHARES, MOST_STEPS, Step, StepFault};
pub use steps::Steps;
