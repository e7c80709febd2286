//! The stops that wait, of each instrument in the order in which they came, and the first of them that trades reach.
#![tactic(auto)]

mod bound;
mod place;
mod queue;
mod stops;

pub use queue::Wait;
pub use stops::WaitingStops;
