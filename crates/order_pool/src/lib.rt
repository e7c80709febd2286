//! Queues of orders in one block of memory, whose links are raw pointers. Any order leaves, or goes to the end of its queue,
//! in constant time.
#![tactic(auto)]

mod block;
mod node;
mod pointer;
mod pool;

pub use pool::Pool;
