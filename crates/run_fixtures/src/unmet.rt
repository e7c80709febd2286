//! Why a test does not get what it asks for, and the end of the test then.
use globex_run::Outcome;
use std::alloc::AllocError;

/// Why a test does not get what it asks for.
#[derive(Debug, Drop)]
pub enum Unmet {
    /// There is no memory for it.
    Memory,
    /// The bytes have no such place.
    Place,
    /// A command that should do all ended otherwise.
    Ended(Outcome),
}

impl From<AllocError> for Unmet {
    fn from(_error: AllocError) -> Unmet {
        Unmet::Memory
    }
}

/// What a function gives whose first argument is the allocator, as in `must!(rt; source_of(bytes))`. The test ends at an error.
#[macro_export]
macro_rules! must {
    ($rt:expr; $make:ident($($argument:expr),* $(,)?)) => {
        $make($rt.alloc(), $($argument),*).expect($rt, stringify!($make))
    };
}
