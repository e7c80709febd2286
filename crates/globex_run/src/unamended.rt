//! Why a journal was not amended.
ghost use Rattle.std.specs.Prelude.{◌≡◌};

use crate::open::Unopened;
use crate::outcome::{Outcome, Status};

/// Why a journal was not amended, with the place in its image.
#[derive(Clone, Copy, Debug, PartialEq, Eq)]
pub enum Unamended {
    /// There was no memory for the product that the journal keeps. Nothing was written.
    NoMemory,
    /// A call on the store failed.
    Store,
    NotAJournal(u64),
    Bad(u64),
    /// All of the journal but its first gate was written, with another product text.
    ProductDiffers(u64),
    /// The record would end past the limit of the product handed in; with the last gate.
    Full(u64),
    /// The journal takes no amendment (1), or the product may not follow (2 to 6).
    NotAmendable(u64),
}

impl Unamended {
    ghost use Rattle.globex_run.specs.Inner.Amending.{unamended_without};

    /// Why a journal was not amended that was not opened.
    pub fn of_unopened(why: Unopened) -> Unamended
        ensures { result ≡ unamended_without why }
    {
        match why {
            Unopened::Store => Unamended::Store,
            Unopened::NotAJournal(at) => Unamended::NotAJournal(at),
            Unopened::Bad(at) => Unamended::Bad(at),
            Unopened::ProductDiffers(at) => Unamended::ProductDiffers(at),
        }
    }
}

ghost use Rattle.globex_run.specs.Inner.Amending.{outcome_amended};

/// The outcome of an amendment: how many messages the journal keeps, or why it was not amended.
pub fn outcome_amended(amended: Result<u64, Unamended>) -> Outcome
    ensures { result ≡ outcome_amended amended }
{
    match amended {
        Ok(messages) => Status::Ok.outcome(0, messages),
        Err(Unamended::NoMemory) => Status::NoMemory.outcome(0, 0),
        Err(Unamended::Store) => Status::StoreFault.outcome(0, 0),
        Err(Unamended::NotAJournal(at)) => Status::NotAJournal.outcome(at, 0),
        Err(Unamended::Bad(at)) => Status::JournalBad.outcome(at, 0),
        Err(Unamended::ProductDiffers(at)) => Status::ProductDiffers.outcome(at, 0),
        Err(Unamended::Full(at)) => Status::JournalFull.outcome(at, 0),
        Err(Unamended::NotAmendable(at)) => Status::NotAmendable.outcome(at, 0),
    }
}
