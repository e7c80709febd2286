//! What the words ask for, or why they ask for nothing.
ghost use Rattle.std.specs.Prelude.{◌≡◌, ◌≢◌};
ghost use Rattle.clap.specs.Words.{kind_of};
ghost use Rattle.clap.specs.declared.error.ErrorKind.TheVariants.{OutOfMemory};
ghost use Rattle.command_words.specs.declared.command.WordsFault.TheVariants.{NoMemory, Refused};

use clap::error::ErrorKind;
use std::alloc::AllocError;
use thiserror::Error;

/// What the words ask for, by the command's name.
#[derive(Clone, Copy, Debug, PartialEq, Eq)]
pub enum Command {
    /// `run`
    Run,
    /// `replay`
    Replay,
    /// `book`
    Book,
    /// `fills`
    Fills,
    /// `ledger`
    Ledger,
    /// `steps`
    Steps,
    /// `checkpoint`
    Checkpoint,
    /// `amend`
    Amend,
    /// `session`
    Session,
    /// `opening`
    Opening,
    /// `levels`
    Levels,
    /// `rebuild`
    Rebuild,
    /// `drill`, with the numbers of `--first` (at most 2,147,483,647) and `--count` (at most 1,000,000).
    Drill { first: u32, count: u32 },
}

/// Why the words give no command.
#[derive(Clone, Copy, Debug, Error, PartialEq, Eq)]
pub enum WordsFault {
    /// Memory has run out.
    #[error("out of memory")]
    NoMemory,
    /// They are not what the command line takes. A call for help is none either.
    #[error("the words are no command")]
    Refused,
}

impl From<AllocError> for WordsFault {
    ghost from_gives = { λ _ fault. fault ≡ NoMemory };

    fn from(_error: AllocError) -> WordsFault {
        WordsFault::NoMemory
    }
}

impl From<clap::Error> for WordsFault {
    ghost from_gives = { λ error fault. fault ≡ Refused → kind_of error ≢ OutOfMemory };

    fn from(error: clap::Error) -> WordsFault {
        match error.kind() {
            ErrorKind::OutOfMemory => WordsFault::NoMemory,
            _ => WordsFault::Refused,
        }
    }
}
