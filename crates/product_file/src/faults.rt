//! What can be wrong with a product file, and the keys that a fault names.
ghost use Rattle.std.specs.Prelude.{◌≡◌, Some};
ghost use Rattle.product_file.specs.Keys.{word_of};
ghost use Rattle.product_file.specs.Faults.{rule_number};

use gx_base::ShortId;
use std::fmt;
use step_config::StepFault;
use thiserror::Error;

/// The keys of a product file (our own format). Those from `Name` on stand in each table of `instrument`, and `LmmFirm`
/// and `LmmPercent` are `firm` and `percent` of an entry of `lmm`.
#[derive(Clone, Copy, Debug, PartialEq, Eq)]
pub enum Key {
    Exchange,
    Firms,
    MaxOrders,
    JournalLimit,
    Instrument,
    Name,
    Decimals,
    Tick,
    Protection,
    Algorithm,
    TopMin,
    TopMax,
    Least,
    Split,
    Lmm,
    LmmFirm,
    LmmPercent,
    Steps,
}

/// Why a product file is refused: the first fault in the order of the keys, and of the rules of each key (our own).
#[derive(Clone, Copy, Debug, Error, PartialEq, Eq)]
pub enum ProductFault {
    /// It has more than `LONGEST_TEXT` bytes.
    #[error("the product file has more than 65536 bytes")]
    TooLong,
    /// It is no TOML document.
    #[error("the product file is no TOML document")]
    Text,
    /// A key that is needed is absent.
    #[error("`{0}` is missing")]
    Missing(Key),
    /// A value, or an entry of an array, is of another type.
    #[error("`{0}` is of another type")]
    Kind(Key),
    /// A number, the length of an array, or a name is outside its limits.
    #[error("`{0}` is out of range")]
    Range(Key),
    /// A firm, an instrument, or the firm of an LMM share that an earlier entry names too.
    #[error("the name `{}` stands twice", readable(.0))]
    Twice(ShortId),
    /// An LMM share is of a firm that is not listed.
    #[error("`{0}` is none of the firms")]
    UnknownFirm(Key),
    /// An algorithm or a step that there is not.
    #[error("there is no algorithm or step of this name")]
    UnknownLetter,
    /// A list of steps is faulty.
    #[error("the steps are faulty: {0}")]
    Steps(StepFault),
    /// Memory ran out. It says nothing of the file.
    #[error("out of memory")]
    NoMemory,
}

impl Key {
    /// The key as it stands in the file.
    pub fn word(self) -> &'static str
        ensures { result.now ≡ word_of self }
    {
        match self {
            Key::Exchange => "exchange",
            Key::Firms => "firms",
            Key::MaxOrders => "max_orders",
            Key::JournalLimit => "journal_limit",
            Key::Instrument => "instrument",
            Key::Name => "name",
            Key::Decimals => "decimals",
            Key::Tick => "tick",
            Key::Protection => "protection",
            Key::Algorithm => "algorithm",
            Key::TopMin => "top_min",
            Key::TopMax => "top_max",
            Key::Least => "least",
            Key::Split => "split",
            Key::Lmm => "lmm",
            Key::LmmFirm => "firm",
            Key::LmmPercent => "percent",
            Key::Steps => "steps",
        }
    }
}

/// Writes the key's word.
impl fmt::Display for Key {
    ghost output = { λ key. Some (word_of key) };

    fn fmt<W: fmt::Write>(&self, f: &mut fmt::Formatter<W>) -> fmt::Result {
        write!(f, "{}", self.word())
    }
}

impl ProductFault {
    /// The number of the rule that the file breaks, from 1 on in the order of the variants: 1 for `TooLong` to 9 for
    /// `Steps`. 0 for `NoMemory`, which breaks none.
    pub fn number(self) -> u8
        ensures { result ≡ rule_number self }
    {
        match self {
            ProductFault::TooLong => 1,
            ProductFault::Text => 2,
            ProductFault::Missing(_) => 3,
            ProductFault::Kind(_) => 4,
            ProductFault::Range(_) => 5,
            ProductFault::Twice(_) => 6,
            ProductFault::UnknownFirm(_) => 7,
            ProductFault::UnknownLetter => 8,
            ProductFault::Steps(_) => 9,
            ProductFault::NoMemory => 0,
        }
    }
}

/// The text of a name.
fn readable(name: &ShortId) -> &str {
    std::str::from_utf8(name.bytes()).unwrap_or("")
}
