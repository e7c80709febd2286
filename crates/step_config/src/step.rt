//! One step of a match, and what can be wrong with a list of them.
ghost use Rattle.std.specs.Prelude.{◌≡◌};
ghost use Rattle.step_config.specs.Rules.{name_of, is_same_name, is_fifo, is_leveling, is_pro_rata};

use arrayvec::ArrayVec;
use gx_base::{LmmShare, StepName, TopRule};
use thiserror::Error;

/// How many steps a list has at most, one of each name.
pub const MOST_STEPS: usize = 6;

/// How many lead market makers a step serves at most (our own rule).
pub const MOST_SHARES: usize = 8;

/// One step of a match: to whom it gives how much of an incoming order. The steps follow the exchange's published
/// outline; what each gives, what it takes as parameters, and their limits are our own rule.
#[derive(Debug, Default, Drop, PartialEq, Eq)]
pub enum Step {
    /// To the order that bettered the market, within these limits in lots.
    Top(TopRule),
    /// To lead market makers, each firm its percentage.
    Lmm(ArrayVec<LmmShare, MOST_SHARES>),
    /// This percentage, by priority.
    Split(u8),
    /// To each order in proportion to what it shows, where its part is at least this many lots.
    ProRata(u32),
    /// One lot to each order that the pro rata step gave nothing.
    Leveling,
    /// By priority.
    #[default]
    Fifo,
}

/// Why a list of steps is refused. The first four faults are of the list, and are tried in this order. The others are of
/// one step, and are tried after those, step by step; those of an LMM step are tried in this order. All of them are our
/// own rule.
#[derive(Clone, Copy, Debug, Error, PartialEq, Eq)]
pub enum StepFault {
    /// There is no step.
    #[error("there is no step")]
    Empty,
    /// This is the name of the first step whose name an earlier step has.
    #[error("two steps are named {0:?}")]
    Twice(StepName),
    /// The FIFO step is absent or not the last one.
    #[error("the last step is not FIFO")]
    NotLast,
    /// There is a LEVELING step, and no PRORATA step before it.
    #[error("LEVELING stands before PRORATA")]
    LevelingFirst,
    /// This is the number of the firm of the LMM step's first share whose firm an earlier share has.
    #[error("two shares are of firm {0}")]
    Firm(u8),
    /// This is a SPLIT step's percentage, or the first of an LMM step's, that is not from 1 to 100; or else the sum of the
    /// LMM step's percentages, which is above 100.
    #[error("{0} is no percentage from 1 to 100")]
    Percent(u32),
    /// This least part of a PRORATA step is not from 1 to `MOST_LOTS` lots.
    #[error("the least part of {0} lots is not from 1 to 999999")]
    Least(u32),
    /// The least and the most lots of a TOP step, where the least is 0 or above the most, or the most is above `MOST_LOTS`.
    #[error("the limits of {0} and {1} lots are not in order from 1 to 999999")]
    MinMax(u32, u32),
}

impl Step {
    /// The name of the step, as reports give it.
    pub fn name(&self) -> StepName
        ensures { result ≡ name_of self.now }
    {
        match self {
            Step::Top(_) => StepName::Top,
            Step::Lmm(_) => StepName::Lmm,
            Step::Split(_) => StepName::Split,
            Step::ProRata(_) => StepName::ProRata,
            Step::Leveling => StepName::Leveling,
            Step::Fifo => StepName::Fifo,
        }
    }

    /// Whether this is the FIFO step.
    pub(crate) fn is_fifo(&self) -> bool
        ensures { result ≡ is_fifo self.now }
    {
        matches!(self, Step::Fifo)
    }

    /// Whether this is a LEVELING step.
    pub(crate) fn is_leveling(&self) -> bool
        ensures { result ≡ is_leveling self.now }
    {
        matches!(self, Step::Leveling)
    }

    /// Whether this is a PRORATA step.
    pub(crate) fn is_pro_rata(&self) -> bool
        ensures { result ≡ is_pro_rata self.now }
    {
        matches!(self, Step::ProRata(_))
    }

    /// The same step again. Takes no memory.
    pub(crate) fn copy(&self) -> Step
        ensures { result ≡ self.now }
    {
        match self {
            Step::Top(rule) => Step::Top(*rule),
            Step::Lmm(shares) => Step::Lmm(copy_shares(shares)),
            Step::Split(percent) => Step::Split(*percent),
            Step::ProRata(least) => Step::ProRata(*least),
            Step::Leveling => Step::Leveling,
            Step::Fifo => Step::Fifo,
        }
    }
}

/// The same shares again. Takes no memory.
pub(crate) fn copy_shares(
    shares: &ArrayVec<LmmShare, MOST_SHARES>,
) -> ArrayVec<LmmShare, MOST_SHARES>
    ensures { result ≡ shares.now }
{
    let shares = shares.as_slice();
    let mut copy = ArrayVec::new();
    for share in shares {
        copy.push(*share);
    }
    copy
}

/// Whether two steps' names are one.
pub(crate) fn is_same_name(a: StepName, b: StepName) -> bool
    ensures { result ≡ is_same_name a b }
{
    a == b
}
