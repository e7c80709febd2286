//! The lists of steps that letters stand for.
ghost use Rattle.std.specs.Prelude.{◌≡◌, IsTrue};
ghost use Rattle.step_config.specs.Rules.{steps_of};
ghost use Rattle.step_config.specs.Presets.{is_preset, preset_steps};

use crate::step::{MOST_SHARES, Step, StepFault, copy_shares};
use crate::steps::Steps;
use arrayvec::ArrayVec;
use gx_base::{LmmShare, MOST_LOTS, TopRule};

/// The letter of an algorithm, named after those of the exchange's tag 1142. What each stands for is our own rule, after
/// the exchange's published outline.
#[derive(Clone, Copy, Debug, Default, PartialEq, Eq)]
pub enum Letter {
    /// By priority alone.
    #[default]
    F,
    /// In proportion, and the rest by priority.
    C,
    /// First to the order that bettered the market, with no limit of its own, and then as `C`.
    A,
    /// First to lead market makers, and the rest by priority.
    T,
    /// First to the order that bettered the market, within limits, and then as `C`.
    O,
    /// As `O`, with lead market makers before the part in proportion.
    Q,
    /// Any list of steps, and so no preset.
    K,
}

/// What the presets take. A preset uses only what its steps need.
#[derive(Debug, Drop, PartialEq, Eq)]
pub struct Params {
    /// The limits of the TOP step of `O` and `Q`, in lots.
    pub top: TopRule,
    /// The least part of a PRORATA step, in lots.
    pub least: u32,
    /// The shares of an LMM step, in percent.
    pub lmm: ArrayVec<LmmShare, MOST_SHARES>,
}

/// The steps of an algorithm with these parameters, or the fault that `Steps::read` finds in its list, which comes of a
/// parameter that is out of its range. `F` is FIFO; `T` LMM, FIFO; `C` PRORATA, FIFO; `A` TOP within 1 and `MOST_LOTS` lots,
/// PRORATA, FIFO; `O` TOP, PRORATA, FIFO; and `Q` TOP, LMM, PRORATA, FIFO. `K` has no list of its own, and is not asked
/// for. The lists and their order are our own rule, after the exchange's published outline.
pub fn preset(letter: Letter, params: &Params) -> Result<Steps, StepFault>
    requires { IsTrue (is_preset letter) }
    ensures { result ≡ steps_of (preset_steps letter params.now) }
{
    let pro_rata = Step::ProRata(params.least);
    match letter {
        Letter::F => Steps::read(&[Step::Fifo]),
        Letter::T => Steps::read(&[Step::Lmm(copy_shares(&params.lmm)), Step::Fifo]),
        Letter::C => Steps::read(&[pro_rata, Step::Fifo]),
        Letter::A => Steps::read(&[Step::Top(ANY_SIZE), pro_rata, Step::Fifo]),
        Letter::O => Steps::read(&[Step::Top(params.top), pro_rata, Step::Fifo]),
        Letter::Q => Steps::read(&[
            Step::Top(params.top),
            Step::Lmm(copy_shares(&params.lmm)),
            pro_rata,
            Step::Fifo,
        ]),
        Letter::K => unreachable!(),
    }
}

/// A TOP step's limits that no order exceeds.
const ANY_SIZE: TopRule = TopRule {
    min: 1,
    max: MOST_LOTS,
};
