//! The algorithm of an instrument, and the numbers and shares that its steps take.
ghost use Rattle.std.specs.Prelude.{◌≡◌, ◌≤◌, length};
ghost use Rattle.std.specs.List.{list_any};
ghost use Rattle.toml.specs.View.{view};
ghost use Rattle.toml.specs.Data.{get};
ghost use Rattle.product_file.specs.declared.faults.Key.TheVariants.{Steps};
ghost use Rattle.product_file.specs.Keys.{word_of};
ghost use Rattle.product_file.specs.Letters.{letter_of, is_configurable, usual_least};
ghost use Rattle.product_file.specs.Inner.Algorithms.{algorithm_of, is_split, has_split, needs_split, parameters_of};

use crate::faults::{Key, ProductFault};
use crate::keys::{number_if, text_at, text_in};
use crate::shares::shares_of;
use gx_base::{MOST_FIRMS, MOST_LOTS, ShortId, TopRule};
use step_config::{Letter, Params};
use toml::Value;

/// What the steps of an instrument take.
#[derive(Debug, Drop)]
pub(crate) struct Parameters {
    /// What the letters' own lists take, too.
    pub(crate) preset: Params,
    /// The percentage of a SPLIT step, and 0 where the file gives none.
    pub(crate) split: u8,
}

/// The algorithm of an instrument.
#[tactic(auto, unfolding(crate::specs::Inner::Algorithms::algorithm_of))]
pub(crate) fn algorithm_of(table: &Value) -> Result<Letter, ProductFault>
    ensures { result ≡ algorithm_of (view table.now) }
{
    let text = text_at(table, Key::Algorithm)?;
    match letter_of(text) {
        Some(letter) => Ok(letter),
        None => Err(ProductFault::UnknownLetter),
    }
}

/// The letter that a text is.
fn letter_of(text: &str) -> Option<Letter>
    ensures { result ≡ letter_of text.now }
{
    match text {
        "F" => Some(Letter::F),
        "C" => Some(Letter::C),
        "A" => Some(Letter::A),
        "T" => Some(Letter::T),
        "O" => Some(Letter::O),
        "Q" => Some(Letter::Q),
        "K" => Some(Letter::K),
        _ => None,
    }
}

/// Whether a letter stands for the list of steps that the file gives, and for none of its own.
pub(crate) fn is_configurable(letter: Letter) -> bool
    ensures { result ≡ is_configurable letter }
{
    matches!(letter, Letter::K)
}

/// What the steps of an instrument take, with the usual values where the file gives none (our own).
#[tactic(auto, unfolding(crate::specs::Inner::Algorithms::parameters_of))]
pub(crate) fn parameters_of(
    firms: &[ShortId],
    letter: Letter,
    table: &Value,
) -> Result<Parameters, ProductFault>
    requires { length firms.now ≤ MOST_FIRMS }
    ensures { result ≡ parameters_of firms.now letter (view table.now) }
{
    let min = number_if(false, table, Key::TopMin, 1, MOST_LOTS)?;
    let max = number_if(false, table, Key::TopMax, 1, MOST_LOTS)?;
    let least = number_if(false, table, Key::Least, 1, MOST_LOTS)?;
    let split = number_if(needs_split(letter, table), table, Key::Split, 1, 100)?;
    let lmm = shares_of(firms, table)?;
    Ok(Parameters {
        preset: Params {
            top: TopRule {
                min: min.unwrap_or(1),
                max: max.unwrap_or(MOST_LOTS),
            },
            least: least.unwrap_or(usual_least(letter)),
            lmm,
        },
        split: split.unwrap_or(0) as u8,
    })
}

/// The least part of a PRORATA step, in lots, where the file gives none (our own).
fn usual_least(letter: Letter) -> u32
    ensures { result ≡ usual_least letter }
{
    match letter {
        Letter::A => 2,
        _ => 1,
    }
}

/// Whether the list of steps is the file's own, and an array that has the text SPLIT.
fn needs_split(letter: Letter, table: &Value) -> bool
    ensures { result ≡ needs_split letter (view table.now) }
{
    is_configurable(letter) && has_split(table)
}

/// Whether the list of steps is an array that has the text SPLIT.
fn has_split(table: &Value) -> bool
    ensures { result ≡ has_split (get (word_of Steps) (view table.now)) }
{
    match table.get(Key::Steps.word()) {
        Some(steps) => match steps.as_array() {
            Some(entries) => is_split_among(entries.as_slice()),
            None => false,
        },
        None => false,
    }
}

/// Whether one of these entries is the text SPLIT.
fn is_split_among(entries: &[Value]) -> bool
    ensures { result ≡ list_any (λ v. is_split (view v)) entries.now }
{
    entries.iter().any(|entry| text_in(entry) == "SPLIT")
}
