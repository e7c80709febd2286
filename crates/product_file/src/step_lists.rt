//! The list of steps of an instrument.
ghost use Rattle.std.specs.Prelude.{◌≡◌, ◌≤◌, length, map};
ghost use Rattle.std.specs.List.{list_all};
ghost use Rattle.toml.specs.View.{view};
ghost use Rattle.product_file.specs.Values.{text_in};
ghost use Rattle.product_file.specs.Letters.{is_step_name};
ghost use Rattle.product_file.specs.Inner.Keys.{map_ok};
ghost use Rattle.product_file.specs.Inner.StepLists.{step_named, step_names_of, letter_steps};
ghost use Rattle.step_config.specs.Rules.{steps_of};

use crate::algorithms::{Parameters, is_configurable};
use crate::faults::{Key, ProductFault};
use crate::keys::{text_in, texts_if};
use arrayvec::ArrayVec;
use gx_base::LmmShare;
use step_config::{Letter, MOST_SHARES, MOST_STEPS, Step, StepFault, Steps, preset};
use toml::Value;

/// The entries of the list of steps, each of them the name of a step. There are none where the file has no list.
#[tactic(auto, unfolding(crate::specs::Inner::StepLists::step_names_of))]
pub(crate) fn step_names_of(letter: Letter, table: &Value) -> Result<&[Value], ProductFault>
    ensures { map_ok (λ vs. map text_in (map view vs.now)) result ≡ step_names_of letter (view table.now) }
{
    let entries = texts_if(is_configurable(letter), table, Key::Steps)?;
    if are_step_names(entries) {
        Ok(entries)
    } else {
        Err(ProductFault::UnknownLetter)
    }
}

/// Whether each entry is the name of a step.
fn are_step_names(entries: &[Value]) -> bool
    ensures { result ≡ list_all (λ v. is_step_name (text_in (view v))) entries.now }
{
    entries.iter().all(|entry| is_step_name(text_in(entry)))
}

/// Whether this is the name of a step.
fn is_step_name(text: &str) -> bool
    ensures { result ≡ is_step_name text.now }
{
    text == "TOP"
        || text == "LMM"
        || text == "SPLIT"
        || text == "PRORATA"
        || text == "LEVELING"
        || text == "FIFO"
}

/// The steps of a letter, if they are right: those that the file names for K, and the letter's own for every other one.
pub(crate) fn letter_steps(
    letter: Letter,
    parameters: &Parameters,
    names: &[Value],
) -> Result<Steps, ProductFault>
    ensures { result ≡ letter_steps letter parameters.now (map text_in (map view names.now)) }
{
    let steps = match letter {
        Letter::K => own_steps(parameters, names),
        _ => preset(letter, &parameters.preset),
    };
    match steps {
        Ok(steps) => Ok(steps),
        Err(fault) => Err(ProductFault::Steps(fault)),
    }
}

/// So many names of steps have one that stands twice among them.
const TOO_MANY: usize = MOST_STEPS + 1;

/// The steps of these names, if they are right. Of more than six names one stands twice, and among the first seven
/// already, so no more than these are looked at.
fn own_steps(parameters: &Parameters, names: &[Value]) -> Result<Steps, StepFault>
    ensures { result ≡ steps_of (map (step_named parameters.now) (map text_in (map view names.now))) }
{
    if names.len() > TOO_MANY {
        return Steps::read(&first_steps(parameters, &names[..TOO_MANY]));
    }
    Steps::read(&first_steps(parameters, names))
}

/// The steps of these names, of which there are at most seven.
fn first_steps(parameters: &Parameters, names: &[Value]) -> ArrayVec<Step, TOO_MANY>
    requires { length names.now ≤ TOO_MANY }
    ensures { result.items ≡ map (λ v. step_named parameters.now (text_in (view v))) names.now }
{
    let mut steps = ArrayVec::new();
    for name in names {
        steps.push(step_named(parameters, text_in(name)));
    }
    steps
}

/// The step of a name.
fn step_named(parameters: &Parameters, name: &str) -> Step
    ensures { result ≡ step_named parameters.now name.now }
{
    match name {
        "TOP" => Step::Top(parameters.preset.top),
        "LMM" => Step::Lmm(copy_shares(&parameters.preset.lmm)),
        "SPLIT" => Step::Split(parameters.split),
        "PRORATA" => Step::ProRata(parameters.preset.least),
        "LEVELING" => Step::Leveling,
        _ => Step::Fifo,
    }
}

/// The same shares again. Takes no memory.
fn copy_shares(shares: &[LmmShare]) -> ArrayVec<LmmShare, MOST_SHARES>
    requires { length shares.now ≤ MOST_SHARES }
    ensures { result.items ≡ shares.now }
{
    let mut copy = ArrayVec::new();
    for share in shares {
        copy.push(*share);
    }
    copy
}
