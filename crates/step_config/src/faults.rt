//! What is wrong with a list of steps.
ghost use Rattle.std.specs.Prelude.{◌≡◌, map, position};
ghost use Rattle.std.specs.List.{list_any};
ghost use Rattle.gx_base.specs.FirstFault.{first_fault};
ghost use Rattle.step_config.specs.Rules.{is_leveling, is_pro_rata, has_name, first_twice, is_fifo_last, leveling_first, is_top_rule, fault_of_step, fault_of};

use crate::share_faults::{fault_of_shares, is_percent};
use crate::step::{Step, StepFault, is_same_name};
use gx_base::{MOST_LOTS, StepName, TopRule};

/// The first fault of a list of steps, in the order of `StepFault`.
pub(crate) fn fault_of(steps: &[Step]) -> Option<StepFault>
    ensures { result ≡ fault_of steps.now }
{
    if steps.is_empty() {
        return Some(StepFault::Empty);
    }
    if let Some(name) = first_twice(steps) {
        return Some(StepFault::Twice(name));
    }
    if !is_fifo_last(steps) {
        return Some(StepFault::NotLast);
    }
    if leveling_first(steps) {
        return Some(StepFault::LevelingFirst);
    }
    first_step_fault(steps)
}

/// The name of the first step whose name an earlier step has.
fn first_twice(steps: &[Step]) -> Option<StepName>
    ensures { result ≡ first_twice steps.now }
{
    for (i, step) in steps.iter().enumerate() {
        if has_name(step.name(), &steps[..i]) {
            return Some(step.name());
        }
    }
    None
}

/// Whether one of these steps has this name.
fn has_name(name: StepName, steps: &[Step]) -> bool
    ensures { result ≡ has_name name steps.now }
{
    steps.iter().any(|step| is_same_name(step.name(), name))
}

/// Whether the last step is the FIFO step.
fn is_fifo_last(steps: &[Step]) -> bool
    ensures { result ≡ is_fifo_last steps.now }
{
    match steps.last() {
        Some(step) => step.is_fifo(),
        None => false,
    }
}

/// Whether there is a LEVELING step, and no PRORATA step before it.
fn leveling_first(steps: &[Step]) -> bool
    ensures { result ≡ leveling_first steps.now }
{
    match find_leveling(steps) {
        Some(at) => !has_pro_rata(&steps[..at]),
        None => false,
    }
}

/// The index of the first LEVELING step.
fn find_leveling(steps: &[Step]) -> Option<usize>
    ensures { result ≡ position is_leveling steps.now }
{
    steps.iter().position(|step| step.is_leveling())
}

/// Whether there is a PRORATA step.
fn has_pro_rata(steps: &[Step]) -> bool
    ensures { result ≡ list_any is_pro_rata steps.now }
{
    steps.iter().any(|step| step.is_pro_rata())
}

/// The first fault of a step, of the first step that has one.
fn first_step_fault(steps: &[Step]) -> Option<StepFault>
    ensures { result ≡ first_fault (map fault_of_step steps.now) }
{
    for step in steps {
        if let Some(fault) = fault_of_step(step) {
            return Some(fault);
        }
    }
    None
}

/// The first fault of a step.
fn fault_of_step(step: &Step) -> Option<StepFault>
    ensures { result ≡ fault_of_step step.now }
{
    match step {
        Step::Top(rule) if !is_top_rule(*rule) => Some(StepFault::MinMax(rule.min, rule.max)),
        Step::Lmm(shares) => fault_of_shares(shares),
        Step::Split(percent) if !is_percent(*percent) => Some(StepFault::Percent(*percent as u32)),
        Step::ProRata(least) if *least < 1 || *least > MOST_LOTS => Some(StepFault::Least(*least)),
        _ => None,
    }
}

/// Whether the least is not 0 and not above the most, and the most not above `MOST_LOTS`.
fn is_top_rule(rule: TopRule) -> bool
    ensures { result ≡ is_top_rule rule }
{
    1 <= rule.min && rule.min <= rule.max && rule.max <= MOST_LOTS
}
