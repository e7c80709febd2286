//! A list of steps that is right.
ghost use Rattle.std.specs.Prelude.{◌≡◌, ◌≤◌, length};
ghost use Rattle.step_config.specs.Rules.{steps_of, top_rule_of};
ghost use Rattle.step_config.specs.RightSteps.{AreRightSteps};

use crate::faults::fault_of;
use crate::step::{MOST_STEPS, Step, StepFault};
use arrayvec::ArrayVec;
use gx_base::TopRule;
use std::marker::Model;

/// The steps of a match, in their order. The list has no fault, so it has at most six steps. Contracts see it as the
/// list.
#[derive(Debug, Drop)]
pub struct Steps {
    steps: ArrayVec<Step, MOST_STEPS>,
}

impl Model for Steps {
    ghost use Rattle.std.specs.Prelude.{◌≡◌, List, None};
    ghost use Rattle.step_config.specs.declared.step.Step.{Step};
    ghost use Rattle.step_config.specs.Rules.{fault_of};

    ghost Value = { List Step };

    ghost view = { λ s. s.steps.items };

    ghost invariant = { λ s. fault_of s.steps.items ≡ None };
}

impl Steps {
    /// The steps of this list, in its order, or its first fault, as `StepFault` says: there is no step; a name stands
    /// twice; FIFO is absent or not the last; LEVELING stands with no PRORATA before it; and then, step by step, a firm
    /// that stands twice, a percentage or a number of lots out of its range. It takes no memory, and fails for nothing
    /// else. Our own rule.
    pub fn read(steps: &[Step]) -> Result<Steps, StepFault>
        ensures { result ≡ steps_of steps.now }
    {
        match fault_of(steps) {
            Some(fault) => Err(fault),
            None => Ok(Steps {
                steps: copy_steps(steps),
            }),
        }
    }

    /// The steps, in their order: from one to six, of which the last is FIFO and no two have one name.
    pub fn list(&self) -> &[Step]
        ensures list { result.now ≡ self.now }
        ensures right { AreRightSteps self.now }
    {
        &self.steps
    }

    /// The limits of the TOP step, in lots. `None` exactly where there is no such step.
    pub fn top_rule(&self) -> Option<TopRule>
        ensures { result ≡ top_rule_of self.now }
    {
        let steps = self.list();
        for step in steps {
            if let Step::Top(rule) = step {
                return Some(*rule);
            }
        }
        None
    }
}

/// FIFO alone, the list of the preset `F`.
impl Default for Steps {
    ghost use Rattle.std.specs.Prelude.{[], ◌∷◌};
    ghost use Rattle.step_config.specs.declared.step.Step.TheVariants.{Fifo};

    ghost is_default = { λ steps. steps ≡ Fifo ∷ [] };

    fn default() -> Steps {
        Steps {
            steps: copy_steps(&[Step::Fifo]),
        }
    }
}

/// The same steps again. Takes no memory.
fn copy_steps(steps: &[Step]) -> ArrayVec<Step, MOST_STEPS>
    requires { length steps.now ≤ MOST_STEPS }
    ensures { result.items ≡ steps.now }
{
    let mut copy = ArrayVec::new();
    for step in steps {
        copy.push(step.copy());
    }
    copy
}
