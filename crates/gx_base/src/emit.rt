//! What takes events.
ghost use Rattle.std.specs.Prelude.{◌≡◌};
ghost use Rattle.gx_base.specs.Emits.{EmitMeanings, Puts};
ghost use Rattle.gx_base.specs.Executions.{event_of};

use crate::event::Event;
use crate::execution::Execution;

/// Takes events in their order, and may fail, as where its room is used up. A failure is for good.
pub trait Emit {
    ghost meanings: { EmitMeanings Self };

    /// Takes one event: what is seen becomes what the meanings make of it, or a part from the front of that where this
    /// put fails. After a failure it does nothing.
    fn put(&mut self, event: &Event)
        ensures { Puts meanings self.old self.new event.now };

    /// Takes an execution report as `put` takes its event. An emitter that needs no copy of the order makes none.
    fn put_execution(&mut self, execution: &Execution<'_>)
        ensures { Puts meanings self.old self.new (event_of execution.now) }
    {
        self.put(&execution.event());
    }

    /// Whether a put has failed.
    fn failed(&self) -> bool
        ensures { result ≡ meanings.has_failed self.now };
}

/// Sees nothing, and never fails.
#[derive(Clone, Copy, Debug, PartialEq, Eq)]
pub struct NullEmit;

impl Emit for NullEmit {
    ghost use Rattle.gx_base.specs.NullEmits.{null_meanings};

    ghost meanings = { null_meanings };

    fn put(&mut self, _event: &Event) {}

    fn put_execution(&mut self, _execution: &Execution<'_>) {}

    fn failed(&self) -> bool {
        false
    }
}
