//! The form of a line: how an event is printed, what is kept of events and of messages, and what is printed after all lines.
ghost use Rattle.std.specs.Prelude.{◌≡◌, ◌≤◌, length, take};
ghost use Rattle.gx_base.specs.Executions.{event_of};

use crate::line::{write_execution_into, write_line_into};
use gx_base::{Event, Execution, LONGEST_LINE, Names};
use product_file::Product;

/// How many bytes a form may print of an event (our own rule): a report line, and nine more for one that is sent again, which says so.
pub const LONGEST_PRINTED: usize = LONGEST_LINE + 9;

/// How events are printed, what is kept of them and of the messages that they come from, and what is printed after the last line.
pub trait LineForm {
    ghost use Rattle.exec_report.specs.Forms.{FormMeanings};

    ghost meanings: { FormMeanings Self };

    /// Writes the line of an event into the front of the room, and answers how many bytes it has: none where nothing is printed of
    /// such an event.
    fn write(&self, event: &Event, names: &Names, into: &mut [u8]) -> usize
        requires { LONGEST_PRINTED ≤ length into.old }
        ensures line { take result into.new ≡ meanings.text self.now names.now event.now }
        ensures short { result ≤ LONGEST_PRINTED };

    /// Writes the line of an execution report as `write` does that of its event. A form that needs no copy of the order makes none.
    fn write_execution(&self, execution: &Execution<'_>, names: &Names, into: &mut [u8]) -> usize
        requires { LONGEST_PRINTED ≤ length into.old }
        ensures line { take result into.new ≡ meanings.text self.now names.now (event_of execution.now) }
        ensures short { result ≤ LONGEST_PRINTED }
    {
        self.write(&execution.event(), names, into)
    }

    /// Keeps of an event what the form keeps.
    fn keep(&mut self, event: &Event)
        ensures { self.new ≡ meanings.after self.old event.now };

    /// Keeps of an execution report what `keep` keeps of its event.
    fn keep_execution(&mut self, execution: &Execution<'_>)
        ensures { self.new ≡ meanings.after self.old (event_of execution.now) }
    {
        self.keep(&execution.event());
    }

    /// Keeps of a message what the form keeps: its frame, as it was given.
    fn note(&mut self, product: &Product, frame: &[u8])
        ensures { self.new ≡ meanings.noted self.old product.now frame.now };

    /// Writes what is printed after the lines of all events into the front of the room, where so many lots are open of all live
    /// orders, and answers how many bytes it has: none where the lines are all.
    fn write_ending(&self, live: u64, into: &mut [u8]) -> usize
        requires { LONGEST_LINE ≤ length into.old }
        ensures ending { take result into.new ≡ meanings.ending self.now live }
        ensures short { result ≤ LONGEST_LINE };
}

/// The report line of each event; nothing is kept, and nothing comes after the lines.
#[derive(Clone, Copy, Debug, PartialEq, Eq)]
pub struct ReportForm;

impl LineForm for ReportForm {
    ghost use Rattle.exec_report.specs.ReportLines.{report_form};

    ghost meanings = { report_form };

    fn write(&self, event: &Event, names: &Names, into: &mut [u8]) -> usize {
        write_line_into(event, names, into)
    }

    fn write_execution(&self, execution: &Execution<'_>, names: &Names, into: &mut [u8]) -> usize {
        write_execution_into(execution, names, into)
    }

    fn keep(&mut self, _event: &Event) {}

    fn keep_execution(&mut self, _execution: &Execution<'_>) {}

    fn note(&mut self, _product: &Product, _frame: &[u8]) {}

    fn write_ending(&self, _live: u64, _into: &mut [u8]) -> usize {
        0
    }
}
