//! What a line reports.
ghost use Rattle.std.specs.Prelude.{◌≡◌, ◌≤◌, length, take};
ghost use Rattle.exec_report.specs.Inner.{reported_event};

use crate::line_form::{LONGEST_PRINTED, LineForm};
use gx_base::{Event, Execution, Names};

/// What a line reports: an event, or an execution of an order that is lent.
#[derive(Clone, Copy)]
pub(crate) enum Reported<'a> {
    Event(&'a Event),
    Execution(&'a Execution<'a>),
}

/// Writes its line in a form, as `LineForm::write` does. It is a part of its callers, which know which of the two it is.
#[inline(always)]
pub(crate) fn write_reported<F: LineForm>(
    form: &F,
    reported: Reported<'_>,
    names: &Names,
    into: &mut [u8],
) -> usize
    requires { LONGEST_PRINTED ≤ length into.old }
    ensures line { take result into.new ≡ F.meanings.text form.now names.now (reported_event reported.entry) }
    ensures short { result ≤ LONGEST_PRINTED }
{
    match reported {
        Reported::Event(event) => form.write(event, names, into),
        Reported::Execution(execution) => form.write_execution(execution, names, into),
    }
}
