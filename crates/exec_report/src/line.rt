//! Report lines: events to bytes.
ghost use Rattle.std.specs.Prelude.{◌≡◌, ◌≤◌, length, take};
ghost use Rattle.gx_base.specs.Executions.{event_of};
ghost use Rattle.gx_base.specs.Line.{line_of};

use crate::body::{write_body, write_execution_body};
use gx_base::{Event, Execution, LONGEST_LINE, Names};
use line_parts::fields::{GAP, put_frame};

/// Writes the line of an event into the front of `into`, and answers how many bytes it has; what stands after them is
/// left open. The line is a message of FIX 4.2, with our own tags 9001 to 9003. A firm or an instrument that is not
/// listed is written as `UNKNOWN`, and the prices of such an instrument have no decimals.
pub fn write_line(event: &Event, names: &Names, into: &mut [u8; LONGEST_LINE]) -> usize
    ensures line { take result into.new ≡ line_of names.now event.now }
    ensures count { result ≡ length (line_of names.now event.now) }
    ensures short { result ≤ LONGEST_LINE }
{
    write_line_into(event, names, into)
}

/// Writes the line of an event as `write_line` does, into the front of longer room. Most lines are those of orders that are lent, and
/// do not come here.
#[cold]
#[inline(never)]
pub(crate) fn write_line_into(event: &Event, names: &Names, into: &mut [u8]) -> usize
    requires { LONGEST_LINE ≤ length into.old }
    ensures line { take result into.new ≡ line_of names.now event.now }
    ensures count { result ≡ length (line_of names.now event.now) }
    ensures short { result ≤ LONGEST_LINE }
{
    let end = write_body(into, GAP - 1, event, names);
    put_frame(into, end)
}

/// Writes the line of an execution report as `write_line_into` does that of its event. The head of a line, which comes later, ends with
/// the byte that the body begins to write with.
#[inline(never)]
pub(crate) fn write_execution_into(
    execution: &Execution<'_>,
    names: &Names,
    into: &mut [u8],
) -> usize
    requires { LONGEST_LINE ≤ length into.old }
    ensures line { take result into.new ≡ line_of names.now (event_of execution.now) }
    ensures count { result ≡ length (line_of names.now (event_of execution.now)) }
    ensures short { result ≤ LONGEST_LINE }
{
    let end = write_execution_body(into, GAP - 1, execution, names);
    put_frame(into, end)
}
