//! What a drill counts, and its summary.
ghost use Rattle.std.specs.Prelude.{◌≡◌, ◌≤◌, [], OnOk, take};
ghost use Rattle.gx_base.specs.Executions.{event_of};
ghost use Rattle.gx_station.specs.Quiet.{Sends};
ghost use Rattle.order_kinds.specs.Balance.{filled_in};
ghost use Rattle.book_print.specs.TallyText.{no_tally, tally_line, fills_in};

use crate::sending::send_line;
use exec_report::{LineForm, ReportBuffer, SendFault};
use gx_base::{Event, ExecType, Execution, Names};
use gx_station::Station;
use line_parts::pieces::{LONGEST_PIECE, end_line, number};
use product_file::Product;

/// How many bytes the summary has at most, which is six pieces.
const LONGEST_SUMMARY: usize = 6 * LONGEST_PIECE;

/// Counts of events. One that would pass the end of its type stays there.
#[derive(Clone, Copy, Debug, Default, PartialEq, Eq)]
pub struct Tally {
    /// Events of all kinds.
    pub reports: u64,
    /// Fills, which are two for each trade.
    pub fills: u64,
    /// The lots of all fills, so those of each trade twice.
    pub lots: u64,
}

impl Tally {
    ghost use Rattle.book_print.specs.TallyText.{no_tally};

    /// All counts 0.
    pub fn new() -> Tally
        ensures { result ≡ no_tally }
    {
        Tally {
            reports: 0,
            fills: 0,
            lots: 0,
        }
    }
}

/// The lots of a fill, 0 for any other event.
pub(crate) fn filled_in(event: &Event) -> u64
    ensures { result ≡ filled_in event.now }
{
    match event {
        Event::Fill { lots, .. } => u64::from(*lots),
        _ => 0,
    }
}

/// 1 for a fill, 0 for any other event.
fn fills_in(event: &Event) -> u64
    ensures { result ≡ fills_in event.now }
{
    match event {
        Event::Fill { .. } => 1,
        _ => 0,
    }
}

/// The lots of a report of a fill, 0 for any other report.
pub(crate) fn lots_of(execution: &Execution<'_>) -> u64
    ensures { result ≡ filled_in (event_of execution.now) }
{
    match execution.exec_type {
        ExecType::Fill { lots, .. } => u64::from(lots),
        _ => 0,
    }
}

/// 1 for a report of a fill, 0 for any other report.
fn fills_of(execution: &Execution<'_>) -> u64
    ensures { result ≡ fills_in (event_of execution.now) }
{
    match execution.exec_type {
        ExecType::Fill { .. } => 1,
        _ => 0,
    }
}

/// A drill as a form: nothing is printed, and the events are counted.
impl LineForm for Tally {
    ghost use Rattle.book_print.specs.Printing.{tally_form};

    ghost meanings = { tally_form };

    fn write(&self, _event: &Event, _names: &Names, _into: &mut [u8]) -> usize {
        0
    }

    fn write_execution(&self, _: &Execution<'_>, _names: &Names, _into: &mut [u8]) -> usize {
        0
    }

    fn keep(&mut self, event: &Event) {
        self.reports = self.reports.saturating_add(1);
        self.fills = self.fills.saturating_add(fills_in(event));
        self.lots = self.lots.saturating_add(filled_in(event));
    }

    fn keep_execution(&mut self, execution: &Execution<'_>) {
        self.reports = self.reports.saturating_add(1);
        self.fills = self.fills.saturating_add(fills_of(execution));
        self.lots = self.lots.saturating_add(lots_of(execution));
    }

    fn note(&mut self, _product: &Product, _frame: &[u8]) {}

    fn write_ending(&self, _live: u64, _into: &mut [u8]) -> usize {
        0
    }
}

/// Writes the summary of a drill, and answers how many bytes it has.
fn write_summary(messages: u64, tally: &Tally, live: u32, into: &mut [u8; LONGEST_SUMMARY]) -> usize
    ensures line { take result into.new ≡ tally_line messages tally.now live }
    ensures short { result ≤ LONGEST_SUMMARY }
{
    let at = number(into, 0, b"messages ", messages);
    let at = number(into, at, b" reports ", tally.reports);
    let at = number(into, at, b" trades ", tally.fills / 2);
    let at = number(into, at, b" lots ", tally.lots / 2);
    let at = number(into, at, b" live ", u64::from(live));
    end_line(into, at)
}

/// Sends the summary of a drill of so many messages, after which so many orders are live. `SendFault` comes only where the
/// count of send faults rose, and a part is sent then.
pub fn print_tally<S: Station>(
    messages: u64,
    tally: &Tally,
    live: u32,
    buffer: &mut ReportBuffer,
    station: &mut S,
) -> Result<(), SendFault>
    requires { buffer.old ≡ [] }
    ensures sends { Sends S.meanings station.old station.new (tally_line messages tally.now live) result }
    ensures empty { OnOk result (buffer.new ≡ []) }
{
    let mut line = [0; LONGEST_SUMMARY];
    let count = write_summary(messages, tally, live, &mut line);
    send_line(buffer, station, &line[..count])
}
