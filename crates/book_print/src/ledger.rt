//! The ledger: the quantities of each execution report as text, and the totals.
ghost use Rattle.std.specs.Prelude.{◌≡◌, ◌+◌, ◌*◌, ◌≤◌, ◌++◌, length, take};
ghost use Rattle.gx_base.specs.Executions.{event_of};
ghost use Rattle.order_kinds.specs.Balance.{Quantities, quantities, all_cancelled, cancelled_in};
ghost use Rattle.book_print.specs.LedgerText.{quantity_words, report_line, entered_capped};

use crate::tally::{filled_in, lots_of};
use exec_report::LineForm;
use gx_base::{Event, ExecType, Execution, LONGEST_LINE, Names, Order, append};
use line_parts::pieces::{LONGEST_PIECE, end_line, number};
use product_file::Product;

/// Lots that are told of an order or of all orders.
#[derive(Clone, Copy)]
struct Lots {
    entered: u64,
    filled: u64,
    leaves: u64,
    cancelled: u64,
}

/// Writes quantities, and ends the line: five pieces.
fn quantity_words(into: &mut [u8], at: usize, lots: Lots) -> usize
    requires room { at + 5 * LONGEST_PIECE ≤ length into.old }
    ensures words { take result into.new ≡ take at into.old ++ quantity_words lots.entered lots.filled lots.leaves lots.cancelled }
    ensures short { result ≤ at + 5 * LONGEST_PIECE }
{
    let at = number(into, at, b" entered ", lots.entered);
    let at = number(into, at, b" filled ", lots.filled);
    let at = number(into, at, b" open ", lots.leaves);
    let at = number(into, at, b" cancelled ", lots.cancelled);
    end_line(into, at)
}

/// Writes the line of the order with this number.
fn numbered_line(order: u64, lots: Lots, into: &mut [u8]) -> usize
    requires { LONGEST_LINE ≤ length into.old }
    ensures line { let told : Quantities = record { ordered = lots.entered; filled = lots.filled; leaves = lots.leaves; cancelled = lots.cancelled } in
        take result into.new ≡ report_line order told }
    ensures short { result ≤ LONGEST_LINE }
{
    let at = number(into, 0, b"#", order);
    quantity_words(into, at, lots)
}

/// Writes the line of an order of which so many lots are cancelled by what is reported.
fn order_line(order: &Order, gone: u32, into: &mut [u8]) -> usize
    requires { LONGEST_LINE ≤ length into.old }
    ensures line { take result into.new ≡ report_line order.now.number (quantities order.now gone) }
    ensures short { result ≤ LONGEST_LINE }
{
    let lots = Lots {
        entered: u64::from(order.quantity),
        filled: u64::from(order.filled),
        leaves: u64::from(order.leaves),
        cancelled: u64::from(gone),
    };
    numbered_line(order.number, lots, into)
}

/// Writes the line of a new order of so many lots that is refused.
fn refused_line(quantity: u32, into: &mut [u8]) -> usize
    requires { LONGEST_LINE ≤ length into.old }
    ensures line { take result into.new ≡ report_line 0 (all_cancelled quantity) }
    ensures short { result ≤ LONGEST_LINE }
{
    let lots = Lots {
        entered: u64::from(quantity),
        filled: 0,
        leaves: 0,
        cancelled: u64::from(quantity),
    };
    numbered_line(0, lots, into)
}

/// The totals of a ledger, in lots. One that would pass the end of its type stays there, and one that would fall below 0
/// stays 0.
#[derive(Clone, Copy, Debug, Default, PartialEq, Eq)]
pub struct Totals {
    /// What was ordered: the quantities of the accepted orders, each changed at its replaces by the new less the old one.
    pub entered: u64,
    /// The lots of all fills, so those of each trade twice.
    pub filled: u64,
    /// What was open of all orders that were cancelled, and of all that expired.
    pub cancelled: u64,
}

/// What was ordered, after one event more.
fn entered_with(total: u64, event: &Event) -> u64
    ensures { result ≡ entered_capped total event.now }
{
    match event {
        Event::Accepted { order, .. } => total.saturating_add(u64::from(order.quantity)),
        Event::Replaced {
            order,
            old_quantity,
            ..
        } => total
            .saturating_add(u64::from(order.quantity))
            .saturating_sub(u64::from(*old_quantity)),
        _ => total,
    }
}

/// What is cancelled by an event, or expires.
fn cancelled_in(event: &Event) -> u64
    ensures { result ≡ cancelled_in event.now }
{
    match event {
        Event::Cancelled { gone, .. } | Event::Expired { gone, .. } => u64::from(*gone),
        _ => 0,
    }
}

/// What was ordered, after one report more.
fn entered_after(total: u64, execution: &Execution<'_>) -> u64
    ensures { result ≡ entered_capped total (event_of execution.now) }
{
    let quantity = u64::from(execution.order.quantity);
    match execution.exec_type {
        ExecType::New => total.saturating_add(quantity),
        ExecType::Replaced { old_quantity, .. } => total
            .saturating_add(quantity)
            .saturating_sub(u64::from(old_quantity)),
        _ => total,
    }
}

/// What is cancelled by a report, or expires.
fn cancelled_by(execution: &Execution<'_>) -> u64
    ensures { result ≡ cancelled_in (event_of execution.now) }
{
    match execution.exec_type {
        ExecType::Cancelled { gone, .. } | ExecType::Expired { gone } => u64::from(gone),
        _ => 0,
    }
}

impl Totals {
    ghost use Rattle.book_print.specs.LedgerText.{no_totals};

    /// All totals 0.
    pub fn new() -> Totals
        ensures { result ≡ no_totals }
    {
        Totals {
            entered: 0,
            filled: 0,
            cancelled: 0,
        }
    }
}

/// The ledger as a form: a line for each execution report, and after them the line of the totals of all events.
impl LineForm for Totals {
    ghost use Rattle.book_print.specs.Printing.{ledger_form};

    ghost meanings = { ledger_form };

    fn write(&self, event: &Event, _names: &Names, into: &mut [u8]) -> usize {
        match event {
            Event::Accepted { order, .. }
            | Event::Triggered { order, .. }
            | Event::Fill { order, .. }
            | Event::Replaced { order, .. } => order_line(order, 0, into),
            Event::Cancelled { order, gone, .. } | Event::Expired { order, gone, .. } => {
                order_line(order, *gone, into)
            }
            Event::RefusedNew { order, .. } => refused_line(order.quantity, into),
            Event::RefusedChange { .. } | Event::RefusedSession { .. } => 0,
        }
    }

    fn write_execution(&self, execution: &Execution<'_>, _names: &Names, into: &mut [u8]) -> usize {
        let lots = Lots {
            entered: u64::from(execution.order.quantity),
            filled: u64::from(execution.filled),
            leaves: u64::from(execution.leaves),
            cancelled: cancelled_by(execution),
        };
        numbered_line(execution.order.number, lots, into)
    }

    fn keep(&mut self, event: &Event) {
        self.entered = entered_with(self.entered, event);
        self.filled = self.filled.saturating_add(filled_in(event));
        self.cancelled = self.cancelled.saturating_add(cancelled_in(event));
    }

    fn keep_execution(&mut self, execution: &Execution<'_>) {
        self.entered = entered_after(self.entered, execution);
        self.filled = self.filled.saturating_add(lots_of(execution));
        self.cancelled = self.cancelled.saturating_add(cancelled_by(execution));
    }

    fn note(&mut self, _product: &Product, _frame: &[u8]) {}

    fn write_ending(&self, live: u64, into: &mut [u8]) -> usize {
        let at = append(into, 0, b"total");
        quantity_words(
            into,
            at,
            Lots {
                entered: self.entered,
                filled: self.filled,
                leaves: live,
                cancelled: self.cancelled,
            },
        )
    }
}
