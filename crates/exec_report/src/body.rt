//! The bodies of report lines, field by field. As in `rows`, each call writes after the first `at` bytes and begins with the byte that
//! ends the field before, and answers where the last value ends. A field takes at most `LONGEST_FIELD` bytes.
ghost use Rattle.std.specs.Prelude.{◌≡◌, ◌+◌, ◌*◌, ◌<◌, ◌≤◌, [], ◌∷◌, ◌++◌, Some, None, codes, decimal, length, take};
ghost use Rattle.std.specs.Option.{option_copied};
ghost use Rattle.gx_base.specs.Frames.{field};
ghost use Rattle.line_parts.specs.Rows.{ended};
ghost use Rattle.exec_report.specs.Inner.{ordered_fields, term_fields};
ghost use Rattle.gx_base.specs.Executions.{order_after, event_of};
ghost use Rattle.gx_base.specs.Line.{field_if, decimals_of, kind_text, step_text, cause_text, cancel_id, cancelled_id, price_fields, order_fields, order_front, state_fields, trade_fields, body_of};

use crate::head_fields::{client_ids, line_head, order_head, report_fields};
use crate::refusals::{change_fields, refused_new_fields, request_fields, session_fields};
use crate::values::{fill_status, life_digit, side_digit};
use gx_base::{
    Cause, Event, ExecType, Execution, Kind, LONGEST_VALUE, MOST_DECIMALS, Names, Order, Price,
    ShortId, StepName,
};
use line_parts::fields::LONGEST_FIELD;
use line_parts::rows::{
    counter, end_row, last_text, letter, number, number_value, price, text, time,
};

/// What a report tells of the change of an order.
#[derive(Clone, Copy)]
struct OrderUpdate<'a> {
    /// Tag 11.
    id: &'a ShortId,
    /// Tag 41, if it is there.
    old: Option<&'a ShortId>,
    /// The letter or digit of tags 150 and 39.
    status: u8,
}

/// What was written of an order.
#[derive(Clone, Copy)]
struct Ordered {
    /// Where its fields end.
    end: usize,
    /// How many decimals its prices have.
    decimals: u8,
}

/// Writes the body of an event, as `write_execution_body` does where it is an execution report of an order.
#[inline(always)]
pub(crate) fn write_body(into: &mut [u8], at: usize, event: &Event, names: &Names) -> usize
    requires { at + 28 * LONGEST_FIELD < length into.old }
    ensures body { take result into.new ≡ ended at into.old ++ body_of names.now event.now }
    ensures short { result ≤ at + 28 * LONGEST_FIELD + 1 }
{
    match event {
        Event::Accepted { head, order } => {
            let execution = Execution::new(head, order, ExecType::New);
            write_execution_body(into, at, &execution, names)
        }
        Event::Triggered { head, order } => {
            let execution = Execution::new(head, order, ExecType::Triggered);
            write_execution_body(into, at, &execution, names)
        }
        Event::Fill {
            head,
            order,
            lots,
            price,
            step,
            trade,
        } => {
            let fill = ExecType::Fill {
                lots: *lots,
                price: *price,
                step: *step,
                trade: *trade,
            };
            write_execution_body(into, at, &Execution::new(head, order, fill), names)
        }
        Event::Cancelled {
            head,
            order,
            gone,
            by,
            cause,
        } => {
            let cancelled = ExecType::Cancelled {
                gone: *gone,
                by: by.as_ref(),
                cause: *cause,
            };
            write_execution_body(into, at, &Execution::new(head, order, cancelled), names)
        }
        Event::Expired { head, order, gone } => {
            let expired = ExecType::Expired { gone: *gone };
            write_execution_body(into, at, &Execution::new(head, order, expired), names)
        }
        Event::Replaced {
            head,
            order,
            old,
            old_quantity,
        } => {
            let replaced = ExecType::Replaced {
                old,
                old_quantity: *old_quantity,
            };
            write_execution_body(into, at, &Execution::new(head, order, replaced), names)
        }
        Event::RefusedNew { head, order, fault } => {
            let at = refused_new_fields(into, at, names, head, order, *fault);
            end_row(into, at)
        }
        Event::RefusedChange {
            head,
            id,
            old,
            number,
            filled,
            replace,
            fault,
        } => {
            let at = line_head(into, at, names, b'9', head);
            let at = request_fields(into, at, *number, id, old);
            let at = change_fields(into, at, head, *filled, *replace, *fault);
            end_row(into, at)
        }
        Event::RefusedSession {
            head,
            seq,
            tag,
            reason,
            rule,
        } => {
            let at = line_head(into, at, names, b'3', head);
            let at = session_fields(into, at, *seq, *tag, *reason, *rule);
            end_row(into, at)
        }
    }
}

/// Writes the body of an execution report: at most 28 fields, and the byte that ends the last. Those of the three common kinds are
/// written in place.
#[inline(always)]
pub(crate) fn write_execution_body(
    into: &mut [u8],
    at: usize,
    execution: &Execution<'_>,
    names: &Names,
) -> usize
    requires { at + 28 * LONGEST_FIELD < length into.old }
    ensures body { take result into.new ≡ ended at into.old ++ body_of names.now (event_of execution.now) }
    ensures short { result ≤ at + 28 * LONGEST_FIELD + 1 }
{
    let order = execution.order;
    match execution.exec_type {
        ExecType::New => {
            let front = order_front(into, at, names, execution, &own_update(order, b'0'));
            let at = state_fields(into, front.end, execution);
            last_text(into, at, b"\x019003=0\x01")
        }
        ExecType::Fill {
            lots,
            price,
            step,
            trade,
        } => {
            let update = own_update(order, fill_status(execution.leaves));
            let front = order_front(into, at, names, execution, &update);
            let at = trade_fields(into, front.end, lots, price, front.decimals);
            let at = state_fields(into, at, execution);
            let at = step_field(into, at, step);
            let at = counter(into, at, b"\x019002=", trade);
            last_text(into, at, b"\x019003=0\x01")
        }
        ExecType::Cancelled { gone, by, cause } => {
            let front = order_front(into, at, names, execution, &cancel_update(order, by));
            let at = state_fields(into, front.end, execution);
            let at = cause_field(into, at, cause);
            let at = number(into, at, b"\x019003=", u64::from(gone));
            end_row(into, at)
        }
        ExecType::Triggered => {
            let at = triggered_fields(into, at, names, execution);
            end_row(into, at)
        }
        ExecType::Expired { gone } => {
            let at = expired_fields(into, at, names, execution, gone);
            end_row(into, at)
        }
        ExecType::Replaced { old, .. } => {
            let at = replaced_fields(into, at, names, execution, old);
            end_row(into, at)
        }
    }
}

/// A stop that became a limit order.
#[inline(never)]
fn triggered_fields(into: &mut [u8], at: usize, names: &Names, execution: &Execution<'_>) -> usize
    requires { at + 25 * LONGEST_FIELD ≤ length into.old }
    ensures fields { ended result into.new ≡ ended at into.old
        ++ (order_front names.now execution.now.head.now (order_after execution.now) execution.now.order.now.id None (codes "0")
        ++ state_fields execution.now.head.now (order_after execution.now) ++ field "58" (codes "TRIGGERED") ++ field "9003" (codes "0")) }
    ensures short { result ≤ at + 25 * LONGEST_FIELD }
{
    let update = own_update(execution.order, b'0');
    let front = order_front(into, at, names, execution, &update);
    let at = state_fields(into, front.end, execution);
    let at = text(into, at, b"\x0158=TRIGGERED");
    text(into, at, b"\x019003=0")
}

/// An order that expired.
#[inline(never)]
fn expired_fields(
    into: &mut [u8],
    at: usize,
    names: &Names,
    execution: &Execution<'_>,
    gone: u32,
) -> usize
    requires { at + 25 * LONGEST_FIELD ≤ length into.old }
    ensures fields { ended result into.new ≡ ended at into.old
        ++ (order_front names.now execution.now.head.now (order_after execution.now) execution.now.order.now.id None (codes "C")
        ++ state_fields execution.now.head.now (order_after execution.now) ++ field "58" (codes "EXPIRED") ++ field "9003" (decimal gone)) }
    ensures short { result ≤ at + 25 * LONGEST_FIELD }
{
    let update = own_update(execution.order, b'C');
    let front = order_front(into, at, names, execution, &update);
    let at = state_fields(into, front.end, execution);
    let at = text(into, at, b"\x0158=EXPIRED");
    number(into, at, b"\x019003=", u64::from(gone))
}

/// An order that replaced another.
#[inline(never)]
fn replaced_fields(
    into: &mut [u8],
    at: usize,
    names: &Names,
    execution: &Execution<'_>,
    old: &ShortId,
) -> usize
    requires { at + 24 * LONGEST_FIELD ≤ length into.old }
    ensures fields { ended result into.new ≡ ended at into.old
        ++ (order_front names.now execution.now.head.now (order_after execution.now) execution.now.order.now.id (Some old.now) (codes "5")
        ++ state_fields execution.now.head.now (order_after execution.now) ++ field "9003" (codes "0")) }
    ensures short { result ≤ at + 24 * LONGEST_FIELD }
{
    let update = OrderUpdate {
        id: &execution.order.id,
        old: Some(old),
        status: b'5',
    };
    let front = order_front(into, at, names, execution, &update);
    let at = state_fields(into, front.end, execution);
    text(into, at, b"\x019003=0")
}

/// An execution report of an order up to what was ordered.
#[inline(always)]
fn order_front(
    into: &mut [u8],
    at: usize,
    names: &Names,
    execution: &Execution<'_>,
    update: &OrderUpdate<'_>,
) -> Ordered
    requires { at + 19 * LONGEST_FIELD ≤ length into.old }
    ensures fields { ended result.end into.new ≡ ended at into.old
        ++ order_front names.now execution.now.head.now (order_after execution.now) update.now.id.now (option_copied update.now.old) (update.now.status ∷ []) }
    ensures decimals { result.decimals ≡ decimals_of names.now execution.now.order.now.instrument }
    ensures few { result.decimals ≤ MOST_DECIMALS }
    ensures short { result.end ≤ at + 19 * LONGEST_FIELD }
{
    let at = order_head(into, at, names, execution.head, execution.order.number);
    let at = client_ids(into, at, update.id, update.old);
    let at = report_fields(into, at, execution.head, update.status);
    order_fields(into, at, names, execution.order)
}

/// The update of an order under its own id.
#[inline(always)]
fn own_update(order: &Order, status: u8) -> OrderUpdate<'_>
    ensures id { result.id.now ≡ order.now.id }
    ensures old { result.old ≡ None }
    ensures status { result.status ≡ status }
{
    OrderUpdate {
        id: &order.id,
        old: None,
        status,
    }
}

/// The update of an order that is cancelled, under the id of the cancel if one asked for it.
#[inline(always)]
fn cancel_update<'a>(order: &'a Order, by: Option<&'a ShortId>) -> OrderUpdate<'a>
    ensures id { result.id.now ≡ cancel_id order.now (option_copied by.entry) }
    ensures old { option_copied result.old ≡ cancelled_id order.now (option_copied by.entry) }
    ensures status { result.status ∷ [] ≡ codes "4" }
{
    match by {
        Some(id) => OrderUpdate {
            id,
            old: Some(&order.id),
            status: b'4',
        },
        None => own_update(order, b'4'),
    }
}

/// What was ordered. An instrument that is not listed is written as `UNKNOWN`, and its prices have no decimals.
#[inline(always)]
fn order_fields(into: &mut [u8], at: usize, names: &Names, order: &Order) -> Ordered
    requires { at + 7 * LONGEST_FIELD ≤ length into.old }
    ensures fields { ended result.end into.new ≡ ended at into.old ++ order_fields names.now order.now }
    ensures decimals { result.decimals ≡ decimals_of names.now order.now.instrument }
    ensures few { result.decimals ≤ MOST_DECIMALS }
    ensures short { result.end ≤ at + 7 * LONGEST_FIELD }
{
    if (order.instrument as usize) < names.instrument_count() {
        let decimals = names.listed(order.instrument).decimals;
        let at = names.append_instrument_front(order.instrument, order.side, into, at);
        let at = number_value(into, at, u64::from(order.quantity));
        return Ordered {
            end: term_fields(into, at, order, decimals),
            decimals,
        };
    }
    Ordered {
        end: unlisted_fields(into, at, order),
        decimals: 0,
    }
}

/// What was ordered of an instrument that is not listed.
#[cold]
#[inline(never)]
fn unlisted_fields(into: &mut [u8], at: usize, order: &Order) -> usize
    requires { at + 7 * LONGEST_FIELD ≤ length into.old }
    ensures fields { ended result into.new ≡ ended at into.old ++ ordered_fields (codes "UNKNOWN") order.now 0 }
    ensures short { result ≤ at + 7 * LONGEST_FIELD }
{
    let at = letter(into, at, b"\x0155=UNKNOWN\x0154=", side_digit(order.side));
    let at = number(into, at, b"\x0138=", u64::from(order.quantity));
    term_fields(into, at, order, 0)
}

/// What was ordered after the quantity. Prices have so many decimals.
#[inline(always)]
fn term_fields(into: &mut [u8], at: usize, order: &Order, decimals: u8) -> usize
    requires room { at + 4 * LONGEST_FIELD ≤ length into.old }
    requires decimals { decimals ≤ MOST_DECIMALS }
    ensures fields { ended result into.new ≡ ended at into.old ++ term_fields order.now decimals }
    ensures short { result ≤ at + 4 * LONGEST_FIELD }
{
    let at = kind_fields(into, at, order, decimals);
    letter(into, at, b"\x0159=", life_digit(order.life))
}

/// The kind of an order, and the price and the stop price as far as that kind has them.
#[inline(always)]
fn kind_fields(into: &mut [u8], at: usize, order: &Order, decimals: u8) -> usize
    requires room { at + 3 * LONGEST_FIELD ≤ length into.old }
    requires decimals { decimals ≤ MOST_DECIMALS }
    ensures fields { ended result into.new ≡ ended at into.old
        ++ (field "40" (kind_text order.now.kind) ++ price_fields order.now.kind order.now.price order.now.trigger decimals) }
    ensures short { result ≤ at + 3 * LONGEST_FIELD }
{
    match order.kind {
        Kind::Market => text(into, at, b"\x0140=1"),
        Kind::Limit => price(into, at, b"\x0140=2\x0144=", order.price, decimals),
        Kind::StopLimit => {
            let at = price(into, at, b"\x0140=4\x0144=", order.price, decimals);
            price(into, at, b"\x0199=", order.trigger, decimals)
        }
    }
}

/// A trade: how much, and at which price.
#[inline(always)]
fn trade_fields(into: &mut [u8], at: usize, lots: u32, trade_price: Price, decimals: u8) -> usize
    requires room { at + 2 * LONGEST_FIELD ≤ length into.old }
    requires decimals { decimals ≤ MOST_DECIMALS }
    ensures fields { ended result into.new ≡ ended at into.old ++ trade_fields lots trade_price decimals }
    ensures short { result ≤ at + 2 * LONGEST_FIELD }
{
    let at = number(into, at, b"\x0132=", u64::from(lots));
    price(into, at, b"\x0131=", trade_price, decimals)
}

/// What is open and filled of an order with what is reported.
#[inline(always)]
fn state_fields(into: &mut [u8], at: usize, execution: &Execution<'_>) -> usize
    requires { at + 4 * LONGEST_FIELD ≤ length into.old }
    ensures fields { ended result into.new ≡ ended at into.old ++ state_fields execution.now.head.now (order_after execution.now) }
    ensures short { result ≤ at + 4 * LONGEST_FIELD }
{
    let at = number(into, at, b"\x01151=", u64::from(execution.leaves));
    let at = number(into, at, b"\x0114=", u64::from(execution.filled));
    time(into, at, b"\x016=0\x0160=", &execution.head.time)
}

/// The step that gave a fill. Most fills are by priority.
#[inline(always)]
fn step_field(into: &mut [u8], at: usize, step: StepName) -> usize
    requires { at + LONGEST_FIELD ≤ length into.old }
    ensures field { ended result into.new ≡ ended at into.old ++ field "9001" (step_text step) }
    ensures short { result ≤ at + LONGEST_FIELD }
{
    if step == StepName::Fifo {
        return text(into, at, b"\x019001=FIFO");
    }
    any_step_field(into, at, step)
}

/// The same of any step. Each is a constant here, which takes a few stores and no copy of unknown length.
#[inline(never)]
fn any_step_field(into: &mut [u8], at: usize, step: StepName) -> usize
    requires { at + LONGEST_FIELD ≤ length into.old }
    ensures field { ended result into.new ≡ ended at into.old ++ field "9001" (step_text step) }
    ensures short { result ≤ at + LONGEST_FIELD }
{
    match step {
        StepName::Top => text(into, at, b"\x019001=TOP"),
        StepName::Lmm => text(into, at, b"\x019001=LMM"),
        StepName::Split => text(into, at, b"\x019001=SPLIT"),
        StepName::ProRata => text(into, at, b"\x019001=PRORATA"),
        StepName::Leveling => text(into, at, b"\x019001=LEVELING"),
        StepName::Fifo => text(into, at, b"\x019001=FIFO"),
    }
}

/// Why an order is cancelled, in our own words, where the client did not ask for it.
#[inline(always)]
fn cause_field(into: &mut [u8], at: usize, cause: Cause) -> usize
    requires { at + LONGEST_FIELD ≤ length into.old }
    ensures fields { ended result into.new ≡ ended at into.old ++ field_if "58" (cause_text cause) }
    ensures short { result ≤ at + LONGEST_FIELD }
{
    match cause {
        Cause::Asked => at,
        Cause::Fak => text(into, at, b"\x0158=FAK"),
        Cause::MinQty => text(into, at, b"\x0158=MINQTY NOT MET"),
    }
}
