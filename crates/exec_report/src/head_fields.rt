//! The first fields of report lines: to whom a line goes, which order it is of, and what it tells.
ghost use Rattle.std.specs.Prelude.{◌≡◌, ◌+◌, ◌*◌, ◌≤◌, [], ◌∷◌, ◌++◌, length, codes, decimal};
ghost use Rattle.std.specs.Option.{option_copied};
ghost use Rattle.gx_base.specs.Frames.{field};
ghost use Rattle.line_parts.specs.Rows.{ended};
ghost use Rattle.exec_report.specs.Inner.{timed_head};
ghost use Rattle.gx_base.specs.Line.{field_if, addressee, line_head, id_fields, report_fields};

use gx_base::{Head, LONGEST_VALUE, Names, ShortId};
use line_parts::fields::LONGEST_FIELD;
use line_parts::rows::{counter, counter_value, letter, name, text, time_value};

/// Message type, line, sender, time and addressee.
#[inline(always)]
pub(crate) fn line_head(
    into: &mut [u8],
    at: usize,
    names: &Names,
    message_type: u8,
    head: &Head,
) -> usize
    requires { at + 5 * LONGEST_FIELD ≤ length into.old }
    ensures fields { ended result into.new ≡ ended at into.old ++ line_head names.now (message_type ∷ []) head.now }
    ensures short { result ≤ at + 5 * LONGEST_FIELD }
{
    let at = timed_head(into, at, names, message_type, head);
    addressee_field(into, at, names, head.firm)
}

/// The same of an execution report of an order, and the order's number.
#[inline(always)]
pub(crate) fn order_head(
    into: &mut [u8],
    at: usize,
    names: &Names,
    head: &Head,
    order_number: u64,
) -> usize
    requires { at + 6 * LONGEST_FIELD ≤ length into.old }
    ensures fields { ended result into.new ≡ ended at into.old ++ (line_head names.now (codes "8") head.now ++ field "37" (decimal order_number)) }
    ensures short { result ≤ at + 6 * LONGEST_FIELD }
{
    let at = timed_head(into, at, names, b'8', head);
    addressee_and_order(into, at, names, head.firm, order_number)
}

/// Message type, line, sender and time.
#[inline(always)]
fn timed_head(into: &mut [u8], at: usize, names: &Names, message_type: u8, head: &Head) -> usize
    requires { at + 4 * LONGEST_FIELD ≤ length into.old }
    ensures fields { ended result into.new ≡ ended at into.old ++ timed_head names.now (message_type ∷ []) head.now }
    ensures short { result ≤ at + 4 * LONGEST_FIELD }
{
    let at = letter(into, at, b"\x0135=", message_type);
    let at = counter(into, at, b"\x0134=", head.line);
    let at = names.append_exchange_front(into, at);
    time_value(into, at, &head.time)
}

/// The name of the addressee and the number of the order.
#[inline(always)]
fn addressee_and_order(
    into: &mut [u8],
    at: usize,
    names: &Names,
    firm: Option<u8>,
    order_number: u64,
) -> usize
    requires { at + 2 * LONGEST_FIELD ≤ length into.old }
    ensures fields { ended result into.new ≡ ended at into.old ++ (field "56" (addressee names.now firm) ++ field "37" (decimal order_number)) }
    ensures short { result ≤ at + 2 * LONGEST_FIELD }
{
    match firm {
        Some(firm) if (firm as usize) < names.firm_count() => {
            let at = names.append_firm_front(firm, into, at);
            counter_value(into, at, order_number)
        }
        _ => unknown_and_order(into, at, order_number),
    }
}

/// The same of an addressee that is not known or not listed.
#[cold]
#[inline(never)]
fn unknown_and_order(into: &mut [u8], at: usize, order_number: u64) -> usize
    requires { at + 2 * LONGEST_FIELD ≤ length into.old }
    ensures fields { ended result into.new ≡ ended at into.old ++ (field "56" (codes "UNKNOWN") ++ field "37" (decimal order_number)) }
    ensures short { result ≤ at + 2 * LONGEST_FIELD }
{
    counter(into, at, b"\x0156=UNKNOWN\x0137=", order_number)
}

/// The name of the addressee, `UNKNOWN` where it is not known or not listed.
#[inline(always)]
fn addressee_field(into: &mut [u8], at: usize, names: &Names, firm: Option<u8>) -> usize
    requires { at + LONGEST_FIELD ≤ length into.old }
    ensures field { ended result into.new ≡ ended at into.old ++ field "56" (addressee names.now firm) }
    ensures short { result ≤ at + LONGEST_FIELD }
{
    match firm {
        Some(firm) if (firm as usize) < names.firm_count() => {
            name(into, at, b"\x0156=", names.firm(firm))
        }
        _ => text(into, at, b"\x0156=UNKNOWN"),
    }
}

/// Which order, under which id, and in the place of which id.
#[inline(always)]
pub(crate) fn id_fields(
    into: &mut [u8],
    at: usize,
    order_number: u64,
    id: &ShortId,
    old: Option<&ShortId>,
) -> usize
    requires { at + 3 * LONGEST_FIELD ≤ length into.old }
    ensures fields { ended result into.new ≡ ended at into.old ++ id_fields order_number id.now (option_copied old.entry) }
    ensures short { result ≤ at + 3 * LONGEST_FIELD }
{
    let at = counter(into, at, b"\x0137=", order_number);
    client_ids(into, at, id, old)
}

/// Under which id of the client, and in the place of which id.
#[inline(always)]
pub(crate) fn client_ids(into: &mut [u8], at: usize, id: &ShortId, old: Option<&ShortId>) -> usize
    requires { at + 2 * LONGEST_FIELD ≤ length into.old }
    ensures fields { ended result into.new ≡ ended at into.old ++ (field "11" id.now ++ field_if "41" (option_copied old.entry)) }
    ensures short { result ≤ at + 2 * LONGEST_FIELD }
{
    let at = name(into, at, b"\x0111=", id);
    old_field(into, at, old)
}

/// The id in whose place this one stands, if there is one.
#[inline(always)]
fn old_field(into: &mut [u8], at: usize, old: Option<&ShortId>) -> usize
    requires { at + LONGEST_FIELD ≤ length into.old }
    ensures fields { ended result into.new ≡ ended at into.old ++ field_if "41" (option_copied old.entry) }
    ensures short { result ≤ at + LONGEST_FIELD }
{
    match old {
        Some(old) => name(into, at, b"\x0141=", old),
        None => at,
    }
}

/// Which execution report, and what it tells.
#[inline(always)]
pub(crate) fn report_fields(into: &mut [u8], at: usize, head: &Head, status: u8) -> usize
    requires { at + 4 * LONGEST_FIELD ≤ length into.old }
    ensures fields { ended result into.new ≡ ended at into.old ++ report_fields head.now (status ∷ []) }
    ensures short { result ≤ at + 4 * LONGEST_FIELD }
{
    let at = counter(into, at, b"\x0117=", head.report);
    let at = letter(into, at, b"\x0120=0\x01150=", status);
    letter(into, at, b"\x0139=", status)
}
