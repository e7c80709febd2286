//! The fields of reports that refuse a request, which are of no order.
ghost use Rattle.std.specs.Prelude.{◌≡◌, ◌+◌, ◌*◌, ◌≤◌, ◌++◌, ◌==◌, if◌then◌else◌, None, Some, codes, decimal, length};
ghost use Rattle.gx_base.specs.Frames.{field};
ghost use Rattle.line_parts.specs.Rows.{ended};
ghost use Rattle.gx_base.specs.Line.{field_if, number_text, line_head, refused_fields, wanted_fields, nothing_fields, fault_fields, request_fields, change_fields, session_fields};

use crate::head_fields::{id_fields, line_head, report_fields};
use crate::values::{
    change_reason, change_status, change_text, fault_text, kind_text, life_digit, reject_reason,
    response_text, rule_text, side_digit,
};
use gx_base::{ChangeFault, Head, LONGEST_VALUE, Names, NewFault, NewRefused, ShortId};
use line_parts::fields::LONGEST_FIELD;
use line_parts::rows::{field, letter, name, number, text, time};

/// A new order that is refused.
#[inline(never)]
pub(crate) fn refused_new_fields(
    into: &mut [u8],
    at: usize,
    names: &Names,
    head: &Head,
    order: &NewRefused,
    fault: NewFault,
) -> usize
    requires { at + 24 * LONGEST_FIELD ≤ length into.old }
    ensures fields { ended result into.new ≡ ended at into.old
        ++ (line_head names.now (codes "8") head.now ++ refused_fields head.now order.now fault ++ wanted_fields order.now
        ++ nothing_fields head.now ++ fault_fields order.now fault) }
    ensures short { result ≤ at + 24 * LONGEST_FIELD }
{
    let at = line_head(into, at, names, b'8', head);
    let at = refused_fields(into, at, head, order, fault);
    let at = wanted_fields(into, at, order);
    let at = nothing_fields(into, at, head);
    fault_fields(into, at, order, fault)
}

/// Which new order is refused, and with which reason.
fn refused_fields(
    into: &mut [u8],
    at: usize,
    head: &Head,
    order: &NewRefused,
    fault: NewFault,
) -> usize
    requires { at + 8 * LONGEST_FIELD ≤ length into.old }
    ensures fields { ended result into.new ≡ ended at into.old ++ refused_fields head.now order.now fault }
    ensures short { result ≤ at + 8 * LONGEST_FIELD }
{
    let at = id_fields(into, at, 0, &order.id, None);
    let at = report_fields(into, at, head, b'8');
    field(into, at, b"\x01103=", reject_reason(fault))
}

/// What a refused new order wanted, without its prices.
fn wanted_fields(into: &mut [u8], at: usize, order: &NewRefused) -> usize
    requires { at + 5 * LONGEST_FIELD ≤ length into.old }
    ensures fields { ended result into.new ≡ ended at into.old ++ wanted_fields order.now }
    ensures short { result ≤ at + 5 * LONGEST_FIELD }
{
    let at = name(into, at, b"\x0155=", &order.symbol);
    let at = letter(into, at, b"\x0154=", side_digit(order.side));
    let at = number(into, at, b"\x0138=", u64::from(order.quantity));
    let at = field(into, at, b"\x0140=", kind_text(order.kind));
    letter(into, at, b"\x0159=", life_digit(order.life))
}

/// Nothing is open or filled.
fn nothing_fields(into: &mut [u8], at: usize, head: &Head) -> usize
    requires { at + 4 * LONGEST_FIELD ≤ length into.old }
    ensures fields { ended result into.new ≡ ended at into.old ++ nothing_fields head.now }
    ensures short { result ≤ at + 4 * LONGEST_FIELD }
{
    time(into, at, b"\x01151=0\x0114=0\x016=0\x0160=", &head.time)
}

/// Why a new order is refused, and how much of it ends with that.
fn fault_fields(into: &mut [u8], at: usize, order: &NewRefused, fault: NewFault) -> usize
    requires { at + 2 * LONGEST_FIELD ≤ length into.old }
    ensures fields { ended result into.new ≡ ended at into.old ++ fault_fields order.now fault }
    ensures short { result ≤ at + 2 * LONGEST_FIELD }
{
    let at = field(into, at, b"\x0158=", fault_text(fault));
    number(into, at, b"\x019003=", u64::from(order.quantity))
}

/// Which order a cancel or a replace was to change.
pub(crate) fn request_fields(
    into: &mut [u8],
    at: usize,
    order_number: u64,
    id: &ShortId,
    old: &ShortId,
) -> usize
    requires { at + 3 * LONGEST_FIELD ≤ length into.old }
    ensures fields { ended result into.new ≡ ended at into.old ++ request_fields order_number id.now old.now }
    ensures short { result ≤ at + 3 * LONGEST_FIELD }
{
    let at = number_field(into, at, order_number);
    let at = name(into, at, b"\x0111=", id);
    name(into, at, b"\x0141=", old)
}

/// The number of an order, or `NONE` where there is none.
fn number_field(into: &mut [u8], at: usize, order_number: u64) -> usize
    requires { at + LONGEST_FIELD ≤ length into.old }
    ensures field { ended result into.new ≡ ended at into.old ++ field "37" (number_text order_number) }
    ensures short { result ≤ at + LONGEST_FIELD }
{
    if order_number == 0 {
        text(into, at, b"\x0137=NONE")
    } else {
        number(into, at, b"\x0137=", order_number)
    }
}

/// Why a cancel or a replace is refused.
pub(crate) fn change_fields(
    into: &mut [u8],
    at: usize,
    head: &Head,
    filled: u32,
    replace: bool,
    fault: ChangeFault,
) -> usize
    requires { at + 5 * LONGEST_FIELD ≤ length into.old }
    ensures fields { ended result into.new ≡ ended at into.old ++ change_fields head.now filled replace fault }
    ensures short { result ≤ at + 5 * LONGEST_FIELD }
{
    let at = field(into, at, b"\x0139=", change_status(fault, filled));
    let at = field(into, at, b"\x01434=", response_text(replace));
    let at = field(into, at, b"\x01102=", change_reason(fault));
    let at = field(into, at, b"\x0158=", change_text(fault));
    time(into, at, b"\x0160=", &head.time)
}

/// Which message is rejected, at which tag where it is one, and why.
pub(crate) fn session_fields(
    into: &mut [u8],
    at: usize,
    seq: u32,
    tag: u32,
    reason: u8,
    rule: u8,
) -> usize
    requires { at + 4 * LONGEST_FIELD ≤ length into.old }
    ensures fields { ended result into.new ≡ ended at into.old ++ session_fields seq tag reason rule }
    ensures short { result ≤ at + 4 * LONGEST_FIELD }
{
    let at = number(into, at, b"\x0145=", u64::from(seq));
    let at = tag_field(into, at, tag);
    let at = number(into, at, b"\x01373=", u64::from(reason));
    field(into, at, b"\x0158=", rule_text(rule))
}

/// The tag that breaks a session rule, if it is one.
fn tag_field(into: &mut [u8], at: usize, tag: u32) -> usize
    requires { at + LONGEST_FIELD ≤ length into.old }
    ensures field { ended result into.new ≡ ended at into.old ++ field_if "371" (if tag == 0 then None else Some (decimal tag)) }
    ensures short { result ≤ at + LONGEST_FIELD }
{
    if tag == 0 {
        at
    } else {
        number(into, at, b"\x01371=", u64::from(tag))
    }
}
