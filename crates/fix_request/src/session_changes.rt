//! Messages of the exchange, which change the trading session (35=h).
ghost use Rattle.std.specs.Prelude.{◌≡◌};
ghost use Rattle.fix_request.specs.Inner.Requests.{status_of, change_of, or_refused};
ghost use Rattle.fix_request.specs.Inner.Rules.{result_map};
ghost use Rattle.fix_request.specs.Inner.Views.{values_view};

use crate::digits::read_number;
use crate::fault::Fault;
use crate::header::{check_sender, check_target, fault_of_time, read_sequence, read_time};
use crate::lists::read_session;
use crate::refusal::{refused_by_form, refused_without_firm};
use crate::request::{Refusal, Request, SessionChange};
use crate::tags;
use crate::texts::check_needed;
use crate::values::Values;
use gx_base::{Names, Stamp, Trading};

/// Writes the change of the trading session that a message with these values asks for, or its refusal by rules 4 to 10.
#[cold]
#[inline(never)]
pub fn read_change(names: &Names, values: &Values, request: &mut Request)
    ensures { request.new ≡ or_refused (change_of names.now (values_view values.now)) }
{
    *request = match change_of(names, values) {
        Ok(change) => Request::Session(change),
        Err(refusal) => Request::Refused(refusal),
    };
}

/// The change that a message with these values asks for, or its refusal: the exchange is no firm, so no refusal has one.
#[tactic(auto, unfolding(crate::specs::Inner::Requests::change_of))]
fn change_of(names: &Names, values: &Values) -> Result<SessionChange, Refusal>
    ensures { result_map Request.Session result ≡ change_of names.now (values_view values.now) }
{
    if let Err(fault) = check_sender(names, values) {
        return Err(refused_by_form(fault));
    }
    if let Err(fault) = check_target(names, values) {
        return Err(refused_by_form(fault));
    }
    let seq = match read_sequence(values) {
        Ok(seq) => seq,
        Err(fault) => return Err(refused_by_form(fault)),
    };
    let Some(time) = read_time(values) else {
        return Err(refused_without_firm(seq, Stamp::none(), fault_of_time(values)));
    };
    match read_status(values) {
        Ok(to) => Ok(SessionChange { seq, time, to }),
        Err(fault) => Err(refused_without_firm(seq, time, fault)),
    }
}

/// The session that the market is to be in (340).
#[tactic(auto, unfolding(crate::specs::Inner::Requests::status_of))]
fn read_status(values: &Values) -> Result<Trading, Fault>
    ensures { result ≡ status_of (values_view values.now) }
{
    check_needed(tags::STATUS, values.status())?;
    match read_number(values.status()) {
        Some(number) => read_session(number),
        None => Err(Fault::ill_formed(9, tags::STATUS)),
    }
}
