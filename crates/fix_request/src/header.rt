//! The header of a message (rules 4 to 6).
ghost use Rattle.std.specs.Prelude.{◌≡◌};
ghost use Rattle.fix_request.specs.Inner.Requests.{firm_of, exchange_of, target_of, sequence_of, time_of, fault_of_time};
ghost use Rattle.std.specs.Option.{ok_or};
ghost use Rattle.fix_request.specs.Inner.Views.{values_view, if_not_empty, text_in};

use crate::digits::read_sequence_number;
use crate::fault::Fault;
use crate::tags;
use crate::values::Values;
use gx_base::{Names, Stamp};

/// The number of the firm that sends (49).
#[tactic(auto, unfolding(crate::specs::Inner::Requests::firm_of))]
#[inline]
pub fn read_firm(names: &Names, values: &Values) -> Result<u8, Fault>
    ensures { result ≡ firm_of names.now (values_view values.now) }
{
    let sender = values.sender();
    if sender.is_empty() {
        return Err(Fault::missing(4, tags::SENDER));
    }
    match names.find_firm(sender) {
        Some(firm) => Ok(firm),
        None => Err(Fault::comp_id(4, tags::SENDER)),
    }
}

/// Tries whether the exchange is the sender (49).
#[inline]
pub fn check_sender(names: &Names, values: &Values) -> Result<(), Fault>
    ensures { result ≡ exchange_of names.now 4 49 (values_view values.now).sender }
{
    check_exchange(names, 4, tags::SENDER, values.sender())
}

/// Tries whether the exchange is the target (56).
#[inline]
pub fn check_target(names: &Names, values: &Values) -> Result<(), Fault>
    ensures { result ≡ target_of names.now (values_view values.now) }
{
    check_exchange(names, 5, tags::TARGET, values.target())
}

/// Tries whether the value of this tag is there, and is the exchange's name, as this rule asks.
#[tactic(auto, unfolding(crate::specs::Inner::Requests::exchange_of))]
#[inline]
fn check_exchange(names: &Names, rule: u8, tag: u32, text: &[u8]) -> Result<(), Fault>
    ensures { result ≡ exchange_of names.now rule tag (if_not_empty text.now) }
{
    if text.is_empty() {
        return Err(Fault::missing(rule, tag));
    }
    if names.exchange().bytes() != text {
        return Err(Fault::comp_id(rule, tag));
    }
    Ok(())
}

/// The sequence number (34).
#[tactic(auto, unfolding(crate::specs::Inner::Requests::sequence_of))]
#[inline]
pub fn read_sequence(values: &Values) -> Result<u32, Fault>
    ensures { result ≡ sequence_of (values_view values.now) }
{
    if values.sequence().is_empty() {
        return Err(Fault::missing(6, tags::SEQUENCE));
    }
    match read_sequence_number(values.sequence()) {
        Some(number) => Ok(number),
        None => Err(Fault::ill_formed(6, tags::SEQUENCE)),
    }
}

/// The sending time (52). `None` if none is there that has its form, which is the fault that `fault_of_time` gives.
#[inline]
pub fn read_time(values: &Values) -> Option<Stamp>
    ensures { ok_or result (fault_of_time (text_in values.now 5)) ≡ time_of (values_view values.now) }
{
    Stamp::new(values.time())
}

/// What is wrong with the sending time, if none is read.
#[cold]
pub fn fault_of_time(values: &Values) -> Fault
    ensures { result ≡ fault_of_time (text_in values.now 5) }
{
    if values.time().is_empty() {
        Fault::missing(6, tags::TIME)
    } else {
        Fault::ill_formed(6, tags::TIME)
    }
}
