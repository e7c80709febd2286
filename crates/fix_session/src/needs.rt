//! Session messages out of bodies: the tags that each type needs, in their forms and ranges.
ghost use Rattle.std.specs.Prelude.{◌≡◌, IsTrue, option_and_then, bytes_eq, codes};
ghost use Rattle.std.specs.List.{list_all};
ghost use Rattle.fix_request.specs.Fields.{texts_of, has_tag, fields_of, value_of};
ghost use Rattle.fix_request.specs.Asked.{text_of};
ghost use Rattle.fix_session.specs.Messages.{content_fault, said_in};
ghost use Rattle.fix_session.specs.Inner.{message_type_of, content_of, result_map, unless_refused, needed, lots_of, name_of, needed_lots, test_request_of, range_of, resend_request_of, reset_of, logon_of};

use crate::asked::{SessionMessage, SessionType, message_type_of};
use fix_request::{Fault, Refusal, Sender, first_value, refuse_content};
use gx_base::{ShortId, read_quantity};

/// The session message of a body each of whose fields has a tag, where the firm's next number is `next`; or its refusal: it is no
/// session message, a needed tag is missing, a value is ill-formed, or a value is out of range.
pub(crate) fn read_message(
    sender: &Sender,
    body: &[u8],
    next: u64,
) -> Result<SessionMessage, Refusal>
    requires { IsTrue (list_all has_tag (texts_of body.now)) }
    ensures { result ≡ unless_refused sender.now (content_fault next (fields_of body.now)) (said_in (fields_of body.now)) }
{
    read_content(sender, body, next, type_in(body))
}

/// The type of the message (35).
fn type_in(body: &[u8]) -> Option<SessionType>
    requires { IsTrue (list_all has_tag (texts_of body.now)) }
    ensures { result ≡ option_and_then message_type_of (value_of 35 (fields_of body.now)) }
{
    match first_value(body, 35) {
        Some(text) => message_type_of(text),
        None => None,
    }
}

/// The session message of this type, or its refusal.
fn read_content(
    sender: &Sender,
    body: &[u8],
    next: u64,
    message_type: Option<SessionType>,
) -> Result<SessionMessage, Refusal>
    requires { IsTrue (list_all has_tag (texts_of body.now)) }
    ensures { result ≡ content_of sender.now next (fields_of body.now) message_type }
{
    match message_type {
        Some(SessionType::Heartbeat) => Ok(SessionMessage::Heartbeat),
        Some(SessionType::TestRequest) => read_test_request(sender, body),
        Some(SessionType::ResendRequest) => read_resend_request(sender, body),
        Some(SessionType::Reject) => Ok(SessionMessage::Reject),
        Some(SessionType::SequenceReset) => read_reset(sender, body, next),
        Some(SessionType::Logout) => Ok(SessionMessage::Logout),
        Some(SessionType::Logon) => read_logon(sender, body),
        None => Err(refuse_content(sender, Fault::message_type(7))),
    }
}

/// The text of a needed tag.
fn needed<'a>(sender: &Sender, body: &'a [u8], tag: u32) -> Result<&'a [u8], Refusal>
    requires { IsTrue (list_all has_tag (texts_of body.now)) }
    ensures { result_map (λ text. text.now) result ≡ needed sender.now tag (value_of tag (fields_of body.now)) }
{
    match first_value(body, tag) {
        Some(text) => Ok(text),
        None => Err(refuse_content(sender, Fault::missing(8, tag))),
    }
}

/// Whether a message says that it is sent again (43=Y).
pub(crate) fn is_copy(body: &[u8]) -> bool
    requires { IsTrue (list_all has_tag (texts_of body.now)) }
    ensures { result ≡ bytes_eq (text_of 43 (fields_of body.now)) (codes "Y") }
{
    match first_value(body, 43) {
        Some(text) => text == b"Y".as_slice(),
        None => false,
    }
}

/// The number of a quantity text.
fn lots_of(sender: &Sender, tag: u32, text: &[u8]) -> Result<u32, Refusal>
    ensures { result ≡ lots_of sender.now tag text.now }
{
    match read_quantity(text) {
        Some(number) => Ok(number),
        None => Err(refuse_content(sender, Fault::ill_formed(9, tag))),
    }
}

/// The name that a text is.
fn name_of(sender: &Sender, tag: u32, text: &[u8]) -> Result<ShortId, Refusal>
    ensures { result ≡ name_of sender.now tag text.now }
{
    match ShortId::new(text) {
        Some(name) => Ok(name),
        None => Err(refuse_content(sender, Fault::ill_formed(9, tag))),
    }
}

/// The number of a quantity text that is needed.
fn needed_lots(sender: &Sender, body: &[u8], tag: u32) -> Result<u32, Refusal>
    requires { IsTrue (list_all has_tag (texts_of body.now)) }
    ensures { result ≡ needed_lots sender.now tag (fields_of body.now) }
{
    let text = needed(sender, body, tag)?;
    lots_of(sender, tag, text)
}

/// A test request needs an id (112).
fn read_test_request(sender: &Sender, body: &[u8]) -> Result<SessionMessage, Refusal>
    requires { IsTrue (list_all has_tag (texts_of body.now)) }
    ensures { result ≡ test_request_of sender.now (fields_of body.now) }
{
    let text = needed(sender, body, 112)?;
    let id = name_of(sender, 112, text)?;
    Ok(SessionMessage::TestRequest(id))
}

/// A resend request needs the numbers of its first line (7), from 1 on, and its last (16), 0 for all that there are.
fn read_resend_request(sender: &Sender, body: &[u8]) -> Result<SessionMessage, Refusal>
    requires { IsTrue (list_all has_tag (texts_of body.now)) }
    ensures { result ≡ resend_request_of sender.now (fields_of body.now) }
{
    let from_text = needed(sender, body, 7)?;
    let to_text = needed(sender, body, 16)?;
    let from = lots_of(sender, 7, from_text)?;
    let to = lots_of(sender, 16, to_text)?;
    range_of(sender, from, to)
}

/// A range of lines that is in range.
fn range_of(sender: &Sender, from: u32, to: u32) -> Result<SessionMessage, Refusal>
    ensures { result ≡ range_of sender.now from to }
{
    if from < 1 {
        return Err(refuse_content(sender, Fault::out_of_range(7)));
    }
    if to != 0 && to < from {
        return Err(refuse_content(sender, Fault::out_of_range(16)));
    }
    Ok(SessionMessage::ResendRequest { from, to })
}

/// A sequence reset needs a number above the next one (36).
fn read_reset(sender: &Sender, body: &[u8], next: u64) -> Result<SessionMessage, Refusal>
    requires { IsTrue (list_all has_tag (texts_of body.now)) }
    ensures { result ≡ reset_of sender.now next (fields_of body.now) }
{
    let number = needed_lots(sender, body, 36)?;
    if next < u64::from(number) {
        Ok(SessionMessage::SequenceReset(number))
    } else {
        Err(refuse_content(sender, Fault::out_of_range(36)))
    }
}

/// A logon needs the heartbeat interval (108).
fn read_logon(sender: &Sender, body: &[u8]) -> Result<SessionMessage, Refusal>
    requires { IsTrue (list_all has_tag (texts_of body.now)) }
    ensures { result ≡ logon_of sender.now (fields_of body.now) }
{
    let interval = needed_lots(sender, body, 108)?;
    Ok(SessionMessage::Logon(interval))
}
