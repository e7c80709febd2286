//! Types of messages (rule 7).
ghost use Rattle.std.specs.Prelude.{◌≡◌};
ghost use Rattle.fix_request.specs.Inner.Requests.{message_type_of, type_of, is_change};
ghost use Rattle.fix_request.specs.Inner.Views.{values_view};

use crate::values::Values;

/// What a message of some type is about.
#[derive(Clone, Copy, Debug, PartialEq, Eq)]
pub enum MessageType {
    /// The session itself: 0, 1, 2, 3, 4, 5 and A.
    Session,
    /// D.
    New,
    /// F.
    Cancel,
    /// G.
    Replace,
    /// h.
    Trading,
}

/// The type of a message (35). `None` where no message has it.
#[inline]
pub fn read_type(values: &Values) -> Option<MessageType>
    ensures { result ≡ type_of (values_view values.now) }
{
    if values.message_type().is_empty() {
        return None;
    }
    message_type_of(values.message_type())
}

/// Whether a message changes the trading session (35=h).
#[inline]
pub fn is_change(values: &Values) -> bool
    ensures { result ≡ is_change (values_view values.now) }
{
    values.message_type() == b"h".as_slice()
}

/// The type of its text.
#[inline]
fn message_type_of(text: &[u8]) -> Option<MessageType>
    ensures { result ≡ message_type_of text.now }
{
    match text {
        b"0" | b"1" | b"2" | b"3" | b"4" | b"5" | b"A" => Some(MessageType::Session),
        b"D" => Some(MessageType::New),
        b"F" => Some(MessageType::Cancel),
        b"G" => Some(MessageType::Replace),
        b"h" => Some(MessageType::Trading),
        _ => None,
    }
}
