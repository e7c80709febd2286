//! What session messages are answered.
ghost use Rattle.std.specs.Prelude.{◌≡◌};
ghost use Rattle.fix_session.specs.SessionLines.{rule_number, logout_text};
ghost use Rattle.fix_session.specs.Answers.{rule_of};

use gx_base::{ShortId, Stamp};

/// The rule that refuses a message, in the order in which they are tried: one variant for each text of 58 (our own rules and words).
#[derive(Clone, Copy, Debug, PartialEq, Eq)]
pub enum SessionRule {
    FirstTag,
    BadTag,
    NoValue,
    Sender,
    Target,
    Header,
    MsgType,
    Missing,
    Format,
    Value,
}

/// Why a firm is logged out: one variant for each text of 58 (our own words).
#[derive(Clone, Copy, Debug, PartialEq, Eq)]
pub enum LogoutText {
    /// It is not logged on.
    NotOn,
    /// Its sequence number is below the next one.
    TooLow,
    /// It has asked for that.
    Bye,
}

/// What a line says, with the tags of FIX 4.2.
#[derive(Clone, Copy, Debug, PartialEq, Eq)]
pub enum SessionBody {
    /// A message is refused (35=3).
    Reject {
        /// Its sequence number (45), 0 where it has none that can be read.
        seq: u32,
        /// The tag at fault (371), 0 for none.
        tag: u32,
        /// SessionRejectReason (373 in FIX 4.2).
        reason: u8,
        /// The rule that refuses it (58).
        rule: SessionRule,
    },
    /// The firm is off (35=5).
    Logout(LogoutText),
    /// Its messages from this number on are asked for again (35=2).
    Resend(u64),
    /// It is on, with this heartbeat interval (35=A).
    Logon(u32),
    /// A heartbeat that answers a test request of this id (35=0).
    Beat(ShortId),
    /// The next report line has this number (35=4).
    Reset(u64),
}

/// A line to a firm, by its number in the product's list, or to nobody known, who is written as `UNKNOWN`.
#[derive(Clone, Copy, Debug, PartialEq, Eq)]
pub struct SessionLine {
    pub firm: Option<u8>,
    /// The number of the next report line to it (34). The line itself takes none.
    pub line: u64,
    /// The time of the message that it answers (52).
    pub time: Stamp,
    pub body: SessionBody,
}

/// What is sent to answer a message: nothing, a line, two lines in this order, or report lines again.
#[derive(Clone, Copy, Debug, PartialEq, Eq)]
pub enum SessionAnswer {
    Nothing,
    One(SessionLine),
    Two(SessionLine, SessionLine),
    /// The report lines of a firm from one number (34) to another, again, with this time.
    Resend {
        firm: u8,
        from: u64,
        to: u64,
        time: Stamp,
    },
}

impl SessionRule {
    /// The rule of this number.
    pub(crate) fn of_number(number: u8) -> SessionRule
        ensures { result ≡ rule_of number }
    {
        match number {
            1 => SessionRule::FirstTag,
            2 => SessionRule::BadTag,
            3 => SessionRule::NoValue,
            4 => SessionRule::Sender,
            5 => SessionRule::Target,
            6 => SessionRule::Header,
            7 => SessionRule::MsgType,
            8 => SessionRule::Missing,
            9 => SessionRule::Format,
            _ => SessionRule::Value,
        }
    }

    /// Its number, from 1 on in the order in which they are tried.
    pub(crate) fn number(self) -> u8
        ensures { result ≡ rule_number self }
    {
        match self {
            SessionRule::FirstTag => 1,
            SessionRule::BadTag => 2,
            SessionRule::NoValue => 3,
            SessionRule::Sender => 4,
            SessionRule::Target => 5,
            SessionRule::Header => 6,
            SessionRule::MsgType => 7,
            SessionRule::Missing => 8,
            SessionRule::Format => 9,
            SessionRule::Value => 10,
        }
    }
}
