//! The sessions of firms, and what each message does to them.
ghost use Rattle.std.specs.Prelude.{◌≡◌, ◌<◌, ◌^◌, ℕ, IfOk, IfErr, IfSome, OnOk, IsTrue, slice_index};
ghost use Rattle.std.specs.List.{list_all};
ghost use Rattle.gx_base.specs.declared.limits.TheConstants.{MOST_FIRMS};
ghost use Rattle.fix_frame.specs.Grammar.{IsFrame, body_in};
ghost use Rattle.fix_request.specs.Fields.{texts_of, has_tag};
ghost use Rattle.fix_request.specs.Senders.{firm_sender};
ghost use Rattle.fix_session.specs.SessionOut.{first_sessions};
ghost use Rattle.fix_session.specs.Answers.{sender_in, sender_of_refused, noted, taken_in, answered, by_number, behind, ahead, in_turn, resent, one, line_to, next_line, reject_of};

use crate::answer::{LogoutText, SessionAnswer, SessionBody, SessionLine, SessionRule};
use crate::asked::SessionMessage;
use crate::needs::{is_copy, read_message};
use fix_frame::frame_body;
use fix_request::{Refusal, Request, Sender, read_sender};
use gx_base::{Desk, MOST_FIRMS};
use product_file::Product;
use std::marker::Model;

/// The session of a firm.
#[derive(Clone, Copy, Debug, PartialEq, Eq)]
pub struct FirmSession {
    /// Whether it is logged on.
    pub on: bool,
    /// The number that its next message is to have (34).
    pub next: u64,
}

/// A message that no rule of its form, header or content refuses.
#[derive(Clone, Copy, Debug)]
pub struct Sent {
    sender: Sender,
    says: SessionMessage,
    /// Whether it says that it is sent again (43=Y).
    is_copy: bool,
    /// How many report lines its firm has had.
    lines: u64,
}

/// The sessions of all firms. Contracts see it as the list of them, by the firms' numbers.
#[derive(Drop)]
pub struct Sessions {
    firms: [FirmSession; MOST_FIRMS],
}

impl Model for Sessions {
    ghost use Rattle.std.specs.Prelude.{List};
    ghost use Rattle.fix_session.specs.declared.sessions.FirmSession.{FirmSession};

    ghost Value = { List FirmSession };

    ghost use Rattle.std.specs.Prelude.{◌≡◌, length};
    ghost use Rattle.gx_base.specs.declared.limits.TheConstants.{MOST_FIRMS};

    ghost view = { λ sessions. sessions.firms };

    ghost invariant = { λ sessions. length sessions.firms ≡ MOST_FIRMS };
}

impl Sessions {
    /// No firm is logged on, and the first number of each is 1.
    pub fn new() -> Sessions
        ensures { result ≡ first_sessions }
    {
        let new = FirmSession { on: false, next: 1 };
        Sessions {
            firms: [new; MOST_FIRMS],
        }
    }

    /// Notes a message that the journal keeps: the next number of the firm that sent it is above its own (34). A message of nobody
    /// known, one that a session rule from 1 to 6 refuses, and a change of the trading session change nothing.
    pub fn note(&mut self, request: &Request)
        requires { IfSome (sender_in request.now) (λ sender. sender.firm < MOST_FIRMS) }
        ensures { self.new ≡ noted self.old request.now }
    {
        if let Some(sender) = sender_in(request) {
            let session = &mut self.firms[sender.firm as usize];
            session.next = session.next.max(u64::from(sender.seq) + 1);
        }
    }

    /// Answers the message of a frame, by the first rule that holds (our own rules, about messages of FIX 4.2), and changes the session
    /// of its firm by it. `desk` has the counters of report lines. In this order: one of the session rules 1 to 6 refuses the
    /// message, where 35=h is a type like any other; it is no message of a session; a needed tag is missing, ill-formed or out of
    /// range; the firm is not logged on; the message is a SequenceReset; its number (34) is below, above, or just the next one.
    /// Takes no memory.
    pub fn take(&mut self, frame: &[u8], product: &Product, desk: &Desk) -> SessionAnswer
        requires frame { IsFrame frame.now }
        requires counted { (place : ℕ) → slice_index desk.now.lines place < 2 ^ 62 }
        ensures answer { result ≡ (taken_in product.now.names self.old desk.now.lines (body_in frame.now)).answer }
        ensures sessions { self.new ≡ (taken_in product.now.names self.old desk.now.lines (body_in frame.now)).sessions }
    {
        let sender = match read_listed(frame, product) {
            Ok(sender) => sender,
            Err(refusal) => return SessionAnswer::One(reject_of(desk, &refusal)),
        };
        let body = frame_body(frame);
        let place = sender.firm as usize;
        let mut session = self.firms[place];
        let says = match read_message(&sender, body, session.next) {
            Ok(says) => says,
            Err(refusal) => return SessionAnswer::One(reject_of(desk, &refusal)),
        };
        let sent = Sent {
            sender,
            says,
            is_copy: is_copy(body),
            lines: desk.lines[place],
        };
        let answer = session.answer(&sent);
        self.firms[place] = session;
        answer
    }
}

/// The firm that sent a message, where none of the session rules 1 to 6 refuses it.
fn sender_in(request: &Request) -> Option<Sender>
    ensures { result ≡ sender_in request.now }
{
    match request {
        Request::New(order) => Some(order.sender),
        Request::Cancel(order) => Some(order.sender),
        Request::Replace(order) => Some(order.sender),
        Request::Session(_) => None,
        Request::Passed(sender) => Some(*sender),
        Request::Refused(refusal) => sender_of_refused(refusal),
    }
}

/// The same of a message that is refused.
fn sender_of_refused(refusal: &Refusal) -> Option<Sender>
    ensures { result ≡ sender_of_refused refusal.now refusal.now.firm }
{
    match refusal.firm {
        Some(firm) if refusal.rule > 6 => Some(Sender {
            firm,
            seq: refusal.seq,
            time: refusal.time,
        }),
        _ => None,
    }
}

/// The firm that sent the message of a frame, or its refusal by the first of the session rules 1 to 6 that holds.
fn read_listed(frame: &[u8], product: &Product) -> Result<Sender, Refusal>
    requires { IsFrame frame.now }
    ensures sender { result ≡ firm_sender product.now.names (body_in frame.now) }
    ensures listed { IfOk result (λ sender. sender.firm < MOST_FIRMS) }
    ensures addressee { IfErr result (λ refusal. IfSome refusal.firm (λ firm. firm < MOST_FIRMS)) }
    ensures tags { OnOk result (IsTrue (list_all has_tag (texts_of (body_in frame.now)))) }
{
    product.names().firm_count();
    read_sender(frame, product)
}

/// A refusal as a line.
fn reject_of(desk: &Desk, refusal: &Refusal) -> SessionLine
    requires listed { IfSome refusal.now.firm (λ firm. firm < MOST_FIRMS) }
    requires counted { (place : ℕ) → slice_index desk.now.lines place < 2 ^ 62 }
    ensures { result ≡ reject_of desk.now.lines refusal.now }
{
    let place = refusal.firm.map_or(MOST_FIRMS, usize::from);
    SessionLine {
        firm: refusal.firm,
        line: desk.lines[place] + 1,
        time: refusal.time,
        body: SessionBody::Reject {
            seq: refusal.seq,
            tag: refusal.tag,
            reason: refusal.reason,
            rule: SessionRule::of_number(refusal.rule),
        },
    }
}

impl Sent {
    /// A line to its firm.
    fn line_to(&self, body: SessionBody) -> SessionLine
        requires { self.now.lines < 2 ^ 62 }
        ensures { result ≡ line_to self.now body }
    {
        SessionLine {
            firm: Some(self.sender.firm),
            line: self.lines + 1,
            time: self.sender.time,
            body,
        }
    }

    /// A line to its firm as the answer.
    fn one(&self, body: SessionBody) -> SessionAnswer
        requires { self.now.lines < 2 ^ 62 }
        ensures { result ≡ one self.now body }
    {
        SessionAnswer::One(self.line_to(body))
    }

    /// The lines from one number to another, 0 for all that there are, again; or where the first is above those that there are, only
    /// which number the next line has.
    fn resent(&self, from: u32, to: u32) -> SessionAnswer
        requires { self.now.lines < 2 ^ 62 }
        ensures { result ≡ resent self.now from to }
    {
        if u64::from(from) > self.lines {
            return self.one(SessionBody::Reset(self.lines + 1));
        }
        let to = if to == 0 {
            self.lines
        } else {
            self.lines.min(u64::from(to))
        };
        SessionAnswer::Resend {
            firm: self.sender.firm,
            from: u64::from(from),
            to,
            time: self.sender.time,
        }
    }
}

impl FirmSession {
    /// Answers a message by the rules 4 to 8.
    fn answer(&mut self, sent: &Sent) -> SessionAnswer
        requires { sent.now.lines < 2 ^ 62 }
        ensures { (self.new, result) ≡ answered self.old sent.now }
    {
        let is_logon = matches!(sent.says, SessionMessage::Logon(_));
        if !self.on && !is_logon {
            return sent.one(SessionBody::Logout(LogoutText::NotOn));
        }
        if let SessionMessage::SequenceReset(number) = sent.says {
            self.next = u64::from(number);
            return SessionAnswer::Nothing;
        }
        self.answer_by_number(sent)
    }

    /// Answers a message by its number.
    fn answer_by_number(&mut self, sent: &Sent) -> SessionAnswer
        requires { sent.now.lines < 2 ^ 62 }
        ensures { (self.new, result) ≡ by_number self.old sent.now }
    {
        let seq = u64::from(sent.sender.seq);
        if seq < self.next {
            return self.answer_behind(sent);
        }
        if self.next < seq {
            return self.answer_ahead(sent);
        }
        self.next = seq + 1;
        self.answer_in_turn(sent)
    }

    /// Its number is below the next one.
    fn answer_behind(&mut self, sent: &Sent) -> SessionAnswer
        requires { sent.now.lines < 2 ^ 62 }
        ensures { (self.new, result) ≡ behind self.old sent.now }
    {
        if sent.is_copy {
            return SessionAnswer::Nothing;
        }
        self.on = false;
        sent.one(SessionBody::Logout(LogoutText::TooLow))
    }

    /// Its number is above the next one.
    fn answer_ahead(&mut self, sent: &Sent) -> SessionAnswer
        requires { sent.now.lines < 2 ^ 62 }
        ensures { (self.new, result) ≡ ahead self.old sent.now sent.now.says }
    {
        let resend = sent.line_to(SessionBody::Resend(self.next));
        match sent.says {
            SessionMessage::Logon(interval) => {
                self.on = true;
                SessionAnswer::Two(sent.line_to(SessionBody::Logon(interval)), resend)
            }
            _ => SessionAnswer::One(resend),
        }
    }

    /// It has the next number.
    fn answer_in_turn(&mut self, sent: &Sent) -> SessionAnswer
        requires { sent.now.lines < 2 ^ 62 }
        ensures { (self.new, result) ≡ in_turn self.old sent.now sent.now.says }
    {
        match sent.says {
            SessionMessage::Logon(interval) => {
                self.on = true;
                sent.one(SessionBody::Logon(interval))
            }
            SessionMessage::TestRequest(id) => sent.one(SessionBody::Beat(id)),
            SessionMessage::ResendRequest { from, to } => sent.resent(from, to),
            SessionMessage::Logout => {
                self.on = false;
                sent.one(SessionBody::Logout(LogoutText::Bye))
            }
            SessionMessage::Heartbeat | SessionMessage::Reject | SessionMessage::SequenceReset(_) =>
                SessionAnswer::Nothing,
        }
    }
}
