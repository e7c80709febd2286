//! Session messages as bytes.
ghost use Rattle.std.specs.Prelude.{◌≡◌, ◌+◌, ◌*◌, ◌≤◌, ◌++◌, length, take};
ghost use Rattle.gx_base.specs.Line.{line_head};
ghost use Rattle.fix_session.specs.SessionLines.{type_of, head_of, logout_text, said_fields, session_body, session_line};
ghost use Rattle.fix_session.specs.Inner.{IsNoReject};

use crate::answer::{LogoutText, SessionBody, SessionLine};
use exec_report::write_line;
use gx_base::{Event, Head, LONGEST_LINE, LONGEST_VALUE, Names, addressee};
use line_parts::fields::{GAP, LONGEST_FIELD, field, name, number, put_frame, time, word};

/// Writes a session message of FIX 4.2 into the front of `into`, and answers how many bytes it has; what comes after them is left
/// open. The words of 58 are our own. A firm that is not listed is written as `UNKNOWN`.
pub fn write_session(line: &SessionLine, names: &Names, into: &mut [u8; LONGEST_LINE]) -> usize
    ensures line { take result into.new ≡ session_line names.now line.now }
    ensures short { result ≤ LONGEST_LINE }
{
    match line.body {
        SessionBody::Reject {
            seq,
            tag,
            reason,
            rule,
        } => write_line(
            &Event::RefusedSession {
                head: head_of(line),
                seq,
                tag,
                reason,
                rule: rule.number(),
            },
            names,
            into,
        ),
        _ => write_framed(line, names, into),
    }
}

/// Writes a session message that is no reject.
fn write_framed(line: &SessionLine, names: &Names, into: &mut [u8; LONGEST_LINE]) -> usize
    requires { IsNoReject line.now.body }
    ensures line { take result into.new ≡ session_line names.now line.now }
    ensures short { result ≤ LONGEST_LINE }
{
    let end = write_body(into, GAP, names, line);
    put_frame(into, end)
}

/// Writes the body of a session message that is no reject.
fn write_body(into: &mut [u8], at: usize, names: &Names, line: &SessionLine) -> usize
    requires room { at + 7 * LONGEST_FIELD ≤ length into.old }
    requires other { IsNoReject line.now.body }
    ensures body { take result into.new ≡ take at into.old ++ session_body names.now line.now }
    ensures short { result ≤ at + 7 * LONGEST_FIELD }
{
    let at = write_head(into, at, names, line);
    write_said(into, at, &line.body)
}

/// The head of a line, as of a report that is no execution report.
fn head_of(line: &SessionLine) -> Head
    ensures { result ≡ head_of line.now }
{
    Head {
        firm: line.firm,
        line: line.line,
        report: 0,
        time: line.time,
    }
}

/// The type of a line (35).
fn type_of(body: &SessionBody) -> &'static [u8]
    ensures text { result.now ≡ type_of body.now }
    ensures short { length result.now ≤ LONGEST_VALUE }
{
    match body {
        SessionBody::Reject { .. } => b"3",
        SessionBody::Logout(_) => b"5",
        SessionBody::Resend(_) => b"2",
        SessionBody::Logon(_) => b"A",
        SessionBody::Beat(_) => b"0",
        SessionBody::Reset(_) => b"4",
    }
}

/// Why a firm is logged out (58).
fn logout_text(text: LogoutText) -> &'static [u8]
    ensures text { result.now ≡ logout_text text }
    ensures short { length result.now ≤ LONGEST_VALUE }
{
    match text {
        LogoutText::NotOn => b"NOT LOGGED ON",
        LogoutText::TooLow => b"MSGSEQNUM TOO LOW",
        LogoutText::Bye => b"BYE",
    }
}

/// Writes type, number, exchange, time and addressee.
fn write_head(into: &mut [u8], at: usize, names: &Names, line: &SessionLine) -> usize
    requires { at + 5 * LONGEST_FIELD ≤ length into.old }
    ensures fields { take result into.new ≡ take at into.old ++ line_head names.now (type_of line.now.body) (head_of line.now) }
    ensures short { result ≤ at + 5 * LONGEST_FIELD }
{
    let at = field(into, at, b"35=", type_of(&line.body));
    let at = number(into, at, b"34=", line.line);
    let at = name(into, at, b"49=", names.exchange());
    let at = time(into, at, b"52=", &line.time);
    name(into, at, b"56=", &addressee(names, line.firm))
}

/// Writes what a line says that is no reject.
fn write_said(into: &mut [u8], at: usize, body: &SessionBody) -> usize
    requires room { at + 2 * LONGEST_FIELD ≤ length into.old }
    requires other { IsNoReject body.now }
    ensures fields { take result into.new ≡ take at into.old ++ said_fields body.now }
    ensures short { result ≤ at + 2 * LONGEST_FIELD }
{
    match body {
        SessionBody::Reject { .. } => unreachable!(),
        SessionBody::Logout(text) => field(into, at, b"58=", logout_text(*text)),
        SessionBody::Resend(next) => {
            let at = number(into, at, b"7=", *next);
            word(into, at, b"16=", b"0")
        }
        SessionBody::Logon(interval) => {
            let at = word(into, at, b"98=", b"0");
            number(into, at, b"108=", u64::from(*interval))
        }
        SessionBody::Beat(id) => name(into, at, b"112=", id),
        SessionBody::Reset(next) => {
            let at = word(into, at, b"123=", b"Y");
            number(into, at, b"36=", *next)
        }
    }
}
