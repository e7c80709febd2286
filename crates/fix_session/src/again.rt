//! Report lines again.
ghost use Rattle.std.specs.Prelude.{◌≡◌, ◌+◌, ◌*◌, ◌^◌, ◌<◌, ◌≤◌, ◌++◌, ◌∷◌, [], ℕ, List, IsTrue, length, take, decimal};
ghost use Rattle.gx_base.specs.Frames.{soh, frame_of};
ghost use Rattle.gx_base.specs.Texts.{is_name, is_stamp};
ghost use Rattle.fix_session.specs.Again.{again_body, again_line, head_in, is_asked, again_text};

use exec_report::{LONGEST_PRINTED, LineEmit, LineForm, write_line};
use gx_base::{Event, Execution, Head, LONGEST_LINE, Names, SOH, Stamp, append, split_at_byte};
use line_parts::fields::{LONGEST_FIELD, number, time, word};
use line_parts::{TRAILER_LENGTH, checksum, trailer_with};
use product_file::Product;

/// How many bytes the body of a report line has at most: a longer one would make a line of more than `LONGEST_LINE` bytes.
const LONGEST_BODY: usize = LONGEST_LINE - 24;

/// How many bytes it has again at most: five more for 43=Y, and four where only the new time has milliseconds.
const LONGEST_AGAIN_BODY: usize = LONGEST_BODY + 9;

/// Room for a body again, whatever its fields are.
const AGAIN_ROOM: usize = LONGEST_LINE + 3 * LONGEST_FIELD;

/// Which report lines are asked for again: those of a firm with these numbers (34), and the time that they are to have.
#[derive(Clone, Copy, Debug, PartialEq, Eq)]
pub struct ReportRange {
    /// The number of the firm in the product's list.
    pub firm: u8,
    /// The least number.
    pub from: u64,
    /// The greatest number; there are none where it is less than the least.
    pub to: u64,
    /// The time (52) of the lines again.
    pub time: Stamp,
}

impl ReportRange {
    /// Whether the line of an event is asked for.
    fn is_asked(&self, event: &Event) -> bool
        ensures { result ≡ is_asked self.now event.now }
    {
        let head = head_in(event);
        head.firm == Some(self.firm) && self.from <= head.line && head.line <= self.to
    }
}

/// Where the line of an event goes, and its numbers.
fn head_in(event: &Event) -> &Head
    ensures { result.now ≡ head_in event.now }
{
    match event {
        Event::Accepted { head, .. }
        | Event::Triggered { head, .. }
        | Event::Fill { head, .. }
        | Event::Cancelled { head, .. }
        | Event::Expired { head, .. }
        | Event::Replaced { head, .. }
        | Event::RefusedNew { head, .. }
        | Event::RefusedChange { head, .. }
        | Event::RefusedSession { head, .. } => head,
    }
}

/// The body of a report line: what stands between the field 9 and the trailer.
fn body_in(line: &[u8]) -> &[u8]
    ensures body { (body : List ℕ) → line.now ≡ frame_of (decimal (length body)) body → length line.now ≤ LONGEST_LINE → result.now ≡ body }
    ensures short { length result.now ≤ length line.now }
{
    let (_, behind) = split_at_byte(line, SOH);
    let (_, body) = split_at_byte(behind, SOH);
    &body[..body.len().saturating_sub(TRAILER_LENGTH)]
}

/// Writes a text and the SOH that ends it.
fn end_field(into: &mut [u8], at: usize, text: &[u8]) -> usize
    requires { at + length text.now + 1 ≤ length into.old }
    ensures field { take result into.new ≡ take at into.old ++ (text.now ++ soh ∷ []) }
    ensures end { result ≡ at + length text.now + 1 }
{
    let at = append(into, at, text);
    append(into, at, &[SOH])
}

/// Writes a body of a report line again, with this time.
fn write_again_body(body: &[u8], new_time: &Stamp, into: &mut [u8; AGAIN_ROOM]) -> usize
    requires { length body.now ≤ LONGEST_LINE }
    ensures body { take result into.new ≡ again_body new_time.now body.now }
    ensures short { result ≤ AGAIN_ROOM }
{
    let (message_type, behind_type) = split_at_byte(body, SOH);
    let (line, behind_line) = split_at_byte(behind_type, SOH);
    let (exchange, behind_exchange) = split_at_byte(behind_line, SOH);
    let (_, rest) = split_at_byte(behind_exchange, SOH);
    let at = end_field(into, 0, message_type);
    let at = end_field(into, at, line);
    let at = word(into, at, b"43=", b"Y");
    let at = end_field(into, at, exchange);
    let at = time(into, at, b"52=", new_time);
    append(into, at, rest)
}

/// Writes the frame of a body.
#[tactic(auto, using(crate::proofs::Lengths::few_digits))]
fn write_frame(body: &[u8], into: &mut [u8]) -> usize
    requires short { length body.now ≤ LONGEST_AGAIN_BODY }
    requires room { LONGEST_PRINTED ≤ length into.old }
    ensures frame { take result into.new ≡ frame_of (decimal (length body.now)) body.now }
    ensures short { result ≤ LONGEST_PRINTED }
{
    let at = word(into, 0, b"8=", b"FIX.4.2");
    let at = number(into, at, b"9=", body.len() as u64);
    let at = append(into, at, body);
    let trailer = trailer_with(checksum(&into[..at]));
    append(into, at, &trailer)
}

/// The exchange has a name, and the line of an event has a number and a time, as this time is one too. Does nothing.
fn are_known(names: &Names, event: &Event, new_time: &Stamp)
    ensures exchange { IsTrue (is_name names.now.exchange) }
    ensures first_time { IsTrue (is_stamp (head_in event.now).time) }
    ensures line { (head_in event.now).line < 2 ^ 64 }
    ensures new_time { IsTrue (is_stamp new_time.now) }
{
    let head = head_in(event);
    let _line = head.line;
    names.exchange().bytes();
    head.time.bytes();
    new_time.bytes();
}

/// Writes the line of an event again, with this time.
fn write_again(event: &Event, names: &Names, new_time: &Stamp, into: &mut [u8]) -> usize
    requires { LONGEST_PRINTED ≤ length into.old }
    ensures line { take result into.new ≡ again_line names.now new_time.now event.now }
    ensures short { result ≤ LONGEST_PRINTED }
{
    are_known(names, event, new_time);
    let mut line = [0; LONGEST_LINE];
    let count = write_line(event, names, &mut line);
    let mut body = [0; AGAIN_ROOM];
    let count = write_again_body(body_in(&line[..count]), new_time, &mut body);
    write_frame(&body[..count], into)
}

/// The report lines of a range, again (FIX 4.2: possible duplicates; that 122 is left out is our own rule): each is the line that it was,
/// with 43=Y after 34 and the time of the range in 52, and so with another length and checksum. Of other events nothing is
/// printed; nothing is kept, and nothing comes after the lines.
#[derive(Clone, Copy, Debug, PartialEq, Eq)]
pub struct AgainForm {
    /// Which lines are asked for.
    pub range: ReportRange,
}

impl LineForm for AgainForm {
    ghost use Rattle.fix_session.specs.Again.{again_form};

    ghost meanings = { again_form };

    fn write(&self, event: &Event, names: &Names, into: &mut [u8]) -> usize {
        if self.range.is_asked(event) {
            write_again(event, names, &self.range.time, into)
        } else {
            0
        }
    }

    fn keep(&mut self, _event: &Event) {}

    fn keep_execution(&mut self, _execution: &Execution<'_>) {}

    fn note(&mut self, _product: &Product, _frame: &[u8]) {}

    fn write_ending(&self, _live: u64, _into: &mut [u8]) -> usize {
        0
    }
}

/// The emitter of report lines again: a `LineEmit` over the form of a range.
pub type AgainEmit<'b, 's, 'n, 'f, S> = LineEmit<'b, 's, 'n, 'f, AgainForm, S>;
