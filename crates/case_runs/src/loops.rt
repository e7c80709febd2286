//! One call many times, each time with something else the matter.
use crate::answers::{Answer, answer_of, push_answer};
use crate::bytes::{front, push_bytes, set_byte};
use crate::runs::{Conditions, Given, NEVER, Ran, run};
use std::alloc::{AllocError, Global};

/// What the calls of a loop came to: each answer once for those in a row that have it.
#[derive(Drop)]
struct Row {
    answer: Option<Answer>,
    from: usize,
    to: usize,
    told: String,
}

impl Row {
    /// No call yet.
    fn new(alloc: Global) -> Row {
        Row {
            answer: None,
            from: 0,
            to: 0,
            told: String::new(alloc),
        }
    }

    /// Adds the answer of the call of a number.
    fn add(
        &mut self,
        alloc: Global,
        name: &str,
        number: usize,
        answer: Answer,
    ) -> Result<(), AllocError> {
        if self.answer != Some(answer) {
            self.close(alloc, name)?;
            self.answer = Some(answer);
            self.from = number;
        }
        self.to = number;
        Ok(())
    }

    /// Tells the answer of the last calls.
    fn close(&mut self, alloc: Global, name: &str) -> Result<(), AllocError> {
        let Some(answer) = self.answer else {
            return Ok(());
        };
        let (from, to) = (self.from, self.to);
        let text = if from == to {
            format!(in alloc; "  {name} {from}: ")?
        } else {
            format!(in alloc; "  {name} {from} to {to}: ")?
        };
        self.told.push_str(text.as_str())?;
        push_answer(alloc, &mut self.told, answer)
    }
}

/// The answer over an input, beside that of the whole call.
fn answer_over(
    alloc: Global,
    given: Given<'_>,
    input: &[u8],
    under: Conditions,
    whole: &Ran,
) -> Result<Answer, AllocError> {
    let ran = run(alloc, Given { input, ..given }, under)?;
    Ok(answer_of(&ran, whole.station.output(), given.image, NEVER))
}

/// The call over its input in two reads, for each place of the cut.
pub fn each_cut(
    alloc: Global,
    given: Given<'_>,
    under: Conditions,
    whole: &Ran,
) -> Result<String, AllocError> {
    let mut row = Row::new(alloc);
    for first in 1..given.input.len() {
        let answer = answer_over(
            alloc,
            given,
            given.input,
            Conditions { first, ..under },
            whole,
        )?;
        row.add(alloc, "cut", first, answer)?;
    }
    row.close(alloc, "cut")?;
    Ok(row.told)
}

/// The call over each front of its input.
pub fn each_front(
    alloc: Global,
    given: Given<'_>,
    under: Conditions,
    whole: &Ran,
) -> Result<String, AllocError> {
    let mut row = Row::new(alloc);
    for count in 0..given.input.len() {
        let input = front(given.input, count);
        let answer = answer_over(alloc, given, input, under, whole)?;
        row.add(alloc, "front", count, answer)?;
    }
    row.close(alloc, "front")?;
    Ok(row.told)
}

/// The call over each front of its journal.
pub fn each_journal_front(
    alloc: Global,
    given: Given<'_>,
    under: Conditions,
) -> Result<String, AllocError> {
    let mut row = Row::new(alloc);
    for count in 0..given.image.len() {
        let image = front(given.image, count);
        let ran = run(alloc, Given { image, ..given }, under)?;
        let answer = answer_of(&ran, ran.station.output(), image, NEVER);
        row.add(alloc, "front", count, answer)?;
    }
    row.close(alloc, "front")?;
    Ok(row.told)
}

/// The call over its input with this byte in the place of each.
pub fn each_byte(
    alloc: Global,
    given: Given<'_>,
    under: Conditions,
    whole: &Ran,
    byte: u8,
) -> Result<String, AllocError> {
    let mut row = Row::new(alloc);
    for at in 0..given.input.len() {
        let mut input = given.input.to_vec(alloc)?;
        set_byte(&mut input, at, byte);
        let answer = answer_over(alloc, given, input.as_slice(), under, whole)?;
        row.add(alloc, "byte", at, answer)?;
    }
    row.close(alloc, "byte")?;
    Ok(row.told)
}

/// The call with each call of the station failing in turn.
pub fn each_failing(
    alloc: Global,
    given: Given<'_>,
    under: Conditions,
    whole: &Ran,
) -> Result<String, AllocError> {
    let mut row = Row::new(alloc);
    for number in 1..=whole.station.calls() {
        let call = number as u64;
        let ran = run(alloc, given, Conditions { call, ..under })?;
        let answer = answer_of(&ran, whole.station.output(), given.image, call);
        row.add(alloc, "call", number, answer)?;
    }
    row.close(alloc, "call")?;
    Ok(row.told)
}

/// Whether the call over its input in two reads has this answer, wherever the cut is.
fn is_same_cut(
    alloc: Global,
    given: Given<'_>,
    under: Conditions,
    whole: &Ran,
    answer: Answer,
) -> Result<bool, AllocError> {
    for first in 1..given.input.len() {
        let under = Conditions { first, ..under };
        if answer_over(alloc, given, given.input, under, whole)? != answer {
            return Ok(false);
        }
    }
    Ok(true)
}

/// An input, a line after it, and more bytes after that.
fn joined(alloc: Global, input: &[u8], line: &str, rest: &[u8]) -> Result<Vec<u8>, AllocError> {
    let mut bytes = input.to_vec(alloc)?;
    push_bytes(&mut bytes, line, b'|')?;
    bytes.push(b'\n')?;
    bytes.extend_from_slice(rest)?;
    Ok(bytes)
}

/// Adds the answer over an input that ends with a line, and whether a cut or more input after the line changes it.
fn push_line_answer(
    alloc: Global,
    told: &mut String,
    given: Given<'_>,
    under: Conditions,
    longer: &[u8],
) -> Result<(), AllocError> {
    let whole = run(alloc, given, under)?;
    let answer = answer_of(&whole, whole.station.output(), given.image, NEVER);
    if !is_same_cut(alloc, given, under, &whole, answer)? {
        told.push_str("not at each cut, ")?;
    }
    if answer_over(alloc, given, longer, under, &whole)? != answer {
        told.push_str("not with more input, ")?;
    }
    push_answer(alloc, told, answer)
}

/// The call over its input and one of these lines after it, for each of them; then with the rest after that, too.
pub fn each_line(
    alloc: Global,
    given: Given<'_>,
    under: Conditions,
    lines: &[String],
    rest: &[u8],
) -> Result<String, AllocError> {
    let mut told = String::new(alloc);
    for line in lines {
        let input = joined(alloc, given.input, line.as_str(), b"")?;
        let longer = joined(alloc, given.input, line.as_str(), rest)?;
        told.push_str("  ")?;
        told.push_str(line.as_str())?;
        told.push_str(": ")?;
        let input = input.as_slice();
        push_line_answer(
            alloc,
            &mut told,
            Given { input, ..given },
            under,
            longer.as_slice(),
        )?;
    }
    Ok(told)
}

/// Adds what a replay tells over the images that crashes after each call leave, where the disk gives this byte for bytes that no sync has
/// followed.
fn push_crashes(
    alloc: Global,
    told: &mut String,
    given: Given<'_>,
    ran: &Ran,
    fill: u8,
) -> Result<(), AllocError> {
    let name = format!(in alloc; "fill {fill}, crash")?;
    let mut row = Row::new(alloc);
    for call in 0..=ran.station.calls() {
        let image = ran.station.crash_image(alloc, call, fill)?;
        let image = image.as_slice();
        let over = Given {
            words: "replay",
            input: b"",
            image,
            ..given
        };
        let again = run(alloc, over, Conditions::usual())?;
        let answer = answer_of(&again, ran.station.output(), image, NEVER);
        row.add(alloc, name.as_str(), call, answer)?;
    }
    row.close(alloc, name.as_str())?;
    told.push_str(row.told.as_str())
}

/// What a replay tells after a crash after each call, for three bytes that the disk may give.
pub fn each_crash(alloc: Global, given: Given<'_>, ran: &Ran) -> Result<String, AllocError> {
    let mut told = String::new(alloc);
    for fill in [0, 1, 200] {
        push_crashes(alloc, &mut told, given, ran, fill)?;
    }
    Ok(told)
}

/// Whether a crash after each call leaves the image, whatever the disk gives for bytes that no sync has followed.
pub fn crashes_leave(alloc: Global, image: &[u8], ran: &Ran) -> Result<bool, AllocError> {
    for call in 0..=ran.station.calls() {
        for fill in [0, 1, 200] {
            if ran.station.crash_image(alloc, call, fill)?.as_slice() != image {
                return Ok(false);
            }
        }
    }
    Ok(true)
}
