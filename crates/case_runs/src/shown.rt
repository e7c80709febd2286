//! Bytes as lines of text.
use crate::bytes::{after, front, push_frame};
use std::alloc::{AllocError, Global};

/// The digit of a value below 16.
fn digit(value: u8) -> char {
    match value {
        0..=9 => (b'0' + value) as char,
        10..=15 => (b'a' + (value - 10)) as char,
        _ => '?',
    }
}

/// Adds a byte as it is written in a line, where a bar stands for this byte.
fn push_byte(told: &mut String, byte: u8, bar: u8) -> Result<(), AllocError> {
    if byte == bar {
        return told.push('|');
    }
    match byte {
        b'\\' | b'|' => push_escaped(told, byte),
        b' '..=b'~' => told.push(byte as char),
        _ => push_escaped(told, byte),
    }
}

/// Adds a byte as two hexadecimal digits.
fn push_escaped(told: &mut String, byte: u8) -> Result<(), AllocError> {
    told.push_str("\\x")?;
    told.push(digit(byte / 16))?;
    told.push(digit(byte % 16))
}

/// Adds a line: its mark, these bytes, and a line feed. A blank at the end is written as an escape.
fn push_line(told: &mut String, mark: &str, bytes: &[u8], bar: u8) -> Result<(), AllocError> {
    told.push_str(mark)?;
    for byte in front(bytes, bytes.len().saturating_sub(1)) {
        push_byte(told, *byte, bar)?;
    }
    match bytes.last() {
        Some(b' ') => push_escaped(told, b' ')?,
        Some(byte) => push_byte(told, *byte, bar)?,
        None => {}
    }
    told.push('\n')
}

/// How a frame begins.
const BEGIN: &[u8] = b"8=FIX.4.2\x019=";

/// The number at the front of some bytes up to an SOH, and of how many digits it is.
fn number_at(bytes: &[u8]) -> Option<(usize, usize)> {
    let mut value: usize = 0;
    for (at, byte) in bytes.iter().enumerate() {
        match *byte {
            b'0'..=b'9' => value = value
                .saturating_mul(10)
                .saturating_add((*byte - b'0') as usize),
            1 => return Some((value, at)),
            _ => return None,
        }
    }
    None
}

/// The body of the frame at the front of some bytes, if its length stands there.
fn body_of(bytes: &[u8]) -> Option<&[u8]> {
    if !bytes.starts_with(BEGIN) {
        return None;
    }
    let rest = after(bytes, BEGIN.len());
    let (length, digits) = number_at(rest)?;
    Some(front(after(rest, digits.saturating_add(1)), length))
}

/// Adds the line of the frame at the front of some bytes; how many bytes it has, or 0 if there is none.
fn push_frame_line(alloc: Global, told: &mut String, bytes: &[u8]) -> Result<usize, AllocError> {
    let Some(body) = body_of(bytes) else {
        return Ok(0);
    };
    let mut frame = Vec::new(alloc);
    push_frame(alloc, &mut frame, body)?;
    if !bytes.starts_with(frame.as_slice()) {
        return Ok(0);
    }
    push_line(told, "> ", body, 1)?;
    Ok(frame.len())
}

/// Adds the line of what is at the front of some bytes: a frame, a line of text, or bytes. How many bytes it has.
fn push_next(alloc: Global, told: &mut String, bytes: &[u8]) -> Result<usize, AllocError> {
    let count = push_frame_line(alloc, told, bytes)?;
    if count > 0 {
        return Ok(count);
    }
    match bytes.iter().position(|byte| *byte == b'\n') {
        Some(at) => {
            push_line(told, ">. ", front(bytes, at), b'|')?;
            Ok(at.saturating_add(1))
        }
        None => {
            push_line(told, ">= ", bytes, 1)?;
            Ok(bytes.len())
        }
    }
}

/// Adds the lines of what was sent.
pub fn push_sent(alloc: Global, told: &mut String, sent: &[u8]) -> Result<(), AllocError> {
    let mut rest = sent;
    for _ in 0..sent.len() {
        if rest.is_empty() {
            return Ok(());
        }
        let count = push_next(alloc, told, rest)?;
        rest = after(rest, count);
    }
    Ok(())
}

/// How many bytes of a journal stand in a line at most.
const WIDTH: usize = 64;

/// How many equal bytes in a row are written as their count.
const RUN: usize = 16;

/// How many bytes at the front are equal to the first.
fn run_of(bytes: &[u8]) -> usize {
    let Some(first) = bytes.first() else {
        return 0;
    };
    bytes
        .iter()
        .position(|byte| *byte != *first)
        .unwrap_or(bytes.len())
}

/// Whether a line of a journal ends before these bytes: they are many equal ones.
fn begins_run(bytes: &[u8]) -> bool {
    run_of(front(bytes, RUN)) >= RUN
}

/// How many bytes the next line of a journal has: up to a line feed, or to many equal bytes, and `WIDTH` at most.
fn width_of(bytes: &[u8]) -> usize {
    for (at, byte) in front(bytes, WIDTH).iter().enumerate() {
        if *byte == b'\n' {
            return at.saturating_add(1);
        }
        if at > 0 && begins_run(after(bytes, at)) {
            return at;
        }
    }
    WIDTH
}

/// Adds the line of the bytes at the front that are equal. How many they are.
fn push_run(alloc: Global, told: &mut String, bytes: &[u8]) -> Result<usize, AllocError> {
    let count = run_of(bytes);
    let text = format!(in alloc; "= \\{{{count} ")?;
    told.push_str(text.as_str())?;
    let byte = bytes.first().copied().unwrap_or(0);
    told.push(digit(byte / 16))?;
    told.push(digit(byte % 16))?;
    told.push_str("}\n")?;
    Ok(count)
}

/// Adds the next line of a journal. How many bytes it has.
fn push_journal_line(alloc: Global, told: &mut String, bytes: &[u8]) -> Result<usize, AllocError> {
    if begins_run(bytes) {
        return push_run(alloc, told, bytes);
    }
    let width = width_of(bytes);
    push_line(told, "= ", front(bytes, width), 1)?;
    Ok(width)
}

/// Adds the lines of a journal.
pub fn push_journal(alloc: Global, told: &mut String, image: &[u8]) -> Result<(), AllocError> {
    let mut rest = image;
    for _ in 0..image.len() {
        if rest.is_empty() {
            return Ok(());
        }
        let count = push_journal_line(alloc, told, rest)?;
        rest = after(rest, count);
    }
    Ok(())
}
