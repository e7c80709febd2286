//! Bytes from texts.
use std::alloc::{AllocError, Global};

/// The first bytes of some, or all of them if they are fewer.
pub fn front(bytes: &[u8], count: usize) -> &[u8] {
    if count <= bytes.len() {
        &bytes[..count]
    } else {
        bytes
    }
}

/// What comes after the first bytes of some.
pub fn after(bytes: &[u8], count: usize) -> &[u8] {
    if count <= bytes.len() {
        &bytes[count..]
    } else {
        b""
    }
}

/// The bytes with another one at a place, if there is such a place.
pub fn set_byte(bytes: &mut Vec<u8>, at: usize, byte: u8) {
    if at < bytes.len() {
        bytes[at] = byte;
    }
}

/// Adds a text without escapes; a bar is this byte.
fn push_plain(bytes: &mut Vec<u8>, text: &[u8], bar: u8) -> Result<(), AllocError> {
    for byte in text {
        bytes.push(if *byte == b'|' { bar } else { *byte })?;
    }
    Ok(())
}

/// The value of a hexadecimal digit.
fn digit(byte: u8) -> u8 {
    match byte {
        b'0'..=b'9' => byte - b'0',
        b'a'..=b'f' => byte - b'a' + 10,
        _ => 0,
    }
}

/// The byte that the first two of these are the hexadecimal digits of.
fn hex_byte(text: &[u8]) -> u8 {
    match (text.first(), text.get(1)) {
        (Some(high), Some(low)) => digit(*high).saturating_mul(16).saturating_add(digit(*low)),
        _ => 0,
    }
}

/// Adds so many times a character, as `20 x` says, or a byte in two hexadecimal digits, as `20 00` says.
fn push_many(bytes: &mut Vec<u8>, text: &str) -> Result<(), AllocError> {
    let (count, character) = text.split_once(' ').unwrap_or(("0", ""));
    let character = character.as_bytes();
    let byte = match character.first() {
        Some(byte) if character.len() == 1 => *byte,
        _ => hex_byte(character),
    };
    for _ in 0..number(count) {
        bytes.push(byte)?;
    }
    Ok(())
}

/// Adds what an escape stands for, whose backslash is left out, and the text after it.
fn push_escape(bytes: &mut Vec<u8>, text: &str, bar: u8) -> Result<(), AllocError> {
    if let Some(many) = text.strip_prefix('{') {
        let (many, rest) = many.split_once('}').unwrap_or((many, ""));
        push_many(bytes, many)?;
        return push_plain(bytes, rest.as_bytes(), bar);
    }
    bytes.push(hex_byte(after(text.as_bytes(), 1)))?;
    push_plain(bytes, after(text.as_bytes(), 3), bar)
}

/// Adds the bytes of a text, in which a bar is this byte, `\xNN` is a byte in hexadecimal digits, and `\{N c}` or
/// `\{N NN}` is N times a character or a byte.
pub fn push_bytes(bytes: &mut Vec<u8>, text: &str, bar: u8) -> Result<(), AllocError> {
    let mut is_escape = false;
    for part in text.split('\\') {
        if is_escape {
            push_escape(bytes, part, bar)?;
        } else {
            push_plain(bytes, part.as_bytes(), bar)?;
        }
        is_escape = true;
    }
    Ok(())
}

/// Adds the frame of a body.
pub fn push_frame(alloc: Global, bytes: &mut Vec<u8>, body: &[u8]) -> Result<(), AllocError> {
    let length = format!(in alloc; "8=FIX.4.2\u{1}9={}\u{1}", body.len())?;
    let mut sum: u8 = 0;
    for byte in length.as_bytes() {
        sum = sum.wrapping_add(*byte);
    }
    for byte in body {
        sum = sum.wrapping_add(*byte);
    }
    bytes.extend_from_slice(length.as_bytes())?;
    bytes.extend_from_slice(body)?;
    let trailer = format!(in alloc; "10={}{}{}\u{1}", sum / 100, sum / 10 % 10, sum % 10)?;
    bytes.extend_from_slice(trailer.as_bytes())
}

/// The number that a text is, and 0 if it is none.
pub fn number(text: &str) -> usize {
    text.parse::<usize>().unwrap_or(0)
}

/// The words of a text, with one blank between them.
pub fn words_of(alloc: Global, line: &str) -> Result<Vec<String>, AllocError> {
    let mut words = Vec::new(alloc);
    if line.is_empty() {
        return Ok(words);
    }
    for word in line.split(' ') {
        words.push(String::from_str(alloc, word)?)?;
    }
    Ok(words)
}
