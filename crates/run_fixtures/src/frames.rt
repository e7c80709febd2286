//! Bytes, frames and words from texts.
use crate::unmet::Unmet;
use std::alloc::{AllocError, Global};

/// The bytes of a text in which `|` stands for SOH.
pub fn bytes_of(alloc: Global, text: &str) -> Result<Vec<u8>, AllocError> {
    text.as_bytes()
        .iter()
        .map(|c| if *c == b'|' { 1 } else { *c })
        .collect(alloc)
}

/// The bytes of these texts, one after the other.
pub fn join(alloc: Global, texts: &[&str]) -> Result<Vec<u8>, AllocError> {
    let mut bytes = Vec::new(alloc);
    for text in texts {
        bytes.extend_from_slice(bytes_of(alloc, text)?.as_slice())?;
    }
    Ok(bytes)
}

/// The frame of a body, added to some bytes.
pub fn push_frame(alloc: Global, bytes: &mut Vec<u8>, body: &str) -> Result<(), AllocError> {
    let front = format!(in alloc; "8=FIX.4.2|9={}|{body}", body.len())?;
    let front = bytes_of(alloc, front.as_str())?;
    let mut sum: u8 = 0;
    for byte in front.as_slice() {
        sum = sum.wrapping_add(*byte);
    }
    bytes.extend_from_slice(front.as_slice())?;
    let trailer = format!(in alloc; "10={}{}{}|", sum / 100, sum / 10 % 10, sum % 10)?;
    bytes.extend_from_slice(bytes_of(alloc, trailer.as_str())?.as_slice())
}

/// The frames of these bodies, one after the other.
pub fn frames_of(alloc: Global, bodies: &[&str]) -> Result<Vec<u8>, AllocError> {
    let mut bytes = Vec::new(alloc);
    for body in bodies {
        push_frame(alloc, &mut bytes, body)?;
    }
    Ok(bytes)
}

/// The words that stand in one text, with one space between them.
pub fn words_of(alloc: Global, line: &str) -> Result<Vec<String>, AllocError> {
    let mut words = Vec::new(alloc);
    for word in line.split(' ') {
        words.push(String::from_str(alloc, word)?)?;
    }
    Ok(words)
}

/// The parts, one after the other.
pub fn concat(alloc: Global, parts: &[&[u8]]) -> Result<Vec<u8>, AllocError> {
    let mut bytes = Vec::new(alloc);
    for part in parts {
        bytes.extend_from_slice(part)?;
    }
    Ok(bytes)
}

/// The bytes with another one at a place.
pub fn with_byte(alloc: Global, bytes: &[u8], at: usize, byte: u8) -> Result<Vec<u8>, Unmet> {
    let mut bytes = bytes.to_vec(alloc)?;
    if at >= bytes.len() {
        return Err(Unmet::Place);
    }
    bytes[at] = byte;
    Ok(bytes)
}
