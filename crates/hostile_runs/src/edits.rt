//! Changes of bytes.

use crate::draws::Draws;
use std::alloc::{AllocError, Global};

/// The bytes that a change makes of others. An `Err` is want of memory.
pub type Changed = Result<Vec<u8>, AllocError>;

/// How many bytes are cut out, repeated or swapped at most.
const MOST_MOVED: usize = 120;

/// Bytes at which a reader decides: digits, marks of frames, of product texts and of journals, and the ends of the ranges.
const DECIDING: &[u8] = b"0123456789=.-+\x01\x00\"'[]{}#,\n MCGXF\x02\x04\x7f\x80\xff";

/// The bits of a byte.
const BITS: [u8; 8] = [1, 2, 4, 8, 16, 32, 64, 128];

/// The first bytes, or all where there are no more.
pub fn front(bytes: &[u8], end: usize) -> &[u8] {
    if end <= bytes.len() {
        &bytes[..end]
    } else {
        bytes
    }
}

/// The bytes from a place on, or none where it is past the end.
pub fn behind(bytes: &[u8], start: usize) -> &[u8] {
    if start <= bytes.len() {
        &bytes[start..]
    } else {
        &bytes[bytes.len()..]
    }
}

/// The bytes with those of a range exchanged for others.
pub fn spliced(alloc: Global, bytes: &[u8], start: usize, end: usize, with: &[u8]) -> Changed {
    let mut changed = Vec::new(alloc);
    changed.extend_from_slice(front(bytes, start))?;
    changed.extend_from_slice(with)?;
    changed.extend_from_slice(behind(bytes, end))?;
    Ok(changed)
}

/// Another byte in place of this one.
fn changed_byte(draws: &mut Draws, byte: u8) -> u8 {
    match draws.below(6) {
        0 => draws.byte(),
        1 => byte ^ draws.byte_of(&BITS),
        2 => byte.wrapping_add(1),
        3 => byte.wrapping_sub(1),
        _ => draws.byte_of(DECIDING),
    }
}

/// The bytes with the one at this place changed.
fn with_changed_byte(alloc: Global, draws: &mut Draws, bytes: &[u8], at: usize) -> Changed {
    let byte = match bytes.get(at) {
        Some(byte) => *byte,
        None => 0,
    };
    let changed = changed_byte(draws, byte);
    spliced(alloc, bytes, at, at.wrapping_add(1), &[changed])
}

/// The bytes with two parts swapped that stand one after the other.
fn with_swapped_parts(alloc: Global, draws: &mut Draws, bytes: &[u8], at: usize) -> Changed {
    let rest = behind(bytes, at);
    let first = front(rest, draws.below(MOST_MOVED));
    let others = behind(rest, first.len());
    let second = front(others, draws.below(MOST_MOVED));
    let mut changed = Vec::new(alloc);
    changed.extend_from_slice(front(bytes, at))?;
    changed.extend_from_slice(second)?;
    changed.extend_from_slice(first)?;
    changed.extend_from_slice(behind(others, second.len()))?;
    Ok(changed)
}

/// The bytes with one change: a byte changed, removed or inserted, a range cut out or repeated elsewhere, parts swapped, or
/// the end cut off.
pub fn with_one_change(alloc: Global, draws: &mut Draws, bytes: &[u8]) -> Changed {
    let at = draws.below(bytes.len());
    let end = at.wrapping_add(draws.below(MOST_MOVED));
    match draws.below(10) {
        0 => spliced(alloc, bytes, at, at.wrapping_add(1), &[]),
        1 => {
            let byte = draws.byte_of(DECIDING);
            spliced(alloc, bytes, at, at, &[byte])
        }
        2 => spliced(alloc, bytes, at, end, &[]),
        3 => {
            let part = behind(front(bytes, end), at);
            let place = draws.below(bytes.len());
            spliced(alloc, bytes, place, place, part)
        }
        4 => with_swapped_parts(alloc, draws, bytes, at),
        5 => Vec::from_slice(alloc, front(bytes, at)),
        _ => with_changed_byte(alloc, draws, bytes, at),
    }
}
