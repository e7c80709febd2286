//! Journals in memory, made byte by byte.
mod amended;
mod growing;

use gx_station::MemStation;
use std::process::Abort;

/// How many bytes the image of a station may have.
const ROOM: usize = 16_384;

/// The parts, one after the other.
fn image_of(rt: &(impl Abort + AllocGlobal), parts: &[&[u8]]) -> Vec<u8> {
    let mut bytes = Vec::new(rt.alloc());
    for part in parts {
        bytes.extend_from_slice(part).expect(rt, "memory");
    }
    bytes
}

/// A station over this image.
fn station_of(rt: &(impl Abort + AllocGlobal), image: &[u8]) -> MemStation {
    assert!(rt; image.len() <= ROOM);
    let alloc = rt.alloc();
    let image = image.to_vec(alloc).expect(rt, "memory");
    MemStation::new(alloc, image, ROOM, 65_536, 1_000, Vec::new(alloc)).expect(rt, "memory")
}
