//! Calls of the engine over a station in memory.

use globex_run::{Outcome, globex};
use gx_station::{MemSource, MemStation};
use std::alloc::{AllocError, Global};

/// How many bytes the image of a station may have, where it begins with fewer, and all writes together.
const ROOM: usize = 32_768;

/// How many bytes may be sent.
const MOST_SENT: usize = 131_072;

/// How many calls a station may have.
const MOST_CALLS: usize = 500;

/// A call that has ended, with its station.
#[derive(Drop)]
pub struct Called {
    pub outcome: Outcome,
    pub station: MemStation,
}

impl Called {
    /// Whether it ended with this status.
    pub fn ended_with(&self, status: u8) -> bool {
        self.outcome.status == status
    }

    /// Whether nothing was sent, and the image is still this one.
    pub fn did_nothing(&self, image: &[u8]) -> bool {
        self.station.output().is_empty() && self.station.image() == image
    }
}

/// Whether two calls ended with the same status at the same place.
pub fn end_alike(one: Outcome, other: Outcome) -> bool {
    one.status == other.status && one.at == other.at
}

/// A source that gives these bytes at once.
fn source(alloc: Global, bytes: &[u8]) -> Result<MemSource, AllocError> {
    let bytes = Vec::from_slice(alloc, bytes)?;
    MemSource::new(alloc, bytes, Vec::new(alloc), Vec::new(alloc))
}

/// A station over this image, of which no call fails.
fn station_over(alloc: Global, image: &[u8]) -> Result<MemStation, AllocError> {
    let room = image.len().max(ROOM);
    let image = Vec::from_slice(alloc, image)?;
    MemStation::new(alloc, image, room, MOST_SENT, MOST_CALLS, Vec::new(alloc))
}

/// Executes the command of a word over a product, an input and the image of a journal.
pub fn call(
    alloc: Global,
    word: &str,
    product: &[u8],
    input: &[u8],
    image: &[u8],
) -> Result<Called, AllocError> {
    let mut words = Vec::new(alloc);
    words.push(String::from_str(alloc, word)?)?;
    let mut product = source(alloc, product)?;
    let mut input = source(alloc, input)?;
    let mut station = station_over(alloc, image)?;
    let outcome = globex(
        alloc,
        words.as_slice(),
        &mut product,
        &mut input,
        &mut station,
    );
    Ok(Called { outcome, station })
}
