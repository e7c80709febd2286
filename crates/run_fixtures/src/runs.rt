//! Runs over sources and stations in memory.
ghost use Rattle.std.specs.Prelude.{◌≤◌};
ghost use Rattle.std.specs.List.{AllByRecursion};

use crate::frames::{frames_of, words_of};
use crate::unmet::Unmet;
use globex_run::{Outcome, globex};
use gx_station::{MemSource, MemStation};
use std::alloc::{AllocError, Global};

/// How a run ended.
pub fn ended(status: u8, at: u64, messages: u64) -> Outcome {
    Outcome {
        status,
        at,
        messages,
    }
}

/// The number of a call that there is not.
pub const NEVER: u64 = u64::MAX;

/// A source of these bytes, whose reads do not fail.
pub fn source_of(alloc: Global, bytes: &[u8]) -> Result<MemSource, AllocError> {
    let bytes = bytes.to_vec(alloc)?;
    MemSource::new(alloc, bytes, Vec::new(alloc), Vec::new(alloc))
}

/// A source of the frames of these bodies, whose reads do not fail.
pub fn source_of_frames(alloc: Global, bodies: &[&str]) -> Result<MemSource, AllocError> {
    let frames = frames_of(alloc, bodies)?;
    MemSource::new(alloc, frames, Vec::new(alloc), Vec::new(alloc))
}

/// A source of these bytes, of which the read of this number fails.
pub fn failing_source(alloc: Global, bytes: &[u8], read: u64) -> Result<MemSource, AllocError> {
    let fail = vec![in alloc; read]?;
    MemSource::new(alloc, bytes.to_vec(alloc)?, Vec::new(alloc), fail)
}

/// A source of these bytes, of which the first read gives so many, but at least one, and the next one all others; the read of this
/// number fails.
pub fn cut_source(
    alloc: Global,
    bytes: &[u8],
    first: usize,
    read: u64,
) -> Result<MemSource, AllocError> {
    let pieces = vec![in alloc; first.max(1)]?;
    let fail = vec![in alloc; read]?;
    MemSource::new(alloc, bytes.to_vec(alloc)?, pieces, fail)
}

/// How many bytes the image of a station may have, and all writes together.
pub const ROOM: usize = 16_384;

/// A station over this image whose calls of these numbers fail. A longer image has room for itself alone.
fn station_over(alloc: Global, image: &[u8], fail: Vec<u64>) -> Result<MemStation, AllocError> {
    let room = image.len().max(ROOM);
    MemStation::new(alloc, image.to_vec(alloc)?, room, 65_536, 1_000, fail)
}

/// A station over this image, whose calls do not fail.
pub fn station_of(alloc: Global, image: &[u8]) -> Result<MemStation, AllocError> {
    station_over(alloc, image, Vec::new(alloc))
}

/// A station over this image, of which the call of this number fails.
pub fn failing_station(alloc: Global, image: &[u8], call: u64) -> Result<MemStation, AllocError> {
    station_over(alloc, image, vec![in alloc; call]?)
}

/// Executes the command of these words over these sources and this station.
pub fn run_over(
    alloc: Global,
    line: &str,
    product: &mut MemSource,
    input: &mut MemSource,
    station: &mut MemStation,
) -> Result<Outcome, AllocError> {
    let words = words_of(alloc, line)?;
    Ok(globex(alloc, words.as_slice(), product, input, station))
}

/// Executes the command of these words over the product of this text and this input.
pub fn execute(
    alloc: Global,
    text: &str,
    line: &str,
    input: &mut MemSource,
    station: &mut MemStation,
) -> Result<Outcome, AllocError> {
    let mut product = source_of(alloc, text.as_bytes())?;
    run_over(alloc, line, &mut product, input, station)
}

/// Executes it over the frames of these bodies.
pub fn execute_frames(
    alloc: Global,
    text: &str,
    line: &str,
    bodies: &[&str],
    station: &mut MemStation,
) -> Result<Outcome, AllocError> {
    let mut input = source_of_frames(alloc, bodies)?;
    execute(alloc, text, line, &mut input, station)
}

/// Executes it over the frames of these bodies. It does all it should and counts so many messages, or the error says how it ended.
pub fn execute_well(
    alloc: Global,
    text: &str,
    line: &str,
    bodies: &[&str],
    station: &mut MemStation,
    messages: u64,
) -> Result<(), Unmet> {
    let got = execute_frames(alloc, text, line, bodies, station)?;
    if got == ended(0, 0, messages) {
        Ok(())
    } else {
        Err(Unmet::Ended(got))
    }
}

/// The station after a command over the frames of these bodies and this image. It does all it should, or the error says how it ended.
pub fn station_then(
    alloc: Global,
    text: &str,
    line: &str,
    bodies: &[&str],
    image: &[u8],
) -> Result<MemStation, Unmet> {
    let mut station = station_of(alloc, image)?;
    let got = execute_frames(alloc, text, line, bodies, &mut station)?;
    if got.status == 0 {
        Ok(station)
    } else {
        Err(Unmet::Ended(got))
    }
}

/// The image after such a command.
pub fn image_then(
    alloc: Global,
    text: &str,
    line: &str,
    bodies: &[&str],
    image: &[u8],
) -> Result<Vec<u8>, Unmet> {
    let station = station_then(alloc, text, line, bodies, image)?;
    Ok(station.image().to_vec(alloc)?)
}

/// Runs the command of a word over this product and this input, read in these pieces, and an empty image. No call fails.
pub fn run(
    alloc: Global,
    word: &str,
    product: &str,
    input: &[u8],
    pieces: Vec<usize>,
) -> Result<(Outcome, MemStation), AllocError>
    requires { AllByRecursion (λ size. 1 ≤ size) pieces.items }
{
    let mut source = MemSource::new(alloc, input.to_vec(alloc)?, pieces, Vec::new(alloc))?;
    let mut station = station_of(alloc, b"")?;
    let outcome = execute(alloc, product, word, &mut source, &mut station)?;
    Ok((outcome, station))
}
