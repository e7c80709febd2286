//! Hostile streams of messages.

use crate::calls::{Called, call};
use crate::draws::Draws;
use crate::edits::{spliced, with_one_change};
use crate::messages::{PRODUCT, drawn_body, drawn_frames, override_field, push_frame};
use crate::table::{Stop, Table, expect_holds};
use std::alloc::{AllocError, Global};

pub const COMMANDS: [&str; 2] = ["run", "replay"];

/// Where the first field of a body ends that a client has written.
const BEHIND_TYPE: usize = 5;

/// A body with a few changes. One in two is a field after the type, where it counts.
fn changed_body(alloc: Global, draws: &mut Draws) -> Result<Vec<u8>, AllocError> {
    let mut body = drawn_body(alloc, draws)?;
    for _ in 0..draws.below(4) {
        body = if draws.is_one_in(2) {
            let field = override_field(alloc, draws)?;
            spliced(
                alloc,
                body.as_slice(),
                BEHIND_TYPE,
                BEHIND_TYPE,
                field.as_slice(),
            )?
        } else {
            with_one_change(alloc, draws, body.as_slice())?
        };
    }
    Ok(body)
}

/// Frames whose bodies are changed, with their true lengths and sums.
fn true_frames(alloc: Global, draws: &mut Draws, count: usize) -> Result<Vec<u8>, AllocError> {
    let mut bytes = Vec::new(alloc);
    for _ in 0..count {
        let body = changed_body(alloc, draws)?;
        push_frame(alloc, &mut bytes, body.as_slice())?;
    }
    Ok(bytes)
}

/// Frames of messages, with one to four changes.
fn changed_frames(alloc: Global, draws: &mut Draws, count: usize) -> Result<Vec<u8>, AllocError> {
    let mut bytes = drawn_frames(alloc, draws, count)?;
    for _ in 0..draws.below(4).wrapping_add(1) {
        bytes = with_one_change(alloc, draws, bytes.as_slice())?;
    }
    Ok(bytes)
}

/// Whether the place of an answer to so many bytes is one that its status may have.
fn has_true_place(run: &Called, len: usize) -> bool {
    if run.ended_with(0) {
        run.outcome.at == 0
    } else {
        run.outcome.at < len as u64
    }
}

/// What holds of a run of so many bytes.
fn expect_served(run: &Called, len: usize) -> Result<(), Stop> {
    expect_holds(
        matches!(run.outcome.status, 0 | 7 | 8),
        "run ends with 0, 7 or 8",
        run.outcome,
    )?;
    expect_holds(
        has_true_place(run, len),
        "the place is within the input",
        run.outcome,
    )
}

/// What holds of `replay` over the journal that a run has left.
fn expect_replayed(run: &Called, replay: &Called) -> Result<(), Stop> {
    expect_holds(
        replay.ended_with(0) && replay.outcome.at == 0,
        "replay ends with 0",
        replay.outcome,
    )?;
    expect_holds(
        replay.outcome.messages == run.outcome.messages,
        "replay counts the messages of run",
        replay.outcome,
    )?;
    expect_holds(
        replay.station.output() == run.station.output(),
        "replay sends what run sent",
        replay.outcome,
    )?;
    expect_holds(
        replay.station.image() == run.station.image(),
        "replay leaves the journal",
        replay.outcome,
    )
}

/// Runs a stream over an empty journal, and then prints what the journal keeps.
fn expect_stream_served(alloc: Global, input: &[u8], table: &mut Table) -> Result<(), Stop> {
    let run = call(alloc, "run", PRODUCT.as_bytes(), input, b"")?;
    table.count("run", run.outcome);
    expect_served(&run, input.len())?;
    let kept = run.station.image();
    let replay = call(alloc, "replay", PRODUCT.as_bytes(), b"", kept)?;
    table.count("replay", replay.outcome);
    expect_replayed(&run, &replay)
}

/// One case: in a third of them the changes are of bodies alone, so that the rules after the frames are reached.
pub fn try_case(alloc: Global, draws: &mut Draws, table: &mut Table) -> Result<(), Stop> {
    let count = draws.below(7).wrapping_add(2);
    let input = if draws.is_one_in(3) {
        true_frames(alloc, draws, count)?
    } else {
        changed_frames(alloc, draws, count)?
    };
    expect_stream_served(alloc, input.as_slice(), table)
}
