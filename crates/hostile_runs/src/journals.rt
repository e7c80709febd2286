//! Hostile journals.

use crate::calls::{Called, call, end_alike};
use crate::draws::Draws;
use crate::edits::{Changed, behind, front, spliced, with_one_change};
use crate::messages::{PRODUCT, drawn_frames};
use crate::table::{Stop, Table, expect_holds};
use globex_run::Outcome;
use std::alloc::{AllocError, Global};

pub const COMMANDS: [&str; 5] = ["run", "book", "replay", "fills", "ledger"];

/// How many valid journals the cases begin with.
const JOURNALS: u64 = 16;

/// How many records are looked for at most.
const MOST_RECORDS: usize = 64;

/// Where the length of a product text stands, and how many bytes stand in front of the text.
const LENGTH_AT: usize = 9;

const HEADER: usize = 13;

/// How many bytes of a record stand in front of its payload, with its gate.
const HEAD: usize = 6;

/// A journal of a few records of messages. Every other one has the image of a checkpoint among them.
fn valid_journal(alloc: Global, draws: &mut Draws, with_image: bool) -> Result<Vec<u8>, Stop> {
    let mut image = Vec::new(alloc);
    for record in 0..4 {
        let word = if with_image && record == 2 {
            "checkpoint"
        } else {
            "run"
        };
        let count = draws.below(5).wrapping_add(1);
        let frames = drawn_frames(alloc, draws, count)?;
        let called = call(
            alloc,
            word,
            PRODUCT.as_bytes(),
            frames.as_slice(),
            image.as_slice(),
        )?;
        expect_holds(
            called.ended_with(0),
            "a valid journal is made",
            called.outcome,
        )?;
        image = Vec::from_slice(alloc, called.station.image())?;
    }
    Ok(image)
}

/// The journals that the cases begin with.
pub fn valid_journals(alloc: Global, seed: u64) -> Result<Vec<Vec<u8>>, Stop> {
    let mut journals = Vec::new(alloc);
    for number in 0..JOURNALS {
        let mut draws = Draws::new(seed, u64::MAX.wrapping_sub(number));
        journals.push(valid_journal(alloc, &mut draws, number % 2 == 1)?)?;
    }
    Ok(journals)
}

/// The number that four bytes from a place on write.
fn number_at(image: &[u8], at: usize) -> usize {
    let mut number: u64 = 0;
    for byte in front(behind(image, at), 4) {
        number = number.wrapping_mul(256).wrapping_add(u64::from(*byte));
    }
    (number & 0xffff_ffff) as usize
}

/// Where the gate after the record at a gate is.
fn next_gate(image: &[u8], gate: usize) -> usize {
    let length = number_at(image, gate.wrapping_add(2));
    gate.wrapping_add(HEAD).wrapping_add(length)
}

/// The gates of the records, open ones, with the first closed one.
fn gates(alloc: Global, image: &[u8]) -> Result<Vec<usize>, AllocError> {
    let mut gates = Vec::new(alloc);
    let mut gate = number_at(image, LENGTH_AT).wrapping_add(HEADER);
    for _ in 0..MOST_RECORDS {
        gates.push(gate)?;
        if image.get(gate) != Some(&1) {
            break;
        }
        gate = next_gate(image, gate);
    }
    Ok(gates)
}

/// Whether a record after an open gate is of an image.
fn has_image(alloc: Global, image: &[u8]) -> Result<bool, AllocError> {
    for gate in gates(alloc, image)?.as_slice() {
        let kind = image.get(gate.wrapping_add(1));
        let is_image = kind == Some(&b'C') || kind == Some(&b'D') || kind == Some(&b'P');
        if image.get(*gate) == Some(&1) && is_image {
            return Ok(true);
        }
    }
    Ok(false)
}

/// The journal with a record removed, or repeated in front of another one.
fn with_records_changed(alloc: Global, draws: &mut Draws, image: &[u8]) -> Changed {
    let gates = gates(alloc, image)?;
    let drawn = (
        gates.as_slice().get(draws.below(gates.len())),
        gates.as_slice().get(draws.below(gates.len())),
    );
    let (Some(from), Some(to)) = drawn else {
        return Vec::from_slice(alloc, image);
    };
    let end = next_gate(image, *from);
    if draws.is_one_in(3) {
        return spliced(alloc, image, *from, end, &[]);
    }
    spliced(alloc, image, *to, *to, behind(front(image, end), *from))
}

/// One of the journals with one to three changes.
fn changed_journal(alloc: Global, draws: &mut Draws, journals: &[Vec<u8>]) -> Changed {
    let mut image = match journals.get(draws.below(journals.len())) {
        Some(journal) => Vec::from_slice(alloc, journal.as_slice())?,
        None => Vec::new(alloc),
    };
    for _ in 0..draws.below(3).wrapping_add(1) {
        image = if draws.is_one_in(4) {
            with_records_changed(alloc, draws, image.as_slice())?
        } else {
            with_one_change(alloc, draws, image.as_slice())?
        };
    }
    Ok(image)
}

/// What holds of a run without input.
fn expect_run_honest(run: &Called, image: &[u8]) -> Result<(), Stop> {
    expect_holds(
        run.ended_with(0) || run.did_nothing(image),
        "run does nothing where it refuses",
        run.outcome,
    )?;
    expect_holds(
        run.station.output().is_empty() && run.outcome.messages == 0,
        "run without input sends nothing",
        run.outcome,
    )
}

/// Calls a command that is given no input over a journal, and checks its status, and that it changes nothing where it may not.
/// Returns how it ended.
fn outcome_of(
    alloc: Global,
    command: &'static str,
    image: &[u8],
    table: &mut Table,
) -> Result<Outcome, Stop> {
    let called = call(alloc, command, PRODUCT.as_bytes(), b"", image)?;
    table.count(command, called.outcome);
    expect_holds(
        matches!(called.outcome.status, 0 | 9 | 10 | 11),
        "a command ends with 0, 9, 10 or 11",
        called.outcome,
    )?;
    if command == "run" {
        expect_run_honest(&called, image)?;
    } else {
        expect_holds(
            called.station.image() == image,
            "a command that prints leaves the journal",
            called.outcome,
        )?;
    }
    Ok(called.outcome)
}

/// What holds of the commands that begin with the last image beside those that read each record.
fn expect_agreed(run: Outcome, replay: Outcome, with_image: bool) -> Result<(), Stop> {
    expect_holds(
        run.status == 0 || replay.status != 0,
        "run ends with 0 where replay does",
        run,
    )?;
    expect_holds(
        with_image || run.status == replay.status,
        "run and replay end alike where there is no image",
        run,
    )?;
    let at_opening = matches!(run.status, 9 | 11);
    expect_holds(
        !at_opening || end_alike(run, replay),
        "run and replay refuse alike at the opening",
        run,
    )
}

/// What each command answers to a journal.
fn expect_answers(alloc: Global, image: &[u8], table: &mut Table) -> Result<(), Stop> {
    let run = outcome_of(alloc, "run", image, table)?;
    let book = outcome_of(alloc, "book", image, table)?;
    let replay = outcome_of(alloc, "replay", image, table)?;
    let fills = outcome_of(alloc, "fills", image, table)?;
    let ledger = outcome_of(alloc, "ledger", image, table)?;
    expect_holds(end_alike(run, book), "book ends as run does", book)?;
    expect_holds(end_alike(fills, replay), "fills ends as replay does", fills)?;
    expect_holds(
        end_alike(ledger, replay),
        "ledger ends as replay does",
        ledger,
    )?;
    expect_agreed(run, replay, has_image(alloc, image)?)
}

/// One case: what each command answers to a changed journal.
pub fn try_case(
    alloc: Global,
    draws: &mut Draws,
    journals: &[Vec<u8>],
    table: &mut Table,
) -> Result<(), Stop> {
    let image = changed_journal(alloc, draws, journals)?;
    expect_answers(alloc, image.as_slice(), table)
}
