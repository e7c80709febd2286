//! Runs many hostile inputs through the engine in memory, and prints how its commands ended: `hostile_runs KIND SEED COUNT`.
//!
//! `frames` runs streams of changed frames, and prints what their journals keep; `products` hands in changed product texts;
//! `journals` calls each command over changed journals; `all` does one after the other. The cases depend on the seed alone. A case
//! whose answers do not agree with each other, or that should not come, is printed, and ends the program with status 1.
#![tactic(auto)]

mod calls;
mod draws;
mod edits;
mod frames;
mod journals;
mod messages;
mod products;
mod table;

use draws::Draws;
use std::alloc::{AllocError, Global};
use std::process::ExitCode;
use std::rt::Env;
use std::{env, io};
use table::{Stop, Table};

/// What is hostile.
#[derive(Clone, Copy)]
enum Kind {
    Frames,
    Products,
    Journals,
}

impl Kind {
    fn name(self) -> &'static str {
        match self {
            Kind::Frames => "frames",
            Kind::Products => "products",
            Kind::Journals => "journals",
        }
    }

    fn table(self, alloc: Global) -> Result<Table, Stop> {
        Ok(match self {
            Kind::Frames => Table::new(alloc, &frames::COMMANDS)?,
            Kind::Products => Table::new(alloc, &products::COMMANDS)?,
            Kind::Journals => Table::new(alloc, &journals::COMMANDS)?,
        })
    }
}

/// The kinds that a word names.
fn kinds_of(word: &str) -> &'static [Kind] {
    match word {
        "frames" => &[Kind::Frames],
        "products" => &[Kind::Products],
        "journals" => &[Kind::Journals],
        "all" => &[Kind::Frames, Kind::Products, Kind::Journals],
        _ => &[],
    }
}

/// Tries the cases of a kind. `case` tells the number of the last one that was begun.
fn try_cases(
    alloc: Global,
    kind: Kind,
    seed: u64,
    count: u64,
    table: &mut Table,
    case: &mut u64,
) -> Result<(), Stop> {
    let valid = match kind {
        Kind::Journals => journals::valid_journals(alloc, seed)?,
        _ => Vec::new(alloc),
    };
    for number in 0..count {
        *case = number;
        let mut draws = Draws::new(seed, number);
        match kind {
            Kind::Frames => frames::try_case(alloc, &mut draws, table)?,
            Kind::Products => products::try_case(alloc, &mut draws, table)?,
            Kind::Journals => journals::try_case(alloc, &mut draws, valid.as_slice(), table)?,
        }
    }
    Ok(())
}

/// What is said of the cases that ended a kind.
fn stop_text(alloc: Global, stop: &Stop, seed: u64, case: u64) -> Result<String, AllocError> {
    match stop {
        Stop::NoMemory => format!(in alloc; "seed {seed}, case {case}: out of memory\n"),
        Stop::Broken(what, outcome) => {
            let (status, at) = (outcome.status, outcome.at);
            format!(in alloc;
                "seed {seed}, case {case} breaks \"{what}\": status {status} at {at} after {} messages\n",
                outcome.messages
            )
        }
    }
}

/// Tries the cases of a kind, and adds what came out to the text. `false` is a case that broke a check.
fn try_kind(
    alloc: Global,
    kind: Kind,
    seed: u64,
    count: u64,
    text: &mut String,
) -> Result<bool, AllocError> {
    let name = kind.name();
    let head = format!(in alloc; "{name}, seed {seed}, {count} cases\n")?;
    text.push_str(head.as_str())?;
    let Ok(mut table) = kind.table(alloc) else {
        return Ok(false);
    };
    let mut case = 0;
    let tried = try_cases(alloc, kind, seed, count, &mut table, &mut case);
    text.push_str(table.text(alloc)?.as_str())?;
    match tried {
        Ok(()) => Ok(true),
        Err(stop) => {
            text.push_str(stop_text(alloc, &stop, seed, case)?.as_str())?;
            Ok(false)
        }
    }
}

/// Tries the kinds one after the other.
fn try_kinds(
    alloc: Global,
    kinds: &[Kind],
    seed: u64,
    count: u64,
    text: &mut String,
) -> Result<bool, AllocError> {
    for kind in kinds {
        if !try_kind(alloc, *kind, seed, count, text)? {
            return Ok(false);
        }
    }
    Ok(true)
}

/// The words after the program's name.
fn words(rt: &(impl Env + AllocGlobal)) -> io::Result<Vec<String>> {
    Ok(env::args(rt)?.skip(1).collect(rt.alloc())?)
}

fn number_of(words: &[String], at: usize) -> Option<u64> {
    words.get(at).and_then(|word| word.parse().ok())
}

/// Does what the words ask for, and adds what came out to the text. `false` is a case that broke a check.
fn run(alloc: Global, words: &[String], text: &mut String) -> Result<bool, AllocError> {
    let kinds = match words.first() {
        Some(word) => kinds_of(word),
        None => &[],
    };
    let (false, Some(seed), Some(count)) = (
        kinds.is_empty(),
        number_of(words, 1),
        number_of(words, 2),
    ) else {
        text.push_str("hostile_runs frames|products|journals|all SEED COUNT\n")?;
        return Ok(false);
    };
    try_kinds(alloc, kinds, seed, count, text)
}

fn main(rt: HostRuntime) -> io::Result<ExitCode> {
    let words = words(&rt)?;
    let mut text = String::new(rt.alloc());
    let held = run(rt.alloc(), words.as_slice(), &mut text)?;
    print!(rt; "{text}")?;
    Ok(if held {
        ExitCode::SUCCESS
    } else {
        ExitCode::from(1)
    })
}
