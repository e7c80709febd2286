//! Hostile product texts.

use crate::calls::{Called, call, end_alike};
use crate::draws::Draws;
use crate::edits::{Changed, behind, front, spliced, with_one_change};
use crate::messages::PRODUCT;
use crate::table::{Stop, Table, expect_holds};
use std::alloc::Global;

pub const COMMANDS: [&str; 2] = ["steps", "run"];

/// A product with other keys, forms of TOML and letters.
const OTHER_PRODUCT: &str = r#"# A comment.
exchange = 'GX'
firms = [
    "AAA", # the first
    "BBB",
]
instrument = [
    { name = "A1", decimals = 8, tick = 1_000, protection = 10000, algorithm = "A", least = 3 },
    { name = "T1", decimals = 0, tick = 25, protection = 0, algorithm = "T", lmm = [{ firm = "AAA", percent = 60 }] },
    { name = "C1", decimals = 1, tick = 1, protection = 1, algorithm = "C", own.key = { a = 1.5 } },
    { name = "Q1", decimals = 0x2, tick = 1, protection = 1, algorithm = "Q", top_min = 5, top_max = 8 },
]
"#;

/// What may stand in place of a value.
const VALUES: [&str; 48] = [
    "0",
    "1",
    "2",
    "8",
    "9",
    "64",
    "100",
    "101",
    "10000",
    "10001",
    "99999",
    "100001",
    "131071",
    "131072",
    "268435456",
    "268435457",
    "999999",
    "1000000",
    "1000001",
    "-1",
    "+5",
    "9223372036854775807",
    "9223372036854775808",
    "1.0",
    "1e3",
    "nan",
    "true",
    "2024-01-02",
    "09:30:00",
    "\"1\"",
    "\"F\"",
    "\"C\"",
    "\"A\"",
    "\"T\"",
    "\"O\"",
    "\"Q\"",
    "\"K\"",
    "\"f\"",
    "\"\"",
    "\"UNKNOWN\"",
    "\"\\u0041\"",
    "\"\"\"\nGX\"\"\"",
    "[]",
    "[\"FIFO\"]",
    "[\"LEVELING\", \"PRORATA\", \"FIFO\"]",
    "[{ firm = \"AAA\", percent = 50 }, { firm = \"AAA\", percent = 50 }]",
    "{}",
    "[[[[[[[[]]]]]]]]",
];

/// Where the line begins in which a place is.
fn line_start(text: &[u8], at: usize) -> usize {
    let mut start: usize = 0;
    for (place, byte) in front(text, at).iter().enumerate() {
        if *byte == b'\n' {
            start = place.wrapping_add(1);
        }
    }
    start
}

/// How many bytes come before the next one of a kind.
fn count_before(text: &[u8], byte: u8) -> usize {
    match text.iter().position(|c| *c == byte) {
        Some(count) => count,
        None => text.len(),
    }
}

/// How many digits, signs and letters come first.
fn count_word(text: &[u8]) -> usize {
    match text.iter().position(|c| !c.is_ascii_alphanumeric()) {
        Some(count) => count,
        None => text.len(),
    }
}

/// How many bytes come before the next digit.
fn count_before_digit(text: &[u8]) -> usize {
    match text.iter().position(|c| c.is_ascii_digit()) {
        Some(count) => count,
        None => text.len(),
    }
}

/// The text with the line of a place repeated in front of another one, or removed.
fn with_lines_changed(alloc: Global, draws: &mut Draws, text: &[u8], at: usize) -> Changed {
    let start = line_start(text, at);
    let len = count_before(behind(text, start), b'\n').wrapping_add(1);
    let line = front(behind(text, start), len);
    if draws.is_one_in(2) {
        return spliced(alloc, text, start, start.wrapping_add(line.len()), &[]);
    }
    let place = line_start(text, draws.below(text.len()));
    spliced(alloc, text, place, place, line)
}

/// The text with another value for the word after a digit, or after an equals sign.
fn with_value_changed(alloc: Global, draws: &mut Draws, text: &[u8], at: usize) -> Changed {
    let rest = behind(text, at);
    let (skipped, len) = if draws.is_one_in(2) {
        let skipped = count_before_digit(rest);
        (skipped, count_word(behind(rest, skipped)))
    } else {
        let skipped = count_before(rest, b'=').wrapping_add(2);
        (skipped, count_before(behind(rest, skipped), b'\n'))
    };
    let start = at.wrapping_add(skipped);
    let value = draws.text_of(&VALUES);
    spliced(
        alloc,
        text,
        start,
        start.wrapping_add(len),
        value.as_bytes(),
    )
}

/// A product text with one to three changes.
fn changed_text(alloc: Global, draws: &mut Draws) -> Changed {
    let valid = draws.text_of(&[PRODUCT, OTHER_PRODUCT]);
    let mut text = Vec::from_slice(alloc, valid.as_bytes())?;
    for _ in 0..draws.below(3).wrapping_add(1) {
        let at = draws.below(text.len());
        text = match draws.below(4) {
            0 => with_lines_changed(alloc, draws, text.as_slice(), at)?,
            1 => with_one_change(alloc, draws, text.as_slice())?,
            _ => with_value_changed(alloc, draws, text.as_slice(), at)?,
        };
    }
    Ok(text)
}

/// What holds of `steps` and `run` over one product text.
fn expect_one_opinion(steps: &Called, run: &Called) -> Result<(), Stop> {
    let status = steps.outcome.status;
    let place = steps.outcome.at;
    expect_holds(
        (status == 0 && place == 0) || (status == 3 && (1..=9).contains(&place)),
        "steps ends with 0, or with 3 at a rule",
        steps.outcome,
    )?;
    expect_holds(
        end_alike(run.outcome, steps.outcome),
        "run ends as steps does",
        run.outcome,
    )?;
    expect_holds(
        status == 0 || (steps.station.calls() == 0 && steps.did_nothing(b"")),
        "steps touches nothing where it refuses",
        steps.outcome,
    )?;
    expect_holds(
        status == 0 || (run.station.calls() == 0 && run.did_nothing(b"")),
        "run touches nothing where it refuses",
        run.outcome,
    )
}

/// One case: `steps` and `run` have one opinion of a product, and nothing is touched where it is refused.
pub fn try_case(alloc: Global, draws: &mut Draws, table: &mut Table) -> Result<(), Stop> {
    let text = changed_text(alloc, draws)?;
    let steps = call(alloc, "steps", text.as_slice(), b"", b"")?;
    table.count("steps", steps.outcome);
    let run = call(alloc, "run", text.as_slice(), b"", b"")?;
    table.count("run", run.outcome);
    expect_one_opinion(&steps, &run)
}
