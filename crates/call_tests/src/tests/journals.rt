//! Runs over the stored example and journals of it. Each file has tables of cases, and few tests that go through them.
mod faults;
mod records;
mod runs;

use crate::tests::expects::expect_outcome;
use globex_run::Outcome;
use gx_station::{MemSource, MemStation};
use run_fixtures::{
    ACCEPTED, FILLED, NEVER, ORDER, PRODUCT, SECOND_ACCEPTED, SECOND_FILLED, SECOND_ORDER, concat,
    cut_source, ended, execute, join, must, run_over, source_of, station_of,
};
use std::process::Abort;

/// Two orders, which trade.
const ORDERS: [&str; 2] = [ORDER, SECOND_ORDER];

/// How many bytes they have together.
const BOTH: usize = 221;

/// How many bytes the first of them has.
const ONE: usize = 111;

/// The reports of both.
const REPORTS: [&str; 4] = [ACCEPTED, SECOND_ACCEPTED, FILLED, SECOND_FILLED];

/// What stands in a new journal of the product before its text.
const HEADER: &[u8] = b"\x01GXJOURN2\x00\x00\x00\x88";

/// A journal of the product with this before its text, and with these records, each with its head, and a closed gate.
fn journal_with(rt: &(impl Abort + AllocGlobal), header: &[u8], records: &[&[u8]]) -> Vec<u8> {
    let records = must!(rt; concat(records));
    let parts: [&[u8]; 4] = [header, PRODUCT.as_bytes(), records.as_slice(), b"\x00"];
    must!(rt; concat(&parts))
}

/// A journal of the product as it is made now, with these records.
fn journal_of(rt: &(impl Abort + AllocGlobal), records: &[&[u8]]) -> Vec<u8> {
    journal_with(rt, HEADER, records)
}

/// Executes the command of these words over the product and these frames.
fn execute_texts(
    rt: &(impl Abort + AllocGlobal),
    line: &str,
    frames: &[&str],
    station: &mut MemStation,
) -> Outcome {
    let frames = must!(rt; join(frames));
    let mut input = must!(rt; source_of(frames.as_slice()));
    must!(rt; execute(PRODUCT, line, &mut input, station))
}

/// Executes the command over this image.
fn execute_over(
    rt: &(impl Abort + AllocGlobal),
    line: &str,
    frames: &[&str],
    image: &[u8],
) -> (Outcome, MemStation) {
    let mut station = must!(rt; station_of(image));
    let outcome = execute_texts(rt, line, frames, &mut station);
    (outcome, station)
}

/// How a run over these sources and this station ends, and the station then.
fn run_over_sources(
    rt: &(impl Abort + AllocGlobal),
    mut product: MemSource,
    mut input: MemSource,
    mut station: MemStation,
) -> (Outcome, MemStation) {
    let outcome = must!(rt; run_over("run", &mut product, &mut input, &mut station));
    (outcome, station)
}

/// Runs over this image and this input, of which the first read gives so many bytes, and the next one all others.
fn run_from(
    rt: &(impl Abort + AllocGlobal),
    image: &[u8],
    input: &[u8],
    first: usize,
) -> (Outcome, MemStation) {
    let product = must!(rt; source_of(PRODUCT.as_bytes()));
    let input = must!(rt; cut_source(input, first, NEVER));
    let station = must!(rt; station_of(image));
    run_over_sources(rt, product, input, station)
}

/// The station after a run over an empty image and both orders, of which the first read gives so many bytes.
fn run_of_orders(rt: &(impl Abort + AllocGlobal), first: usize) -> MemStation {
    let orders = must!(rt; join(&ORDERS));
    let (got, station) = run_from(rt, b"", orders.as_slice(), first);
    expect_outcome(rt, "both orders", got, ended(0, 0, 2));
    station
}
