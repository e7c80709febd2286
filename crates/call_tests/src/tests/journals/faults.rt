//! Runs in which a call of the outside fails, what can still be done then, and a run for which memory may not suffice.
use super::{ONE, ORDERS, REPORTS, execute_over, run_over_sources};
use crate::tests::expects::{expect_bytes, expect_count, expect_outcome, expect_texts};
use globex_run::Outcome;
use gx_station::{LEAST_READ, MemSource, MemStation, Source};
use run_fixtures::{
    NEVER, PRODUCT, SECOND_ORDER, cut_source, ended, execute, failing_source, failing_station,
    join, must, source_of, station_of,
};
use std::process::Abort;

/// Runs over these frames, of which the first read may give so many bytes. The numbers are those of the calls that fail: of the
/// reads of the product, of the reads of the input, and of the calls of the station.
fn run_failing(
    rt: &(impl Abort + AllocGlobal),
    frames: &[&str],
    first: usize,
    fails: (u64, u64, u64),
) -> (Outcome, MemStation) {
    let (product_read, input_read, call) = fails;
    let product = must!(rt; failing_source(PRODUCT.as_bytes(), product_read));
    let bytes = must!(rt; join(frames));
    let input = must!(rt; cut_source(bytes.as_slice(), first, input_read));
    let station = must!(rt; failing_station(b"", call));
    run_over_sources(rt, product, input, station)
}

/// An image keeps so many of the two orders; a run of the others makes a journal of both.
fn expect_finished(rt: &(impl Abort + AllocGlobal), image: &[u8], kept: u64, others: &[&str]) {
    expect_replayed(rt, image, kept);
    let later = image_of_others(rt, image, others);
    let (got, whole) = execute_over(rt, "replay", &[], later.as_slice());
    expect_outcome(rt, "a replay of both", got, ended(0, 0, 2));
    expect_texts(rt, "a replay of both", whole.output(), &REPORTS);
}

/// A replay of this image counts so many messages.
fn expect_replayed(rt: &(impl Abort + AllocGlobal), image: &[u8], kept: u64) {
    let (got, _) = execute_over(rt, "replay", &[], image);
    expect_outcome(rt, "a replay", got, ended(0, 0, kept));
}

/// The image after a run of these orders over another.
fn image_of_others(rt: &(impl Abort + AllocGlobal), image: &[u8], others: &[&str]) -> Vec<u8> {
    let (got, later) = execute_over(rt, "run", others, image);
    expect_outcome(rt, "the others", got, ended(0, 0, others.len() as u64));
    later.image().to_vec(rt.alloc()).expect(rt, "memory")
}

/// After a crash, which fills up with this byte, the rest of the run can be done.
fn expect_finished_after_crash(
    rt: &(impl Abort + AllocGlobal),
    station: &MemStation,
    fill: u8,
    kept: u64,
    others: &[&str],
) {
    let image = station
        .crash_image(rt.alloc(), station.calls(), fill)
        .expect(rt, "memory");
    expect_finished(rt, image.as_slice(), kept, others);
}

/// Looks for this outcome if the call of a number fails.
fn expect_call(rt: &impl Abort, call: u64, got: Outcome, want: Outcome) {
    assert_eq!(rt; got, want, "call {call}");
}

/// The call of this number fails: the status, how many orders are kept then, and which are not.
fn expect_call_failing(
    rt: &(impl Abort + AllocGlobal),
    call: u64,
    status: u8,
    kept: u64,
    others: &[&str],
) {
    let (got, station) = run_failing(rt, &ORDERS, ONE, (NEVER, NEVER, call));
    expect_call(rt, call, got, ended(status, 0, kept));
    expect_finished_after_crash(rt, &station, 0, kept, others);
    expect_finished_after_crash(rt, &station, 200, kept, others);
}

/// One call of a run with one order a read fails, and the run crashes there. An order is kept once the gate of its record is
/// synced, by the calls 15 and 20; the next call sends its reports.
#[test]
fn each_call_failing(rt: HostRuntime) {
    for call in 1..=15 {
        expect_call_failing(&rt, call, 5, 0, &ORDERS);
    }
    expect_call_failing(&rt, 16, 6, 1, &[SECOND_ORDER]);
    for call in 17..=20 {
        expect_call_failing(&rt, call, 5, 1, &[SECOND_ORDER]);
    }
    expect_call_failing(&rt, 21, 6, 2, &[]);
}

/// A run that ended for want of memory, after which this is left of the input, left it and the station alone.
fn expect_alone(rt: &impl Abort, got: Outcome, station: &MemStation, left: &[u8], orders: &[u8]) {
    expect_outcome(rt, "want of memory", got, ended(1, 0, 0));
    expect_count(rt, "want of memory", station.calls(), 0);
    expect_bytes(rt, "want of memory", left, orders);
}

/// A run with ample memory read all orders, and sent these reports.
fn expect_done(rt: &impl Abort, got: Outcome, station: &MemStation, left: &[u8], sent: &[u8]) {
    expect_outcome(rt, "ample memory", got, ended(0, 0, 2));
    expect_bytes(rt, "ample memory", station.output(), sent);
    expect_bytes(rt, "ample memory", left, b"");
}

/// Runs over the product, this input and this station.
fn run_with(
    rt: &(impl Abort + AllocGlobal),
    input: &mut MemSource,
    station: &mut MemStation,
) -> Outcome {
    must!(rt; execute(PRODUCT, "run", input, station))
}

/// A run that ends for want of memory has left the input and the station alone. With `rt try --test --fail-alloc` an allocation
/// is refused; with ample memory all reports are sent.
#[test]
fn refused_memory(rt: HostRuntime) {
    let orders = must!(&rt; join(&ORDERS));
    let sent = must!(&rt; join(&REPORTS));
    let mut station = must!(&rt; station_of(b""));
    let mut input = must!(&rt; source_of(orders.as_slice()));
    let got = run_with(&rt, &mut input, &mut station);
    let mut into = [0; LEAST_READ];
    let count = input.read(&mut into).expect(&rt, "a read");
    let left = &into[..count];
    if got.status == 1 {
        expect_alone(&rt, got, &station, left, orders.as_slice());
    } else {
        expect_done(&rt, got, &station, left, sent.as_slice());
    }
}
