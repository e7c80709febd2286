//! Runs over journals: byte for byte, after a crash at each call, where one is full, and over a file.
ghost use Rattle.std.specs.Prelude.{◌≤◌, length};

use super::{BOTH, ONE, run_from, run_of_orders};
use crate::tests::expects::{expect_bytes, expect_count, expect_outcome, expect_texts};
use globex_run::{Outcome, globex};
use gx_station::{FileStation, MemStation};
use run_fixtures::{
    ACCEPTED, DUPLICATE, FILLED, ORDER, PRODUCT, SECOND_ACCEPTED, SECOND_FILLED, SECOND_ORDER,
    ended, frames_of, join, must, run, source_of, words_of,
};
use std::fs::{File, OpenOptions};
use std::process::Abort;
use std::{fs, io};

/// A report that refuses the first order once both orders are kept.
const THIRD_REFUSAL: &str =
    "35=8|34=3|49=GX|52=20240102-09:30:00|56=AAA|37=0|11=a1|17=5|20=0|150=8|39=8|103=6|55=ESZ4|54=2|38=10|40=2|59=0|151=0|14=0|6=0|60=20240102-09:30:00|58=DUPLICATE|9003=10|";

/// The station after a run over this image, which reads this order alone.
fn run_of_one(rt: &(impl Abort + AllocGlobal), image: &[u8], order: &str) -> MemStation {
    let order = must!(rt; join(&[order]));
    let (got, station) = run_from(rt, image, order.as_slice(), BOTH);
    expect_outcome(rt, "one order", got, ended(0, 0, 1));
    station
}

/// A run over this image answers this order with these reports.
fn expect_reports(rt: &(impl Abort + AllocGlobal), image: &[u8], order: &str, reports: &[&str]) {
    let station = run_of_one(rt, image, order);
    expect_texts(rt, "one order", station.output(), reports);
}

/// A run over this image refuses the first order, as it does once both orders are kept.
fn expect_third_refusal(rt: &(impl Abort + AllocGlobal), image: &[u8]) {
    let station = run_of_one(rt, image, ORDER);
    let want = must!(rt; frames_of(&[THIRD_REFUSAL]));
    expect_bytes(rt, "both are kept", station.output(), want.as_slice());
}

/// What a run answers to the first order tells whether this image kept the first of the two orders, and the second.
fn expect_kept(rt: &(impl Abort + AllocGlobal), image: &[u8], first: bool, second: bool) {
    if second {
        expect_third_refusal(rt, image);
    } else if first {
        expect_reports(rt, image, ORDER, &[DUPLICATE]);
        let others = [SECOND_ACCEPTED, FILLED, SECOND_FILLED];
        expect_reports(rt, image, SECOND_ORDER, &others);
    } else {
        expect_reports(rt, image, ORDER, &[ACCEPTED]);
    }
}

/// Whether a crash at a call, which fills up with this byte, leaves the gate that is written by another call.
fn is_left(gate: usize, call: usize, fill: u8) -> bool {
    call > gate || call == gate && fill == 1
}

/// A crash at this call leaves what was kept before it.
fn expect_left(
    rt: &(impl Abort + AllocGlobal),
    station: &MemStation,
    call: usize,
    fill: u8,
    second_gate: usize,
)
    requires { call ≤ length station.now.done }
{
    let image = station
        .crash_image(rt.alloc(), call, fill)
        .expect(rt, "memory");
    let first = is_left(14, call, fill);
    let second = is_left(second_gate, call, fill);
    expect_kept(rt, image.as_slice(), first, second);
}

/// A crash at each call leaves what was kept before it.
fn expect_left_at_each(rt: &(impl Abort + AllocGlobal), station: &MemStation, second_gate: usize) {
    for call in 0..=station.calls() {
        expect_left(rt, station, call, 0, second_gate);
        expect_left(rt, station, call, 1, second_gate);
        expect_left(rt, station, call, 200, second_gate);
    }
}

/// With a record for each order their gates are written by the calls 14 and 19, and synced by the next ones.
#[test]
fn crash_at_each_call_of_two_records(rt: HostRuntime) {
    let station = run_of_orders(&rt, ONE);
    expect_count(&rt, "calls", station.calls(), 21);
    expect_left_at_each(&rt, &station, 19);
}

/// With one record for both its gate is written by the call 14.
#[test]
fn crash_at_each_call_of_one_record(rt: HostRuntime) {
    let station = run_of_orders(&rt, BOTH);
    expect_count(&rt, "calls", station.calls(), 16);
    expect_left_at_each(&rt, &station, 14);
}

/// Runs over this file and these frames, and sends to these bytes.
fn run_into(
    rt: &(impl Abort + AllocGlobal),
    file: File,
    frames: &[&str],
    out: &mut Vec<u8>,
) -> Outcome {
    let words = must!(rt; words_of("run"));
    let mut product = must!(rt; source_of(PRODUCT.as_bytes()));
    let frames = must!(rt; join(frames));
    let mut input = must!(rt; source_of(frames.as_slice()));
    let mut station = FileStation::new(Some(file), out);
    globex(
        rt.alloc(),
        words.as_slice(),
        &mut product,
        &mut input,
        &mut station,
    )
}

/// A run over this file answers these frames, which are one message, with these reports.
fn expect_sent(rt: &(impl Abort + AllocGlobal), file: File, frames: &[&str], reports: &[&str]) {
    let mut out: Vec<u8> = Vec::new(rt.alloc());
    let got = run_into(rt, file, frames, &mut out);
    expect_outcome(rt, "a file", got, ended(0, 0, 1));
    expect_texts(rt, "a file", out.as_slice(), reports);
}

/// The file of this path, which is made if it is absent.
fn opened(rt: &HostRuntime, path: &str) -> io::Result<File> {
    let mut options = OpenOptions::new();
    options.read(true).write(true).create(true);
    options.open(rt, path)
}

/// Two runs over one file.
#[test]
fn runs_over_a_file(rt: HostRuntime) {
    let path = "globex_run_journal.gxj";
    let file = opened(&rt, path).expect(&rt, "a file");
    expect_sent(&rt, file, &[ORDER], &[ACCEPTED]);
    let file = opened(&rt, path).expect(&rt, "a file");
    let others = [SECOND_ACCEPTED, FILLED, SECOND_FILLED];
    expect_sent(&rt, file, &[SECOND_ORDER], &others);
    let kept = fs::read(&rt, path).expect(&rt, "a file");
    let station = run_of_orders(&rt, ONE);
    expect_bytes(&rt, "a file", kept.as_slice(), station.image());
    fs::remove_file(&rt, path).expect(&rt, "a file");
}
