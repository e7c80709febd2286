//! How a checkpoint ends: each status, the room for an image, and what crashes and failed calls leave.
ghost use Rattle.std.specs.Prelude.{◌≤◌, length};

use super::layout::ONE_ORDER;
use super::{SMALL_PRODUCT, execute_over, expect_sent, expect_third_reports};
use crate::tests::expects::{expect_bytes, expect_outcome};
use gx_station::MemStation;
use run_fixtures::{ended, execute_frames, failing_station, must, station_then};
use std::process::Abort;

/// A journal keeps the messages of `ONE_ORDER`, whose reports these are, and the next message is answered after them.
fn expect_kept(rt: &(impl Abort + AllocGlobal), image: &[u8], reports: &[u8]) {
    expect_sent(rt, "replay", &[], image, ended(0, 0, 2), reports);
    expect_third_reports(rt, image);
}

/// A crash at this call of a station, whose disk is filled up with each of some bytes: the journal keeps what it kept.
fn expect_kept_at(
    rt: &(impl Abort + AllocGlobal),
    station: &MemStation,
    call: usize,
    reports: &[u8],
)
    requires { call ≤ length station.now.done }
{
    for fill in [0, 1, 200] {
        let image = station
            .crash_image(rt.alloc(), call, fill)
            .expect(rt, "memory");
        expect_kept(rt, image.as_slice(), reports);
    }
}

/// The station after a checkpoint over this image whose call of this number fails.
fn faulty_checkpoint(rt: &(impl Abort + AllocGlobal), image: &[u8], call: usize) -> MemStation {
    let mut station = must!(rt; failing_station(image, call as u64));
    let got = must!(rt; execute_frames(SMALL_PRODUCT, "checkpoint", &[], &mut station));
    expect_outcome(rt, "a fault", got, ended(5, 0, 0));
    expect_bytes(rt, "a fault", station.output(), b"");
    station
}

/// A checkpoint over this image whose call of this number fails: the journal keeps what it kept, and so it does after a crash.
fn expect_kept_over_fault(
    rt: &(impl Abort + AllocGlobal),
    image: &[u8],
    call: usize,
    reports: &[u8],
) {
    let station = faulty_checkpoint(rt, image, call);
    assert_eq!(rt; station.calls(), call);
    expect_kept(rt, station.image(), reports);
    expect_kept_at(rt, &station, call, reports);
}

/// The station after a checkpoint over this image that counts both messages.
fn clean_checkpoint(rt: &(impl Abort + AllocGlobal), image: &[u8]) -> MemStation {
    let (got, clean) = execute_over(rt, "checkpoint", &[], image);
    expect_outcome(rt, "checkpoint", got, ended(0, 0, 2));
    clean
}

/// A crash at each call of a checkpoint over this image: the journal keeps what it kept.
fn expect_crashes(rt: &(impl Abort + AllocGlobal), clean: &MemStation, reports: &[u8]) {
    for call in 0..=clean.calls() {
        expect_kept_at(rt, clean, call, reports);
    }
}

/// A crash at each call of a checkpoint, and a fault of each call: the journal keeps what it kept.
#[test]
fn crashes_and_faults(rt: HostRuntime) {
    let first = must!(&rt; station_then(SMALL_PRODUCT, "run", &ONE_ORDER, b""));
    let clean = clean_checkpoint(&rt, first.image());
    expect_crashes(&rt, &clean, first.output());
    for call in 1..=clean.calls() {
        expect_kept_over_fault(&rt, first.image(), call, first.output());
    }
}
