//! What an amendment leaves that crashes at a call, or of which a call fails.
ghost use Rattle.std.specs.Prelude.{◌≤◌, length};

use super::going_on::REPORTS;
use super::{BUY, FIFO, PRO_RATA, SELLS, amended_sells, expect_left};
use crate::tests::expects::{expect_bytes, expect_outcome};
use gx_station::MemStation;
use run_fixtures::{
    ended, execute_frames, execute_well, failing_station, frames_of, image_then, must, station_of,
    station_then,
};
use std::process::Abort;

/// What the sells are reported by, and the journal that an amendment to pro rata makes of theirs.
#[derive(Clone, Copy)]
struct Kept<'a> {
    reports: &'a [u8],
    amended: &'a [u8],
}

/// A run of the buy goes on from this image of the amended journal.
fn expect_served(rt: &(impl Abort + AllocGlobal), left: &[u8]) {
    let mut station = must!(rt; station_of(left));
    must!(rt; execute_well(PRO_RATA, "run", &[BUY], &mut station, 1));
    let want = must!(rt; frames_of(&REPORTS));
    expect_bytes(rt, "a run", station.output(), want.as_slice());
}

/// The image keeps the sells under the product of this text, and is of no other one.
fn expect_of(
    rt: &(impl Abort + AllocGlobal),
    kept: &Kept<'_>,
    text: &str,
    other: &str,
    at: u64,
    left: &[u8],
) {
    expect_left(rt, other, "run", left, ended(11, at, 0), b"");
    expect_left(rt, text, "replay", left, ended(0, 0, 2), kept.reports);
}

/// The image is that of the amended journal or that of before, from which an amendment makes it.
fn expect_either(rt: &(impl Abort + AllocGlobal), kept: &Kept<'_>, is_amended: bool, left: &[u8]) {
    if is_amended {
        expect_of(rt, kept, PRO_RATA, FIFO, 548, left);
        expect_served(rt, left);
    } else {
        expect_of(rt, kept, FIFO, PRO_RATA, 161, left);
        let amended = must!(rt; image_then(PRO_RATA, "amend", &[], left));
        expect_bytes(rt, "amended later", amended.as_slice(), kept.amended);
    }
}

/// A crash at this call leaves the journal of before, or the amended one.
fn expect_crash(
    rt: &(impl Abort + AllocGlobal),
    kept: &Kept<'_>,
    station: &MemStation,
    call: usize,
    fill: u8,
    is_amended: bool,
)
    requires { call ≤ length station.now.done }
{
    let left = station
        .crash_image(rt.alloc(), call, fill)
        .expect(rt, "memory");
    expect_either(rt, kept, is_amended, left.as_slice());
}

/// The last two calls of an amendment write its gate, and sync that.
fn expect_crashes(
    rt: &(impl Abort + AllocGlobal),
    kept: &Kept<'_>,
    station: &MemStation,
    call: usize,
)
    requires { call ≤ length station.now.done }
{
    let is_synced = call >= station.calls();
    let is_written = call.wrapping_add(1) >= station.calls();
    expect_crash(rt, kept, station, call, 0, is_synced);
    expect_crash(rt, kept, station, call, 1, is_written);
    expect_crash(rt, kept, station, call, 200, is_synced);
}

/// A crash at each call of an amendment.
#[test]
fn crash_at_each_call_of_an_amendment(rt: HostRuntime) {
    let sells = must!(&rt; station_then(FIFO, "run", &SELLS, b""));
    let amended = amended_sells(&rt);
    let kept = Kept {
        reports: sells.output(),
        amended: amended.as_slice(),
    };
    let mut station = must!(&rt; station_of(sells.image()));
    must!(&rt; execute_well(PRO_RATA, "amend", &[], &mut station, 2));
    for call in 0..=station.calls() {
        expect_crashes(&rt, &kept, &station, call);
    }
}

/// The station after an amendment of the sells whose call of this number fails.
fn faulty_amendment(rt: &(impl Abort + AllocGlobal), image: &[u8], call: usize) -> MemStation {
    let mut station = must!(rt; failing_station(image, call as u64));
    let got = must!(rt; execute_frames(PRO_RATA, "amend", &[], &mut station));
    expect_outcome(rt, "a fault", got, ended(5, 0, 0));
    expect_bytes(rt, "a fault", station.output(), b"");
    station
}

/// An amendment whose call of this number of so many fails: a read and a crash give the journal of before, or the amended one.
fn expect_fault(
    rt: &(impl Abort + AllocGlobal),
    kept: &Kept<'_>,
    image: &[u8],
    call: usize,
    calls: usize,
) {
    let station = faulty_amendment(rt, image, call);
    assert_eq!(rt; station.calls(), call);
    expect_either(rt, kept, call >= calls, station.image());
    expect_crash(rt, kept, &station, call, 0, false);
    expect_crash(rt, kept, &station, call, 1, call.wrapping_add(1) >= calls);
    expect_crash(rt, kept, &station, call, 200, false);
}

/// A fault of each call of an amendment.
#[test]
fn fault_of_each_call_of_an_amendment(rt: HostRuntime) {
    let sells = must!(&rt; station_then(FIFO, "run", &SELLS, b""));
    let amended = amended_sells(&rt);
    let kept = Kept {
        reports: sells.output(),
        amended: amended.as_slice(),
    };
    let mut station = must!(&rt; station_of(sells.image()));
    must!(&rt; execute_well(PRO_RATA, "amend", &[], &mut station, 2));
    let calls = station.calls();
    for call in 1..=calls {
        expect_fault(&rt, &kept, sells.image(), call, calls);
    }
}
