//! Sessions for which memory may not suffice.
use super::{ANSWERS, FIFO, SERVED, kept_orders};
use crate::tests::expects::{expect_bytes, expect_count, expect_outcome};
use globex_run::Outcome;
use gx_station::{LEAST_READ, MemSource, MemStation, Source};
use run_fixtures::{
    ended, execute, frames_of, image_then, must, product_text, source_of, station_of,
};
use std::process::Abort;

/// A session that ended for want of memory has left the input, and has sent nothing.
fn expect_untouched(
    rt: &impl Abort,
    got: Outcome,
    station: &MemStation,
    left: &[u8],
    asked: &[u8],
) {
    expect_outcome(rt, "want of memory", got, ended(1, 0, 0));
    expect_bytes(rt, "want of memory", station.output(), b"");
    expect_bytes(rt, "want of memory", left, asked);
}

/// One with ample memory has answered all of it.
fn expect_answered(rt: &impl Abort, got: Outcome, station: &MemStation, left: &[u8], sent: &[u8]) {
    expect_outcome(rt, "ample memory", got, ended(0, 0, 2));
    expect_bytes(rt, "ample memory", station.output(), sent);
    expect_bytes(rt, "ample memory", left, b"");
}

/// The bytes that are left to read come into the front of these: how many they are.
fn read_rest(rt: &impl Abort, input: &mut MemSource, into: &mut [u8; LEAST_READ]) -> usize {
    input.read(into).expect(rt, "a read")
}

/// A session over this image ends for want of memory or answers a logon and a resend request; the image stays.
fn expect_answered_or_not(
    rt: &(impl Abort + AllocGlobal),
    text: &str,
    image: &[u8],
    takes_later: bool,
) {
    let asked = must!(rt; frames_of(&SERVED));
    let sent = must!(rt; frames_of(&ANSWERS));
    let mut station = must!(rt; station_of(image));
    let mut input = must!(rt; source_of(asked.as_slice()));
    let got = must!(rt; execute(text, "session", &mut input, &mut station));
    let mut into = [0; LEAST_READ];
    let count = read_rest(rt, &mut input, &mut into);
    assert!(rt; count <= LEAST_READ);
    let left = &into[..count];
    if got.status == 1 {
        expect_untouched(rt, got, &station, left, asked.as_slice());
        if !takes_later {
            expect_count(rt, "want of memory", station.calls(), 0);
        }
    } else {
        expect_answered(rt, got, &station, left, sent.as_slice());
    }
    expect_bytes(rt, "memory", station.image(), image);
}

/// With `rt try --test --fail-alloc` an allocation is refused. Over a journal without amendments the station was not called then.
#[test]
fn refused_memory(rt: HostRuntime) {
    let journal = kept_orders(&rt);
    expect_answered_or_not(&rt, FIFO, journal.as_slice(), false);
}

/// With amendments it was only read.
#[test]
fn refused_memory_of_products(rt: HostRuntime) {
    let pro_rata = product_text!("max_orders = 8", letter: "C");
    let journal = kept_orders(&rt);
    let amended = must!(&rt; image_then(pro_rata, "amend", &[], journal.as_slice()));
    expect_answered_or_not(&rt, pro_rata, amended.as_slice(), true);
}
