//! Printing and amending for which memory may not suffice.
use super::{FIFO, PRO_RATA, SELLS, THIRD, amended, amended_sells};
use crate::tests::expects::{expect_bytes, expect_count, expect_outcome};
use globex_run::Outcome;
use gx_station::MemStation;
use run_fixtures::{ended, execute_frames, must, station_of, station_then};
use std::process::Abort;

/// A command that ended for want of memory left the image as it was, and sent nothing.
fn expect_untouched(rt: &impl Abort, got: Outcome, station: &MemStation, image: &[u8]) {
    expect_outcome(rt, "want of memory", got, ended(1, 0, 0));
    expect_bytes(rt, "want of memory", station.output(), b"");
    expect_bytes(rt, "want of memory", station.image(), image);
}

/// A replay ends for want of memory or sends this.
fn expect_replayed_or_not(
    rt: &(impl Abort + AllocGlobal),
    text: &str,
    image: &[u8],
    sent: &[u8],
    takes_later: bool,
) {
    let mut station = must!(rt; station_of(image));
    let got = must!(rt; execute_frames(text, "replay", &[], &mut station));
    if got.status == 1 {
        expect_untouched(rt, got, &station, image);
        if !takes_later {
            expect_count(rt, "want of memory", station.calls(), 0);
        }
    } else {
        expect_outcome(rt, "ample memory", got, ended(0, 0, 2));
        expect_bytes(rt, "ample memory", station.output(), sent);
    }
}

/// A replay that ends for want of memory sent and wrote nothing. With `rt try --test --fail-alloc` an allocation is refused.
#[test]
fn refused_memory_of_products(rt: HostRuntime) {
    let sells = must!(&rt; station_then(FIFO, "run", &SELLS, b""));
    let sent = sells.output();
    let twice = amended(&rt, amended_sells(&rt).as_slice(), PRO_RATA, THIRD);
    expect_replayed_or_not(&rt, THIRD, twice.as_slice(), sent, true);
}

/// Over a journal without amendments it did not call the station then.
#[test]
fn refused_memory_without_amendments(rt: HostRuntime) {
    let sells = must!(&rt; station_then(FIFO, "run", &SELLS, b""));
    expect_replayed_or_not(&rt, FIFO, sells.image(), sells.output(), false);
}

/// An amendment to the product of this text ends for want of memory or counts the sells.
fn expect_amended_or_not(
    rt: &(impl Abort + AllocGlobal),
    text: &str,
    image: &[u8],
    want: &[u8],
    takes_later: bool,
) {
    let mut station = must!(rt; station_of(image));
    let got = must!(rt; execute_frames(text, "amend", &[], &mut station));
    if got.status == 1 {
        expect_untouched(rt, got, &station, image);
        if !takes_later {
            expect_count(rt, "want of memory", station.calls(), 0);
        }
    } else {
        expect_outcome(rt, "ample memory", got, ended(0, 0, 2));
        expect_bytes(rt, "ample memory", station.image(), want);
    }
}

/// An amendment that ends for want of memory wrote nothing.
#[test]
fn refused_memory_of_an_amendment(rt: HostRuntime) {
    let sells = must!(&rt; station_then(FIFO, "run", &SELLS, b""));
    let amended = amended_sells(&rt);
    expect_amended_or_not(&rt, PRO_RATA, sells.image(), amended.as_slice(), true);
}

/// With the text that the journal has it did not call the station then.
#[test]
fn refused_memory_of_the_same_text(rt: HostRuntime) {
    let sells = must!(&rt; station_then(FIFO, "run", &SELLS, b""));
    expect_amended_or_not(&rt, FIFO, sells.image(), sells.image(), false);
}
