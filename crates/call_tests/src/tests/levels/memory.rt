//! Feeds for which memory may not suffice. With `rt try --test --fail-alloc` an allocation is refused.
use super::{FIFO, kept};
use crate::tests::expects::{expect_bytes, expect_count, expect_outcome};
use globex_run::Outcome;
use run_fixtures::{ended, execute, must, sell, source_of, station_of};
use std::process::Abort;

const SELL: [&str; 1] = [sell!("AAA", "a1", 3, "100.00")];

const FEED: &str = "S 0 0\nI 1 0 1\nR ESZ4 S 100.00 3 1\n";

/// A command ends for want of memory, and has called the station not once then, or sends this.
fn expect_sent_or_not(
    rt: &(impl Abort + AllocGlobal),
    line: &str,
    image: &[u8],
    outcome: Outcome,
    sent: &str,
) {
    let mut input = must!(rt; source_of(FEED.as_bytes()));
    let mut station = must!(rt; station_of(image));
    let got = must!(rt; execute(FIFO, line, &mut input, &mut station));
    if got.status == 1 {
        expect_outcome(rt, "want of memory", got, ended(1, 0, 0));
        expect_count(rt, "want of memory", station.calls(), 0);
    } else {
        expect_outcome(rt, "ample memory", got, outcome);
        expect_bytes(rt, "ample memory", station.output(), sent.as_bytes());
    }
    expect_bytes(rt, line, station.image(), image);
}

#[test]
fn refused_memory_of_levels(rt: HostRuntime) {
    let journal = kept(&rt, &SELL);
    expect_sent_or_not(&rt, "levels", journal.as_slice(), ended(0, 0, 1), FEED);
}

#[test]
fn refused_memory_of_a_table(rt: HostRuntime) {
    let table = "ESZ4 S 100.00 3 1\n";
    expect_sent_or_not(&rt, "rebuild", b"", ended(0, 0, 1), table);
}
