//! Images alone, and journals that have them.
mod checkpoints;
mod endings;
mod layout;

use crate::tests::expects::{expect_bytes, expect_outcome};
use globex_run::Outcome;
use gx_station::MemStation;
use run_fixtures::{concat, ended, execute_frames, frames_of, must, product_text, station_of};
use std::process::Abort;

/// The usual product with few live orders, whose memory is soon taken, and a journal as short as it may be.
const SMALL_PRODUCT: &str = product_text!("max_orders = 8", "journal_limit = 131072", letter: "F");

/// It trades what `ONE_ORDER` left open.
const THIRD_ORDER: &str =
    "35=D|49=CCC|56=GX|34=1|52=20240102-09:30:02|11=c1|55=ESZ4|54=1|38=6|40=2|44=100.00|59=0|";

/// The reports of it.
const THIRD_REPORTS: [&str; 3] = [
    "35=8|34=1|49=GX|52=20240102-09:30:02|56=CCC|37=3|11=c1|17=5|20=0|150=0|39=0|55=ESZ4|54=1|38=6|40=2|44=100.00|59=0|151=6|14=0|6=0|60=20240102-09:30:02|9003=0|",
    "35=8|34=3|49=GX|52=20240102-09:30:02|56=AAA|37=1|11=a1|17=6|20=0|150=2|39=2|55=ESZ4|54=2|38=10|40=2|44=100.00|59=0|32=6|31=100.00|151=0|14=10|6=0|60=20240102-09:30:02|9001=FIFO|9002=2|9003=0|",
    "35=8|34=2|49=GX|52=20240102-09:30:02|56=CCC|37=3|11=c1|17=7|20=0|150=2|39=2|55=ESZ4|54=1|38=6|40=2|44=100.00|59=0|32=6|31=100.00|151=0|14=6|6=0|60=20240102-09:30:02|9001=FIFO|9002=2|9003=0|",
];

/// Executes the command over the small product and this image.
fn execute_over(
    rt: &(impl Abort + AllocGlobal),
    line: &str,
    bodies: &[&str],
    image: &[u8],
) -> (Outcome, MemStation) {
    let mut station = must!(rt; station_of(image));
    let outcome = must!(rt; execute_frames(SMALL_PRODUCT, line, bodies, &mut station));
    (outcome, station)
}

/// A command over the small product and this image ends so, and sends these bytes.
fn expect_sent(
    rt: &(impl Abort + AllocGlobal),
    line: &str,
    bodies: &[&str],
    image: &[u8],
    outcome: Outcome,
    sent: &[u8],
) {
    let (got, station) = execute_over(rt, line, bodies, image);
    expect_outcome(rt, line, got, outcome);
    expect_bytes(rt, line, station.output(), sent);
}

/// A run of `THIRD_ORDER` over this image sends its reports.
fn expect_third_reports(rt: &(impl Abort + AllocGlobal), image: &[u8]) {
    let reports = must!(rt; frames_of(&THIRD_REPORTS));
    let sent = reports.as_slice();
    expect_sent(rt, "run", &[THIRD_ORDER], image, ended(0, 0, 1), sent);
}

/// The first bytes of some.
fn front_of<'a>(rt: &impl Abort, bytes: &'a [u8], count: usize) -> &'a [u8] {
    assert!(rt; count <= bytes.len());
    &bytes[..count]
}

/// The parts, one after the other, and a closed gate.
fn closed(rt: &(impl Abort + AllocGlobal), parts: &[&[u8]]) -> Vec<u8> {
    let mut bytes = must!(rt; concat(parts));
    bytes.push(0).expect(rt, "memory");
    bytes
}
