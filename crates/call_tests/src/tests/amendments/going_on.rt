//! Runs, books and checkpoints go on from the image of the last amendment, under its product.
ghost use Rattle.std.specs.Prelude.{◌≤◌, length};

use super::{BUY, FIFO, PRO_RATA, amended_sells, expect_left};
use crate::tests::expects::expect_bytes;
use gx_station::MemStation;
use run_fixtures::{ended, execute_well, frames_of, must, station_of};
use std::process::Abort;

/// Under pro rata the larger order has one lot by its share, and one as the first in time.
pub const REPORTS: [&str; 5] = [
    "35=8|34=1|49=GX|52=20240102-09:30:00|56=CCC|37=3|11=c1|17=3|20=0|150=0|39=0|55=ESZ4|54=1|38=2|40=2|44=100.00|59=0|151=2|14=0|6=0|60=20240102-09:30:00|9003=0|",
    "35=8|34=2|49=GX|52=20240102-09:30:00|56=AAA|37=1|11=a1|17=4|20=0|150=1|39=1|55=ESZ4|54=2|38=3|40=2|44=100.00|59=0|32=1|31=100.00|151=2|14=1|6=0|60=20240102-09:30:00|9001=PRORATA|9002=1|9003=0|",
    "35=8|34=2|49=GX|52=20240102-09:30:00|56=CCC|37=3|11=c1|17=5|20=0|150=1|39=1|55=ESZ4|54=1|38=2|40=2|44=100.00|59=0|32=1|31=100.00|151=1|14=1|6=0|60=20240102-09:30:00|9001=PRORATA|9002=1|9003=0|",
    "35=8|34=3|49=GX|52=20240102-09:30:00|56=AAA|37=1|11=a1|17=6|20=0|150=1|39=1|55=ESZ4|54=2|38=3|40=2|44=100.00|59=0|32=1|31=100.00|151=1|14=2|6=0|60=20240102-09:30:00|9001=FIFO|9002=2|9003=0|",
    "35=8|34=3|49=GX|52=20240102-09:30:00|56=CCC|37=3|11=c1|17=7|20=0|150=2|39=2|55=ESZ4|54=1|38=2|40=2|44=100.00|59=0|32=1|31=100.00|151=0|14=2|6=0|60=20240102-09:30:00|9001=FIFO|9002=2|9003=0|",
];

const BOOK_THEN: &str = "ESZ4 last 100.00
S 100.00 1/1 #1 AAA a1
S 100.00 1/1 #2 BBB b1
";

/// The call that writes the gate of the buy's record; the next one syncs it.
const GATE: usize = 15;

/// The image that a crash at a call leaves is one of the amended journal, with the buy or without it. Without it a run goes on.
fn expect_kept_after_a_crash(
    rt: &(impl Abort + AllocGlobal),
    station: &MemStation,
    call: usize,
    fill: u8,
)
    requires { call ≤ length station.now.done }
{
    let left = station
        .crash_image(rt.alloc(), call, fill)
        .expect(rt, "memory");
    let left = left.as_slice();
    expect_left(rt, FIFO, "run", left, ended(11, 548, 0), b"");
    if call > GATE || call == GATE && fill == 1 {
        let book = BOOK_THEN.as_bytes();
        expect_left(rt, PRO_RATA, "book", left, ended(0, 0, 3), book);
    } else {
        let mut then = must!(rt; station_of(left));
        must!(rt; execute_well(PRO_RATA, "run", &[BUY], &mut then, 1));
        let want = must!(rt; frames_of(&REPORTS));
        expect_bytes(rt, "after a crash", then.output(), want.as_slice());
    }
}

/// A run after an amendment that crashes at a call keeps the buy or not, and always the amendment.
#[test]
fn crash_at_each_call_of_a_run_behind_an_amendment(rt: HostRuntime) {
    let mut station = must!(&rt; station_of(amended_sells(&rt).as_slice()));
    must!(&rt; execute_well(PRO_RATA, "run", &[BUY], &mut station, 1));
    for call in 0..=station.calls() {
        expect_kept_after_a_crash(&rt, &station, call, 0);
        expect_kept_after_a_crash(&rt, &station, call, 1);
        expect_kept_after_a_crash(&rt, &station, call, 200);
    }
}
