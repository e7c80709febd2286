//! What the command `amend` adds, byte for byte, and what goes on from there.
use super::{BUY, FIFO, PRO_RATA, journal_of_sells};
use crate::tests::expects::{expect_bytes, expect_outcome};
use gx_station::{MemStation, Station};
use run_fixtures::{ended, execute_frames, image_then, must, station_of, with_byte};
use std::process::Abort;

/// A station over this image with a write that is not synced, and that changed nothing.
fn unsettled_station(rt: &(impl Abort + AllocGlobal), image: &[u8]) -> MemStation {
    let mut station = must!(rt; station_of(image));
    assert!(rt; station.write(0, b"\x01").is_ok());
    station
}

/// That write still is not synced, and there was no other one.
fn expect_unsettled(rt: &(impl Abort + AllocGlobal), station: &MemStation, image: &[u8]) {
    let left = station
        .crash_image(rt.alloc(), station.calls(), 200)
        .expect(rt, "memory");
    let torn = must!(rt; with_byte(image, 0, 200));
    expect_bytes(rt, "a crash image", left.as_slice(), torn.as_slice());
}

/// An amendment to the text that the journal has writes and syncs nothing, and sends nothing.
fn expect_same(rt: &(impl Abort + AllocGlobal), text: &str, image: &[u8], messages: u64) {
    let mut station = unsettled_station(rt, image);
    let got = must!(rt; execute_frames(text, "amend", &[], &mut station));
    expect_outcome(rt, "the same text", got, ended(0, 0, messages));
    expect_bytes(rt, "the same text", station.image(), image);
    expect_bytes(rt, "the same text", station.output(), b"");
    expect_unsettled(rt, &station, image);
}

/// The text of the header, and that of an amendment; also in the first version.
#[test]
fn same_text(rt: HostRuntime) {
    let sells = journal_of_sells(&rt);
    expect_same(&rt, FIFO, sells.as_slice(), 2);
    let first = must!(&rt; with_byte(sells.as_slice(), 8, b'1'));
    expect_same(&rt, FIFO, first.as_slice(), 2);
    let once = must!(&rt; image_then(PRO_RATA, "amend", &[], sells.as_slice()));
    expect_same(&rt, PRO_RATA, once.as_slice(), 2);
    let later = must!(&rt; image_then(PRO_RATA, "run", &[BUY], once.as_slice()));
    expect_same(&rt, PRO_RATA, later.as_slice(), 3);
}
