//! The commands `levels` and `rebuild` over journals that the other commands made, or that were spoiled, and over feeds written by hand.
mod made;
mod memory;
mod wide;

use crate::tests::expects::expect_outcome;
use gx_station::MemStation;
use run_fixtures::{ended, execute, frames_of, must, product_text, source_of, station_of};
use std::process::Abort;

/// A product with few live orders, whose memory is soon taken.
const FIFO: &str = product_text!("max_orders = 8", letter: "F");

/// The exchange closes the market.
const CLOSE: &str = "35=h|49=GX|56=GX|34=1|52=20240102-16:00:00|340=3|";

/// A station over no image with room for so many bytes, as many to send, and so many calls.
fn roomy_station(rt: &(impl Abort + AllocGlobal), room: usize, calls: usize) -> MemStation {
    let alloc = rt.alloc();
    let none = Vec::new(alloc);
    MemStation::new(alloc, none, room, room, calls, Vec::new(alloc)).expect(rt, "memory")
}

/// Executes it over these bytes; it does all it should, and counts so many messages.
fn execute_bytes(
    rt: &(impl Abort + AllocGlobal),
    text: &str,
    line: &str,
    bytes: &[u8],
    station: &mut MemStation,
    messages: u64,
) {
    let mut input = must!(rt; source_of(bytes));
    let got = must!(rt; execute(text, line, &mut input, station));
    expect_outcome(rt, line, got, ended(0, 0, messages));
}

/// The image after a command over the frames of these bodies and this image, which does all it should and counts so many messages.
fn counted_image(
    rt: &(impl Abort + AllocGlobal),
    text: &str,
    line: &str,
    bodies: &[&str],
    image: &[u8],
    messages: u64,
) -> Vec<u8> {
    let mut station = must!(rt; station_of(image));
    let bytes = must!(rt; frames_of(bodies));
    execute_bytes(rt, text, line, bytes.as_slice(), &mut station, messages);
    station.image().to_vec(rt.alloc()).expect(rt, "memory")
}

/// A journal of the usual product of these tests that keeps these messages.
fn kept(rt: &(impl Abort + AllocGlobal), bodies: &[&str]) -> Vec<u8> {
    counted_image(rt, FIFO, "run", bodies, b"", bodies.len() as u64)
}
