//! Journals with amendments, made by the command or byte by byte.
mod amending;
mod crashes;
mod going_on;
mod memory;

use crate::tests::expects::{expect_bytes, expect_count, expect_outcome};
use globex_run::Outcome;
use run_fixtures::{execute_frames, image_then, must, product_text, station_of};
use std::process::Abort;

/// A product with few live orders, whose memory is soon taken, and which matches by FIFO. Each text of these products has 151 bytes.
const FIFO: &str = product_text!("max_orders = 8", letter: "F");

/// The same with pro rata.
const PRO_RATA: &str = product_text!("max_orders = 8", letter: "C");

/// And with another range for market orders.
const THIRD: &str =
    product_text!("max_orders = 8", name: "ESZ4", tick: 1, protection: 3, letter: "C");

/// Three lots and one, which share a price.
const SELLS: [&str; 2] = [
    "35=D|49=AAA|56=GX|34=1|52=20240102-09:30:00|11=a1|55=ESZ4|54=2|38=3|40=2|44=100.00|59=0|",
    "35=D|49=BBB|56=GX|34=1|52=20240102-09:30:00|11=b1|55=ESZ4|54=2|38=1|40=2|44=100.00|59=0|",
];

/// Two lots of them are bought.
const BUY: &str =
    "35=D|49=CCC|56=GX|34=1|52=20240102-09:30:00|11=c1|55=ESZ4|54=1|38=2|40=2|44=100.00|59=0|";

const GATE: usize = 390;

/// Where the next gate is after an amendment there, whose image has both orders.
const LATER_GATE: usize = 1_301;

/// A command under the product of this text ends so over this image, sends these bytes, and leaves the image as it is.
fn expect_left(
    rt: &(impl Abort + AllocGlobal),
    text: &str,
    line: &str,
    image: &[u8],
    outcome: Outcome,
    sent: &[u8],
) {
    let mut station = must!(rt; station_of(image));
    let got = must!(rt; execute_frames(text, line, &[BUY], &mut station));
    expect_outcome(rt, line, got, outcome);
    expect_bytes(rt, line, station.output(), sent);
    expect_bytes(rt, line, station.image(), image);
}

/// The journal of the sells under FIFO, which has one record of frames, and then its closed gate.
fn journal_of_sells(rt: &(impl Abort + AllocGlobal)) -> Vec<u8> {
    let journal = must!(rt; image_then(FIFO, "run", &SELLS, b""));
    expect_count(rt, "the journal", journal.len(), GATE + 1);
    journal
}

/// The payload of the book image that a checkpoint under this product adds to a journal.
fn book_image(rt: &(impl Abort + AllocGlobal), text: &str, journal: &[u8]) -> Vec<u8> {
    let longer = must!(rt; image_then(text, "checkpoint", &[], journal));
    let first = journal.len() + 5;
    assert!(rt; first < longer.len());
    let payload = &longer[first..longer.len() - 1];
    payload.to_vec(rt.alloc()).expect(rt, "memory")
}

/// Adds some bytes to others.
fn push(rt: &(impl Abort + AllocGlobal), bytes: &mut Vec<u8>, part: &[u8]) {
    bytes.extend_from_slice(part).expect(rt, "memory");
}

/// The first bytes of some.
fn front_of<'a>(rt: &impl Abort, bytes: &'a [u8], count: usize) -> &'a [u8] {
    assert!(rt; count <= bytes.len());
    &bytes[..count]
}

/// A journal whose last gate is closed, with these bytes in the place of that gate.
fn with_end(rt: &(impl Abort + AllocGlobal), journal: &[u8], end: &[u8]) -> Vec<u8> {
    assert!(rt; !journal.is_empty());
    let front = front_of(rt, journal, journal.len() - 1);
    let mut bytes = front.to_vec(rt.alloc()).expect(rt, "memory");
    push(rt, &mut bytes, end);
    bytes
}

/// A journal with an open gate, this kind and this payload in the place of its last gate, and then a closed gate.
fn with_record(
    rt: &(impl Abort + AllocGlobal),
    journal: &[u8],
    kind: u8,
    payload: &[u8],
) -> Vec<u8> {
    assert!(rt; payload.len() < 100_000);
    let length = payload.len() as u32;
    let mut bytes = with_end(rt, journal, &[1, kind]);
    push(rt, &mut bytes, &length.to_be_bytes());
    push(rt, &mut bytes, payload);
    push(rt, &mut bytes, b"\x00");
    bytes
}

/// A journal with an amendment that has a size, a text, and an image.
fn with_amendment(
    rt: &(impl Abort + AllocGlobal),
    journal: &[u8],
    size: u32,
    text: &[u8],
    image: &[u8],
) -> Vec<u8> {
    let mut payload = Vec::new(rt.alloc());
    push(rt, &mut payload, &size.to_be_bytes());
    push(rt, &mut payload, text);
    push(rt, &mut payload, image);
    with_record(rt, journal, b'P', payload.as_slice())
}

/// A journal with an amendment to this text, and with this image.
fn amended_to(
    rt: &(impl Abort + AllocGlobal),
    journal: &[u8],
    text: &[u8],
    image: &[u8],
) -> Vec<u8> {
    assert!(rt; text.len() < 100_000);
    let size = text.len() as u32;
    with_amendment(rt, journal, size, text, image)
}

/// A journal of a product, amended to another one: the image is that of the state there, in which no order is TOP.
fn amended(rt: &(impl Abort + AllocGlobal), journal: &[u8], from: &str, to: &str) -> Vec<u8> {
    let image = book_image(rt, from, journal);
    amended_to(rt, journal, to.as_bytes(), image.as_slice())
}

/// The journal of the sells, amended to pro rata.
fn amended_sells(rt: &(impl Abort + AllocGlobal)) -> Vec<u8> {
    let journal = amended(rt, journal_of_sells(rt).as_slice(), FIFO, PRO_RATA);
    expect_count(rt, "the amended journal", journal.len(), LATER_GATE + 1);
    journal
}
