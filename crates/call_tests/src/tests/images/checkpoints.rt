//! Runs over journals with book images: that an image changes nothing that is sent, and images that are cut or wrong.
use super::layout::{ONE_ORDER, one_order_image};
use super::{SMALL_PRODUCT, THIRD_ORDER, closed, execute_over, front_of};
use crate::tests::expects::{expect, expect_bytes, expect_count, expect_outcome};
use globex_run::Outcome;
use run_fixtures::{ended, frames_of, image_then, must, station_then};
use std::process::Abort;

/// A gate and the head of an image of 668 bytes.
pub(super) const IMAGE_HEAD: &[u8] = b"\x01D\x00\x00\x02\x9C";

/// Where the journal of `ONE_ORDER` has its last gate, and where it has it once an image is added.
const IMAGE_GATE: usize = 414;

const LATER_GATE: usize = 1_088;

/// A command over this image ends with status 10 at a place, sends nothing, and leaves the image as it was.
fn expect_refused(rt: &(impl Abort + AllocGlobal), line: &str, image: &[u8], at: u64) {
    let (got, station) = execute_over(rt, line, &[], image);
    expect_outcome(rt, line, got, ended(10, at, 0));
    expect_bytes(rt, line, station.output(), b"");
    expect_bytes(rt, line, station.image(), image);
}

/// The bytes that a command that reads each record sends over this image, which it leaves as it was, up to the bad record at a place.
fn sent_before(rt: &(impl Abort + AllocGlobal), line: &str, image: &[u8], bad: usize) -> Vec<u8> {
    let (got, station) = execute_over(rt, line, &[], image);
    expect_outcome(rt, line, got, ended(10, bad as u64, 0));
    expect_bytes(rt, line, station.image(), image);
    station.output().to_vec(rt.alloc()).expect(rt, "memory")
}

/// All that a command sent begins with this front; only the ledger has more, its last line.
fn expect_front(rt: &impl Abort, line: &str, whole: &[u8], front: &[u8]) {
    assert!(rt; whole.starts_with(front), "{line}");
    let rest = &whole[front.len()..];
    let is_total = rest.starts_with(b"total entered ");
    assert_eq!(rt; is_total, line == "ledger", "{line}");
    assert!(rt; rest.is_empty() || is_total, "{line}");
}

/// A command that reads each record ends with status 10 at this place, and sends what it sends of the records before; the ledger
/// lacks its last line.
fn expect_lines_before(rt: &(impl Abort + AllocGlobal), line: &str, image: &[u8], bad: usize) {
    let sent = sent_before(rt, line, image, bad);
    let before = closed(rt, &[front_of(rt, image, bad)]);
    let whole = must!(rt; station_then(SMALL_PRODUCT, line, &[], before.as_slice()));
    expect_front(rt, line, whole.output(), sent.as_slice());
}

/// The commands that begin with the last image, and those that read each record.
const BEGINNING: [&str; 4] = ["run", "book", "checkpoint", "drill --first 1 --count 2"];

const READING: [&str; 3] = ["replay", "fills", "ledger"];

/// The commands that read each record end at the first bad one.
fn expect_all_lines_before(rt: &(impl Abort + AllocGlobal), image: &[u8], first_bad: usize) {
    for line in READING {
        expect_lines_before(rt, line, image, first_bad);
    }
}

/// The commands that begin with the last image end at a place, and those that read each record at the first bad one.
fn expect_bad_record(rt: &(impl Abort + AllocGlobal), image: &[u8], bad: u64, first_bad: usize) {
    for line in BEGINNING {
        expect_refused(rt, line, image, bad);
    }
    expect_all_lines_before(rt, image, first_bad);
}

/// The journal of `ONE_ORDER` but for its last gate.
fn open_journal(rt: &(impl Abort + AllocGlobal)) -> Vec<u8> {
    let first = must!(rt; image_then(SMALL_PRODUCT, "run", &ONE_ORDER, b""));
    expect_count(rt, "the journal", first.len(), IMAGE_GATE + 1);
    front_of(rt, first.as_slice(), IMAGE_GATE)
        .to_vec(rt.alloc())
        .expect(rt, "memory")
}

/// The journal of `ONE_ORDER` with an image after which two more messages can be counted.
fn nearly_full(rt: &(impl Abort + AllocGlobal)) -> Vec<u8> {
    let front = open_journal(rt);
    let mut payload = one_order_image(rt);
    payload[..8].copy_from_slice(&16_777_213_u64.to_be_bytes());
    closed(rt, &[front.as_slice(), IMAGE_HEAD, payload.as_slice()])
}

/// The image after a run of three messages over it, of which two are kept.
fn filled_up(rt: &(impl Abort + AllocGlobal), image: &[u8]) -> Vec<u8> {
    let three = [THIRD_ORDER, THIRD_ORDER, THIRD_ORDER];
    let (got, station) = execute_over(rt, "run", &three, image);
    expect_outcome(rt, "three messages", got, ended(12, 220, 2));
    station.image().to_vec(rt.alloc()).expect(rt, "memory")
}

/// Over this image a command ends so.
fn expect_ended(
    rt: &(impl Abort + AllocGlobal),
    image: &[u8],
    outcome: Outcome,
    line: &str,
    bodies: &[&str],
) {
    let (got, _) = execute_over(rt, line, bodies, image);
    expect_outcome(rt, line, got, outcome);
}

/// A record of a third message after this image is bad.
fn expect_bad_third(rt: &(impl Abort + AllocGlobal), full: &[u8]) {
    let frame = must!(rt; frames_of(&[THIRD_ORDER]));
    let front = front_of(rt, full, LATER_GATE + 226);
    let over = closed(rt, &[front, b"\x01M\x00\x00\x00\x6E", frame.as_slice()]);
    expect_bad_record(rt, over.as_slice(), 1_314, 1_314);
}

/// Over an image after which two more messages can be counted a run of three keeps two of them, and a record of a third is bad.
#[test]
fn last_messages_that_are_counted(rt: HostRuntime) {
    let image = nearly_full(&rt);
    let full = filled_up(&rt, image.as_slice());
    let full = full.as_slice();
    expect_ended(&rt, full, ended(12, 0, 0), "run", &[THIRD_ORDER]);
    expect_ended(&rt, full, ended(0, 0, 16_777_215), "book", &[]);
    expect_ended(&rt, full, ended(0, 0, 16_777_215), "checkpoint", &[]);
    expect_ended(&rt, full, ended(0, 0, 4), "replay", &[]);
    expect_count(&rt, "the journal", full.len(), LATER_GATE + 227);
    expect_bad_third(&rt, full);
}
