//! Inputs that end within their first frame, and inputs that no frame begins with.
use crate::tests::expects::{expect_bytes, expect_outcome};
use fix_frame::{Framer, Next, ROOM};
use run_fixtures::{ORDER, PRODUCT, bytes_of, ended, frames_of, must, run};
use std::process::Abort;

/// What a framer that takes these bytes alone answers first.
fn first_answer(rt: &(impl Abort + AllocGlobal), bytes: &[u8]) -> Next {
    let mut framer = Framer::new(rt.alloc()).expect(rt, "memory");
    assert!(rt; bytes.len() <= ROOM);
    assert_eq!(rt; framer.feed(bytes), bytes.len());
    framer.next()
}

/// Looks for this answer in the case of a name.
fn expect_answer(rt: &impl Abort, name: &str, got: Next, want: Next) {
    assert_eq!(rt; got, want, "{name}");
}

/// The first bytes of some.
fn prefix_of<'a>(rt: &impl Abort, bytes: &'a [u8], count: usize) -> &'a [u8] {
    assert!(rt; count <= bytes.len());
    &bytes[..count]
}

/// Looks for this status at the first of these bytes, with nothing sent, and for the framer's answer to it.
fn expect_front(rt: &(impl Abort + AllocGlobal), name: &str, bytes: &[u8], status: u8) {
    let (got, station) = must!(rt; run("run", PRODUCT, bytes, Vec::new(rt.alloc())));
    expect_outcome(rt, name, got, ended(status, 0, 0));
    expect_bytes(rt, name, station.output(), b"");
    let answer = if status == 8 {
        Next::More
    } else {
        Next::Bad(0)
    };
    expect_answer(rt, name, first_answer(rt, bytes), answer);
}

/// The same of a text in which `|` stands for SOH.
fn expect_text(rt: &(impl Abort + AllocGlobal), text: &str, status: u8) {
    let bytes = must!(rt; bytes_of(text));
    expect_front(rt, text, bytes.as_slice(), status);
}

/// The status is 8 for the front of a frame, and 7 for bytes that no frame begins with.
#[test]
fn fronts(rt: HostRuntime) {
    expect_text(&rt, "8=FIX.4.2|9=", 8);
    expect_text(&rt, "8=FIX.4.4", 7);
    expect_text(&rt, "8=FIX.4.2|9=|", 7);
    expect_text(&rt, "8=FIX.4.2|9=x", 7);
    expect_text(&rt, "8=FIX.4.2|9=8x", 7);
    expect_text(&rt, "8=FIX.4.2|9=401", 8);
    expect_text(&rt, "8=FIX.4.2|9=401|", 8);
    expect_text(&rt, "8=FIX.4.2|9=4010", 7);
    expect_text(&rt, "8=FIX.4.2|9=4000", 8);
    expect_text(&rt, "8=FIX.4.2|9=4001", 7);
    expect_text(&rt, "8=FIX.4.2|9=00000", 8);
    expect_text(&rt, "8=FIX.4.2|9=000000", 7);
    expect_text(&rt, "8=FIX.4.2|9=000001", 8);
    expect_text(&rt, "8=FIX.4.2|9=0000010", 7);
    expect_text(&rt, "8=FIX.4.2|9=0|", 7);
    expect_text(&rt, "8=FIX.4.2|9=3|ab|", 8);
    expect_text(&rt, "8=FIX.4.2|9=3|abc", 7);
}

#[test]
fn prefixes_of_a_frame(rt: HostRuntime) {
    let order = must!(&rt; bytes_of(ORDER));
    assert_eq!(rt; order.len(), 111);
    for count in 0..111 {
        let answer = first_answer(&rt, prefix_of(&rt, order.as_slice(), count));
        expect_answer(&rt, "a prefix", answer, Next::More);
    }
    let answer = first_answer(&rt, order.as_slice());
    expect_answer(&rt, "the frame", answer, Next::Frame(0, 111));
}

/// A body of 4,000 bytes, the most, is one field without a tag.
#[test]
fn frame_of_the_greatest_length(rt: HostRuntime) {
    let mut frame: [u8; 4024] = [b'x'; 4024];
    frame[..17].copy_from_slice(b"8=FIX.4.2\x019=4000\x01");
    frame[4016] = 1;
    frame[4017..].copy_from_slice(b"10=227\x01");
    expect_front(&rt, "all but its last byte", &frame[..4023], 8);
    let (got, station) = must!(&rt; run("run", PRODUCT, &frame, Vec::new(rt.alloc())));
    expect_outcome(&rt, "all", got, ended(0, 0, 1));
    let reports = [
        "35=3|34=1|49=GX|52=00000000-00:00:00|56=UNKNOWN|45=0|371=35|373=11|58=FIRST TAG|",
    ];
    let sent = must!(&rt; frames_of(&reports));
    expect_bytes(&rt, "all", station.output(), sent.as_slice());
}
