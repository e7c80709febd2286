//! Openings of journals with amendments: by their last text, over every cut of one, and what is bad before texts are compared.
use super::{image_of, station_of};
use match_journal::{Access, EntryKind, Journal, StartFault};
use std::process::Abort;

const LIMIT: u64 = 131_072;

/// A journal of the text `text`, with a record of frames, an amendment to the text `more`, and a book image.
const AMENDED: &[u8] =
    b"\x01GXJOURN2\x00\x00\x00\x04text\x01M\x00\x00\x00\x03one\x01P\x00\x00\x00\x08\x00\x00\x00\x04more\x01D\x00\x00\x00\x01x\x00";

/// Whether one who looks with this text finds a journal, or why not. The image stays as it is.
fn looked(rt: &(impl Abort + AllocGlobal), image: &[u8], text: &[u8]) -> Result<bool, StartFault> {
    assert!(rt; text.len() <= 16);
    let mut station = station_of(rt, image);
    let looked = Journal::look(&mut station, text, LIMIT, Access::Exclusive);
    assert_eq!(rt; station.image(), image);
    looked.map(|found| found.is_some())
}

/// The same for one who starts; an image that is refused stays as it is.
fn started(rt: &(impl Abort + AllocGlobal), image: &[u8], text: &[u8]) -> Result<(), StartFault> {
    assert!(rt; text.len() <= 16);
    let mut station = station_of(rt, image);
    let started = Journal::start(&mut station, text, LIMIT);
    assert!(rt; started.is_ok() || station.image() == image);
    started.map(|_| ())
}

/// The same for one who looks without a text.
fn looked_any(rt: &(impl Abort + AllocGlobal), image: &[u8]) -> Result<bool, StartFault> {
    let mut station = station_of(rt, image);
    let looked = Journal::look_any(&mut station, LIMIT, Access::Exclusive);
    assert_eq!(rt; station.image(), image);
    looked.map(|found| found.is_some())
}

/// Over this image each opening with this text answers so.
fn expect_answer(
    rt: &(impl Abort + AllocGlobal),
    image: &[u8],
    text: &[u8],
    want: Result<bool, StartFault>,
) {
    assert_eq!(rt; looked(rt, image, text), want);
    assert_eq!(rt; started(rt, image, text), want.map(|_| ()));
}

/// What is bad is told whatever the text is, also to one who asks for none.
fn expect_bad(rt: &(impl Abort + AllocGlobal), image: &[u8], at: u64) {
    let want = Err(StartFault::Bad(at));
    expect_answer(rt, image, b"text", want);
    expect_answer(rt, image, b"more", want);
    expect_answer(rt, image, b"tent", want);
    assert_eq!(rt; looked_any(rt, image), want);
}

/// The first bytes of some.
fn front_of<'a>(rt: &impl Abort, bytes: &'a [u8], count: usize) -> &'a [u8] {
    assert!(rt; count <= bytes.len());
    &bytes[..count]
}

/// Of the journal as many bytes as stand in each line answer so to one who looks with its last text.
const CUTS: [(usize, usize, Result<bool, StartFault>); 6] = [
    (0, 1, Ok(false)),
    (9, 17, Err(StartFault::Bad(9))),
    (18, 26, Err(StartFault::Bad(17))),
    (27, 40, Err(StartFault::Bad(26))),
    (41, 47, Err(StartFault::Bad(40))),
    (48, 48, Ok(true)),
];

#[test]
fn every_cut_of_a_journal_with_an_amendment(rt: HostRuntime) {
    for (first, last, want) in CUTS {
        for count in first..=last {
            expect_answer(&rt, front_of(&rt, AMENDED, count), b"more", want);
        }
    }
    for count in 2..=8 {
        let want = Err(StartFault::NotAJournal(count as u64));
        expect_answer(&rt, front_of(&rt, AMENDED, count), b"more", want);
    }
}

/// If the gate at a place is closed, the text before it is the last one.
const CLOSED: [(usize, Result<bool, StartFault>, Result<bool, StartFault>); 4] = [
    (17, Ok(true), Err(StartFault::ProductDiffers(13))),
    (26, Ok(true), Err(StartFault::ProductDiffers(13))),
    (40, Err(StartFault::ProductDiffers(36)), Ok(true)),
    (47, Err(StartFault::ProductDiffers(36)), Ok(true)),
];

#[test]
fn every_gate_of_a_journal_with_an_amendment(rt: HostRuntime) {
    for (gate, text, more) in CLOSED {
        let image = image_of(&rt, &[front_of(&rt, AMENDED, gate), b"\xC8"]);
        expect_answer(&rt, image.as_slice(), b"text", text);
        expect_answer(&rt, image.as_slice(), b"more", more);
        assert_eq!(rt; looked_any(&rt, image.as_slice()), Ok(true));
    }
}

/// Each image with what is answered to one who has the text `more`.
const IMAGES: [(&[u8], Result<bool, StartFault>); 9] = [
    // Of two amendments the last one counts, at its own place.
    (
        b"\x01GXJOURN2\x00\x00\x00\x04text\x01P\x00\x00\x00\x08\x00\x00\x00\x04tent\x01P\x00\x00\x00\x08\x00\x00\x00\x04more\x00",
        Ok(true),
    ),
    (
        b"\x01GXJOURN2\x00\x00\x00\x04text\x01P\x00\x00\x00\x08\x00\x00\x00\x04more\x01P\x00\x00\x00\x08\x00\x00\x00\x04mole\x00",
        Err(StartFault::ProductDiffers(43)),
    ),
    // Texts of other lengths than the header's.
    (
        b"\x01GXJOURN2\x00\x00\x00\x04text\x01P\x00\x00\x00\x06\x00\x00\x00\x02mo\x00",
        Err(StartFault::ProductDiffers(29)),
    ),
    (
        b"\x01GXJOURN2\x00\x00\x00\x04text\x01P\x00\x00\x00\x09\x00\x00\x00\x05mores\x00",
        Err(StartFault::ProductDiffers(31)),
    ),
    (
        b"\x01GXJOURN2\x00\x00\x00\x00\x01P\x00\x00\x00\x09\x00\x00\x00\x04moreX\x00",
        Ok(true),
    ),
    // An earlier amendment has no whole text: it is not looked at.
    (
        b"\x01GXJOURN2\x00\x00\x00\x04text\x01P\x00\x00\x00\x01x\x01P\x00\x00\x00\x08\x00\x00\x00\x04more\x00",
        Ok(true),
    ),
    // The heads of a journal of the first version are not gone over, so no amendment is found, and its header's text counts.
    (
        b"\x01GXJOURN1\x00\x00\x00\x04more\x01P\x00\x00\x00\x08\x00\x00\x00\x04text\x00",
        Ok(true),
    ),
    (
        b"\x01GXJOURN1\x00\x00\x00\x04text\x01P\x00\x00\x00\x08\x00\x00\x00\x04more\x00",
        Err(StartFault::ProductDiffers(13)),
    ),
    (
        b"\x01GXJOURN1\x00\x00\x00\x04more\x01X\x00\x00\x00\x08\x00",
        Ok(true),
    ),
];

#[test]
fn last_texts(rt: HostRuntime) {
    for (image, want) in IMAGES {
        expect_answer(&rt, image, b"more", want);
        assert_eq!(rt; looked_any(&rt, image), Ok(true));
    }
}

/// Images in which a head is bad, or the text of the last amendment, with the place.
const BAD: [(&[u8], u64); 7] = [
    // The size of its text is not there, or it ends past the payload, or is too great.
    (
        b"\x01GXJOURN2\x00\x00\x00\x04text\x01P\x00\x00\x00\x00\x00",
        17,
    ),
    (
        b"\x01GXJOURN2\x00\x00\x00\x04text\x01P\x00\x00\x00\x03\x00\x00\x00\x00",
        17,
    ),
    (
        b"\x01GXJOURN2\x00\x00\x00\x04text\x01P\x00\x00\x00\x08\x00\x00\x00\x05more\x00",
        17,
    ),
    (
        b"\x01GXJOURN2\x00\x00\x00\x04text\x01P\x00\x00\x00\x08\x00\x01\x00\x01more\x00",
        17,
    ),
    // The first bad head comes before it, wherever it stands.
    (
        b"\x01GXJOURN2\x00\x00\x00\x04text\x01P\x00\x00\x00\x08\x00\x00\x00\x05more\x01X\x00\x00\x00\x00\x00",
        31,
    ),
    (
        b"\x01GXJOURN2\x00\x00\x00\x04text\x01M\x00\x00\x00\x00\x01P\x00\x00\x00\x08\x00\x00\x00\x04more\x00",
        17,
    ),
    (
        b"\x01GXJOURN2\x00\x00\x00\x04text\x01P\x00\x00\x00\x08\x00\x00\x00\x04more\x01P\x00\x00\x00\xFF\x00",
        31,
    ),
];

#[test]
fn bad_before_texts_are_compared(rt: HostRuntime) {
    for (image, at) in BAD {
        expect_bad(&rt, image, at);
    }
}

/// The texts of a journal of four bytes each, and the gate of its last amendment.
fn expect_texts_of(
    rt: &(impl Abort + AllocGlobal),
    image: &[u8],
    first: &[u8],
    last: &[u8],
    amended_at: Option<u64>,
) {
    let mut station = station_of(rt, image);
    let looked = Journal::look_any(&mut station, LIMIT, Access::Exclusive);
    let looked = looked.expect(rt, "an image that is opened");
    let mut journal = looked.expect(rt, "a journal");
    assert_eq!(rt; journal.amended_at(), amended_at);
    let mut text = [0; 4];
    assert!(rt; journal.text_len() == 4 && journal.first_len() == 4);
    assert_eq!(rt; journal.read_text(&mut station, &mut text), Ok(()));
    assert_eq!(rt; text.as_slice(), last);
    assert_eq!(rt; journal.read_first(&mut station, &mut text), Ok(()));
    assert_eq!(rt; text.as_slice(), first);
}

#[test]
fn texts_are_read(rt: HostRuntime) {
    let none = b"\x01GXJOURN2\x00\x00\x00\x04text\x00";
    let old = b"\x01GXJOURN1\x00\x00\x00\x04text\x01P\x00\x00\x00\x08\x00\x00\x00\x04more\x00";
    expect_texts_of(&rt, AMENDED, b"text", b"more", Some(26));
    expect_texts_of(&rt, none, b"text", b"text", None);
    expect_texts_of(&rt, old, b"text", b"text", None);
}

/// An amendment is added to a journal of the second version: its text is the last one from then on, also for one who opens.
#[test]
fn amendment_added(rt: HostRuntime) {
    let mut station = station_of(&rt, b"\x01GXJOURN2\x00\x00\x00\x04text\x00");
    let looked = Journal::look_any(&mut station, LIMIT, Access::Exclusive);
    let looked = looked.expect(&rt, "an image that is opened");
    let mut journal = looked.expect(&rt, "a journal");
    assert_eq!(rt; journal.next_entry(&mut station), Ok(None));
    assert!(rt; journal.at_end() && journal.version() == 2);
    let added = journal.append(&mut station, EntryKind::Amendment, b"\x00\x00\x00\x04moreX");
    assert_eq!(rt; added, Ok(()));
    assert_eq!(rt; journal.text_len(), 4);
    assert_eq!(rt; journal.amended_at(), Some(17));
    let want = b"\x01GXJOURN2\x00\x00\x00\x04text\x01P\x00\x00\x00\x09\x00\x00\x00\x04moreX\x00";
    assert_eq!(rt; station.image(), want.as_slice());
    expect_answer(&rt, want, b"more", Ok(true));
    expect_answer(&rt, want, b"text", Err(StartFault::ProductDiffers(27)));
}
