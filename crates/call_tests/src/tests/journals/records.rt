//! Journals in memory: two messages in one record, images that are opened or refused, and what failed calls leave.
ghost use Rattle.std.specs.Prelude.{◌≡◌, ◌≢◌, ◌≤◌, true};
ghost use Rattle.match_journal.specs.Journal.{has_kind, least_payload, most_payload};
ghost use Rattle.match_journal.specs.declared.entry.EntryKind.TheVariants.{Amendment};
ghost use Rattle.match_journal.specs.declared.version.Version.{Version};

use super::{ORDERS, journal_of};
use gx_station::Station;
use match_journal::{Access, AppendFault, Entry, EntryKind, Journal, StartFault};
use run_fixtures::{PRODUCT, failing_station, join, must, station_of};
use std::process::Abort;

const LIMIT: u64 = 131_072;

#[test]
fn two_messages_in_one_record(rt: HostRuntime) {
    let mut station = must!(&rt; station_of(b""));
    let started = Journal::start(&mut station, PRODUCT.as_bytes(), LIMIT);
    let mut journal = started.expect(&rt, "a journal");
    assert_eq!(rt; journal.next_entry(&mut station), Ok(None));
    let both = must!(&rt; join(&ORDERS));
    assert_eq!(rt; both.len(), 221);
    assert!(rt; journal.at_end());
    let added = journal.append(&mut station, EntryKind::Frames, both.as_slice());
    assert_eq!(rt; added, Ok(()));
    let one = journal_of(&rt, &[b"\x01M\x00\x00\x00\xDD", both.as_slice()]);
    assert_eq!(rt; station.image(), one.as_slice());
    assert_eq!(rt; journal.end(), 376);
}

#[test]
fn records_are_read_in_their_order(rt: HostRuntime) {
    let image = journal_of(
        &rt,
        &[b"\x01M\x00\x00\x00\x03one", b"\x01M\x00\x00\x00\x012"],
    );
    let mut station = must!(&rt; station_of(image.as_slice()));
    let looked = Journal::look(&mut station, PRODUCT.as_bytes(), LIMIT, Access::Shared);
    let looked = looked.expect(&rt, "an image that is opened");
    let mut journal = looked.expect(&rt, "a journal");
    let kind = EntryKind::Frames;
    let first = Entry {
        at: 149,
        kind,
        length: 3,
    };
    let second = Entry {
        at: 158,
        kind,
        length: 1,
    };
    assert_eq!(rt; journal.next_entry(&mut station), Ok(Some(first)));
    assert_eq!(rt; journal.next_entry(&mut station), Ok(Some(second)));
    assert!(rt; !journal.at_end());
    assert_eq!(rt; journal.next_entry(&mut station), Ok(None));
    assert!(rt; journal.at_end());
    assert_eq!(rt; journal.end(), 165);
    journal.rewind();
    assert!(rt; !journal.at_end());
    assert_eq!(rt; journal.next_entry(&mut station), Ok(Some(first)));
}

/// Two records of book images of a kind, of which the second is longer than the frames of a record may be, are read as they were
/// written, and the image has the byte of the kind.
fn expect_images(rt: &(impl Abort + AllocGlobal), kind: EntryKind, byte: u8)
    requires some { least_payload kind ≤ 0 }
    requires few { 9000 ≤ most_payload kind }
    requires known { (version : Version) → has_kind version kind ≡ true }
    requires alone { kind ≢ Amendment }
{
    let mut station = must!(rt; station_of(b""));
    let started = Journal::start(&mut station, PRODUCT.as_bytes(), LIMIT);
    let mut journal = started.expect(rt, "a journal");
    let long = [b'x'; 9_000];
    assert_eq!(rt; journal.next_entry(&mut station), Ok(None));
    assert!(rt; journal.at_end());
    assert_eq!(rt; journal.append(&mut station, kind, b""), Ok(()));
    assert!(rt; journal.at_end());
    assert_eq!(rt; journal.append(&mut station, kind, &long), Ok(()));
    assert_eq!(rt; journal.end(), 9_161);
    journal.rewind();
    let empty = Entry {
        at: 149,
        kind,
        length: 0,
    };
    let whole = Entry {
        at: 155,
        kind,
        length: 9_000,
    };
    assert_eq!(rt; journal.next_entry(&mut station), Ok(Some(empty)));
    assert_eq!(rt; journal.next_entry(&mut station), Ok(Some(whole)));
    assert_eq!(rt; journal.next_entry(&mut station), Ok(None));
    assert!(rt; station.image().ends_with(b"xxx\x00"));
    for gate in [149, 155] {
        assert_eq!(rt; station.image().get(gate + 1), Some(&byte));
    }
}

/// Records of book images, of now and of before.
#[test]
fn records_of_images(rt: HostRuntime) {
    expect_images(&rt, EntryKind::Image, b'D');
    expect_images(&rt, EntryKind::OldImage, b'C');
}

/// Each image of the first version with what is answered to one who looks, whether there is a journal, or why not; the product is
/// `text`. In the second version the answers are the same.
const IMAGES: [(&[u8], Result<bool, StartFault>); 22] = [
    (b"", Ok(false)),
    (b"\x01", Ok(false)),
    (b"\xC8", Ok(false)),
    (b"\x00hello", Ok(false)),
    (b"\xC8GXJOURN1\x00\x00\x00\x04text\x00", Ok(false)),
    (b"\xC8GXJOURN1\x00\x00\x00\x04text\x00behind", Ok(false)),
    (
        b"\xC8GXJOURN1\x00\x00\x00\x04text\x01",
        Err(StartFault::NotAJournal(0)),
    ),
    (
        b"\xC8GXJOURN1\x00\x00\x00\x04text",
        Err(StartFault::NotAJournal(0)),
    ),
    (
        b"\xC8GXJOURN1\x00\x00\x00\x04tent\x00",
        Err(StartFault::ProductDiffers(15)),
    ),
    (b"hello", Err(StartFault::NotAJournal(0))),
    (b"\x01GXJ", Err(StartFault::NotAJournal(4))),
    (
        b"\x01GXJOURN3\x00\x00\x00\x04text\x00",
        Err(StartFault::NotAJournal(8)),
    ),
    (
        b"\xC8GXJOURN3\x00\x00\x00\x04text\x00",
        Err(StartFault::NotAJournal(0)),
    ),
    (
        b"\x01gXJOURN1\x00\x00\x00\x04text\x00",
        Err(StartFault::NotAJournal(1)),
    ),
    (b"\x01GXJOURN1", Err(StartFault::Bad(9))),
    (b"\x01GXJOURN1\x00\x00\x00\x04text", Err(StartFault::Bad(9))),
    (
        b"\x01GXJOURN1\x00\x01\x00\x01text\x00",
        Err(StartFault::Bad(9)),
    ),
    (b"\x01GXJOURN1\x00\x00\x00\x04text\x00", Ok(true)),
    (b"\x01GXJOURN1\x00\x00\x00\x04text\xC8behind", Ok(true)),
    (
        b"\x01GXJOURN1\x00\x00\x00\x04texu\x00",
        Err(StartFault::ProductDiffers(16)),
    ),
    (
        b"\x01GXJOURN1\x00\x00\x00\x03tex\x00",
        Err(StartFault::ProductDiffers(16)),
    ),
    (
        b"\x01GXJOURN1\x00\x00\x00\x05textt\x00",
        Err(StartFault::ProductDiffers(17)),
    ),
];

/// Whether one who looks at this image finds a journal, or why not; the image stays as it is.
fn expect_looked(rt: &(impl Abort + AllocGlobal), image: &[u8], want: Result<bool, StartFault>) {
    let mut station = must!(rt; station_of(image));
    let looked = Journal::look(&mut station, b"text", LIMIT, Access::Shared);
    assert_eq!(rt; looked.map(|found| found.is_some()), want);
    assert_eq!(rt; station.image(), image);
}

/// Whether one starts over this image, or why not; then the image stays as it is.
fn expect_started(rt: &(impl Abort + AllocGlobal), image: &[u8], want: Result<(), StartFault>) {
    let mut station = must!(rt; station_of(image));
    let started = Journal::start(&mut station, b"text", LIMIT);
    assert_eq!(rt; started.map(|_| ()), want);
    assert!(rt; want.is_ok() || station.image() == image);
}

/// The image in the second version, if it is of the first.
fn in_second_version(rt: &(impl Abort + AllocGlobal), image: &[u8]) -> Vec<u8> {
    let mut image = image.to_vec(rt.alloc()).expect(rt, "memory");
    if image.len() > 8 && image[8] == b'1' {
        image[8] = b'2';
    }
    image
}

#[test]
fn images_by_their_class(rt: HostRuntime) {
    for (image, want) in IMAGES {
        expect_looked(&rt, image, want);
        expect_started(&rt, image, want.map(|_| ()));
        let second = in_second_version(&rt, image);
        expect_looked(&rt, second.as_slice(), want);
        expect_started(&rt, second.as_slice(), want.map(|_| ()));
    }
}

/// Over this image one who starts has a journal of this version.
fn expect_version(rt: &(impl Abort + AllocGlobal), image: &[u8], version: u8) {
    let mut station = must!(rt; station_of(image));
    let started = Journal::start(&mut station, b"text", LIMIT);
    let journal = started.expect(rt, "a journal");
    assert_eq!(rt; journal.version(), version);
    let byte = b'0' + version;
    assert_eq!(rt; station.image().get(8), Some(&byte));
}

/// A journal that is made is of the second version; a sealed one and an open one keep their own.
#[test]
fn versions_of_journals(rt: HostRuntime) {
    expect_version(&rt, b"", 2);
    expect_version(&rt, b"\x00GXJOURN1\x00\x00\x00\x04text\x00", 2);
    expect_version(&rt, b"\xC8GXJOURN1\x00\x00\x00\x04text\x00", 1);
    expect_version(&rt, b"\xC8GXJOURN2\x00\x00\x00\x04text\x00", 2);
    expect_version(&rt, b"\x01GXJOURN1\x00\x00\x00\x04text\x00", 1);
    expect_version(&rt, b"\x01GXJOURN2\x00\x00\x00\x04text\x00", 2);
}

#[test]
fn a_look_does_not_sync(rt: HostRuntime) {
    let image = b"\x01GXJOURN1\x00\x00\x00\x04text\x00";
    let mut station = must!(&rt; station_of(image));
    assert_eq!(rt; station.length(), Ok(18));
    assert_eq!(rt; station.write(17, b"\x00"), Ok(()));
    let looked = Journal::look(&mut station, b"text", LIMIT, Access::Shared);
    assert!(rt; matches!(looked, Ok(Some(_))));
    // A length, the head, and the text.
    assert_eq!(rt; station.calls(), 5);
    let left = station.crash_image(rt.alloc(), 5, 200);
    let left = left.expect(&rt, "memory");
    assert_eq!(rt;
        left.as_slice(),
        b"\x01GXJOURN1\x00\x00\x00\x04text\xC8".as_slice()
    );
}

/// Each of the ten calls of an opening fails, and each of the four of an append, which is then the last.
#[test]
fn failed_calls(rt: HostRuntime) {
    for call in [1, 2, 3, 4, 5, 6, 7, 8, 9, 10, 12, 13, 14, 15] {
        let mut station = must!(&rt; failing_station(b"", call));
        match Journal::start(&mut station, PRODUCT.as_bytes(), LIMIT) {
            Err(fault) => {
                assert!(rt; call <= 10 && fault == StartFault::Store);
            }
            Ok(mut journal) => {
                assert!(rt; 12 <= call);
                assert_eq!(rt; journal.next_entry(&mut station), Ok(None));
                assert!(rt; journal.at_end());
                let added = journal.append(&mut station, EntryKind::Frames, b"text");
                assert_eq!(rt; added, Err(AppendFault::Store));
                journal.rewind();
                let _ = journal.next_entry(&mut station);
                assert!(rt; !journal.at_end());
            }
        }
    }
}
