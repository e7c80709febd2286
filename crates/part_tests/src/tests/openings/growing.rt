//! Reading a journal while another process adds to it: each call on the file sees the next of some moments.
use gx_station::{FileStation, ImageFile};
use match_journal::{Access, Journal, StartFault, WalkFault};
use std::io;
use std::io::ErrorKind;
use std::process::Abort;

const LIMIT: u64 = 131_072;

/// A file whose image is another at each call, up to the last of its moments.
#[derive(Drop)]
struct Growing<'a> {
    moments: &'a [&'a [u8]],
    calls: usize,
}

impl Growing<'_> {
    /// The image at this call.
    fn turn(&mut self) -> io::Result<&[u8]> {
        let now = self.calls.min(self.moments.len().saturating_sub(1));
        self.calls = self.calls.saturating_add(1);
        match self.moments.get(now) {
            Some(image) => Ok(image),
            None => Err(io::Error::from(ErrorKind::UnexpectedEof)),
        }
    }
}

impl ImageFile for Growing<'_> {
    ghost use Rattle.gx_station.specs.ImageFiles.{FileMeanings};

    ghost meanings = { record
        { measured = λ _ _ _. Unit {0}; read = λ _ _ _ _ _. Unit {0}; wrote = λ _ _ _ _ _. Unit {0}; synced = λ _ _ _. Unit {0}; locked = λ _ _ _. Unit {0} } };

    fn length(&mut self) -> io::Result<u64> {
        Ok(self.turn()?.len() as u64)
    }

    fn read_whole(&mut self, at: u64, into: &mut [u8]) -> io::Result<()> {
        let image = self.turn()?;
        if at > image.len() as u64 || into.len() > image.len() - at as usize {
            return Err(io::Error::from(ErrorKind::UnexpectedEof));
        }
        let start = at as usize;
        into.copy_from_slice(&image[start..start + into.len()]);
        Ok(())
    }

    fn write_whole(&mut self, _at: u64, _bytes: &[u8]) -> io::Result<()> {
        Err(io::Error::from(ErrorKind::PermissionDenied))
    }

    fn sync(&mut self) -> io::Result<()> {
        Err(io::Error::from(ErrorKind::PermissionDenied))
    }

    fn take_lock(&mut self) -> io::Result<()> {
        Err(io::Error::from(ErrorKind::PermissionDenied))
    }
}

/// A journal of the text `text` without a record; with a record behind a gate that is still closed; and with that record.
const NONE: &[u8] = b"\x01GXJOURN2\x00\x00\x00\x04text\x00";

const WRITTEN: &[u8] = b"\x01GXJOURN2\x00\x00\x00\x04text\x00M\x00\x00\x00\x03one\x00";

const ONE: &[u8] = b"\x01GXJOURN2\x00\x00\x00\x04text\x01M\x00\x00\x00\x03one\x00";

/// The same with an amendment to the text `more`.
const AMENDED: &[u8] =
    b"\x01GXJOURN2\x00\x00\x00\x04text\x01M\x00\x00\x00\x03one\x01P\x00\x00\x00\x08\x00\x00\x00\x04more\x00";

/// A journal with a bad head, and one that is longer.
const BAD: &[u8] = b"\x01GXJOURN2\x00\x00\x00\x04text\x01X\x00\x00\x00\x03one\x00";

const LONGER_BAD: &[u8] = b"\x01GXJOURN2\x00\x00\x00\x04text\x01X\x00\x00\x00\x03one\x00M";

/// Whether one who looks meanwhile finds a journal of this text, or why not.
fn looked(
    rt: &(impl Abort + AllocGlobal),
    moments: &[&[u8]],
    text: &[u8],
    access: Access,
) -> Result<bool, StartFault> {
    assert!(rt; text.len() <= 16);
    let mut out: Vec<u8> = Vec::new(rt.alloc());
    let file = Growing { moments, calls: 0 };
    let mut station = FileStation::new(Some(file), &mut out);
    let found = Journal::look(&mut station, text, LIMIT, access);
    found.map(|journal| journal.is_some())
}

/// What is answered where others may append, and where they may not.
fn expect_looks(
    rt: &(impl Abort + AllocGlobal),
    moments: &[&[u8]],
    text: &[u8],
    shared: Result<bool, StartFault>,
    exclusive: Result<bool, StartFault>,
) {
    assert_eq!(rt; looked(rt, moments, text, Access::Shared), shared);
    assert_eq!(rt; looked(rt, moments, text, Access::Exclusive), exclusive);
}

/// The first call measures, the second reads the front, and the others read a head each, or measure again.
#[test]
fn records_added_while_heads_are_gone_over(rt: HostRuntime) {
    expect_looks(
        &rt,
        &[NONE, NONE, ONE],
        b"text",
        Ok(true),
        Err(StartFault::Bad(17)),
    );
    expect_looks(
        &rt,
        &[NONE, NONE, AMENDED],
        b"more",
        Ok(true),
        Err(StartFault::Bad(17)),
    );
    expect_looks(
        &rt,
        &[NONE, NONE, AMENDED],
        b"text",
        Err(StartFault::ProductDiffers(36)),
        Err(StartFault::Bad(17)),
    );
    expect_looks(
        &rt,
        &[ONE, ONE, ONE, AMENDED],
        b"more",
        Ok(true),
        Err(StartFault::Bad(26)),
    );
    expect_looks(
        &rt,
        &[NONE, NONE, WRITTEN, ONE],
        b"text",
        Ok(true),
        Ok(true),
    );
}

/// A bad head is bad for both, also where the image has grown.
#[test]
fn bad_heads_stay_bad(rt: HostRuntime) {
    let bad = Err(StartFault::Bad(17));
    expect_looks(&rt, &[BAD], b"text", bad, bad);
    expect_looks(&rt, &[BAD, BAD, BAD, LONGER_BAD], b"text", bad, bad);
}

/// A journal is created while its front is read.
#[test]
fn created_while_the_front_is_read(rt: HostRuntime) {
    let part = b"\x00GXJ";
    let closed = b"\x00GXJOURN2\x00\x00\x00\x04text\x00";
    let foreign = Err(StartFault::NotAJournal(4));
    expect_looks(&rt, &[part, NONE], b"text", Ok(true), foreign);
    expect_looks(&rt, &[part, closed, NONE], b"text", Ok(false), Ok(false));
    expect_looks(&rt, &[b"\x01GXJ"], b"text", foreign, foreign);
}

/// Whether the image has grown where the next head is bad, of a journal that was opened in the first three calls.
fn has_grown(rt: &(impl Abort + AllocGlobal), moments: &[&[u8]]) -> bool {
    let mut out: Vec<u8> = Vec::new(rt.alloc());
    let file = Growing { moments, calls: 0 };
    let mut station = FileStation::new(Some(file), &mut out);
    let looked = Journal::look_any(&mut station, LIMIT, Access::Shared);
    let looked = looked.expect(rt, "an image that is opened");
    let mut journal = looked.expect(rt, "a journal");
    assert!(rt; journal.is_shared());
    assert_eq!(rt; journal.next_entry(&mut station), Err(WalkFault::Bad(17)));
    let grown = journal.has_grown(&mut station);
    grown.expect(rt, "a length")
}

#[test]
fn growth_is_told(rt: HostRuntime) {
    assert!(rt; has_grown(&rt, &[NONE, NONE, NONE, ONE]));
    let same_length = b"\x01GXJOURN2\x00\x00\x00\x04text\x01";
    assert!(rt; !has_grown(&rt, &[NONE, NONE, NONE, same_length]));
}
