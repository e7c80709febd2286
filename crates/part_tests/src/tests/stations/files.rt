//! The adapters over a file and a writer that fail at will, and over files that are locked.
ghost use Rattle.std.specs.Prelude.{◌≡◌, ◌+◌, ◌≤◌, IfOk};

use super::adapters::{gives, write_within};
use super::expects::{expect, expect_answer, expect_bytes};
use gx_station::{Failed, FileStation, ImageFile, Station, locked};
use std::fs::{File, OpenOptions};
use std::io::{ErrorKind, Write};
use std::process::Abort;
use std::{fs, io};

/// The room of a file in memory.
const ROOM: usize = 16;

/// A file in memory. The calls whose numbers, from 1 on, stand in `fail` do nothing and fail.
#[derive(Drop)]
struct MemFile {
    bytes: [u8; ROOM],
    length: usize,
    synced: [u8; ROOM],
    fail: &'static [u64],
    calls: u64,
}

impl MemFile {
    fn new(fail: &'static [u64]) -> MemFile {
        MemFile {
            bytes: [0; ROOM],
            length: 0,
            synced: [0; ROOM],
            fail,
            calls: 0,
        }
    }

    /// Counts a call, which may be one that fails.
    fn turn(&mut self) -> io::Result<()> {
        self.calls = self.calls.saturating_add(1);
        if self.fail.contains(&self.calls) {
            return Err(io::Error::from(ErrorKind::TimedOut));
        }
        Ok(())
    }
}

/// The bounds of so many bytes from a place on, within the room.
fn bounds(at: u64, count: usize) -> io::Result<(usize, usize)>
    ensures { IfOk result (λ place. (place.0 + count ≡ place.1) × (place.1 ≤ 16)) }
{
    if at <= ROOM as u64 && count <= ROOM - at as usize {
        Ok((at as usize, at as usize + count))
    } else {
        Err(io::Error::from(ErrorKind::StorageFull))
    }
}

/// A file in memory that a station borrows.
#[derive(Drop)]
struct Lent<'a> {
    file: &'a mut MemFile,
}

impl ImageFile for Lent<'_> {
    ghost use Rattle.gx_station.specs.ImageFiles.{FileMeanings};

    ghost meanings = { record
        { measured = λ _ _ _. Unit {0}; read = λ _ _ _ _ _. Unit {0}; wrote = λ _ _ _ _ _. Unit {0}; synced = λ _ _ _. Unit {0}; locked = λ _ _ _. Unit {0} } };

    fn length(&mut self) -> io::Result<u64> {
        self.file.turn()?;
        Ok(self.file.length as u64)
    }

    fn read_whole(&mut self, at: u64, into: &mut [u8]) -> io::Result<()> {
        self.file.turn()?;
        let (start, end) = bounds(at, into.len())?;
        let whole = &self.file.bytes[..];
        into.copy_from_slice(&whole[start..end]);
        Ok(())
    }

    fn write_whole(&mut self, at: u64, bytes: &[u8]) -> io::Result<()> {
        self.file.turn()?;
        let (start, end) = bounds(at, bytes.len())?;
        let whole = &mut self.file.bytes[..];
        whole[start..end].copy_from_slice(bytes);
        self.file.length = self.file.length.max(end);
        Ok(())
    }

    fn sync(&mut self) -> io::Result<()> {
        self.file.turn()?;
        self.file.synced = self.file.bytes;
        Ok(())
    }

    fn take_lock(&mut self) -> io::Result<()> {
        self.file.turn()
    }
}

/// The calls 3, 5, 6 and 8 fail: a length, a write, a sync and a read.
#[test]
fn answers_what_the_file_answered(rt: HostRuntime) {
    let mut file = MemFile::new(&[3, 5, 6, 8]);
    let mut out: Vec<u8> = Vec::new(rt.alloc());
    let mut station = FileStation::new(Some(Lent { file: &mut file }), &mut out);
    expect_answer(&rt, write_within(&mut station, 0, b"abcd"), Ok(()));
    expect_answer(&rt, write_within(&mut station, 2, b"XYZ"), Err(Failed));
    expect_answer(&rt, write_within(&mut station, 2, b"XYZ"), Err(Failed));
    expect_answer(&rt, station.sync(), Err(Failed));
    expect(&rt, !gives(&mut station, b"abcd"));
    expect(&rt, gives(&mut station, b"abcd"));
    expect_answer(&rt, write_within(&mut station, 2, b"XYZ"), Ok(()));
    expect_answer(&rt, station.sync(), Ok(()));
    expect_answer(&rt, write_within(&mut station, 5, b"!"), Ok(()));
    expect(&rt, gives(&mut station, b"abXYZ!"));
    drop(station);
    expect_bytes(&rt, &file.synced[..6], b"abXYZ\0");
    assert_eq!(rt; file.calls, 17);
}

#[test]
fn hands_on_only_what_it_locked(rt: HostRuntime) {
    let mut file = MemFile::new(&[1]);
    assert!(rt; locked(Lent { file: &mut file }).is_none());
    assert!(rt; locked(Lent { file: &mut file }).is_some());
    assert_eq!(rt; file.calls, 2);
}

/// The file of a test, made empty where it is absent, or where it is to be.
pub fn opened(rt: &HostRuntime, path: &str, is_emptied: bool) -> io::Result<File> {
    OpenOptions::new()
        .read(true)
        .write(true)
        .create(true)
        .truncate(is_emptied)
        .open(rt, path)
}

#[test]
fn a_lock_keeps_other_opens_out(rt: HostRuntime) {
    let path = "locked-by-a-test.gxj";
    let first = locked(opened(&rt, path, false).expect(&rt, "a file"));
    assert!(rt; first.is_some());
    let second = locked(opened(&rt, path, false).expect(&rt, "a second open"));
    assert!(rt; second.is_none());
    let mut out: Vec<u8> = Vec::new(rt.alloc());
    let mut station = FileStation::new(second, &mut out);
    assert_eq!(rt; station.length(), Err(Failed));
    assert_eq!(rt; station.read(0, &mut []), Err(Failed));
    expect_answer(&rt, station.write(0, b"x"), Err(Failed));
    expect_answer(&rt, station.sync(), Err(Failed));
    drop(first);
    assert!(rt; locked(opened(&rt, path, false).expect(&rt, "a third open")).is_some());
    fs::remove_file(&rt, path).expect(&rt, "a removal");
}

/// What a write does.
#[derive(Clone, Copy)]
enum Act {
    Take(usize),
    Interrupt,
    Break,
}

/// A writer whose writes do as its acts say, and then break.
#[derive(Drop)]
struct Acting {
    acts: &'static [Act],
    writes: usize,
    taken: usize,
    flushes: usize,
    can_flush: bool,
}

impl Write for Acting {
    fn write(&mut self, buf: &[u8]) -> io::Result<usize> {
        let act = self.acts.get(self.writes).copied().unwrap_or(Act::Break);
        self.writes = self.writes.saturating_add(1);
        match act {
            Act::Take(count) => {
                let count = count.min(buf.len());
                self.taken = self.taken.saturating_add(count);
                Ok(count)
            }
            Act::Interrupt => Err(io::Error::from(ErrorKind::Interrupted)),
            Act::Break => Err(io::Error::from(ErrorKind::BrokenPipe)),
        }
    }

    fn flush(&mut self) -> io::Result<()> {
        self.flushes = self.flushes.saturating_add(1);
        if self.can_flush {
            Ok(())
        } else {
            Err(io::Error::from(ErrorKind::StorageFull))
        }
    }
}

/// What a send of three bytes answered and made of a writer: its writes, the bytes that it took, and its flushes.
#[derive(Clone, Copy, Debug, PartialEq, Eq)]
struct Sent {
    answer: Result<(), Failed>,
    writes: usize,
    taken: usize,
    flushes: usize,
}

/// Sends three bytes to a writer with these acts.
fn send_by(acts: &'static [Act], can_flush: bool) -> Sent {
    let mut writer = Acting {
        acts,
        writes: 0,
        taken: 0,
        flushes: 0,
        can_flush,
    };
    let mut station = FileStation::<File, _>::new(None, &mut writer);
    let answer = station.send(b"abc");
    drop(station);
    Sent {
        answer,
        writes: writer.writes,
        taken: writer.taken,
        flushes: writer.flushes,
    }
}

/// Looks for what a send answered and made of a writer.
fn expect_sent(rt: &impl Abort, got: Sent, want: Sent) {
    assert_eq!(rt; got, want);
}

#[test]
fn sends_until_all_is_taken_and_flushed(rt: HostRuntime) {
    let sent = |answer, writes, taken, flushes| Sent {
        answer,
        writes,
        taken,
        flushes,
    };
    let short = &[Act::Interrupt, Act::Take(1), Act::Interrupt, Act::Take(9)];
    expect_sent(&rt, send_by(short, true), sent(Ok(()), 4, 3, 1));
    expect_sent(
        &rt,
        send_by(&[Act::Take(3)], false),
        sent(Err(Failed), 1, 3, 1),
    );
    expect_sent(
        &rt,
        send_by(&[Act::Take(1), Act::Take(0)], true),
        sent(Err(Failed), 2, 1, 0),
    );
    expect_sent(
        &rt,
        send_by(&[Act::Break], true),
        sent(Err(Failed), 1, 0, 0),
    );
}
