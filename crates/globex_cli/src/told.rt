//! Files and streams that say on standard error why a call of them failed.
ghost use Rattle.std.specs.Prelude.{◌≡◌};

use gx_station::{ImageFile, InputStream};
use std::io;
use std::io::ErrorKind;

/// Says why a call failed, if it did. A call that was interrupted is made again, so nothing is said of it.
fn told<T>(rt: &HostRuntime, what: &str, answer: io::Result<T>) -> io::Result<T>
    ensures { result ≡ answer }
{
    if let Err(fault) = &answer {
        if fault.kind() != ErrorKind::Interrupted {
            let _ = eprintln!(rt; "globex: {what}: {fault}");
        }
    }
    answer
}

/// A file that says why a call of it failed.
#[derive(Drop)]
pub struct ToldFile<'a, F> {
    rt: &'a HostRuntime,
    file: F,
}

impl<'a, F> ToldFile<'a, F> {
    pub fn new(rt: &'a HostRuntime, file: F) -> ToldFile<'a, F> {
        ToldFile { rt, file }
    }
}

/// As the file does. A lock that is refused is told by who asked for it.
impl<'a, F: ImageFile> ImageFile for ToldFile<'a, F> {
    ghost meanings = { record {
      measured = λ old new answer. F.meanings.measured old.file new.file answer;
      read = λ old new at into ok. F.meanings.read old.file new.file at into ok;
      wrote = λ old new at bytes ok. F.meanings.wrote old.file new.file at bytes ok;
      synced = λ old new ok. F.meanings.synced old.file new.file ok;
      locked = λ old new ok. F.meanings.locked old.file new.file ok;
    } };

    fn length(&mut self) -> io::Result<u64> {
        told(self.rt, "journal.gxj tells no length", self.file.length())
    }

    fn read_whole(&mut self, at: u64, into: &mut [u8]) -> io::Result<()> {
        told(
            self.rt,
            "a read of journal.gxj failed",
            self.file.read_whole(at, into),
        )
    }

    fn write_whole(&mut self, at: u64, bytes: &[u8]) -> io::Result<()> {
        told(
            self.rt,
            "a write to journal.gxj failed",
            self.file.write_whole(at, bytes),
        )
    }

    fn sync(&mut self) -> io::Result<()> {
        told(self.rt, "a sync of journal.gxj failed", self.file.sync())
    }

    fn take_lock(&mut self) -> io::Result<()> {
        self.file.take_lock()
    }
}

/// A stream that says why a read of it failed.
#[derive(Drop)]
pub struct ToldStream<'a, I> {
    rt: &'a HostRuntime,
    what: &'static str,
    stream: I,
}

impl<'a, I> ToldStream<'a, I> {
    pub fn new(rt: &'a HostRuntime, what: &'static str, stream: I) -> ToldStream<'a, I> {
        ToldStream { rt, what, stream }
    }
}

/// As the stream does.
impl<'a, I: InputStream> InputStream for ToldStream<'a, I> {
    ghost meanings = { record {
      left = λ s. I.meanings.left s.stream;
      read = λ old new into answer. I.meanings.read old.stream new.stream into answer;
    } };

    fn read_once(&mut self, into: &mut [u8]) -> io::Result<usize> {
        told(self.rt, self.what, self.stream.read_once(into))
    }
}
