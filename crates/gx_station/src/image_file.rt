//! What a station asks of a file.
ghost use Rattle.std.specs.Prelude.{is_ok};
ghost use Rattle.std.specs.Result.{result_ok};
ghost use Rattle.gx_station.specs.ImageFiles.{FileMeanings, real_file};

use std::fs::File;
use std::io;
use std::os::unix::fs::FileExt;

/// A file that keeps an image. Places and lengths are in bytes.
pub trait ImageFile {
    ghost meanings: { FileMeanings Self };

    /// The length of the file.
    fn length(&mut self) -> io::Result<u64>
        ensures measured { meanings.measured self.old self.new (result_ok result) };

    /// Fills all of `into` with the bytes from a place on.
    fn read_whole(&mut self, at: u64, into: &mut [u8]) -> io::Result<()>
        ensures read { meanings.read self.old self.new at into.new (is_ok result) };

    /// Writes all of the bytes at their place.
    fn write_whole(&mut self, at: u64, bytes: &[u8]) -> io::Result<()>
        ensures wrote { meanings.wrote self.old self.new at bytes.now (is_ok result) };

    /// The full sync of the file's data and length.
    fn sync(&mut self) -> io::Result<()>
        ensures synced { meanings.synced self.old self.new (is_ok result) };

    /// Takes the exclusive lock, which is given back where the file is dropped. It does not wait.
    fn take_lock(&mut self) -> io::Result<()>
        ensures locked { meanings.locked self.old self.new (is_ok result) };
}

/// The real file. These five lines are trusted: no clause can say what a file gives or takes.
impl ImageFile for File {
    ghost meanings = { real_file };

    fn length(&mut self) -> io::Result<u64> {
        Ok(self.metadata()?.len())
    }

    fn read_whole(&mut self, at: u64, into: &mut [u8]) -> io::Result<()> {
        self.read_exact_at(into, at)
    }

    fn write_whole(&mut self, at: u64, bytes: &[u8]) -> io::Result<()> {
        self.write_all_at(bytes, at)
    }

    fn sync(&mut self) -> io::Result<()> {
        self.sync_all()
    }

    fn take_lock(&mut self) -> io::Result<()> {
        Ok(self.try_lock()?)
    }
}
