//! The adapter to a journal file and a stream for reports.
ghost use Rattle.std.specs.Prelude.{◌≡◌, ◌≤◌, length, OnOk, OnErr, IfOk};
ghost use Rattle.std.specs.Io.KnownBytes.{Appends, WriteAppends};
ghost use Rattle.gx_station.specs.Streams.{Advances, AreTaken, IsLastWrite, SendsOnce};
ghost use Rattle.gx_station.specs.FileStations.{file_of, writer_of, reach_of, send_faults_of, store_faults_of, AppendsFront};

use crate::count::count_fault;
use crate::image_file::ImageFile;
use crate::station::{Failed, Station};
use crate::streams::{OutputStream, is_interrupted};
use std::io;
use std::io::ErrorKind;

/// Keeps the image in a file, and sends to a stream. `None` stands for a file that could not be opened: each call on the
/// image is then `Failed`. Its meanings tell nothing of the content, and nothing of what a crash leaves. Its clauses say
/// which calls it made of the file and of the stream, and that it answers what they did.
#[derive(Drop)]
pub struct FileStation<F, W> {
    file: Option<F>,
    out: W,
    reach: u64,
    store_faults: u64,
    send_faults: u64,
}

impl<F: ImageFile, W: OutputStream> FileStation<F, W> {
    /// A station over these, with a reach of 0 and no faults counted.
    pub fn new(file: Option<F>, out: W) -> FileStation<F, W>
        ensures file { file_of result ≡ file }
        ensures writer { writer_of result ≡ out }
        ensures reach { reach_of result ≡ 0 }
        ensures store_faults { store_faults_of result ≡ 0 }
        ensures send_faults { send_faults_of result ≡ 0 }
    {
        FileStation {
            file,
            out,
            reach: 0,
            store_faults: 0,
            send_faults: 0,
        }
    }
}

impl<F: ImageFile, W: OutputStream> Station for FileStation<F, W> {
    ghost use Rattle.std.specs.Prelude.{◌≡◌, ◌+◌, ◌≤◌, ◌^◌, length, IsNone, IsErr, OnOk, OnErr, is_ok};
    ghost use Rattle.std.specs.Result.{result_ok};
    ghost use Rattle.std.specs.Io.KnownBytes.{Appends};
    ghost use Rattle.gx_station.specs.Honest.{PassesOutputs};
    ghost use Rattle.gx_station.specs.Quiet.{Sends};
    ghost use Rattle.gx_station.specs.StoreCalls.{Measures, Reads, Writes, Syncs};
    ghost use Rattle.gx_station.specs.ImageFiles.{CallsFile};
    ghost use Rattle.gx_station.specs.Streams.{SendsOnce};
    ghost use Rattle.gx_station.specs.FileStations.{file_meanings, file_honest, file_of, writer_of, reach_of, AppendsFront};

    ghost meanings = { file_meanings };

    ghost honest = { file_honest };

    /// As the trait says, by one call on the file, whose answer this is. Where there is no file, it is `Failed`.
    fn length(&mut self) -> Result<u64, Failed>
        ensures measures { Measures file_meanings self.old self.new result }
        ensures closed { IsNone (file_of self.old) → IsErr result }
        ensures measured { CallsFile (file_of self.old) (file_of self.new) (λ old new.
            F.meanings.measured old new (result_ok result)) }
        ensures writer { writer_of self.new ≡ writer_of self.old }
    {
        let Some(file) = &mut self.file else {
            return Err(count_fault(&mut self.store_faults));
        };
        let Ok(length) = file.length() else {
            return Err(count_fault(&mut self.store_faults));
        };
        self.reach = self.reach.max(length);
        Ok(length)
    }

    /// As the trait says, by one call on the file, whose answer this is. Where there is no file, it is `Failed`.
    fn read(&mut self, at: u64, into: &mut [u8]) -> Result<(), Failed>
        ensures reads { Reads file_meanings self.old self.new at into.new result }
        ensures closed { IsNone (file_of self.old) → IsErr result }
        ensures read { CallsFile (file_of self.old) (file_of self.new) (λ old new.
            F.meanings.read old new at into.new (is_ok result)) }
        ensures writer { writer_of self.new ≡ writer_of self.old }
    {
        let Some(file) = &mut self.file else {
            return Err(count_fault(&mut self.store_faults));
        };
        if file.read_whole(at, into).is_err() {
            return Err(count_fault(&mut self.store_faults));
        }
        Ok(())
    }

    /// As the trait says, by one call on the file, whose answer this is. Where there is no file, it is `Failed`.
    fn write(&mut self, at: u64, bytes: &[u8]) -> Result<(), Failed>
        requires within { at ≤ reach_of self.old }
        requires small { at + length bytes.now ≤ 2 ^ 62 }
        ensures writes { Writes file_meanings self.old self.new at bytes.now result }
        ensures closed { IsNone (file_of self.old) → IsErr result }
        ensures wrote { CallsFile (file_of self.old) (file_of self.new) (λ old new.
            F.meanings.wrote old new at bytes.now (is_ok result)) }
        ensures writer { writer_of self.new ≡ writer_of self.old }
    {
        let Some(file) = &mut self.file else {
            return Err(count_fault(&mut self.store_faults));
        };
        if file.write_whole(at, bytes).is_err() {
            return Err(count_fault(&mut self.store_faults));
        }
        self.reach = self.reach.max(at + bytes.len() as u64);
        Ok(())
    }

    /// As the trait says, by one call on the file, whose answer this is. Where there is no file, it is `Failed`.
    fn sync(&mut self) -> Result<(), Failed>
        ensures syncs { Syncs file_meanings self.old self.new result }
        ensures closed { IsNone (file_of self.old) → IsErr result }
        ensures synced { CallsFile (file_of self.old) (file_of self.new) (λ old new.
            F.meanings.synced old new (is_ok result)) }
        ensures writer { writer_of self.new ≡ writer_of self.old }
    {
        let Some(file) = &mut self.file else {
            return Err(count_fault(&mut self.store_faults));
        };
        if file.sync().is_err() {
            return Err(count_fault(&mut self.store_faults));
        }
        Ok(())
    }

    /// As the trait says. Ok says that the writer took all of the bytes and was then flushed. `Failed` says that a write
    /// took none or failed, or that the flush failed; the writer then has taken a part from their front, or all.
    fn send(&mut self, bytes: &[u8]) -> Result<(), Failed>
        ensures sends { Sends file_meanings self.old self.new bytes.now result }
        ensures passes { PassesOutputs file_meanings self.old self.new }
        ensures written { OnOk result (Appends (W.meanings.holds (writer_of self.old)) (W.meanings.holds (writer_of self.new)) bytes.now) }
        ensures part { OnErr result (AppendsFront (W.meanings.holds (writer_of self.old)) (W.meanings.holds (writer_of self.new)) bytes.now) }
        ensures calls { SendsOnce W.meanings (writer_of self.old) (writer_of self.new) bytes.now result }
        ensures file { file_of self.new ≡ file_of self.old }
    {
        if write_out(&mut self.out, bytes).is_err() {
            return Err(count_fault(&mut self.send_faults));
        }
        if self.out.flush_taken().is_err() {
            return Err(count_fault(&mut self.send_faults));
        }
        Ok(())
    }
}

/// Writes once, and says how many bytes were taken: none where it was interrupted. A write that takes nothing fails.
fn write_some<W: OutputStream>(out: &mut W, bytes: &[u8]) -> io::Result<usize>
    ensures bound { IfOk result (λ n. n ≤ length bytes.now) }
    ensures bytes { WriteAppends (W.meanings.holds out.old) (W.meanings.holds out.new) result bytes.now }
    ensures advances { IfOk result (λ n. Advances W.meanings out.old out.new bytes.now n) }
    ensures refused { OnErr result (IsLastWrite W.meanings out.old out.new bytes.now) }
{
    match out.write_once(bytes) {
        Ok(0) => Err(io::Error::from(ErrorKind::WriteZero)),
        Ok(n) => Ok(n),
        Err(e) if is_interrupted(&e) => Ok(0),
        Err(e) => Err(e),
    }
}

/// Writes all of the bytes. Where it fails, a part from their front is written.
fn write_out<W: OutputStream>(out: &mut W, bytes: &[u8]) -> io::Result<()>
    ensures all { OnOk result (Appends (W.meanings.holds out.old) (W.meanings.holds out.new) bytes.now) }
    ensures part { AppendsFront (W.meanings.holds out.old) (W.meanings.holds out.new) bytes.now }
    ensures taken { OnOk result (AreTaken W.meanings out.old out.new bytes.now) }
    ensures calls { OnErr result (SendsOnce W.meanings out.old out.new bytes.now result) }
{
    let mut count = 0;
    for _tries in 0..u64::MAX {
        if count == bytes.len() {
            return Ok(());
        }
        count += write_some(out, &bytes[count..])?;
    }
    Err(io::Error::from(ErrorKind::Interrupted))
}
