//! What the adapters ask of a stream of bytes.
ghost use Rattle.std.specs.Prelude.{◌≡◌, ◌≤◌, ◌↔◌, IfOk, IsTrue, length, is_ok};
ghost use Rattle.std.specs.IoError.{error_kind};
ghost use Rattle.std.specs.Io.KnownBytes.{Keeps, ReadConsumes, WriteAppends};
ghost use Rattle.gx_station.specs.Streams.{InputMeanings, OutputMeanings, answer_of};

use std::io;
use std::io::{ErrorKind, Read, Write};

/// A stream that is read from its front.
pub trait InputStream {
    ghost meanings: { InputMeanings Self };

    /// Reads once into the front of `into`, and answers how many bytes it placed there.
    fn read_once(&mut self, into: &mut [u8]) -> io::Result<usize>
        ensures within { IfOk result (λ n. n ≤ length into.new) }
        ensures bytes { ReadConsumes (meanings.left self.old) (meanings.left self.new) result into.new }
        ensures read { meanings.read self.old self.new into.new (answer_of result) };
}

/// A stream that takes bytes at its end.
pub trait OutputStream {
    ghost meanings: { OutputMeanings Self };

    /// Offers the bytes once, and answers how many of them were taken.
    fn write_once(&mut self, bytes: &[u8]) -> io::Result<usize>
        ensures within { IfOk result (λ n. n ≤ length bytes.now) }
        ensures bytes { WriteAppends (meanings.holds self.old) (meanings.holds self.new) result bytes.now }
        ensures wrote { meanings.wrote self.old self.new bytes.now (answer_of result) };

    /// Leaves none of the bytes that were taken in a buffer of the stream's.
    fn flush_taken(&mut self) -> io::Result<()>
        ensures bytes { Keeps (meanings.holds self.old) (meanings.holds self.new) }
        ensures flushed { meanings.flushed self.old self.new (is_ok result) };
}

/// Any std reader. The line is trusted as far as std's clauses say nothing: of errors.
impl<R: Read> InputStream for R {
    ghost meanings = { record { left = R.remaining; read = λ _ _ _ _. Unit {0} } };

    fn read_once(&mut self, into: &mut [u8]) -> io::Result<usize> {
        self.read(into)
    }
}

/// Any std writer. The two lines are trusted as far as std's clauses say nothing: of errors, and of a flush.
impl<W: Write> OutputStream for W {
    ghost meanings = { record { holds = W.contents; wrote = λ _ _ _ _. Unit {0}; flushed = λ _ _ _. Unit {0} } };

    fn write_once(&mut self, bytes: &[u8]) -> io::Result<usize> {
        self.write(bytes)
    }

    fn flush_taken(&mut self) -> io::Result<()> {
        self.flush()
    }
}

/// Whether a call was interrupted before it did anything.
pub(crate) fn is_interrupted(fault: &io::Error) -> bool
    ensures { IsTrue result ↔ (error_kind fault.now ≡ ErrorKind.Interrupted) }
{
    fault.kind() == ErrorKind::Interrupted
}
