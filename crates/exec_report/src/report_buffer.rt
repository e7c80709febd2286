//! Reports that wait to be sent.
ghost use Rattle.std.specs.Prelude.{◌≡◌, ◌+◌, ◌≤◌, ◌↔◌, ◌++◌, ◌==◌, [], IsTrue, IfOk, length, vec_len, vec_capacity};
ghost use Rattle.std.specs.Bool.{OnTrue, OnFalse};
ghost use Rattle.exec_report.specs.Inner.{reported_event};

use crate::line_form::{LONGEST_PRINTED, LineForm};
use crate::reported::{Reported, write_reported};
use gx_base::{Names, append};
use line_parts::zeros;
use std::alloc::{AllocError, Global};
use std::marker::Model;

/// How many bytes of lines may wait to be sent (our own rule).
pub const MOST_WAITING: usize = 65_536;

/// How many bytes a buffer has room for: those that may wait, and what a form prints of one event after them.
pub const BUFFER_ROOM: usize = MOST_WAITING + LONGEST_PRINTED;

/// Report lines that wait to be sent, one after the other, at most `MOST_WAITING` bytes. Contracts see it as these bytes.
#[derive(Drop)]
pub struct ReportBuffer {
    /// The lines, and after them room for one more than may wait.
    bytes: Vec<u8>,
    /// How many of the bytes wait.
    len: usize,
}

impl Model for ReportBuffer {
    ghost use Rattle.std.specs.Prelude.{List, ℕ};

    ghost Value = { List ℕ };

    ghost use Rattle.std.specs.Prelude.{◌≡◌, ◌≤◌, take, vec_len, vec_capacity};
    ghost use Rattle.exec_report.specs.declared.report_buffer.TheConstants.{MOST_WAITING, BUFFER_ROOM};

    ghost view = { λ b. take b.len b.bytes.items };

    ghost invariant = { λ b. (b.len ≤ MOST_WAITING) × (vec_len b.bytes ≡ BUFFER_ROOM) × (vec_capacity b.bytes ≡ BUFFER_ROOM) };
}

impl ReportBuffer {
    /// An empty buffer. It takes all the memory, `BUFFER_ROOM` bytes: the buffer never grows. An `Err` is want of memory.
    pub fn new(alloc: Global) -> Result<ReportBuffer, AllocError>
        ensures { IfOk result (λ b. b ≡ []) }
    {
        Ok(ReportBuffer {
            bytes: zeros(alloc, BUFFER_ROOM)?,
            len: 0,
        })
    }

    /// Writes the line of what is reported after the bytes that wait, and answers whether there was room for it. Where there
    /// was none, nothing is added.
    #[inline(always)]
    pub(crate) fn add_line<F: LineForm>(
        &mut self,
        form: &F,
        reported: Reported<'_>,
        names: &Names,
    ) -> bool
        ensures fits { IsTrue result ↔ (length self.old + length (F.meanings.text form.now names.now (reported_event reported.entry)) ≤ MOST_WAITING) }
        ensures added { OnTrue result (self.new ≡ self.old ++ F.meanings.text form.now names.now (reported_event reported.entry)) }
        ensures full { OnFalse result (self.new ≡ self.old) }
        ensures short { length (F.meanings.text form.now names.now (reported_event reported.entry)) ≤ LONGEST_PRINTED }
    {
        let count = write_reported(form, reported, names, &mut self.bytes[self.len..]);
        if count > MOST_WAITING - self.len {
            return false;
        }
        self.len += count;
        true
    }

    /// Adds a text to the bytes that wait, and answers whether there was room for it. Where there was none, nothing is added.
    pub(crate) fn add_text(&mut self, text: &[u8]) -> bool
        ensures fits { IsTrue result ↔ (length self.old + length text.now ≤ MOST_WAITING) }
        ensures added { OnTrue result (self.new ≡ self.old ++ text.now) }
        ensures full { OnFalse result (self.new ≡ self.old) }
    {
        if text.len() > MOST_WAITING - self.len {
            return false;
        }
        self.len = append(&mut self.bytes, self.len, text);
        true
    }

    /// Whether no byte waits.
    pub(crate) fn is_empty(&self) -> bool
        ensures { IsTrue result ↔ (self.now ≡ []) }
    {
        self.len == 0
    }

    /// Whether as many bytes wait as may.
    pub(crate) fn is_full(&self) -> bool
        ensures { result ≡ (length self.now == MOST_WAITING) }
    {
        self.len == MOST_WAITING
    }

    /// Lends the bytes that wait.
    pub(crate) fn bytes(&self) -> &[u8]
        ensures { result.now ≡ self.now }
    {
        &self.bytes[..self.len]
    }

    /// Forgets the bytes that waited.
    pub(crate) fn clear(&mut self)
        ensures { self.new ≡ [] }
    {
        self.len = 0;
    }
}
