//! A log of lines.
ghost use Rattle.std.specs.Prelude.{◌≡◌, ◌+◌, ◌<◌, ◌≤◌, ◌↔◌, ◌++◌, [], true, false, IsTrue, IfOk, length, vec_len, vec_capacity};
ghost use Rattle.std.specs.Bool.{OnTrue, OnFalse};
ghost use Rattle.gx_base.specs.Executions.{event_of};
ghost use Rattle.gx_base.specs.Line.{line_of};
ghost use Rattle.gx_base.specs.Emits.{Puts};

use crate::line::{write_execution_into, write_line};
use gx_base::{Emit, Event, Execution, LONGEST_LINE, Names};
use std::alloc::{AllocError, Global};
use std::marker::Model;

/// Adds a line to those that are kept in so many bytes of room, and answers whether there was room for it. Where there was none,
/// nothing is added.
fn add_line(lines: &mut Vec<u8>, room: usize, line: &[u8]) -> bool
    requires room { (room ≤ vec_capacity lines.old) × (vec_len lines.old ≤ room) }
    ensures fits { IsTrue result ↔ (length lines.old.items + length line.now ≤ room) }
    ensures added { OnTrue result (lines.new.items ≡ lines.old.items ++ line.now) }
    ensures full { OnFalse result (lines.new ≡ lines.old) }
    ensures room { room ≤ vec_capacity lines.new }
{
    line.len() <= room - lines.len() && lines.extend_from_slice(line).is_ok()
}

/// Keeps the lines of events, one after the other, in fixed room. It fails exactly where a line does not fit. Contracts
/// see it as the names, the bytes so far, the room in bytes, and whether it is full, which is to have failed.
#[derive(Drop)]
pub struct ByteEmit<'a> {
    names: &'a Names,
    /// Room for the line that is put.
    line: [u8; LONGEST_LINE],
    lines: Vec<u8>,
    room: usize,
    full: bool,
}

impl<'a> Model for ByteEmit<'a> {
    ghost use Rattle.exec_report.specs.ByteLog.{ByteLog};

    ghost Value = { ByteLog };

    ghost use Rattle.std.specs.Prelude.{◌≤◌, vec_len, vec_capacity};

    ghost view = { λ e. record { names = e.names.now; bytes = e.lines.items; room = e.room; full = e.full } };

    ghost invariant = { λ e. (e.room ≤ vec_capacity e.lines) × (vec_len e.lines ≤ e.room) };
}

impl<'a> ByteEmit<'a> {
    /// An empty log with room for `room` bytes, which writes these names. An `Err` is want of memory.
    pub fn new(alloc: Global, names: &'a Names, room: usize) -> Result<ByteEmit<'a>, AllocError>
        ensures { IfOk result (λ e. e ≡ record { names = names.now; bytes = []; room = room; full = false }) }
    {
        let lines = Vec::with_capacity(alloc, room)?;
        Ok(ByteEmit {
            names,
            line: [0; LONGEST_LINE],
            lines,
            room,
            full: false,
        })
    }

    /// Lends the lines so far, each whole.
    pub fn bytes(&self) -> &[u8]
        ensures { result.now ≡ self.now.bytes }
    {
        self.lines.as_slice()
    }
}

impl<'a> Emit for ByteEmit<'a> {
    ghost use Rattle.exec_report.specs.ByteLog.{byte_meanings};

    ghost meanings = { byte_meanings };

    /// Appends the line of the event. Where it does not fit, nothing is appended, now or later.
    fn put(&mut self, event: &Event)
        ensures puts { Puts byte_meanings self.old self.new event.now }
        ensures exactly { self.old.full ≡ false → (self.new.full ≡ true)
            ↔ (self.old.room < length self.old.bytes + length (line_of self.old.names event.now)) }
        ensures whole { self.new.full ≡ true → self.new.bytes ≡ self.old.bytes }
        ensures room { self.new.room ≡ self.old.room }
    {
        if self.full {
            return;
        }
        let count = write_line(event, self.names, &mut self.line);
        if !add_line(&mut self.lines, self.room, &self.line[..count]) {
            self.full = true;
        }
    }

    /// As `put` of its event.
    fn put_execution(&mut self, execution: &Execution<'_>)
        ensures puts { Puts byte_meanings self.old self.new (event_of execution.now) }
        ensures exactly { self.old.full ≡ false → (self.new.full ≡ true)
            ↔ (self.old.room < length self.old.bytes + length (line_of self.old.names (event_of execution.now))) }
        ensures whole { self.new.full ≡ true → self.new.bytes ≡ self.old.bytes }
        ensures room { self.new.room ≡ self.old.room }
    {
        if self.full {
            return;
        }
        let count = write_execution_into(execution, self.names, &mut self.line);
        if !add_line(&mut self.lines, self.room, &self.line[..count]) {
            self.full = true;
        }
    }

    fn failed(&self) -> bool {
        self.full
    }
}
