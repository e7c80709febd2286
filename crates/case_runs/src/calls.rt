//! The call that the lines of a case put together.
use crate::bytes::{number, push_bytes, push_frame};
use crate::runs::Conditions;
use std::alloc::{AllocError, Global};

/// A crash after a call of the station, where 0 is before the first, and what the disk gives for bytes that no sync has followed.
#[derive(Clone, Copy)]
pub struct Crash {
    pub call: usize,
    pub fill: u8,
}

/// A call: its words, its input, what is not as usual, and the crash after it.
#[derive(Drop)]
pub struct Call {
    pub words: String,
    pub input: Vec<u8>,
    /// Lines of which each comes alone after the input, and the input after them.
    pub lines: Vec<String>,
    pub rest: Vec<u8>,
    pub under: Conditions,
    pub crash: Option<Crash>,
}

impl Call {
    /// A call without words.
    pub fn new(alloc: Global) -> Call {
        Call {
            words: String::new(alloc),
            input: Vec::new(alloc),
            lines: Vec::new(alloc),
            rest: Vec::new(alloc),
            under: Conditions::usual(),
            crash: None,
        }
    }

    /// Begins a call of these words.
    pub fn begin(&mut self, alloc: Global, words: &str) -> Result<(), AllocError> {
        self.words.clear();
        self.words.push_str(words)?;
        self.input.clear();
        self.lines = Vec::new(alloc);
        self.rest.clear();
        self.under = Conditions::usual();
        self.crash = None;
        Ok(())
    }

    /// Adds a frame to the input.
    fn add_frame(&mut self, alloc: Global, text: &str) -> Result<(), AllocError> {
        let mut body = Vec::new(alloc);
        push_bytes(&mut body, text, 1)?;
        push_frame(alloc, &mut self.input, body.as_slice())
    }

    /// Adds a line of text to the input, or to what comes after the lines if there are any.
    fn add_line(&mut self, text: &str) -> Result<(), AllocError> {
        let bytes = if self.lines.is_empty() {
            &mut self.input
        } else {
            &mut self.rest
        };
        push_bytes(bytes, text, b'|')?;
        bytes.push(b'\n')?;
        Ok(())
    }

    /// Adds a line of which each comes alone after the input.
    fn add_choice(&mut self, alloc: Global, text: &str) -> Result<(), AllocError> {
        self.lines.push(String::from_str(alloc, text)?)?;
        Ok(())
    }

    /// Takes a line of the input, without its first letter.
    pub fn take_input(&mut self, alloc: Global, line: &str) -> Result<(), AllocError> {
        let (mark, text) = line.split_once(' ').unwrap_or((line, ""));
        match mark {
            "" => self.add_frame(alloc, text),
            "." => self.add_line(text),
            "?" => self.add_choice(alloc, text),
            "=" => push_bytes(&mut self.input, text, 1),
            "~" => {
                self.under.first = self.input.len();
                Ok(())
            }
            _ => Ok(()),
        }
    }

    /// Takes which call fails, as `read 2` says.
    pub fn take_failing(&mut self, text: &str) {
        let (what, count) = text.split_once(' ').unwrap_or((text, ""));
        let count = number(count) as u64;
        match what {
            "product" => self.under.product_read = count,
            "read" => self.under.read = count,
            _ => self.under.call = count,
        }
    }

    /// Takes for how much the station has room, as `131072 65536 1000` says.
    pub fn take_room(&mut self, text: &str) {
        let (room, rest) = text.split_once(' ').unwrap_or((text, "0 0"));
        let (sent, calls) = rest.split_once(' ').unwrap_or((rest, "0"));
        self.under.room = number(room);
        self.under.sent = number(sent);
        self.under.calls = number(calls);
    }

    /// Takes after which call the crash is, as `3 200` says.
    pub fn take_crash(&mut self, text: &str) {
        let (call, fill) = text.split_once(' ').unwrap_or((text, "0"));
        let fill = (number(fill) & 0xff) as u8;
        let call = number(call);
        self.crash = Some(Crash { call, fill });
    }
}
