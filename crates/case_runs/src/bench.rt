//! What the lines of the cases work over: product texts, journals, and the call that is put together.
use crate::answers::{push_number, push_outcome};
use crate::bytes::{after, front, number, push_bytes, set_byte};
use crate::calls::Call;
use crate::loops::{
    crashes_leave, each_byte, each_crash, each_cut, each_failing, each_front, each_journal_front,
    each_line,
};
use crate::runs::{Given, Ran, run};
use crate::shown::{push_journal, push_sent};
use std::alloc::{AllocError, Global};

/// Bytes with a name.
#[derive(Drop)]
struct Named {
    name: String,
    bytes: Vec<u8>,
}

/// The place of a name, or that after the last one.
fn place_of(list: &[Named], name: &str) -> usize {
    list.iter()
        .position(|named| named.name.as_str() == name)
        .unwrap_or(list.len())
}

/// The bytes at a place, and none if there is no such place.
fn bytes_at(list: &[Named], place: usize) -> &[u8] {
    match list.get(place) {
        Some(named) => named.bytes.as_slice(),
        None => b"",
    }
}

/// What the lines work over.
#[derive(Drop)]
pub struct Bench {
    texts: Vec<Named>,
    /// The place of the product's text.
    product: usize,
    /// How many empty lines there are since the last line of a text.
    gaps: usize,
    journals: Vec<Named>,
    journal: Vec<u8>,
    /// The journal before the last call.
    before: Vec<u8>,
    call: Call,
    /// How many calls of the station there were, and how many bytes of the input are left.
    calls: usize,
    unread: usize,
}

impl Bench {
    /// No product, and no journal.
    pub fn new(alloc: Global) -> Bench {
        Bench {
            texts: Vec::new(alloc),
            product: 0,
            gaps: 0,
            journals: Vec::new(alloc),
            journal: Vec::new(alloc),
            before: Vec::new(alloc),
            call: Call::new(alloc),
            calls: 0,
            unread: 0,
        }
    }

    /// Puts the product of this name; a new one has no text yet.
    fn put_product(&mut self, alloc: Global, name: &str) -> Result<(), AllocError> {
        self.product = place_of(self.texts.as_slice(), name);
        if self.product < self.texts.len() {
            return Ok(());
        }
        let name = String::from_str(alloc, name)?;
        let bytes = Vec::new(alloc);
        self.texts.push(Named { name, bytes })?;
        Ok(())
    }

    /// Adds a line to the text of the product; `\c` at its end takes the line feed away.
    fn add_text(&mut self, line: &str) -> Result<(), AllocError> {
        let place = self.product;
        if place >= self.texts.len() {
            return Ok(());
        }
        let text = &mut self.texts[place].bytes;
        for _ in 0..self.gaps {
            text.push(b'\n')?;
        }
        self.gaps = 0;
        match line.strip_suffix("\\c") {
            Some(line) => push_bytes(text, line, b'|'),
            None => {
                push_bytes(text, line, b'|')?;
                text.push(b'\n')?;
                Ok(())
            }
        }
    }

    /// Keeps the journal by this name.
    fn keep_journal(&mut self, alloc: Global, name: &str) -> Result<(), AllocError> {
        let name = String::from_str(alloc, name)?;
        let bytes = self.journal.as_slice().to_vec(alloc)?;
        self.journals.push(Named { name, bytes })?;
        Ok(())
    }

    /// Puts bytes at a place of the journal, as `9 xy` says.
    fn set_journal(&mut self, alloc: Global, text: &str) -> Result<(), AllocError> {
        let (place, text) = text.split_once(' ').unwrap_or((text, ""));
        let mut bytes = Vec::new(alloc);
        push_bytes(&mut bytes, text, 1)?;
        let mut at = number(place);
        for byte in bytes.as_slice() {
            set_byte(&mut self.journal, at, *byte);
            at = at.saturating_add(1);
        }
        Ok(())
    }

    /// Puts the journal of this name.
    fn put_kept(&mut self, alloc: Global, name: &str) -> Result<(), AllocError> {
        let list = self.journals.as_slice();
        self.journal = bytes_at(list, place_of(list, name)).to_vec(alloc)?;
        Ok(())
    }

    /// Makes or changes the journal.
    fn put_journal(&mut self, alloc: Global, line: &str) -> Result<(), AllocError> {
        let (word, rest) = line.split_once(' ').unwrap_or((line, ""));
        match word {
            "gone" => {
                self.journal.clear();
                Ok(())
            }
            "first" => {
                self.journal.truncate(number(rest));
                Ok(())
            }
            "add" => push_bytes(&mut self.journal, rest, 1),
            "set" => self.set_journal(alloc, rest),
            _ => self.put_kept(alloc, word),
        }
    }

    /// Puts a product or a journal.
    fn put(&mut self, alloc: Global, line: &str) -> Result<(), AllocError> {
        match line.split_once(' ') {
            Some(("product", name)) => self.put_product(alloc, name),
            Some(("journal", rest)) => self.put_journal(alloc, rest),
            _ => Ok(()),
        }
    }

    /// Begins a case: no journal is there, and none is kept.
    fn begin_case(&mut self, alloc: Global) {
        self.journals = Vec::new(alloc);
        self.journal.clear();
    }

    /// What the call works over.
    fn given(&self) -> Given<'_> {
        Given {
            text: bytes_at(self.texts.as_slice(), self.product),
            words: self.call.words.as_str(),
            input: self.call.input.as_slice(),
            image: self.journal.as_slice(),
        }
    }

    /// Calls the program.
    fn run(&self, alloc: Global) -> Result<Ran, AllocError> {
        run(alloc, self.given(), self.call.under)
    }

    /// What a crash leaves, or the journal if there is none.
    fn left(&self, alloc: Global, ran: &Ran) -> Result<Vec<u8>, AllocError> {
        match self.call.crash {
            Some(crash) => {
                let call = crash.call.min(ran.station.calls());
                ran.station.crash_image(alloc, call, crash.fill)
            }
            None => ran.station.image().to_vec(alloc),
        }
    }

    /// Takes over what a call left.
    fn take_left(&mut self, alloc: Global, ran: &Ran) -> Result<(), AllocError> {
        let left = self.left(alloc, ran)?;
        self.before = self.journal.as_slice().to_vec(alloc)?;
        self.journal = left;
        self.calls = ran.station.calls();
        self.unread = ran.unread;
        Ok(())
    }

    /// Calls the program, and tells what the word asks for: what it sent, how it ended, or both, or the number of its status alone.
    fn call(&mut self, alloc: Global, told: &mut String, word: &str) -> Result<(), AllocError> {
        let ran = self.run(alloc)?;
        if word == "status" || word == "sent" {
            push_sent(alloc, told, ran.station.output())?;
        }
        told.push_str(word)?;
        if word == "sent" {
            told.push_str(" and ends")?;
        }
        told.push(' ')?;
        if word == "status" || word == "outcome" {
            push_outcome(alloc, told, ran.outcome)?;
        } else {
            push_number(alloc, told, ran.outcome.status)?;
        }
        told.push('\n')?;
        self.take_left(alloc, &ran)
    }

    /// Calls the program many times, and tells what came of it.
    fn call_each(&self, alloc: Global, told: &mut String, what: &str) -> Result<(), AllocError> {
        let whole = self.run(alloc)?;
        let (given, under) = (self.given(), self.call.under);
        let rows = match what {
            "cut" => each_cut(alloc, given, under, &whole)?,
            "line" => each_line(
                alloc,
                given,
                under,
                self.call.lines.as_slice(),
                self.call.rest.as_slice(),
            )?,
            "front" => each_front(alloc, given, under, &whole)?,
            "journal front" => each_journal_front(alloc, given, under)?,
            "failing call" => each_failing(alloc, given, under, &whole)?,
            _ => each_byte(alloc, given, under, &whole, b'!')?,
        };
        told.push_str("each ")?;
        told.push_str(what)?;
        told.push('\n')?;
        told.push_str(rows.as_str())
    }

    /// Tells that each crash leaves the journal, or else what a replay tells after it.
    fn tell_crashes(&self, alloc: Global, told: &mut String) -> Result<(), AllocError> {
        let ran = self.run(alloc)?;
        if crashes_leave(alloc, self.journal.as_slice(), &ran)? {
            return told.push_str("each crash leaves the journal\n");
        }
        let rows = each_crash(alloc, self.given(), &ran)?;
        told.push_str("each crash\n")?;
        told.push_str(rows.as_str())
    }

    /// Tells of the journal, beside that before the call.
    fn tell_journal(&self, alloc: Global, told: &mut String) -> Result<(), AllocError> {
        if self.journal.as_slice() == self.before.as_slice() {
            return told.push_str("journal as before\n");
        }
        let text = format!(in alloc; "journal has {} bytes\n", self.journal.len())?;
        told.push_str(text.as_str())
    }

    /// Tells a count.
    fn tell_count(
        &self,
        alloc: Global,
        told: &mut String,
        word: &str,
        count: usize,
    ) -> Result<(), AllocError> {
        let text = format!(in alloc; "{word} {count}\n")?;
        told.push_str(text.as_str())
    }

    /// Tells the bytes of the journal: those from the last gate of before on, if the ones before it are kept.
    fn tell_bytes(&self, alloc: Global, told: &mut String) -> Result<(), AllocError> {
        let kept = self.before.len().saturating_sub(1);
        let image = self.journal.as_slice();
        if kept == 0 || !image.starts_with(front(self.before.as_slice(), kept)) {
            told.push_str("journal is\n")?;
            return push_journal(alloc, told, image);
        }
        let text = format!(in alloc; "journal keeps {kept} bytes, and then is\n")?;
        told.push_str(text.as_str())?;
        push_journal(alloc, told, after(image, kept))
    }

    /// Takes a line that asks for an answer. Whether it was one.
    fn ask(&mut self, alloc: Global, line: &str, told: &mut String) -> Result<bool, AllocError> {
        match line {
            "status" | "sent" | "outcome" | "ends" => self.call(alloc, told, line)?,
            "each cut"
            | "each line"
            | "each front"
            | "each journal front"
            | "each byte"
            | "each failing call" => {
                let what = line.strip_prefix("each ").unwrap_or(line);
                self.call_each(alloc, told, what)?
            }
            "each crash" => self.tell_crashes(alloc, told)?,
            "journal" => self.tell_journal(alloc, told)?,
            "journal is" => self.tell_bytes(alloc, told)?,
            "unread" => self.tell_count(alloc, told, line, self.unread)?,
            "calls" => self.tell_count(alloc, told, line, self.calls)?,
            _ => return Ok(false),
        }
        Ok(true)
    }

    /// Takes a line that gives something.
    fn give(&mut self, alloc: Global, line: &str) -> Result<(), AllocError> {
        let (word, rest) = line.split_once(' ').unwrap_or((line, ""));
        match word {
            "case" => {
                self.begin_case(alloc);
                Ok(())
            }
            "put" => self.put(alloc, rest),
            "keep" => self.keep_journal(alloc, rest),
            "call" => self.call.begin(alloc, rest),
            "bytewise" => {
                self.call.under.is_bytewise = true;
                Ok(())
            }
            "failing" => {
                self.call.take_failing(rest);
                Ok(())
            }
            "room" => {
                self.call.take_room(rest);
                Ok(())
            }
            "crash" => {
                self.call.take_crash(rest);
                Ok(())
            }
            _ => Ok(()),
        }
    }

    /// Takes a line of the cases, and tells it again, or its answer.
    pub fn take(&mut self, alloc: Global, line: &str, told: &mut String) -> Result<(), AllocError> {
        if self.ask(alloc, line, told)? {
            return Ok(());
        }
        told.push_str(line)?;
        told.push('\n')?;
        if line.is_empty() {
            self.gaps = self.gaps.saturating_add(1);
            return Ok(());
        }
        if let Some(text) = line.strip_prefix("    ") {
            return self.add_text(text);
        }
        self.gaps = 0;
        if let Some(text) = line.strip_prefix('<') {
            self.call.take_input(alloc, text)
        } else {
            self.give(alloc, line)
        }
    }
}
