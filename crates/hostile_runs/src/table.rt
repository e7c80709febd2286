//! What came out of all cases, and why a case ends them.

use globex_run::Outcome;
use std::alloc::{AllocError, AllocFailed, Global};

/// How many statuses there are.
const STATUSES: usize = 13;

/// Why the cases end early.
#[derive(Drop)]
pub enum Stop {
    NoMemory,
    /// This does not hold, of a call that ended so.
    Broken(&'static str, Outcome),
}

impl From<AllocError> for Stop {
    fn from(_error: AllocError) -> Stop {
        Stop::NoMemory
    }
}

impl<T: Drop> From<AllocFailed<T>> for Stop {
    fn from(_error: AllocFailed<T>) -> Stop {
        Stop::NoMemory
    }
}

/// Ends the cases where a check does not hold.
pub fn expect_holds(holds: bool, what: &'static str, outcome: Outcome) -> Result<(), Stop> {
    if holds {
        Ok(())
    } else {
        Err(Stop::Broken(what, outcome))
    }
}

/// How the calls of one command ended.
#[derive(Clone, Copy)]
pub struct Row {
    command: &'static str,
    statuses: [u64; STATUSES],
    messages: u64,
}

impl Row {
    fn new(command: &'static str) -> Row {
        Row {
            command,
            statuses: [0; STATUSES],
            messages: 0,
        }
    }

    fn count(&mut self, outcome: Outcome) {
        if let Some(count) = self.statuses.get_mut(usize::from(outcome.status)) {
            *count = count.saturating_add(1);
        }
        self.messages = self.messages.saturating_add(outcome.messages);
    }

    /// The command, how often each status came that came at all, and the messages of all calls.
    fn line(&self, alloc: Global) -> Result<String, AllocError> {
        let mut line = String::from_str(alloc, self.command)?;
        for (status, count) in self.statuses.iter().enumerate() {
            if *count > 0 {
                let entry = format!(in alloc; ", status {status}: {count}")?;
                line.push_str(entry.as_str())?;
            }
        }
        let messages = format!(in alloc; ", messages {}\n", self.messages)?;
        line.push_str(messages.as_str())?;
        Ok(line)
    }
}

/// A row for each command.
#[derive(Drop)]
pub struct Table {
    rows: Vec<Row>,
}

impl Table {
    pub fn new(alloc: Global, commands: &[&'static str]) -> Result<Table, AllocError> {
        let mut rows = Vec::new(alloc);
        for command in commands {
            rows.push(Row::new(command))?;
        }
        Ok(Table { rows })
    }

    /// Counts how a call of a command ended.
    pub fn count(&mut self, command: &str, outcome: Outcome) {
        for row in self.rows.iter_mut() {
            if row.command == command {
                row.count(outcome);
            }
        }
    }

    /// The line of each row.
    pub fn text(&self, alloc: Global) -> Result<String, AllocError> {
        let mut text = String::new(alloc);
        for row in self.rows.iter() {
            text.push_str(row.line(alloc)?.as_str())?;
        }
        Ok(text)
    }
}
