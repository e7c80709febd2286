//! How a call ended, as text.
use crate::runs::Ran;
use globex_run::Outcome;
use std::alloc::{AllocError, Global};

/// What a call of a loop came to.
#[derive(Clone, Copy, PartialEq, Eq)]
pub struct Answer {
    pub outcome: Outcome,
    pub sent: Sent,
    /// Whether the journal is as it was.
    pub is_kept: bool,
    /// Whether there were calls of the station after the one that fails.
    pub goes_on: bool,
}

/// How much was sent of what the call sends if nothing is the matter.
#[derive(Clone, Copy, PartialEq, Eq)]
pub enum Sent {
    All,
    Front(usize),
    Other,
}

/// The answer of a call beside one that nothing was the matter with.
pub fn answer_of(ran: &Ran, whole: &[u8], image: &[u8], call: u64) -> Answer {
    Answer {
        outcome: ran.outcome,
        sent: sent_of(ran.station.output(), whole),
        is_kept: ran.station.image() == image,
        goes_on: ran.station.calls() as u64 > call,
    }
}

/// How much was sent.
fn sent_of(sent: &[u8], whole: &[u8]) -> Sent {
    if sent.is_empty() {
        Sent::Front(0)
    } else if sent == whole {
        Sent::All
    } else if whole.starts_with(sent) {
        Sent::Front(sent.len())
    } else {
        Sent::Other
    }
}

/// Adds a status with its place and count.
pub fn push_outcome(alloc: Global, told: &mut String, got: Outcome) -> Result<(), AllocError> {
    let (status, at, messages) = (got.status, got.at, got.messages);
    let text = if status == 0 && at == 0 {
        format!(in alloc; "0 after {messages}")?
    } else {
        format!(in alloc; "{status} at {at} after {messages}")?
    };
    told.push_str(text.as_str())
}

/// Adds the number of a status.
pub fn push_number(alloc: Global, told: &mut String, status: u8) -> Result<(), AllocError> {
    let text = format!(in alloc; "{status}")?;
    told.push_str(text.as_str())
}

/// Adds how much was sent.
fn push_how_much(alloc: Global, told: &mut String, sent: Sent) -> Result<(), AllocError> {
    match sent {
        Sent::All => told.push_str(", all sent"),
        Sent::Front(0) => told.push_str(", nothing sent"),
        Sent::Front(count) => {
            let text = format!(in alloc; ", {count} bytes sent")?;
            told.push_str(text.as_str())
        }
        Sent::Other => told.push_str(", other bytes sent"),
    }
}

/// Adds an answer, and a line feed.
pub fn push_answer(alloc: Global, told: &mut String, answer: Answer) -> Result<(), AllocError> {
    told.push_str("status ")?;
    push_outcome(alloc, told, answer.outcome)?;
    push_how_much(alloc, told, answer.sent)?;
    if !answer.is_kept {
        told.push_str(", journal changed")?;
    }
    if answer.goes_on {
        told.push_str(", goes on")?;
    }
    told.push('\n')
}
