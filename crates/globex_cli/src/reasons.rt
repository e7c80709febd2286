//! Why the program ended as it did, in words for people. They come on standard error before the status line, and no program
//! should read them: only the status line keeps its form.

use crate::rules::tell_rule;
use crate::usage::tell_usage;
use globex_run::Outcome;
use std::fs::{OpenOptions, TryLockError};
use std::io;

/// Why a file is not at hand.
#[derive(Drop)]
pub enum Reason {
    /// The system refused to open it.
    System(io::Error),
    /// It would have the descriptor of a standard stream.
    StandardStream,
    /// Its exclusive lock was refused.
    NoLock,
    /// Its folder could not be synced.
    FolderNotSynced(io::Error),
}

/// What `main` knows of a call beside its outcome.
#[derive(Drop)]
pub struct Circumstances {
    /// Why `product.toml` is not open.
    pub product: Option<Reason>,
    /// Why `journal.gxj` is not open.
    pub journal: Option<Reason>,
    /// Whether the call had the exclusive lock of the journal.
    pub had_lock: bool,
}

/// Says why a file is not open.
fn tell_closed(rt: &HostRuntime, name: &str, reason: &Reason) {
    let _ = match reason {
        Reason::System(fault) => eprintln!(rt; "globex: {name} cannot be opened: {fault}"),
        Reason::StandardStream => {
            eprintln!(rt;
                "globex: {name} cannot be opened: it would be a standard stream, because that one is closed"
            )
        }
        Reason::NoLock => return tell_lock(rt),
        Reason::FolderNotSynced(fault) => {
            eprintln!(rt; "globex: the folder of {name} cannot be synced: {fault}")
        }
    };
}

/// Says why the exclusive lock of the journal was refused.
fn tell_lock(rt: &HostRuntime) {
    let _ = match lock_of_another(rt) {
        Ok(true) => eprintln!(rt;
            "globex: another process has the lock of journal.gxj (docs/OPERATING.md, `locked`)"
        ),
        Ok(false) => {
            eprintln!(rt;
                "globex: another process had the lock of journal.gxj a moment ago, or has a shared lock of it"
            )
        }
        Err(fault) => eprintln!(rt; "globex: journal.gxj cannot be locked: {fault}"),
    };
}

/// Whether another process has the exclusive lock of the journal now. A shared lock is asked for, and given back at once.
fn lock_of_another(rt: &HostRuntime) -> io::Result<bool> {
    let file = OpenOptions::new()
        .read(true)
        .write(true)
        .open(rt, "journal.gxj")?;
    match file.try_lock_shared() {
        Ok(()) => Ok(false),
        Err(TryLockError::WouldBlock) => Ok(true),
        Err(TryLockError::Error(fault)) => Err(fault),
    }
}

/// Says of a journal that looks bad whether another process has its lock now.
fn tell_writer(rt: &HostRuntime, had_lock: bool) {
    if had_lock {
        let _ = eprintln!(rt; "globex: journal.gxj is bad. No other process has its lock.");
        return;
    }
    let _ = match lock_of_another(rt) {
        Ok(true) => {
            eprintln!(rt;
                "globex: another process has the lock of journal.gxj, and may be writing it now. Call again, and change nothing."
            )
        }
        Ok(false) => eprintln!(rt;
            "globex: journal.gxj is bad. No other process has its lock now."
        ),
        Err(fault) => {
            eprintln!(rt;
                "globex: journal.gxj is bad, or another process is writing it. Its lock cannot be asked for: {fault}"
            )
        }
    };
    let _ = eprintln!(rt; "globex: see docs/OPERATING.md, \"10, JournalBad\"");
}

/// Says why a call ended so. A failed read or write was told when it failed.
pub fn tell(rt: &HostRuntime, outcome: &Outcome, known: &Circumstances) {
    match (outcome.status, &known.product, &known.journal) {
        (2, _, _) => tell_usage(rt),
        (3, _, _) => tell_rule(rt, outcome.at),
        (4, Some(reason), _) => tell_closed(rt, "product.toml", reason),
        (5, _, Some(reason)) => tell_closed(rt, "journal.gxj", reason),
        (10, _, _) => tell_writer(rt, known.had_lock),
        _ => {}
    }
}
