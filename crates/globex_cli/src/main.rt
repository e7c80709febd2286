//! The program `globex`: reads `product.toml` and standard input, sends to standard output, and keeps its journal in
//! `journal.gxj`.
#![tactic(auto)]

mod reasons;
mod rules;
mod standard;
mod told;
mod usage;

use command_words::{WordsFault, read_command};
use globex_run::{Outcome, globex, opens_journal, writes_journal};
use gx_station::{FileStation, ReadSource, locked};
use reasons::{Circumstances, Reason, tell};
use standard::{ClosedStreams, is_standard};
use std::alloc::AllocError;
use std::fs::{File, OpenOptions};
use std::process::ExitCode;
use std::rt::{Env, Files};
use std::{env, io};
use told::{ToldFile, ToldStream};
use usage::tell_usage;

/// The status of want of memory.
const NO_MEMORY: u8 = 1;

/// The status of words that are no command.
const BAD_WORDS: u8 = 2;

/// The outcome of a call that has touched nothing.
fn ended(status: u8) -> Outcome {
    Outcome {
        status,
        at: 0,
        messages: 0,
    }
}

/// The words after the program's name. An `Err` is want of memory, or a word that is not UTF-8.
fn words(rt: &(impl Env + AllocGlobal)) -> io::Result<Vec<String>> {
    Ok(env::args(rt)?.skip(1).collect(rt.alloc())?)
}

/// A file that was opened, unless that failed, or it has the descriptor of a standard stream.
fn usable(opened: io::Result<File>) -> Result<File, Reason> {
    match opened {
        Ok(file) if is_standard(&file) => Err(Reason::StandardStream),
        Ok(file) => Ok(file),
        Err(fault) => Err(Reason::System(fault)),
    }
}

/// The product's file.
fn open_product(rt: &HostRuntime) -> Result<File, Reason> {
    usable(File::open(rt, "product.toml"))
}

/// The journal's file, made empty if it is absent.
fn open_journal(rt: &HostRuntime) -> Result<File, Reason> {
    let mut options = OpenOptions::new();
    options.read(true).write(true).create(true);
    usable(options.open(rt, "journal.gxj"))
}

/// The journal's file with its exclusive lock, which it has until the program ends. The folder is synced, so that a crash of the
/// machine keeps the name of a new file.
fn open_locked(rt: &HostRuntime) -> Result<ToldFile<'_, File>, Reason> {
    let file = ToldFile::new(rt, open_journal(rt)?);
    let file = locked(file).ok_or(Reason::NoLock)?;
    match sync_folder(rt) {
        Ok(()) => Ok(file),
        Err(fault) => Err(Reason::FolderNotSynced(fault)),
    }
}

/// Syncs the folder in which the program runs.
fn sync_folder(rt: &HostRuntime) -> io::Result<()> {
    File::open(rt, ".")?.sync_all()
}

/// What a command does with the journal's file.
#[derive(Clone, Copy, PartialEq, Eq)]
enum JournalUse {
    /// It opens none.
    Nothing,
    Reads,
    Writes,
}

/// What the command of the words does with the journal's file. Words that are no command open none. An `Err` is want of memory.
fn journal_use(rt: &HostRuntime, words: &[String]) -> Result<JournalUse, AllocError> {
    match read_command(rt.alloc(), words) {
        Ok(command) if writes_journal(command) => Ok(JournalUse::Writes),
        Ok(command) if opens_journal(command) => Ok(JournalUse::Reads),
        Err(WordsFault::NoMemory) => Err(AllocError),
        _ => Ok(JournalUse::Nothing),
    }
}

/// The journal's file for a command, and why it is not open. A command that opens none makes no file.
fn journal_for(
    rt: &HostRuntime,
    command: JournalUse,
) -> (Option<ToldFile<'_, File>>, Option<Reason>) {
    match command {
        JournalUse::Nothing => (None, None),
        JournalUse::Reads => apart(open_journal(rt).map(|file| ToldFile::new(rt, file))),
        JournalUse::Writes => apart(open_locked(rt)),
    }
}

/// The value, and the reason why there is none.
fn apart<T>(answer: Result<T, Reason>) -> (Option<T>, Option<Reason>) {
    match answer {
        Ok(value) => (Some(value), None),
        Err(reason) => (None, Some(reason)),
    }
}

/// Runs the command of the words, and says why it ended early. If there is no memory to read the words, no file is opened. A file that
/// cannot be opened is answered by the first call that needs it.
fn run(rt: &HostRuntime, words: &[String]) -> Outcome {
    let Ok(command) = journal_use(rt, words) else {
        return ended(NO_MEMORY);
    };
    let (product_file, product) = apart(open_product(rt));
    let (journal_file, journal) = journal_for(rt, command);
    let known = Circumstances {
        product,
        journal,
        had_lock: command == JournalUse::Writes,
    };
    let outcome = serve(rt, words, product_file, journal_file);
    tell(rt, &outcome, &known);
    outcome
}

/// Runs the command of the words over the product's file and the journal's.
fn serve<'a>(
    rt: &'a HostRuntime,
    words: &[String],
    product: Option<File>,
    journal: Option<ToldFile<'a, File>>,
) -> Outcome {
    let product = product.map(|file| ToldStream::new(rt, "a read of product.toml failed", file));
    let input = ToldStream::new(rt, "a read of standard input failed", rt.stdin());
    let mut product = ReadSource::new(product);
    let mut input = ReadSource::new(Some(input));
    let mut station = FileStation::new(journal, rt.stdout());
    globex(rt.alloc(), words, &mut product, &mut input, &mut station)
}

/// How the program ends where it has no words to run.
fn without_words(fault: &io::Error) -> Outcome {
    ended(match fault.kind() {
        io::ErrorKind::OutOfMemory => NO_MEMORY,
        _ => BAD_WORDS,
    })
}

/// Says what the words may be, if they are at fault.
fn end_without_words(rt: &HostRuntime, fault: &io::Error) -> Outcome {
    let outcome = without_words(fault);
    if outcome.status == BAD_WORDS {
        tell_usage(rt);
    }
    outcome
}

fn main(rt: HostRuntime) -> ExitCode {
    let _closed = ClosedStreams::take(&rt);
    let outcome = match words(&rt) {
        Ok(words) => run(&rt, words.as_slice()),
        Err(fault) => end_without_words(&rt, &fault),
    };
    let Outcome {
        status,
        at,
        messages,
    } = outcome;
    if status != 0 {
        let _ = eprintln!(rt; "globex: status {status} at {at} after {messages} messages");
    }
    ExitCode::from(status)
}
