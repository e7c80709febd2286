//! Executing a command over a product that was taken.
ghost use Rattle.std.specs.Prelude.{◌≡◌, ◌≢◌, ◌⊎◌, ℕ, List, Some, IfOk, OnErr};
ghost use Rattle.gx_station.specs.Honest.{KeepsImage};
ghost use Rattle.globex_run.specs.Outside.{streams_at};
ghost use Rattle.globex_run.specs.Words.{IsWriting};
ghost use Rattle.globex_run.specs.Refusals.{IsRefusal};
ghost use Rattle.globex_run.specs.Inner.Executing.{Executes, HasCauses, IsExecuted, command_of};
ghost use Rattle.globex_run.specs.Inner.Printing.{PrintsKept};
ghost use Rattle.globex_run.specs.Inner.Working.{IsNewSession};
ghost use Rattle.match_journal.specs.Causes.{ReadsOnly};
ghost use Rattle.journal_print.specs.Printed.{PrintsMessages};
ghost use Rattle.journal_print.specs.Works.{work_text, work_whole};
ghost use Rattle.feed_print.specs.FeedPlaces.{feed_start};
ghost use Rattle.feed_print.specs.FeedWorks.{feed_work};

use crate::amend::amend;
use crate::answer::answer_messages;
use crate::outcome::{Outcome, Status};
use crate::printing::{list_steps, print_each_record, print_last_book};
use crate::rebuild::rebuild;
use crate::session::Session;
use crate::taken::Taken;
use book_print::{FillForm, Totals};
use command_words::Command;
use exec_report::ReportForm;
use feed_print::FeedWork;
use gx_station::{Source, Station};
use journal_print::Lines;
use plain_book::Book;
use std::alloc::{AllocError, Global};

/// Takes the memory of a command, and executes it over a product and its text. Want of memory is status 1, and nothing is touched
/// then. No memory is taken later, but for products that the journal keeps: by a command that reads each record of a journal with
/// amendments, before it sends anything, and by `amend`, before it writes anything.
pub fn execute<I: Source, S: Station>(
    alloc: Global,
    command: Command,
    taken: &Taken<'_>,
    input: &mut I,
    station: &mut S,
) -> Outcome
    ensures executes { result.status ≢ 1 → Executes S.meanings taken.now.product.now taken.now.text.now
        (streams_at I.meanings S.meanings input.old station.old) (streams_at I.meanings S.meanings input.new station.new) result command }
    ensures causes { HasCauses S.meanings taken.now.product.now taken.now.text.now (streams_at I.meanings S.meanings input.old station.old)
        (streams_at I.meanings S.meanings input.new station.new) result command }
    ensures stays { (image : List ℕ) → IsWriting command → S.meanings.holds station.old ≡ Some image → IsRefusal result.status ⊎ (result.status ≡ 13)
        → KeepsImage S.meanings station.old station.new }
    ensures refused { IsWriting command → IsRefusal result.status ⊎ (result.status ≡ 13) → S.meanings.sent station.new ≡ S.meanings.sent station.old }
{
    taken.product.limits();
    match executed(alloc, command, taken, input, station) {
        Ok(outcome) => outcome,
        Err(AllocError) => Status::NoMemory.outcome(0, 0),
    }
}

/// Executes a command. `run`, `session`, `opening` and `rebuild` alone read the input. `run`, `drill`, `checkpoint` and `amend` add to the
/// journal; the others print or answer, and write nothing. An `Err` is want of memory, and nothing was touched then.
fn executed<I: Source, S: Station>(
    alloc: Global,
    command: Command,
    taken: &Taken<'_>,
    input: &mut I,
    station: &mut S,
) -> Result<Outcome, AllocError>
    ensures did { IfOk result (λ outcome. IsExecuted S.meanings taken.now.product.now taken.now.text.now
        (streams_at I.meanings S.meanings input.old station.old) (streams_at I.meanings S.meanings input.new station.new) outcome command) }
    ensures no_input { OnErr result (input.new ≡ input.old) }
    ensures no_station { OnErr result (station.new ≡ station.old) }
{
    taken.product.limits();
    match command {
        Command::Run => in_session(alloc, taken, SessionWork::Run, input, station),
        Command::Drill { first, count } => in_session(
            alloc,
            taken,
            SessionWork::Drill { first, count },
            input,
            station,
        ),
        Command::Checkpoint => in_session(alloc, taken, SessionWork::Checkpoint, input, station),
        Command::Amend => amend(alloc, taken, station),
        Command::Session => answer_messages(alloc, taken, input, station),
        Command::Opening => in_session(alloc, taken, SessionWork::Opening, input, station),
        Command::Rebuild => rebuild(alloc, taken, input, station),
        Command::Replay => print_each_record(
            alloc,
            &mut Lines { form: ReportForm },
            taken,
            station,
        ),
        Command::Fills => print_each_record(alloc, &mut Lines { form: FillForm }, taken, station),
        Command::Ledger => print_each_record(
            alloc,
            &mut Lines {
                form: Totals::new(),
            },
            taken,
            station,
        ),
        Command::Levels => levels(alloc, taken, station),
        Command::Book => print_last_book(alloc, taken, station),
        Command::Steps => list_steps(alloc, taken, station),
    }
}

/// What a session is taken for.
#[derive(Clone, Copy)]
enum SessionWork {
    Run,
    Drill { first: u32, count: u32 },
    Checkpoint,
    Opening,
}

/// Does the work of a session. `Run` and `Opening` alone read the input.
fn do_work<B: Book, I: Source, S: Station>(
    session: &mut Session<'_, B>,
    work: SessionWork,
    input: &mut I,
    station: &mut S,
) -> Outcome
    requires { IsNewSession session.old }
    ensures { IsExecuted S.meanings session.old.product.now session.old.text.now
        (streams_at I.meanings S.meanings input.old station.old) (streams_at I.meanings S.meanings input.new station.new) result (command_of work) }
{
    session.product.limits();
    match work {
        SessionWork::Run => session.serve(&mut ReportForm, input, station),
        SessionWork::Drill { first, count } => session.drill(first, count, station),
        SessionWork::Checkpoint => session.checkpoint(station),
        SessionWork::Opening => session.show_openings(input, station),
    }
}

/// Takes the memory of a session, and does its work. An `Err` is want of memory, and nothing was touched then.
fn in_session<I: Source, S: Station>(
    alloc: Global,
    taken: &Taken<'_>,
    work: SessionWork,
    input: &mut I,
    station: &mut S,
) -> Result<Outcome, AllocError>
    ensures did { IfOk result (λ outcome. IsExecuted S.meanings taken.now.product.now taken.now.text.now
        (streams_at I.meanings S.meanings input.old station.old) (streams_at I.meanings S.meanings input.new station.new) outcome (command_of work)) }
    ensures no_input { OnErr result (input.new ≡ input.old) }
    ensures no_station { OnErr result (station.new ≡ station.old) }
{
    let mut session = Session::new(alloc, taken)?;
    Ok(do_work(&mut session, work, input, station))
}

/// Takes the memory of a feed, and sends the level feed of the messages that the journal keeps. An `Err` is want of memory, and nothing
/// was touched then.
fn levels<S: Station>(
    alloc: Global,
    taken: &Taken<'_>,
    station: &mut S,
) -> Result<Outcome, AllocError>
    ensures prints { IfOk result (λ outcome. PrintsKept S.meanings station.old station.new outcome (ReadsOnly S.meanings station.old station.new)
        (λ image. PrintsMessages S.meanings taken.now.product.now taken.now.text.now image station.old station.new
        (work_text feed_work feed_start) (work_whole feed_work feed_start))) }
    ensures none { OnErr result (station.new ≡ station.old) }
{
    let mut work = FeedWork::new(alloc)?;
    print_each_record(alloc, &mut work, taken, station)
}
