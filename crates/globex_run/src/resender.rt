//! Sending answers after what waits to be sent, and report lines of the journal again.
ghost use Rattle.std.specs.Prelude.{◌≡◌, ◌++◌, [], OnOk};
ghost use Rattle.fix_session.specs.SessionLines.{session_line};
ghost use Rattle.fix_session.specs.SessionOut.{answer_bytes};
ghost use Rattle.globex_run.specs.Answering.{lines_again};
ghost use Rattle.globex_run.specs.Inner.AnswerSteps.{CanResend, Steps, unanswered_by};

use exec_report::{push_text, send_waiting};
use fix_session::{ReportRange, SessionAnswer, SessionLine, write_session};
use gx_base::{LONGEST_LINE, Names};
use gx_station::Station;
use journal_print::{KeptJournal, Reader, Unprinted, resend_kept};
use plain_book::Book;

/// Why an answer was not sent, or not to its end.
#[derive(Clone, Copy, Debug, PartialEq, Eq)]
pub enum Unanswered {
    /// A call on the store has failed.
    Store,
    /// A send has failed.
    Send,
}

/// What sends report lines again.
#[derive(Drop)]
pub struct Resender<'p, B: Book> {
    /// The journal that has them. `None` for an unfinished creation, of which there are none.
    pub kept: Option<KeptJournal<'p>>,
    /// The memory in which the journal is gone through, and what waits to be sent.
    pub reader: Reader<B>,
}

/// Puts a session message after what waits.
fn send_line<B: Book, S: Station>(
    line: &SessionLine,
    names: &Names,
    resender: &mut Resender<'_, B>,
    station: &mut S,
) -> Result<(), Unanswered>
    requires { CanResend S.meanings resender.old station.old }
    ensures { Steps S.meanings resender.old resender.new station.old station.new (λ history. session_line names.now line.now) result }
{
    let mut bytes = [0; LONGEST_LINE];
    let count = write_session(line, names, &mut bytes);
    match push_text(&mut resender.reader.reports, station, &bytes[..count]) {
        Ok(()) => Ok(()),
        Err(_) => Err(Unanswered::Send),
    }
}

/// Puts two session messages after what waits.
fn send_two<B: Book, S: Station>(
    line: &SessionLine,
    other: &SessionLine,
    names: &Names,
    resender: &mut Resender<'_, B>,
    station: &mut S,
) -> Result<(), Unanswered>
    requires { CanResend S.meanings resender.old station.old }
    ensures { Steps S.meanings resender.old resender.new station.old station.new (λ history. session_line names.now line.now ++ session_line names.now other.now) result }
{
    match send_line(line, names, resender, station) {
        Ok(()) => send_line(other, names, resender, station),
        Err(fault) => Err(fault),
    }
}

/// Sends what waits.
pub fn send_all<B: Book, S: Station>(
    resender: &mut Resender<'_, B>,
    station: &mut S,
) -> Result<(), Unanswered>
    requires { CanResend S.meanings resender.old station.old }
    ensures sends { Steps S.meanings resender.old resender.new station.old station.new (λ history. []) result }
    ensures empty { OnOk result (resender.new.reader.reports ≡ []) }
{
    match send_waiting(&mut resender.reader.reports, station) {
        Ok(()) => Ok(()),
        Err(_) => Err(Unanswered::Send),
    }
}

/// Why an answer was not sent, where lines were not sent again for this reason. `None` if the journal is not as it was.
fn why_unsent(fault: Unprinted) -> Option<Unanswered>
    ensures { result ≡ unanswered_by fault }
{
    match fault {
        Unprinted::Store => Some(Unanswered::Store),
        Unprinted::Send => Some(Unanswered::Send),
        Unprinted::NoMemory
        | Unprinted::NotAJournal(_)
        | Unprinted::Bad(_)
        | Unprinted::ProductDiffers(_) => None,
    }
}

/// Sends report lines again, where nothing waits. Over a station that tells its image the journal is as it was when its messages were
/// noted; of one that can no longer be read, no line is sent again.
fn send_kept<B: Book, S: Station>(
    range: &ReportRange,
    resender: &mut Resender<'_, B>,
    station: &mut S,
) -> Result<(), Unanswered>
    requires can { CanResend S.meanings resender.old station.old }
    requires empty { resender.old.reader.reports ≡ [] }
    ensures { Steps S.meanings resender.old resender.new station.old station.new (λ history. lines_again history range.now) result }
{
    let Some(kept) = &mut resender.kept else {
        return Ok(());
    };
    let fault = match resend_kept(range, kept, &mut resender.reader, station) {
        Ok(()) => return Ok(()),
        Err(fault) => fault,
    };
    match why_unsent(fault) {
        Some(why) => Err(why),
        None => {
            resender.kept = None;
            Ok(())
        }
    }
}

/// Sends report lines again: first what waits, and then they.
fn send_again<B: Book, S: Station>(
    range: &ReportRange,
    resender: &mut Resender<'_, B>,
    station: &mut S,
) -> Result<(), Unanswered>
    requires { CanResend S.meanings resender.old station.old }
    ensures { Steps S.meanings resender.old resender.new station.old station.new (λ history. lines_again history range.now) result }
{
    match send_all(resender, station) {
        Ok(()) => send_kept(range, resender, station),
        Err(fault) => Err(fault),
    }
}

/// Sends an answer after what waits.
pub fn send_answer<B: Book, S: Station>(
    answer: &SessionAnswer,
    names: &Names,
    resender: &mut Resender<'_, B>,
    station: &mut S,
) -> Result<(), Unanswered>
    requires { CanResend S.meanings resender.old station.old }
    ensures { Steps S.meanings resender.old resender.new station.old station.new (λ history. answer_bytes names.now (lines_again history) answer.now) result }
{
    match answer {
        SessionAnswer::Nothing => Ok(()),
        SessionAnswer::One(line) => send_line(line, names, resender, station),
        SessionAnswer::Two(line, other) => send_two(line, other, names, resender, station),
        SessionAnswer::Resend {
            firm,
            from,
            to,
            time,
        } => {
            let range = ReportRange {
                firm: *firm,
                from: *from,
                to: *to,
                time: *time,
            };
            send_again(&range, resender, station)
        }
    }
}
