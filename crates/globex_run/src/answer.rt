//! Answering the session messages of the input: frames in, answers out. Nothing is kept.
ghost use Rattle.std.specs.Prelude.{◌≡◌, ℕ, ◌^◌, ◌<◌, [], slice_index, vec_len, IfOk, OnOk, OnErr};
ghost use Rattle.fix_frame.specs.declared.framer.TheConstants.{ROOM};
ghost use Rattle.fix_session.specs.SessionOut.{session_out, sessions_after};
ghost use Rattle.journal_print.specs.Readers.{IsNewReader};
ghost use Rattle.globex_run.specs.Answering.{lines_again};
ghost use Rattle.globex_run.specs.Outside.{source_at, streams_at};
ghost use Rattle.globex_run.specs.Inner.Answers.{AnswersWithCauses};
ghost use Rattle.globex_run.specs.Inner.AnswerSteps.{CanResend, Steps, Turns, AnswersAll};
ghost use Rattle.globex_run.specs.Inner.Serving.{IsEmptyFramer};

use crate::ending::Ending;
use crate::give_frames::{Behind, give_frames, given_are_frames};
use crate::outcome::Outcome;
use crate::printing::{new_reader, outcome_printed};
use crate::resender::{Resender, Unanswered, send_all, send_answer};
use crate::serve::take_more;
use crate::taken::Taken;
use fix_frame::{Framer, ROOM};
use fix_session::Sessions;
use gx_base::Desk;
use gx_station::{Failed, Source, Station};
use journal_print::{Reader, note_kept};
use order_kinds::MOST_MESSAGES;
use plain_book::Book;
use product_file::Product;
use std::alloc::{AllocError, Global};

/// What answering works with, besides the outside.
#[derive(Drop)]
struct Answering<'p, B: Book> {
    product: &'p Product,
    /// The counters after the messages that the journal keeps. No answer changes them.
    desk: Desk,
    sessions: Sessions,
    resender: Resender<'p, B>,
    framer: Framer,
    /// The bytes of one read.
    chunk: Vec<u8>,
}

/// How answering ended, and how many messages were answered: none are counted where the store failed.
#[derive(Clone, Copy, Debug, PartialEq, Eq)]
struct Answered {
    ending: Ending,
    messages: u64,
}

/// Answers the messages of the frames that a framer has given, one after the other. After an error what was sent is a part of the
/// answers.
fn answer_given<B: Book, S: Station>(
    sessions: &mut Sessions,
    product: &Product,
    desk: &Desk,
    framer: &Framer,
    resender: &mut Resender<'_, B>,
    station: &mut S,
) -> Result<(), Unanswered>
    requires counted { (place : ℕ) → slice_index desk.now.lines place < 2 ^ 62 }
    requires can { CanResend S.meanings resender.old station.old }
    ensures sends { Steps S.meanings resender.old resender.new station.old station.new
        (λ history. session_out product.now.names desk.now.lines (lines_again history) sessions.old framer.now.given) result }
    ensures sessions { OnOk result (sessions.new ≡ sessions_after product.now.names desk.now.lines sessions.old framer.now.given) }
{
    for number in 0..framer.given_count() {
        let answer = sessions.take(framer.given(number), product, desk);
        match send_answer(&answer, product.names(), resender, station) {
            Ok(()) => {}
            Err(fault) => return Err(fault),
        }
    }
    Ok(())
}

/// Answers the messages of the frames that a framer has given, when nothing waits, and sends all answers then.
fn answer_turn<B: Book, S: Station>(
    sessions: &mut Sessions,
    product: &Product,
    desk: &Desk,
    framer: &Framer,
    resender: &mut Resender<'_, B>,
    station: &mut S,
) -> Result<(), Unanswered>
    requires counted { (place : ℕ) → slice_index desk.now.lines place < 2 ^ 62 }
    requires can { CanResend S.meanings resender.old station.old }
    requires empty { resender.old.reader.reports ≡ [] }
    ensures sends { Turns S.meanings resender.old resender.new station.old station.new
        (λ history. session_out product.now.names desk.now.lines (lines_again history) sessions.old framer.now.given) result }
    ensures sessions { OnOk result (sessions.new ≡ sessions_after product.now.names desk.now.lines sessions.old framer.now.given) }
{
    match answer_given(sessions, product, desk, framer, resender, station) {
        Ok(()) => send_all(resender, station),
        Err(fault) => Err(fault),
    }
}

impl<'p, B: Book> Answering<'p, B> {
    /// Answers the messages of the input to its end, or as far as they can be answered. Each turn reads once; all whole frames at hand are
    /// answered then, and what waits is sent. It ends since each turn answers a message, of which there are at most one less than a
    /// journal may keep, or holds more bytes in a bounded buffer.
    fn answer_input<I: Source, S: Station>(&mut self, input: &mut I, station: &mut S) -> Answered
        requires counted { (place : ℕ) → slice_index self.old.desk.lines place < 2 ^ 62 }
        requires can { CanResend S.meanings self.old.resender station.old }
        requires framer { IsEmptyFramer self.old.framer }
        requires chunk { vec_len self.old.chunk ≡ ROOM }
        requires empty { self.old.resender.reader.reports ≡ [] }
        ensures { AnswersAll S.meanings self.old.product.now self.old.desk.lines self.old.sessions self.old.resender.kept
            (source_at I.meanings input.old) (source_at I.meanings input.new) station.old station.new result.ending result.messages }
    {
        let product = self.product;
        let desk = self.desk;
        let Answering {
            sessions,
            resender,
            framer,
            chunk,
            ..
        } = self;
        let mut count: u64 = 0;
        'turns: loop {
            let at = framer.offset();
            let held = framer.rest();
            match take_more(framer, chunk.as_mut_slice(), input) {
                Ok(0) if held == 0 => {
                    return Answered {
                        ending: Ending::Done,
                        messages: count,
                    };
                }
                Ok(0) => {
                    return Answered {
                        ending: Ending::Truncated(at),
                        messages: count,
                    };
                }
                Ok(_) => {}
                Err(Failed) => {
                    return Answered {
                        ending: Ending::ReadFault(at + held as u64),
                        messages: count,
                    };
                }
            }
            let behind = give_frames(framer, 2 * ROOM as u64, MOST_MESSAGES - 1 - count);
            given_are_frames(framer);
            match answer_turn(sessions, product, &desk, framer, resender, station) {
                Ok(()) => {}
                Err(Unanswered::Store) => {
                    return Answered {
                        ending: Ending::StoreFault,
                        messages: 0,
                    };
                }
                Err(Unanswered::Send) => {
                    return Answered {
                        ending: Ending::SendFault,
                        messages: count,
                    };
                }
            }
            count += framer.given_count() as u64;
            match behind {
                Behind::Front => {}
                Behind::NoRoom => {
                    return Answered {
                        ending: Ending::Full(framer.offset()),
                        messages: count,
                    };
                }
                Behind::Broken => {
                    return Answered {
                        ending: Ending::BadFrame(framer.offset()),
                        messages: count,
                    };
                }
            }
        }
    }
}

/// Notes the messages that the journal keeps, and answers those of the input, with the memory that was taken. It owns that memory, so that
/// what takes it has no other path on which it is given back.
fn answer_with<B: Book + Drop, I: Source, S: Station>(
    alloc: Global,
    taken: &Taken<'_>,
    mut reader: Reader<B>,
    framer: Framer,
    chunk: Vec<u8>,
    input: &mut I,
    station: &mut S,
) -> Outcome
    requires new { IsNewReader taken.now.product.now reader }
    requires framer { IsEmptyFramer framer }
    requires chunk { vec_len chunk ≡ ROOM }
    ensures { AnswersWithCauses S.meanings taken.now.product.now taken.now.text.now
        (streams_at I.meanings S.meanings input.old station.old) (streams_at I.meanings S.meanings input.new station.new) result }
{
    let mut sessions = Sessions::new();
    let noted = note_kept(
        alloc,
        &mut sessions,
        taken.product,
        taken.text,
        &mut reader,
        station,
    );
    let kept = match noted {
        Ok(kept) => kept,
        Err(why) => return outcome_printed(Err(why)),
    };
    let desk = *reader.core.desk();
    let mut answering = Answering {
        product: taken.product,
        desk,
        sessions,
        resender: Resender { kept, reader },
        framer,
        chunk,
    };
    let answered = answering.answer_input(input, station);
    answered.ending.outcome(answered.messages)
}

/// Takes memory, notes the messages that the journal keeps, and answers those of the input. An `Err` is want of memory, and nothing was
/// touched then. The products of a journal with amendments are taken once their texts were read: want of memory for them is status 1, and
/// the station was only read then.
pub fn answer_messages<I: Source, S: Station>(
    alloc: Global,
    taken: &Taken<'_>,
    input: &mut I,
    station: &mut S,
) -> Result<Outcome, AllocError>
    ensures answers { IfOk result (AnswersWithCauses S.meanings taken.now.product.now taken.now.text.now
        (streams_at I.meanings S.meanings input.old station.old) (streams_at I.meanings S.meanings input.new station.new)) }
    ensures no_input { OnErr result (input.new ≡ input.old) }
    ensures no_station { OnErr result (station.new ≡ station.old) }
{
    let framer = Framer::new(alloc)?;
    let chunk = vec![in alloc; 0; ROOM]?;
    let reader = new_reader(alloc, taken.product)?;
    Ok(answer_with(alloc, taken, reader, framer, chunk, input, station))
}
