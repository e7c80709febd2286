//! Serving the input: frames in, reports out, one record for each read.
ghost use Rattle.std.specs.Prelude.{◌≡◌, ℕ, ◌+◌, ◌^◌, ◌<◌, ◌≤◌, ◌≢◌, List, [], true, IsTrue, length, vec_len, Some};
ghost use Rattle.gx_station.specs.Honest.{KeepsImage};
ghost use Rattle.fix_frame.specs.declared.framer.TheConstants.{ROOM};
ghost use Rattle.fix_frame.specs.declared.place.TheConstants.{FRONT_LIMIT};
ghost use Rattle.order_kinds.specs.State.{state_numbered};
ghost use Rattle.order_kinds.specs.Cores.{FitsProduct, AreNumbered};
ghost use Rattle.order_kinds.specs.declared.core_state.TheConstants.{MOST_MESSAGES};
ghost use Rattle.globex_run.specs.Outside.{source_at, streams_at};
ghost use Rattle.globex_run.specs.Refusals.{IsRefusal};
ghost use Rattle.globex_run.specs.Inner.Keeping.{KeepsEvents};
ghost use Rattle.globex_run.specs.Inner.Serving.{TakesMore, CausedBy, IsDone, ServesInput, IsEmptyFramer};
ghost use Rattle.globex_run.specs.Inner.Sessions.{SessionResult};

use crate::ending::Ending;
use crate::give_frames::{Behind, give_frames};
use crate::outcome::Outcome;
use crate::serve_record::serve_record;
use crate::session::Session;
use exec_report::LineForm;
use fix_frame::{FRONT_LIMIT, Framer, ROOM};
use gx_station::{Failed, LEAST_READ, Source, Station};
use match_journal::Journal;
use order_kinds::MOST_MESSAGES;
use plain_book::Book;

/// Reads once, as much as the framer has room for, and feeds what was read.
pub(crate) fn take_more<I: Source>(
    framer: &mut Framer,
    chunk: &mut [u8],
    input: &mut I,
) -> Result<usize, Failed>
    requires chunk { length chunk.old ≡ ROOM }
    requires room { length framer.old.rest < FRONT_LIMIT }
    requires offset { framer.old.offset < 2 ^ 62 }
    ensures takes { TakesMore (source_at I.meanings input.old) (source_at I.meanings input.new) framer.old framer.new result }
    ensures chunk { length chunk.new ≡ ROOM }
{
    let room = ROOM - framer.rest();
    match input.read(&mut chunk[0..room]) {
        Ok(n) => {
            let _ = framer.feed(&chunk[..n]);
            Ok(n)
        }
        Err(fault) => Err(fault),
    }
}

impl<'a, B: Book> Session<'a, B> {
    ghost use Rattle.globex_run.specs.Inner.Working.{IsNewSession};

    /// Serves the input to its end, or as far as it can be served. Each turn reads once; all whole frames at hand are then kept in
    /// one record, cut where the journal's limit cuts it, or where no more messages can be counted; they are applied, and then their
    /// events are published. It ends since each record lengthens the journal towards its limit, and each read that does not end the
    /// input takes at least one byte into a bounded buffer.
    ///
    /// Where the order numbers of the core differ, the state, what is sent and the form are those of the engine's events. Over
    /// any other core that fits, the records are kept as well, and their messages are counted.
    fn serve_input<F: LineForm, I: Source, S: Station>(
        &mut self,
        form: &mut F,
        journal: &mut Journal,
        input: &mut I,
        station: &mut S,
    ) -> Ending
        requires limit { journal.old.limit ≡ self.old.product.now.journal_limit }
        requires at_end { journal.old.is_at_end ≡ true }
        requires reach { journal.old.known ≤ S.meanings.reach station.old }
        requires in_limit { journal.old.gate < journal.old.limit }
        requires few { self.old.engine.core.desk.messages < MOST_MESSAGES }
        requires fits { FitsProduct self.old.product.now self.old.engine.core }
        requires framer { IsEmptyFramer self.old.framer }
        requires reports { self.old.engine.reports ≡ [] }
        ensures silent { IsTrue F.meanings.is_silent → result ≢ Ending.SendFault }
        ensures empty { IsDone result → self.new.engine.reports ≡ [] }
        ensures bytes_read { S.meanings.bytes_read station.new ≡ S.meanings.bytes_read station.old }
        ensures cause { CausedBy result (streams_at I.meanings S.meanings input.old station.old) (streams_at I.meanings S.meanings input.new station.new) }
        ensures serves { ServesInput S.meanings (AreNumbered self.old.engine.core) (F.meanings.text form.old) self.old.product.now journal.old.limit
            (streams_at I.meanings S.meanings input.old station.old) (streams_at I.meanings S.meanings input.new station.new) journal.old.gate journal.new.gate
            (state_numbered self.old.engine.core) (state_numbered self.new.engine.core) (λ events. KeepsEvents F.meanings form.old form.new events) result }
    {
        let product = self.product;
        product.limits();
        let Session {
            engine,
            framer,
            chunk,
            ..
        } = self;
        'turns: loop {
            let at = framer.offset();
            let held = framer.rest();
            match take_more(framer, chunk.as_mut_slice(), input) {
                Ok(0) if held == 0 => return Ending::Done,
                Ok(0) => return Ending::Truncated(at),
                Ok(_) => {}
                Err(Failed) => return Ending::ReadFault(at + held as u64),
            }
            let most = MOST_MESSAGES - 1 - engine.core.messages();
            let behind = give_frames(framer, journal.room(), most);
            if let Err(reason) = serve_record(form, product, engine, journal, framer, station) {
                return reason.ending();
            }
            match behind {
                Behind::Front => {}
                Behind::NoRoom => return Ending::Full(framer.offset()),
                Behind::Broken => return Ending::BadFrame(framer.offset()),
            }
        }
    }

    /// Opens the journal of the product, brings the core to the state of the messages that it keeps, and serves the input. Of the
    /// messages of this call it tells how many are kept in records whose append was Ok.
    pub fn serve<F: LineForm, I: Source, S: Station>(
        &mut self,
        form: &mut F,
        input: &mut I,
        station: &mut S,
    ) -> Outcome
        requires new { IsNewSession self.old }
        ensures session { SessionResult S.meanings (F.meanings.text form.old) self.old.product.now self.old.text.now
            (streams_at I.meanings S.meanings input.old station.old) (streams_at I.meanings S.meanings input.new station.new)
            (λ events. KeepsEvents F.meanings form.old form.new events) (state_numbered self.new.engine.core) result }
        ensures silent { IsTrue F.meanings.is_silent → result.status ≢ 6 }
        ensures empty { result.status ≡ 0 → self.new.engine.reports ≡ [] }
        ensures stays { (image : List ℕ) → S.meanings.holds station.old ≡ Some image → IsRefusal result.status
            → KeepsImage S.meanings station.old station.new }
        ensures refused { IsRefusal result.status → S.meanings.sent station.new ≡ S.meanings.sent station.old }
    {
        self.product.limits();
        let mut journal = match self.open(station) {
            Ok(journal) => journal,
            Err(reason) => return reason.ending().outcome(0),
        };
        let earlier = self.engine.core.messages();
        let ending = self.serve_input(form, &mut journal, input, station);
        ending.outcome(self.engine.core.messages() - earlier)
    }
}
