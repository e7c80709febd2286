//! The indicative openings: the orders of the input are collected on the book that the journal keeps, and nothing is matched or kept.
ghost use Rattle.std.specs.Prelude.{◌≡◌, ◌+◌, ◌<◌, ◌≤◌, length, vec_len};
ghost use Rattle.fix_frame.specs.declared.framer.TheConstants.{ROOM};
ghost use Rattle.order_kinds.specs.Cores.{FitsProduct};
ghost use Rattle.order_kinds.specs.declared.core_state.TheConstants.{MOST_MESSAGES};
ghost use Rattle.globex_run.specs.Outside.{source_at, streams_at};
ghost use Rattle.globex_run.specs.Inner.Collecting.{CollectsFrames, CollectsInput, ShowsWithCause, ending_unread};
ghost use Rattle.globex_run.specs.Inner.Serving.{IsEmptyFramer};

use crate::ending::Ending;
use crate::give_frames::{Behind, give_frames, given_are_frames};
use crate::outcome::Outcome;
use crate::serve::take_more;
use crate::session::Session;
use fix_frame::{Framer, ROOM};
use fix_request::read_request;
use gx_station::{Failed, Source, Station};
use journal_print::{Unprinted, recover_kept};
use open_auction::{collect, print_opening};
use order_kinds::{Core, MOST_MESSAGES};
use plain_book::Book;
use product_file::Product;

/// How a command ends whose journal was not recovered. Recovery takes no memory and sends nothing.
fn ending_unread(why: Unprinted) -> Ending
    ensures { result ≡ ending_unread why }
{
    match why {
        Unprinted::Store | Unprinted::NoMemory | Unprinted::Send => Ending::StoreFault,
        Unprinted::NotAJournal(at) => Ending::NotAJournal(at),
        Unprinted::Bad(at) => Ending::JournalBad(at),
        Unprinted::ProductDiffers(at) => Ending::ProductDiffers(at),
    }
}

/// Collects the messages of the frames that a framer has given, in their order.
fn collect_given<B: Book>(core: &mut Core<B>, product: &Product, framer: &Framer)
    requires few { core.old.desk.messages + length framer.now.given ≤ MOST_MESSAGES }
    requires fits { FitsProduct product.now core.old }
    ensures collects { CollectsFrames product.now core.old core.new framer.now.given }
    ensures fits { FitsProduct product.now core.new }
{
    for number in 0..framer.given_count() {
        let request = read_request(framer.given(number), product);
        collect(core, product, &request);
    }
}

impl<'a, B: Book> Session<'a, B> {
    ghost use Rattle.globex_run.specs.Inner.Working.{IsNewSession};

    /// Collects the messages of the input to its end, or as far as they can be collected. Each turn reads once, and all whole frames at hand
    /// are collected then. It ends since each turn counts a message, of which a core takes so many at most, or holds more bytes in a
    /// bounded buffer.
    fn collect_input<I: Source>(&mut self, input: &mut I) -> Ending
        requires few { self.old.engine.core.desk.messages < MOST_MESSAGES }
        requires fits { FitsProduct self.old.product.now self.old.engine.core }
        requires framer { IsEmptyFramer self.old.framer }
        ensures collects { CollectsInput self.old.product.now (source_at I.meanings input.old) (source_at I.meanings input.new)
            self.old.engine.core self.new.engine.core result }
        ensures fits { FitsProduct self.old.product.now self.new.engine.core }
        ensures reports { self.new.engine.reports ≡ self.old.engine.reports }
        ensures product { self.new.product.now ≡ self.old.product.now }
    {
        let product = self.product;
        let Session {
            engine,
            framer,
            chunk,
            ..
        } = self;
        'turns: loop {
            let at = framer.offset();
            let held = framer.rest();
            match take_more(framer, chunk.as_mut_slice(), input) {
                Ok(0) if held == 0 => return Ending::Done,
                Ok(0) => return Ending::Truncated(at),
                Ok(_) => {}
                Err(Failed) => return Ending::ReadFault(at + held as u64),
            }
            let most = MOST_MESSAGES - 1 - engine.core.messages();
            let behind = give_frames(framer, 2 * ROOM as u64, most);
            given_are_frames(framer);
            collect_given(&mut engine.core, product, framer);
            match behind {
                Behind::Front => {}
                Behind::NoRoom => return Ending::Full(framer.offset()),
                Behind::Broken => return Ending::BadFrame(framer.offset()),
            }
        }
    }

    /// Brings the core to the state that the journal keeps, collects the orders of the input, and sends the openings of the book that this
    /// gives, once the input was read to its end. The outcome counts the messages collected. The journal is only read.
    pub fn show_openings<I: Source, S: Station>(
        &mut self,
        input: &mut I,
        station: &mut S,
    ) -> Outcome
        requires new { IsNewSession self.old }
        ensures { ShowsWithCause S.meanings self.old.product.now self.old.text.now
            (streams_at I.meanings S.meanings input.old station.old) (streams_at I.meanings S.meanings input.new station.new) result }
    {
        let product = self.product;
        let recovered = recover_kept(
            product,
            self.text,
            &mut self.scratch,
            &mut self.engine.core,
            station,
        );
        if let Err(why) = recovered {
            return ending_unread(why).outcome(0);
        }
        let earlier = self.engine.core.messages();
        let ending = self.collect_input(input);
        let count = self.engine.core.messages() - earlier;
        match ending {
            Ending::Done => {
                let sent = print_opening(
                    &self.engine.core,
                    product,
                    &mut self.engine.reports,
                    station,
                );
                Ending::of_sent(sent).outcome(count)
            }
            _ => ending.outcome(count),
        }
    }
}
