//! A drill: messages that are made by rule are served, and counted in place of reported.
ghost use Rattle.std.specs.Prelude.{◌≡◌, ℕ, List, Some};
ghost use Rattle.gx_station.specs.Honest.{KeepsImage};
ghost use Rattle.globex_run.specs.Refusals.{IsRefusal};
ghost use Rattle.globex_run.specs.Inner.Drilling.{DrillResult, DrillsMade};

use crate::ending::Ending;
use crate::outcome::Outcome;
use crate::session::Session;
use book_print::{Tally, print_tally};
use gx_station::Station;
use order_maker::MakerSource;
use plain_book::Book;
use stream_laws::names_are_right;

impl<'a, B: Book> Session<'a, B> {
    ghost use Rattle.globex_run.specs.Inner.Working.{IsNewSession};

    /// Serves made messages as a run serves its input, but that no report is sent of them. Where all of them are kept, a line is sent
    /// that sums them up.
    fn run_drill<S: Station>(&mut self, made: &mut MakerSource<'_>, station: &mut S) -> Outcome
        requires new { IsNewSession self.old }
        ensures drills { DrillResult S.meanings self.old.product.now self.old.text.now made.old made.new station.old station.new result }
        ensures stays { (image : List ℕ) → S.meanings.holds station.old ≡ Some image → IsRefusal result.status
            → KeepsImage S.meanings station.old station.new }
        ensures refused { IsRefusal result.status → S.meanings.sent station.new ≡ S.meanings.sent station.old }
    {
        let mut tally = Tally::new();
        let outcome = self.serve(&mut tally, made, station);
        if !outcome.is_ok() {
            return outcome;
        }
        let live = self.engine.core.book().live();
        let sent = print_tally(
            outcome.messages,
            &tally,
            live,
            &mut self.engine.reports,
            station,
        );
        Ending::of_sent(sent).outcome(outcome.messages)
    }

    /// A drill of `count` messages that are made from `first` on.
    pub fn drill<S: Station>(&mut self, first: u32, count: u32, station: &mut S) -> Outcome
        requires new { IsNewSession self.old }
        ensures drills { DrillsMade S.meanings self.old.product.now self.old.text.now first count station.old station.new result }
        ensures stays { (image : List ℕ) → S.meanings.holds station.old ≡ Some image → IsRefusal result.status
            → KeepsImage S.meanings station.old station.new }
        ensures refused { IsRefusal result.status → S.meanings.sent station.new ≡ S.meanings.sent station.old }
    {
        let product = self.product;
        product.limits();
        names_are_right(product);
        let mut made = MakerSource::new(product, first, count);
        self.run_drill(&mut made, station)
    }
}
