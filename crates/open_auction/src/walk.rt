//! A walk over the candidates of an instrument, from the highest price down, with the sums of both sides: each level is met once.
ghost use Rattle.std.specs.Prelude.{◌≡◌, ◌<◌, None};
ghost use Rattle.open_auction.specs.Openings.{openings};
ghost use Rattle.open_auction.specs.Inner.Walk.{higher, IsWalk, to_come, first_of, after_first};

use crate::quote::Opening;
use gx_base::{Price, Side};
use plain_book::Book;
use std::cmp;

/// Where a walk stands.
#[derive(Clone, Copy)]
pub(crate) struct CandidateWalk {
    instrument: u8,
    /// The next candidate. `None` at the end.
    at: Option<Price>,
    /// What is open of the buys above it, in lots.
    above: u64,
    /// What is open of the sells at it or below, in lots.
    within: u64,
}

/// The higher of two prices, or the one that is there.
fn higher(a: Option<Price>, b: Option<Price>) -> Option<Price>
    ensures { result ≡ higher a b }
{
    match (a, b) {
        (None, b) => b,
        (Some(a), None) => Some(a),
        (Some(a), Some(b)) => Some(if a.0 < b.0 { b } else { a }),
    }
}

impl CandidateWalk {
    /// Stands at the highest candidate.
    pub(crate) fn from_highest<B: Book>(book: &B, instrument: u8) -> CandidateWalk
        requires { instrument < (B.book book.now).instruments }
        ensures walk { IsWalk (B.book book.now) result }
        ensures all { to_come (B.book book.now).resting result ≡ openings instrument (B.book book.now).resting }
        ensures instrument { result.instrument ≡ instrument }
    {
        book.rules();
        let buy = book.best(instrument, Side::Buy);
        let sell = book.worst(instrument, Side::Sell);
        let at = higher(buy, sell);
        let within = match at {
            None => 0,
            Some(price) => book.available(instrument, Side::Sell, price),
        };
        CandidateWalk {
            instrument,
            at,
            above: 0,
            within,
        }
    }

    /// The opening at the next candidate, and goes on. `None` at the end.
    pub(crate) fn next<B: Book>(&mut self, book: &B) -> Option<Opening>
        requires { IsWalk (B.book book.now) self.old }
        ensures walk { IsWalk (B.book book.now) self.new }
        ensures first { result ≡ first_of (to_come (B.book book.now).resting self.old) }
        ensures rest { to_come (B.book book.now).resting self.new ≡ after_first (to_come (B.book book.now).resting self.old) }
        ensures instrument { self.new.instrument ≡ self.old.instrument }
    {
        book.rules();
        let price = self.at?;
        let demand = self.above + book.open_total(self.instrument, Side::Buy, price);
        let supply = self.within;
        self.above = demand;
        self.within = supply - book.open_total(self.instrument, Side::Sell, price);
        let buy = book.worse(self.instrument, Side::Buy, price);
        let sell = book.better(self.instrument, Side::Sell, price);
        self.at = higher(buy, sell);
        Some(Opening {
            price,
            volume: cmp::min(demand, supply),
            demand,
            supply,
        })
    }
}
