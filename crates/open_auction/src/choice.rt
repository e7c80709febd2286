//! The opening price.
ghost use Rattle.std.specs.Prelude.{◌≡◌, ◌<◌};
ghost use Rattle.open_auction.specs.Openings.{difference, distance, is_ahead, opening_of};
ghost use Rattle.open_auction.specs.Inner.Walk.{chosen_if};

use crate::quote::Opening;
use crate::walk::CandidateWalk;
use gx_base::Price;
use plain_book::Book;

/// How far demand and supply are apart, in lots.
fn difference(opening: Opening) -> u64
    ensures { result ≡ difference opening }
{
    opening.demand.abs_diff(opening.supply)
}

/// How far the price is from the last trade price, in price units; 0 where there is none.
fn distance(last: Option<Price>, opening: Opening) -> u64
    ensures { result ≡ distance last opening }
{
    match last {
        None => 0,
        Some(last) => opening.price.0.abs_diff(last.0),
    }
}

/// Whether a is chosen before b: a greater volume; then a lesser difference; then nearer to the last trade price; then lower.
fn is_ahead(last: Option<Price>, a: Opening, b: Opening) -> bool
    ensures { result ≡ is_ahead last a b }
{
    if a.volume != b.volume {
        return b.volume < a.volume;
    }
    if difference(a) != difference(b) {
        return difference(a) < difference(b);
    }
    if distance(last, a) != distance(last, b) {
        return distance(last, a) < distance(last, b);
    }
    a.price.0 < b.price.0
}

/// The best so far, or one more where something would trade at it and it is chosen before the best so far.
fn chosen(last: Option<Price>, best: Option<Opening>, opening: Opening) -> Option<Opening>
    ensures { result ≡ chosen_if last best opening }
{
    if opening.volume == 0 {
        return best;
    }
    match best {
        Some(best) if !is_ahead(last, opening, best) => Some(best),
        _ => Some(opening),
    }
}

/// The opening price of an instrument, in price units, and the volume, the demand and the supply at it, in lots. Of the prices of
/// the instrument's resting orders it is that of the greatest volume; among these of the least difference of demand and supply;
/// among these, where there is a last trade price, the nearest to it; among these the lowest (our own rule, the usual one of a
/// call auction). `None` exactly where nothing would trade at any price.
///
/// It takes no memory, and meets each price of the instrument once.
pub fn opening<B: Book>(book: &B, instrument: u8, last: Option<Price>) -> Option<Opening>
    requires { instrument < (B.book book.now).instruments }
    ensures { result ≡ opening_of last instrument (B.book book.now).resting }
{
    let mut walk = CandidateWalk::from_highest(book, instrument);
    let mut best = None;
    while let Some(opening) = walk.next(book) {
        best = chosen(last, best, opening);
    }
    best
}
