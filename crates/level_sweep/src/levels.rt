//! The steps of a list, one after the other, at one price.
ghost use Rattle.std.specs.Prelude.{◌≡◌, true};
ghost use Rattle.step_config.specs.Rules.{is_fifo};
ghost use Rattle.step_config.specs.RightSteps.{IsRightStep};
ghost use Rattle.plain_book.specs.Matches.{match_at, Matches, CanTrade};
ghost use Rattle.plain_book.specs.Steps.{IsLevelDone};
ghost use Rattle.level_sweep.specs.Sweep.{after_step, wanted_step, level_match, with_resting};

use gx_base::{Desk, Emit, Price, Taker};
use leveling_pass::leveling_pass;
use lmm_pass::lmm_pass;
use plain_book::Book;
use prorata_pass::prorata_pass;
use split_pass::{fifo_pass, split_pass};
use step_config::{Step, Steps};
use top_order::top_pass;

/// One step at a price.
fn run_step<B: Book, E: Emit>(
    book: &mut B,
    desk: &mut Desk,
    taker: &mut Taker,
    price: Price,
    step: &Step,
    out: &mut E,
)
    requires right { IsRightStep step.now }
    requires can { CanTrade (B.book book.old) desk.old taker.old }
    ensures matches { let before = match_at (B.book book.old) desk.old taker.old out.old in
        let after = match_at (B.book book.new) desk.new taker.new out.new in
        Matches E.meanings (after_step step.now price) before after }
    ensures done { is_fifo step.now ≡ true → IsLevelDone price (B.book book.new) taker.new }
{
    match step {
        Step::Top(rule) => top_pass(book, desk, taker, price, rule, out),
        Step::Lmm(shares) => lmm_pass(book, desk, taker, price, shares, out),
        Step::Split(percent) => split_pass(book, desk, taker, price, *percent, out),
        Step::ProRata(least) => prorata_pass(book, desk, taker, price, *least, out),
        Step::Leveling => leveling_pass(book, desk, taker, price, out),
        Step::Fifo => fifo_pass(book, desk, taker, price, out),
    }
}

/// One step at a price, where anything is wanted.
fn run_if_wanted<B: Book, E: Emit>(
    book: &mut B,
    desk: &mut Desk,
    taker: &mut Taker,
    price: Price,
    step: &Step,
    out: &mut E,
)
    requires right { IsRightStep step.now }
    requires can { CanTrade (B.book book.old) desk.old taker.old }
    ensures matches { let before = match_at (B.book book.old) desk.old taker.old out.old in
        let after = match_at (B.book book.new) desk.new taker.new out.new in
        Matches E.meanings (wanted_step step.now price) before after }
    ensures done { is_fifo step.now ≡ true → IsLevelDone price (B.book book.new) taker.new }
{
    if taker.order.leaves > 0 {
        run_step(book, desk, taker, price, step, out);
    }
}

/// The level match: the steps in their order, each at this price and on the level as the step before it left it, and
/// none once no lots are wanted. In the end no lots are wanted or no order is left at the price. Only resting orders
/// change. Our own rule, after the exchange's published outline.
pub fn match_level<B: Book, E: Emit>(
    book: &mut B,
    desk: &mut Desk,
    taker: &mut Taker,
    price: Price,
    steps: &Steps,
    out: &mut E,
)
    requires can { CanTrade (B.book book.old) desk.old taker.old }
    ensures matches { let before = match_at (B.book book.old) desk.old taker.old out.old in
        let after = match_at (B.book book.new) desk.new taker.new out.new in
        Matches E.meanings (level_match steps.now price) before after }
    ensures done { IsLevelDone price (B.book book.new) taker.new }
    ensures stays { B.book book.new ≡ with_resting (B.book book.new).resting (B.book book.old) }
{
    let steps = steps.list();
    for step in steps {
        run_if_wanted(book, desk, taker, price, step, out);
    }
}
