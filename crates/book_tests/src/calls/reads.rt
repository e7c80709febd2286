//! What a book answers, written down free of its slots, since two books may give one order different ones.
ghost use Rattle.std.specs.Prelude.{◌≡◌, ◌<◌, IfSome};
ghost use Rattle.plain_book.specs.Orders.{HasSlot, order_of, level, orders_at};
ghost use Rattle.plain_book.specs.Book.{live_orders};

use crate::calls::draws::{INSTRUMENTS, Random};
use gx_base::{Kind, Order, Price, ShortId, Side, Slot};
use plain_book::Book;
use std::process::Abort;

/// Room for the lines of a run, and more.
pub(crate) const ROOM: usize = 524_288;

/// What was called, and how.
#[derive(Clone, Copy, Debug, PartialEq, Eq)]
pub(crate) enum Call {
    Capacity,
    Live,
    Best,
    Worse,
    Worst,
    Better,
    First,
    Next,
    Count,
    ShownTotal,
    OpenTotal,
    Available,
    Find,
    Top,
    FirstWaiting,
    NextWaiting,
    FirstReached,
    /// The first stop that is reached, where none is.
    NoneReached,
    /// An order that shows all.
    Place,
    PlaceWithShow,
    /// An order that may be TOP.
    PlaceForTop,
    PlaceForTopWithShow,
    Wait,
    /// A stop under the name of an order that left just before.
    WaitAnew,
    /// Neither `place` nor `wait`, since the book is full.
    Full,
    TradePart,
    /// All that is shown, where more is open.
    TradeShown,
    TradeAll,
    RemoveResting,
    RemoveWaiting,
    ChangeResting,
    ChangeWaiting,
    SetProrated,
    SetShown,
    SetTop,
    EndTop,
    Clear,
}

/// What it answered; of a slot, the order there.
#[derive(Clone, Copy, Debug, PartialEq, Eq)]
pub(crate) enum Answer {
    Nothing,
    Number(u64),
    Price(Price),
    Order(Order),
}

impl From<Option<Price>> for Answer {
    fn from(price: Option<Price>) -> Answer {
        price.map_or(Answer::Nothing, Answer::Price)
    }
}

#[derive(Clone, Copy, Debug, PartialEq, Eq)]
pub(crate) struct Line {
    call: Call,
    answer: Answer,
}

/// All calls of a run, with their answers.
#[derive(Drop)]
pub(crate) struct Log {
    lines: Vec<Line>,
}

impl Log {
    pub(crate) fn new(rt: &(impl Abort + AllocGlobal)) -> Log {
        Log {
            lines: Vec::with_capacity(rt.alloc(), ROOM).expect(rt, "memory"),
        }
    }

    /// Up to `ROOM` lines it takes no memory, and so cannot fail.
    pub(crate) fn note(&mut self, call: Call, answer: Answer) {
        let _ = self.lines.push(Line { call, answer });
    }

    pub(crate) fn lines(&self) -> &[Line] {
        &self.lines
    }

    /// How often this was called.
    pub(crate) fn times(&self, call: Call) -> usize {
        self.lines.iter().filter(|line| line.call == call).count()
    }
}

/// The order of a slot. No other function here asks for it.
pub(crate) fn order_at<B: Book>(book: &B, slot: Slot) -> Order
    requires { HasSlot slot.0 (live_orders (B.book book.now)) }
    ensures { result ≡ order_of slot.0 (live_orders (B.book book.now)) }
{
    *book.order(slot)
}

/// The order there, if there is one.
pub(crate) fn answer_at<B: Book>(book: &B, at: Option<Slot>) -> Answer
    requires { IfSome at (λ slot. HasSlot slot.0 (live_orders (B.book book.now))) }
{
    match at {
        Some(slot) => Answer::Order(order_at(book, slot)),
        None => Answer::Nothing,
    }
}

/// Where the order of a firm with this id stands, if there is one.
pub(crate) fn named_slot<B: Book>(book: &B, firm: u8, id: &ShortId) -> Option<Slot>
    ensures { IfSome result (λ slot. HasSlot slot.0 (live_orders (B.book book.now))) }
{
    book.find(firm, id)
}

/// The order of a firm with this id, if there is one.
pub(crate) fn named<B: Book>(book: &B, firm: u8, id: &ShortId) -> Answer {
    answer_at(book, named_slot(book, firm, id))
}

/// The TOP order of a side, if there is one.
pub(crate) fn top_of<B: Book>(book: &B, instrument: u8, side: Side) -> Answer
    requires { instrument < (B.book book.now).instruments }
{
    answer_at(book, book.top(instrument, side))
}

/// The first or the second order of a level.
pub(crate) fn early_at<B: Book>(
    book: &B,
    random: &mut Random,
    instrument: u8,
    side: Side,
    price: Price,
) -> Option<Slot>
    requires { instrument < (B.book book.now).instruments }
    ensures { IfSome result (λ slot. HasSlot slot.0 (orders_at (level instrument side price) (B.book book.now).resting)) }
{
    book.rules();
    let first = book.first(instrument, side, price)?;
    if random.is_one_in(2) {
        return Some(first);
    }
    book.next(first)
}

/// The stop price of a stop with a drawn name, the price of another order with it, or a drawn price.
fn named_price<B: Book>(book: &B, random: &mut Random) -> Price {
    let Answer::Order(order) = named(book, random.firm(), &random.id()) else {
        return random.price();
    };
    match order.kind {
        Kind::StopLimit => order.trigger,
        Kind::Limit | Kind::Market => order.price,
    }
}

/// An end of a range of trade prices: in half of the draws the price of an order, so that a stop may stand just at the end.
fn range_end<B: Book>(book: &B, random: &mut Random) -> Price {
    match random.below(8) {
        0 => Price(i64::MIN),
        1 => Price(i64::MAX),
        2..=3 => random.price(),
        _ => named_price(book, random),
    }
}

/// The first stop that a drawn range of trade prices reaches. Its ends are drawn one by one, so the first may be the greater one.
pub(crate) fn reached_slot<B: Book>(book: &B, random: &mut Random) -> Option<Slot>
    requires { (B.book book.now).instruments ≡ INSTRUMENTS }
    ensures { IfSome result (λ slot. HasSlot slot.0 (live_orders (B.book book.now))) }
{
    let instrument = random.instrument();
    let least = range_end(book, random);
    let greatest = range_end(book, random);
    book.first_reached(instrument, least, greatest)
}

fn read_reached<B: Book>(book: &B, random: &mut Random, log: &mut Log)
    requires { (B.book book.now).instruments ≡ INSTRUMENTS }
{
    let at = reached_slot(book, random);
    let call = if at.is_some() {
        Call::FirstReached
    } else {
        Call::NoneReached
    };
    log.note(call, answer_at(book, at));
}

fn read_level<B: Book>(book: &B, instrument: u8, side: Side, price: Price, log: &mut Log)
    requires { instrument < (B.book book.now).instruments }
{
    let mut at = book.first(instrument, side, price);
    log.note(Call::First, answer_at(book, at));
    for _order in 0..book.live() {
        let Some(slot) = at else {
            return;
        };
        at = book.next(slot);
        log.note(Call::Next, answer_at(book, at));
    }
}

fn read_side<B: Book>(book: &B, instrument: u8, side: Side, log: &mut Log)
    requires { instrument < (B.book book.now).instruments }
{
    let mut price = book.best(instrument, side);
    log.note(Call::Best, Answer::from(price));
    for _level in 0..book.live() {
        let Some(level) = price else {
            return;
        };
        read_level(book, instrument, side, level, log);
        let better = book.better(instrument, side, level);
        log.note(Call::Better, Answer::from(better));
        price = book.worse(instrument, side, level);
        log.note(Call::Worse, Answer::from(price));
    }
}

fn read_stops<B: Book>(book: &B, instrument: u8, log: &mut Log)
    requires { instrument < (B.book book.now).instruments }
{
    let mut at = book.first_waiting(instrument);
    log.note(Call::FirstWaiting, answer_at(book, at));
    for _stop in 0..book.live() {
        let Some(slot) = at else {
            return;
        };
        at = book.next_waiting(slot);
        log.note(Call::NextWaiting, answer_at(book, at));
    }
}

/// Writes down every live order, in the order of the book.
pub(crate) fn read_orders<B: Book>(book: &B, log: &mut Log)
    requires { (B.book book.now).instruments ≡ INSTRUMENTS }
{
    for instrument in 0..INSTRUMENTS {
        read_side(book, instrument, Side::Buy, log);
        read_side(book, instrument, Side::Sell, log);
        read_stops(book, instrument, log);
    }
}

/// Writes down what is asked of a book without a walk, at a drawn price, a drawn name and a drawn range.
pub(crate) fn read_numbers<B: Book>(book: &B, random: &mut Random, log: &mut Log)
    requires { (B.book book.now).instruments ≡ INSTRUMENTS }
{
    let instrument = random.instrument();
    let side = random.side();
    let price = random.price();
    let count = book.count(instrument, side, price);
    log.note(Call::Count, Answer::Number(u64::from(count)));
    let shown = book.shown_total(instrument, side, price);
    log.note(Call::ShownTotal, Answer::Number(shown));
    let open_total = book.open_total(instrument, side, price);
    log.note(Call::OpenTotal, Answer::Number(open_total));
    let open = book.available(instrument, side, price);
    log.note(Call::Available, Answer::Number(open));
    let worse = book.worse(instrument, side, price);
    log.note(Call::Worse, Answer::from(worse));
    let better = book.better(instrument, side, price);
    log.note(Call::Better, Answer::from(better));
    let worst = book.worst(instrument, side);
    log.note(Call::Worst, Answer::from(worst));
    log.note(Call::Find, named(book, random.firm(), &random.id()));
    log.note(Call::Live, Answer::Number(u64::from(book.live())));
    log.note(Call::Capacity, Answer::Number(u64::from(book.capacity())));
    log.note(Call::Top, top_of(book, instrument, side));
    read_reached(book, random, log);
}
