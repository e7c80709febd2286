//! Both books over long lists of drawn calls, to which they have to give the same answers.
ghost use Rattle.std.specs.Prelude.{◌≡◌, ◌<◌, ◌≤◌, length, true, false, IfSome, option_map};
ghost use Rattle.plain_book.specs.Orders.{HasSlot, is_live};
ghost use Rattle.plain_book.specs.Book.{CanBeTop, IsFitToWait, live_orders, slot_number};

mod draws;
mod reads;

use book_side::LinkedBook;
use draws::{INSTRUMENTS, Market, Random};
use gx_base::{Kind, Order, Price, ShortId, Side, Slot};
use plain_book::{Book, PlainBook};
use reads::{
    Answer, Call, Line, Log, ROOM, answer_at, early_at, named, named_slot, order_at, reached_slot,
    read_numbers, read_orders, top_of,
};
use std::process::Abort;

/// For how many orders the books have room: so few that they are full at times.
const NARROW_CAPACITY: u32 = 64;

/// So many that a side can have the levels of several chunks.
const WIDE_CAPACITY: u32 = 1_000;

/// How often a run over a narrow market makes each call at least.
const LEAST: [(Call, usize); 37] = [
    (Call::Capacity, 1_000),
    (Call::Live, 1_000),
    (Call::Best, 1_000),
    (Call::Worse, 1_000),
    (Call::Worst, 1_000),
    (Call::Better, 1_000),
    (Call::First, 1_000),
    (Call::Next, 1_000),
    (Call::Count, 1_000),
    (Call::ShownTotal, 1_000),
    (Call::OpenTotal, 1_000),
    (Call::Available, 1_000),
    (Call::Find, 1_000),
    (Call::Top, 1_000),
    (Call::FirstWaiting, 1_000),
    (Call::NextWaiting, 1_000),
    (Call::FirstReached, 1_000),
    (Call::NoneReached, 1_000),
    (Call::Place, 100),
    (Call::PlaceWithShow, 100),
    (Call::PlaceForTop, 100),
    (Call::PlaceForTopWithShow, 100),
    (Call::Wait, 100),
    (Call::WaitAnew, 100),
    (Call::Full, 100),
    (Call::TradePart, 100),
    (Call::TradeShown, 100),
    (Call::TradeAll, 100),
    (Call::RemoveResting, 100),
    (Call::RemoveWaiting, 100),
    (Call::ChangeResting, 100),
    (Call::ChangeWaiting, 100),
    (Call::SetProrated, 100),
    (Call::SetShown, 100),
    (Call::SetTop, 100),
    (Call::EndTop, 100),
    (Call::Clear, 20),
];

/// Whether an order with this name can come. Where there is no room for it, that is written down.
fn can_come<B: Book>(book: &B, firm: u8, id: &ShortId, log: &mut Log) -> bool
    ensures room { result ≡ true → length (live_orders (B.book book.now)) < (B.book book.now).capacity }
    ensures unnamed { result ≡ true → is_live firm id.now (live_orders (B.book book.now)) ≡ false }
{
    if book.live() >= book.capacity() {
        log.note(Call::Full, named(book, firm, id));
        return false;
    }
    book.find(firm, id).is_none()
}

/// The least open quantity of which an order is made TOP.
fn top_min(random: &mut Random) -> Option<u32> {
    if random.is_one_in(2) {
        return None;
    }
    Some(random.below(8))
}

fn placing(order: &Order, top_min: Option<u32>) -> Call {
    match (order.show, top_min) {
        (0, None) => Call::Place,
        (_, None) => Call::PlaceWithShow,
        (0, Some(_)) => Call::PlaceForTop,
        (_, Some(_)) => Call::PlaceForTopWithShow,
    }
}

fn place<B: Book>(book: &mut B, random: &mut Random, log: &mut Log)
    requires { (B.book book.old).instruments ≡ INSTRUMENTS }
    ensures { (B.book book.new).instruments ≡ INSTRUMENTS }
{
    let order = random.order(log.lines().len() as u64);
    let top_min = top_min(random);
    if can_come(book, order.firm, &order.id, log) {
        let slot = book.place(order, top_min);
        log.note(placing(&order, top_min), answer_at(book, Some(slot)));
    }
}

/// The number of a stop. Some have that of another, as stops of an image may.
fn stop_number(log: &Log) -> u64 {
    log.lines().len() as u64 / 512
}

/// A stop comes to wait, if it can.
fn enter_stop<B: Book>(book: &mut B, order: Order, call: Call, log: &mut Log)
    requires listed { (B.book book.old).instruments ≡ INSTRUMENTS }
    requires fit { IsFitToWait INSTRUMENTS order }
    ensures { (B.book book.new).instruments ≡ INSTRUMENTS }
{
    if can_come(book, order.firm, &order.id, log) {
        let slot = book.wait(order);
        log.note(call, answer_at(book, Some(slot)));
    }
}

fn wait<B: Book>(book: &mut B, random: &mut Random, log: &mut Log)
    requires { (B.book book.old).instruments ≡ INSTRUMENTS }
    ensures { (B.book book.new).instruments ≡ INSTRUMENTS }
{
    let order = random.stop(stop_number(log));
    enter_stop(book, order, Call::Wait, log);
}

/// A stop comes. The live order that has its name, if there is one, leaves first.
fn wait_anew<B: Book>(book: &mut B, random: &mut Random, log: &mut Log)
    requires { (B.book book.old).instruments ≡ INSTRUMENTS }
    ensures { (B.book book.new).instruments ≡ INSTRUMENTS }
{
    let order = random.stop(stop_number(log));
    match named_slot(book, order.firm, &order.id) {
        Some(slot) => {
            take_out(book, slot, log);
            enter_stop(book, order, Call::WaitAnew, log);
        }
        None => enter_stop(book, order, Call::Wait, log),
    }
}

/// The best price of a side, the worst one, or any.
fn drawn_price<B: Book>(book: &B, random: &mut Random, instrument: u8, side: Side) -> Option<Price>
    requires { instrument < (B.book book.now).instruments }
{
    match random.below(6) {
        0 => book.best(instrument, side),
        1 => book.worst(instrument, side),
        _ => Some(random.price()),
    }
}

/// One of the first orders at a drawn price.
fn resting_slot<B: Book>(book: &B, random: &mut Random) -> Option<Slot>
    requires { (B.book book.now).instruments ≡ INSTRUMENTS }
    ensures { IfSome result (λ slot. HasSlot slot.0 (B.book book.now).resting) }
{
    let instrument = random.instrument();
    let side = random.side();
    let price = drawn_price(book, random, instrument, side)?;
    early_at(book, random, instrument, side, price)
}

/// An order with a drawn name.
fn live_slot<B: Book>(book: &B, random: &mut Random) -> Option<Slot>
    ensures { IfSome result (λ slot. HasSlot slot.0 (live_orders (B.book book.now))) }
{
    named_slot(book, random.firm(), &random.id())
}

/// An order with a drawn name, or one of the first at a drawn price.
fn leaving_slot<B: Book>(book: &B, random: &mut Random) -> Option<Slot>
    requires { (B.book book.now).instruments ≡ INSTRUMENTS }
    ensures { IfSome result (λ slot. HasSlot slot.0 (live_orders (B.book book.now))) }
{
    if random.is_named() {
        return live_slot(book, random);
    }
    resting_slot(book, random)
}

/// How a trade that leaves this of an order is called.
fn trading(order: &Order) -> Call {
    if order.shown > 0 {
        Call::TradePart
    } else if order.leaves > 0 {
        Call::TradeShown
    } else {
        Call::TradeAll
    }
}

/// A part of what is shown, or all that is.
fn drawn_lots(random: &mut Random, order: &Order) -> u32
    requires { 1 ≤ order.now.shown }
    ensures some { 1 ≤ result }
    ensures shown { result ≤ order.now.shown }
{
    if random.is_one_in(2) {
        order.shown
    } else {
        1 + random.below(order.shown)
    }
}

fn trade<B: Book>(book: &mut B, random: &mut Random, log: &mut Log)
    requires { (B.book book.old).instruments ≡ INSTRUMENTS }
    ensures { (B.book book.new).instruments ≡ INSTRUMENTS }
{
    book.rules();
    if let Some(slot) = resting_slot(book, random) {
        let lots = drawn_lots(random, &order_at(book, slot));
        let order = book.trade(slot, lots);
        log.note(trading(&order), Answer::Order(order));
        log.note(Call::Find, named(book, order.firm, &order.id));
    }
}

/// A live order leaves.
fn take_out<B: Book>(book: &mut B, slot: Slot, log: &mut Log)
    requires listed { (B.book book.old).instruments ≡ INSTRUMENTS }
    requires live { HasSlot slot.0 (live_orders (B.book book.old)) }
    ensures { (B.book book.new).instruments ≡ INSTRUMENTS }
{
    let order = book.remove(slot);
    let call = match order.kind {
        Kind::Limit | Kind::Market => Call::RemoveResting,
        Kind::StopLimit => Call::RemoveWaiting,
    };
    log.note(call, Answer::Order(order));
}

fn remove<B: Book>(book: &mut B, random: &mut Random, log: &mut Log)
    requires { (B.book book.old).instruments ≡ INSTRUMENTS }
    ensures { (B.book book.new).instruments ≡ INSTRUMENTS }
{
    if let Some(slot) = leaving_slot(book, random) {
        take_out(book, slot, log);
    }
}

/// The first stop that a drawn range reaches leaves.
fn remove_reached<B: Book>(book: &mut B, random: &mut Random, log: &mut Log)
    requires { (B.book book.old).instruments ≡ INSTRUMENTS }
    ensures { (B.book book.new).instruments ≡ INSTRUMENTS }
{
    if let Some(slot) = reached_slot(book, random) {
        take_out(book, slot, log);
    }
}

fn change<B: Book>(book: &mut B, random: &mut Random, log: &mut Log)
    requires { (B.book book.old).instruments ≡ INSTRUMENTS }
    ensures { (B.book book.new).instruments ≡ INSTRUMENTS }
{
    book.rules();
    let Some(slot) = live_slot(book, random) else {
        return;
    };
    let order = order_at(book, slot);
    let id = random.id();
    if book.find(order.firm, &id).is_none() {
        let quantity = random.lower_quantity(&order);
        let min = random.least_quantity(&order);
        book.change(slot, id, quantity, min);
        let call = match order.kind {
            Kind::Limit | Kind::Market => Call::ChangeResting,
            Kind::StopLimit => Call::ChangeWaiting,
        };
        log.note(call, named(book, order.firm, &id));
    }
}

fn set_prorated<B: Book>(book: &mut B, random: &mut Random, log: &mut Log)
    requires { (B.book book.old).instruments ≡ INSTRUMENTS }
    ensures { (B.book book.new).instruments ≡ INSTRUMENTS }
{
    if let Some(slot) = resting_slot(book, random) {
        let order = order_at(book, slot);
        book.set_prorated(slot, random.below(12));
        log.note(Call::SetProrated, named(book, order.firm, &order.id));
    }
}

fn set_shown<B: Book>(book: &mut B, random: &mut Random, log: &mut Log)
    requires { (B.book book.old).instruments ≡ INSTRUMENTS }
    ensures { (B.book book.new).instruments ≡ INSTRUMENTS }
{
    if let Some(slot) = resting_slot(book, random) {
        let order = order_at(book, slot);
        let most = order.show.min(order.leaves);
        if most > 0 {
            book.set_shown(slot, 1 + random.below(most));
            log.note(Call::SetShown, named(book, order.firm, &order.id));
        }
    }
}

/// An order at the best price of a side, or none.
fn top_slot<B: Book>(book: &B, random: &mut Random, instrument: u8, side: Side) -> Option<Slot>
    requires { instrument < (B.book book.now).instruments }
    ensures { CanBeTop instrument side (option_map slot_number result) (B.book book.now).resting }
{
    book.rules();
    let price = book.best(instrument, side)?;
    early_at(book, random, instrument, side, price)
}

fn set_top<B: Book>(book: &mut B, random: &mut Random, log: &mut Log)
    requires { (B.book book.old).instruments ≡ INSTRUMENTS }
    ensures { (B.book book.new).instruments ≡ INSTRUMENTS }
{
    let instrument = random.instrument();
    let side = random.side();
    let slot = top_slot(book, random, instrument, side);
    book.set_top(instrument, side, slot);
    let call = if slot.is_some() {
        Call::SetTop
    } else {
        Call::EndTop
    };
    log.note(call, top_of(book, instrument, side));
}

fn clear<B: Book>(book: &mut B, log: &mut Log)
    requires { (B.book book.old).instruments ≡ INSTRUMENTS }
    ensures { (B.book book.new).instruments ≡ INSTRUMENTS }
{
    book.clear();
    log.note(Call::Clear, Answer::Number(u64::from(book.live())));
}

/// Makes one drawn call.
fn make_call<B: Book>(book: &mut B, random: &mut Random, log: &mut Log)
    requires { (B.book book.old).instruments ≡ INSTRUMENTS }
    ensures { (B.book book.new).instruments ≡ INSTRUMENTS }
{
    match random.call() {
        0..=9 => place(book, random, log),
        10..=12 => wait(book, random, log),
        13..=17 => trade(book, random, log),
        18..=20 => remove(book, random, log),
        21..=24 => change(book, random, log),
        25 => set_prorated(book, random, log),
        26..=27 => set_shown(book, random, log),
        28..=30 => set_top(book, random, log),
        32..=34 => wait_anew(book, random, log),
        35 => remove_reached(book, random, log),
        _ => {
            if random.is_clear() {
                clear(book, log);
            }
        }
    }
}

/// The calls of a run on this book, and what it answers. Each step makes one drawn call, and then reads the book.
fn run<B: Book>(rt: &(impl Abort + AllocGlobal), book: &mut B, market: Market) -> Log
    requires { (B.book book.old).instruments ≡ INSTRUMENTS }
{
    let mut random = Random::new(market);
    let mut log = Log::new(rt);
    for _step in 0..market.steps() {
        make_call(book, &mut random, &mut log);
        read_numbers(book, &mut random, &mut log);
        if random.is_read() {
            read_orders(book, &mut log);
        }
    }
    log
}

/// What a book in two lists answers.
fn log_of_lists(rt: &(impl Abort + AllocGlobal), capacity: u32, market: Market) -> Log {
    let mut book = PlainBook::new(rt.alloc(), capacity, INSTRUMENTS).expect(rt, "memory");
    run(rt, &mut book, market)
}

/// What a book of a run answers.
fn log_of_queues(rt: &(impl Abort + AllocGlobal), capacity: u32, market: Market) -> Log {
    let mut book = LinkedBook::new(rt.alloc(), capacity, INSTRUMENTS).expect(rt, "memory");
    run(rt, &mut book, market)
}

/// Looks for the same line at a place.
fn expect_same(rt: &impl Abort, place: usize, line: &Line, other: &Line) {
    assert_eq!(rt; *line, *other, "line {place}");
}

/// Looks for the same lines, and for fewer than there is room for.
fn expect_same_lines(rt: &impl Abort, lines: &[Line], others: &[Line]) {
    for (place, (line, other)) in lines.iter().zip(others).enumerate() {
        expect_same(rt, place, line, other);
    }
    assert_eq!(rt; lines.len(), others.len());
    assert!(rt; lines.len() < ROOM);
}

/// Looks for each call as often as a run makes it at least.
fn expect_each_call(rt: &impl Abort, log: &Log) {
    for (call, least) in LEAST {
        let times = log.times(call);
        assert!(rt; times >= least, "{call:?} is made {times} times");
    }
}

/// What both books answer, which is the same.
fn compared_log(rt: &(impl Abort + AllocGlobal), capacity: u32, market: Market) -> Log {
    let log = log_of_lists(rt, capacity, market);
    let other = log_of_queues(rt, capacity, market);
    expect_same_lines(rt, log.lines(), other.lines());
    log
}

#[test]
fn both_books_give_the_same_answers(rt: HostRuntime) {
    let narrow = compared_log(&rt, NARROW_CAPACITY, Market::Narrow);
    expect_each_call(&rt, &narrow);
    compared_log(&rt, WIDE_CAPACITY, Market::Wide);
}
