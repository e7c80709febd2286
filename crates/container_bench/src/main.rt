//! Calls the table of ids and the pool many times, and prints what they hold at the end: `container_bench WORK LIVE ROUNDS`.
//! `bench/containers.py` takes the time.
//!
//! `made`, `client` and `front` fill a table with LIVE ids; in each round the oldest id leaves and a new one comes. `pool`
//! fills a pool of 1,000 queues with LIVE orders; in each round the first order of a queue leaves, another goes to its back,
//! and a new one comes.
#![tactic(auto)]

use gx_base::{Kind, Life, Order, Price, ShortId, Side, Slot};
use id_table::IdTable;
use order_pool::Pool;
use std::alloc::{AllocError, Global};
use std::{env, io};

const QUEUES: u32 = 1_000;

/// How the ids look.
#[derive(Clone, Copy)]
enum Family {
    /// As those of made streams: `G123`.
    Made,
    /// As clients count them: `0000000000000000123`.
    Client,
    /// The same, with the digits that change in front: `3210000000000000000`.
    Front,
}

enum Work {
    Table(Family),
    Pool,
    Ends,
    Any,
}

fn work_of(word: &str) -> Option<Work> {
    match word {
        "made" => Some(Work::Table(Family::Made)),
        "client" => Some(Work::Table(Family::Client)),
        "front" => Some(Work::Table(Family::Front)),
        "pool" => Some(Work::Pool),
        "ends" => Some(Work::Ends),
        "any" => Some(Work::Any),
        _ => None,
    }
}

/// An id of 19 digits, the lowest last or first.
fn digits(number: u64, lowest_first: bool) -> ShortId {
    let mut text = [b'0'; 19];
    let mut rest = number;
    for k in 0..19 {
        let at = if lowest_first { k } else { 18 - k };
        text[at] = b'0' + (rest % 10) as u8;
        rest /= 10;
    }
    ShortId::new(&text).unwrap_or_default()
}

fn id_of(family: Family, number: u64) -> ShortId {
    match family {
        Family::Client => digits(number, false),
        Family::Front => digits(number, true),
        Family::Made => {
            let mut text = [b'G'; 24];
            let mut buffer = itoa::Buffer::new();
            let number = buffer.format(number).as_bytes();
            text[1..1 + number.len()].copy_from_slice(number);
            ShortId::new(&text[..1 + number.len()]).unwrap_or_default()
        }
    }
}

/// The firm of an id: one of eight.
fn firm_of(number: u64) -> u8 {
    (number % 8) as u8
}

fn insert(table: &mut IdTable, family: Family, number: u64) {
    let firm = firm_of(number);
    let id = id_of(family, number);
    if table.len() < table.capacity() && table.find(firm, &id).is_none() {
        table.insert(firm, id, Slot((number % 1_000_000) as u32));
    }
}

fn remove(table: &mut IdTable, family: Family, number: u64) {
    let firm = firm_of(number);
    let id = id_of(family, number);
    if table.find(firm, &id).is_some() {
        table.remove(firm, &id);
    }
}

/// How many ids are there at the end.
fn run_table(alloc: Global, family: Family, live: u32, rounds: u32) -> Result<u32, AllocError> {
    let mut table = IdTable::new(alloc, live)?;
    for number in 0..u64::from(live) {
        insert(&mut table, family, number);
    }
    for round in 0..u64::from(rounds) {
        remove(&mut table, family, round);
        insert(&mut table, family, round + u64::from(live));
    }
    Ok(table.len())
}

fn order(number: u64) -> Order {
    Order {
        number,
        firm: 0,
        instrument: 0,
        side: Side::Buy,
        id: ShortId::default(),
        kind: Kind::Limit,
        price: Price(10_000),
        trigger: Price(0),
        quantity: 1,
        filled: 0,
        leaves: 1,
        show: 0,
        shown: 1,
        min: 0,
        life: Life::Day,
        prorated: 0,
    }
}

#[inline(always)]
fn push_back(pool: &mut Pool, queue: u32, number: u64) {
    if queue < pool.queues() && pool.live() < pool.capacity() {
        pool.push_back(queue, &order(number));
    }
}

fn turn(pool: &mut Pool, queue: u32) {
    if queue < pool.queues() {
        if let Some(slot) = pool.first(queue) {
            pool.unlink(slot);
        }
        if let Some(slot) = pool.first(queue) {
            pool.to_back(slot);
        }
    }
}

/// How many orders are there at the end.
fn run_pool(alloc: Global, live: u32, rounds: u32) -> Result<u32, AllocError> {
    let mut pool = Pool::new(alloc, live, QUEUES)?;
    for number in 0..live {
        push_back(&mut pool, number % QUEUES, u64::from(number));
    }
    for round in 0..rounds {
        turn(&mut pool, round % QUEUES);
        push_back(&mut pool, round % QUEUES, u64::from(round));
    }
    Ok(pool.live())
}

fn leave_first(pool: &mut Pool, queue: u32) {
    if queue < pool.queues() {
        if let Some(slot) = pool.first(queue) {
            pool.unlink(slot);
        }
    }
}

fn leave(pool: &mut Pool, slot: Slot) {
    if pool.is_live(slot) {
        pool.unlink(slot);
    }
}

fn run_ends(alloc: Global, live: u32, rounds: u32) -> Result<u32, AllocError> {
    let mut pool = Pool::new(alloc, live, QUEUES)?;
    for number in 0..live {
        push_back(&mut pool, number % QUEUES, u64::from(number));
    }
    for round in 0..rounds {
        leave_first(&mut pool, round % QUEUES);
        push_back(&mut pool, round % QUEUES, u64::from(round));
    }
    Ok(pool.live())
}

fn run_any(alloc: Global, live: u32, rounds: u32) -> Result<u32, AllocError> {
    let mut pool = Pool::new(alloc, live, QUEUES)?;
    for number in 0..live {
        push_back(&mut pool, number % QUEUES, u64::from(number));
    }
    for round in 0..rounds {
        leave(
            &mut pool,
            Slot((round & 0xffff).wrapping_mul(7919) & 0x7fff),
        );
        push_back(&mut pool, round % QUEUES, u64::from(round));
    }
    Ok(pool.live())
}

fn number_of(words: &[String], at: usize) -> u32 {
    words
        .get(at)
        .and_then(|word| word.parse().ok())
        .unwrap_or(0)
}

fn main(rt: HostRuntime) -> io::Result<()> {
    let words: Vec<String> = env::args(&rt)?.skip(1).collect(rt.alloc())?;
    let (live, rounds) = (number_of(&words, 1), number_of(&words, 2));
    let left = match words.get(0).and_then(|word| work_of(word)) {
        Some(Work::Table(family)) => run_table(rt.alloc(), family, live, rounds)?,
        Some(Work::Pool) => run_pool(rt.alloc(), live, rounds)?,
        Some(Work::Ends) => run_ends(rt.alloc(), live, rounds)?,
        Some(Work::Any) => run_any(rt.alloc(), live, rounds)?,
        None => 0,
    };
    println!(rt; "{left} live")
}
