//! Streams of made messages: the levels that a feed tells are those of a walk over the lines of the book.
use super::{execute_bytes, roomy_station};
use crate::tests::expects::{expect_bytes, expect_count, expect_outcome};
use gx_station::MemStation;
use run_fixtures::{PRODUCT, ended, execute, must, product_text, source_of};
use std::process::Abort;
use std::str;

/// How many bytes the image of a station may have, and what is sent.
const ROOM: usize = 1 << 21;

/// How many calls it lists.
const CALLS: usize = 50_000;

/// A station over a journal of so many made messages under the product of this text.
fn drilled(rt: &(impl Abort + AllocGlobal), text: &str, count: u64) -> MemStation {
    let mut station = roomy_station(rt, ROOM, CALLS);
    let line = format!(in rt.alloc(); "drill --first 1 --count {count}").expect(rt, "memory");
    execute_bytes(rt, text, line.as_str(), b"", &mut station, count);
    station
}

/// What a command over the journal of a station sends, which keeps so many messages.
fn sent_by(
    rt: &(impl Abort + AllocGlobal),
    text: &str,
    line: &str,
    station: &mut MemStation,
    count: u64,
) -> Vec<u8> {
    let before = station.output().len();
    execute_bytes(rt, text, line, b"", station, count);
    assert!(rt; before <= station.output().len());
    station.output()[before..]
        .to_vec(rt.alloc())
        .expect(rt, "memory")
}

/// A walk over the lines of a book: the table so far, the instrument, and the level of the orders that were met last, as `SIDE PRICE`, with
/// their sums.
#[derive(Drop)]
struct Walk {
    table: String,
    name: String,
    level: String,
    shown: u64,
    orders: u64,
}

/// What comes before the first space, and what after it.
fn split<'a>(rt: &impl Abort, text: &'a str) -> (&'a str, &'a str) {
    text.split_once(' ').expect(rt, "a space")
}

/// A text of its own.
fn owned(rt: &(impl Abort + AllocGlobal), text: &str) -> String {
    String::from_str(rt.alloc(), text).expect(rt, "memory")
}

impl Walk {
    /// Adds the row of the last level to the table, if it has orders, and begins another one.
    fn begin_level(&mut self, rt: &(impl Abort + AllocGlobal), level: &str) {
        if self.orders > 0 {
            let row = format!(in rt.alloc();
                "{} {} {} {}\n",
                self.name.as_str(),
                self.level.as_str(),
                self.shown,
                self.orders
            );
            let row = row.expect(rt, "memory");
            self.table.push_str(row.as_str()).expect(rt, "memory");
        }
        self.level = owned(rt, level);
        self.shown = 0;
        self.orders = 0;
    }

    /// Takes the line of an order: its side, its price, and what it shows before a slash.
    fn take_order(&mut self, rt: &(impl Abort + AllocGlobal), side: &str, rest: &str) {
        let (price, rest) = split(rt, rest);
        let (shown, _) = rest.split_once('/').expect(rt, "a slash");
        let shown = shown.parse::<u64>().expect(rt, "a number");
        let level = format!(in rt.alloc(); "{side} {price}").expect(rt, "memory");
        if level.as_str() != self.level.as_str() {
            self.begin_level(rt, level.as_str());
        }
        assert!(rt; shown < 1_000_000);
        assert!(rt; self.shown < 1_000_000_000);
        assert!(rt; self.orders < 100_000);
        self.shown += shown;
        self.orders += 1;
    }

    /// Takes a line: that of an instrument, whose name has no space, or that of an order.
    fn take_line(&mut self, rt: &(impl Abort + AllocGlobal), line: &str) {
        let (first, rest) = split(rt, line);
        if rest.starts_with("last ") {
            self.begin_level(rt, "");
            self.name = owned(rt, first);
        } else {
            self.take_order(rt, first, rest);
        }
    }
}

/// The table that the lines of a book give, in which the orders of each side and price stand together.
fn walked(rt: &(impl Abort + AllocGlobal), book: &[u8]) -> String {
    let book = str::from_utf8(book).expect(rt, "a text");
    let mut walk = Walk {
        table: owned(rt, ""),
        name: owned(rt, ""),
        level: owned(rt, ""),
        shown: 0,
        orders: 0,
    };
    for line in book.lines() {
        walk.take_line(rt, line);
    }
    walk.begin_level(rt, "");
    walk.table
}

/// A feed from one of its places on rebuilds this table, and its last block has this number.
fn expect_rebuilt_from(
    rt: &(impl Abort + AllocGlobal),
    text: &str,
    feed: &[u8],
    number: u64,
    table: &str,
) {
    let mut station = roomy_station(rt, ROOM, CALLS);
    let mut input = must!(rt; source_of(feed));
    let got = must!(rt; execute(text, "rebuild", &mut input, &mut station));
    expect_outcome(rt, "a made feed", got, ended(0, 0, number));
    expect_bytes(rt, "a made feed", station.output(), table.as_bytes());
}

/// The feed has a snapshot at its front and after each thousand messages, and from each on it rebuilds the levels of the book.
fn expect_levels_of_book(rt: &(impl Abort + AllocGlobal), text: &str, count: u64) {
    let mut station = drilled(rt, text, count);
    let book = sent_by(rt, text, "book", &mut station, count);
    let table = walked(rt, book.as_slice());
    let feed = sent_by(rt, text, "levels", &mut station, count);
    let feed = feed.as_slice();
    let mut snapshots = 0;
    let mut is_front = true;
    for at in 0..feed.len() {
        if is_front && feed[at] == b'S' {
            assert!(rt; snapshots < 100);
            snapshots += 1;
            expect_rebuilt_from(rt, text, &feed[at..], count, table.as_str());
        }
        is_front = feed[at] == b'\n';
    }
    expect_count(rt, "snapshots", snapshots, 1 + (count / 1_000) as usize);
}

/// The last of five thousand messages has a snapshot.
#[test]
fn five_thousand_messages(rt: HostRuntime) {
    expect_levels_of_book(&rt, PRODUCT, 5_000);
}

/// A product of three instruments, each with another algorithm.
const THREE: &str = product_text!(
    letter: "A",
    "[[instrument]]",
    "name = \"NQZ4\"",
    "decimals = 2",
    "tick = 25",
    "protection = 2",
    "algorithm = \"C\"",
    "[[instrument]]",
    "name = \"ZNZ4\"",
    "decimals = 4",
    "tick = 5",
    "protection = 2",
    "algorithm = \"F\"",
);

#[test]
fn two_thousand_messages_of_three_instruments(rt: HostRuntime) {
    expect_levels_of_book(&rt, THREE, 2_000);
}

/// A product of two instruments and few live orders, which takes little memory.
const FEW: &str = product_text!(
    "max_orders = 60",
    letter: "A",
    "[[instrument]]",
    "name = \"NQZ4\"",
    "decimals = 2",
    "tick = 25",
    "protection = 2",
    "algorithm = \"C\"",
);

/// The number of the last block is that of the last message that changed a level, as the books before and after it tell.
#[test]
fn last_numbers(rt: HostRuntime) {
    let mut last = 0;
    let mut before = String::new(rt.alloc());
    for count in 1..=40 {
        let mut station = drilled(&rt, FEW, count);
        let book = sent_by(&rt, FEW, "book", &mut station, count);
        let table = walked(&rt, book.as_slice());
        if table.as_str() != before.as_str() {
            last = count;
        }
        let feed = sent_by(&rt, FEW, "levels", &mut station, count);
        expect_rebuilt_from(&rt, FEW, feed.as_slice(), last, table.as_str());
        before = table;
    }
}
