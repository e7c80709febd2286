//! Messages that change more levels than are noted one by one, and tables of more lines than wait to be sent at once.
use super::{CLOSE, execute_bytes, roomy_station};
use crate::tests::expects::{expect_bytes, expect_outcome};
use gx_station::MemStation;
use run_fixtures::{PRODUCT, ended, execute, must, push_frame, source_of};
use std::process::Abort;

/// How many bytes the image of a station may have, and what is sent.
const ROOM: usize = 1 << 20;

/// How many calls it lists.
const CALLS: usize = 20_000;

/// Adds a text to some bytes.
fn push(rt: &(impl Abort + AllocGlobal), bytes: &mut Vec<u8>, text: &str) {
    bytes
        .extend_from_slice(text.as_bytes())
        .expect(rt, "memory");
}

/// Adds the frame of an order of one lot, of a side and a price in hundredths.
fn push_order(
    rt: &(impl Abort + AllocGlobal),
    bytes: &mut Vec<u8>,
    side: u32,
    lots: u32,
    price: u32,
) {
    let body = format!(in rt.alloc();
        "35=D|49=AAA|56=GX|34=1|52=20240102-09:30:00|11=a{side}-{price}|55=ESZ4|54={side}|38={lots}|40=2|44={}.{}{}|59=0|",
        price / 100,
        price / 10 % 10,
        price % 10
    );
    must!(rt; push_frame(bytes, body.expect(rt, "memory").as_str()));
}

/// Adds the row of a level.
fn push_row(
    rt: &(impl Abort + AllocGlobal),
    feed: &mut Vec<u8>,
    side: &str,
    price: u32,
    shown: u32,
    orders: u32,
) {
    let line = format!(in rt.alloc();
        "R ESZ4 {side} {}.{}{} {shown} {orders}\n",
        price / 100,
        price / 10 % 10,
        price % 10
    );
    push(rt, feed, line.expect(rt, "memory").as_str());
}

/// Adds the first line of an increment.
fn push_increment(rt: &(impl Abort + AllocGlobal), feed: &mut Vec<u8>, number: u32, rows: u32) {
    assert!(rt; 1 <= number);
    let line = format!(in rt.alloc(); "I {number} {} {rows}\n", number - 1);
    push(rt, feed, line.expect(rt, "memory").as_str());
}

/// The lowest price of the buys, and that of the sells, in hundredths. No buy meets a sell.
const LOWEST_BUY: u32 = 9_000;

const LOWEST_SELL: u32 = 10_500;

/// Adds the rows of so many buys and so many sells, in book order: from the highest buy down, and from the lowest sell up.
fn push_rows(
    rt: &(impl Abort + AllocGlobal),
    feed: &mut Vec<u8>,
    buys: u32,
    sells: u32,
    lots: u32,
) {
    assert!(rt; buys <= 1_000);
    assert!(rt; sells <= 5_000);
    for back in 1..=buys {
        push_row(rt, feed, "B", LOWEST_BUY + (buys - back), lots, lots);
    }
    for more in 0..sells {
        push_row(rt, feed, "S", LOWEST_SELL + more, lots, lots);
    }
}

/// What a stream of single orders is, and the feed of it so far.
#[derive(Drop)]
struct Stream {
    bytes: Vec<u8>,
    feed: Vec<u8>,
}

/// So many buys, each a tick above the one before, and then so many sells, each a tick above it too; no two share a price. After the
/// thousandth stands a snapshot.
fn stream_of(rt: &(impl Abort + AllocGlobal), buys: u32, sells: u32) -> Stream {
    assert!(rt; buys <= 1_000);
    assert!(rt; sells <= 5_000);
    let mut bytes = Vec::new(rt.alloc());
    let mut feed = Vec::new(rt.alloc());
    push(rt, &mut feed, "S 0 0\n");
    for number in 1..=buys {
        let price = LOWEST_BUY + (number - 1);
        push_order(rt, &mut bytes, 1, 1, price);
        push_increment(rt, &mut feed, number, 1);
        push_row(rt, &mut feed, "B", price, 1, 1);
    }
    for more in 1..=sells {
        let price = LOWEST_SELL + (more - 1);
        push_order(rt, &mut bytes, 2, 1, price);
        push_increment(rt, &mut feed, buys + more, 1);
        push_row(rt, &mut feed, "S", price, 1, 1);
        if buys + more == 1_000 {
            push(rt, &mut feed, "S 1000 1000\n");
            push_rows(rt, &mut feed, buys, more, 1);
        }
    }
    Stream { bytes, feed }
}

/// Runs a stream of so many messages under the usual product: its levels are this feed, and this table is rebuilt of it.
fn expect_feed(
    rt: &(impl Abort + AllocGlobal),
    bytes: &[u8],
    count: u32,
    feed: &[u8],
    table: &str,
) {
    let mut station = roomy_station(rt, ROOM, CALLS);
    execute_bytes(rt, PRODUCT, "run", bytes, &mut station, u64::from(count));
    let before = station.output().len();
    execute_bytes(rt, PRODUCT, "levels", b"", &mut station, u64::from(count));
    assert!(rt; before <= station.output().len());
    expect_bytes(rt, "levels", &station.output()[before..], feed);
    let mut again = roomy_station(rt, ROOM, CALLS);
    execute_bytes(rt, PRODUCT, "rebuild", feed, &mut again, u64::from(count));
    expect_bytes(rt, "rebuild", again.output(), table.as_bytes());
}

/// A close ends all orders: each level is gone, in book order.
fn expect_close(rt: &(impl Abort + AllocGlobal), buys: u32, sells: u32) {
    assert!(rt; buys <= 1_000);
    assert!(rt; sells <= 5_000);
    let mut stream = stream_of(rt, buys, sells);
    must!(rt; push_frame(&mut stream.bytes, CLOSE));
    let count = buys + sells;
    push_increment(rt, &mut stream.feed, count + 1, count);
    push_rows(rt, &mut stream.feed, buys, sells, 0);
    expect_feed(
        rt,
        stream.bytes.as_slice(),
        count + 1,
        stream.feed.as_slice(),
        "",
    );
}

#[test]
fn close_of_many_levels(rt: HostRuntime) {
    expect_close(&rt, 600, 423);
    expect_close(&rt, 600, 424);
    expect_close(&rt, 600, 425);
    expect_close(&rt, 600, 500);
    expect_close(&rt, 0, 1_100);
}

/// A buy takes all sells, and rests with five lots.
#[test]
fn sweep_of_many_levels(rt: HostRuntime) {
    for sells in [1_023, 1_024, 1_100] {
        let mut stream = stream_of(&rt, 0, sells);
        push_order(&rt, &mut stream.bytes, 1, sells + 5, 20_000);
        push_increment(&rt, &mut stream.feed, sells + 1, sells + 1);
        push_rows(&rt, &mut stream.feed, 0, sells, 0);
        push_row(&rt, &mut stream.feed, "B", 20_000, 5, 1);
        let bytes = stream.bytes.as_slice();
        let table = "ESZ4 B 200.00 5 1\n";
        expect_feed(&rt, bytes, sells + 1, stream.feed.as_slice(), table);
    }
}

/// How many rows the long table has: more than 65,536 bytes.
const MANY: u32 = 5_000;

/// A snapshot of many sells.
fn long_feed(rt: &(impl Abort + AllocGlobal)) -> Vec<u8> {
    let mut feed = Vec::new(rt.alloc());
    push(rt, &mut feed, "S 7 5000\n");
    push_rows(rt, &mut feed, 0, MANY, 9);
    feed
}

/// Its rows without their letters.
fn long_table(rt: &(impl Abort + AllocGlobal)) -> Vec<u8> {
    let mut table = Vec::new(rt.alloc());
    for more in 0..MANY {
        let price = LOWEST_SELL + more;
        let line = format!(in rt.alloc();
            "ESZ4 S {}.{}{} 9 9\n",
            price / 100,
            price / 10 % 10,
            price % 10
        );
        push(rt, &mut table, line.expect(rt, "memory").as_str());
    }
    table
}

/// A station of which the call of this number fails.
fn failing_roomy_station(rt: &(impl Abort + AllocGlobal), call: u64) -> MemStation {
    let alloc = rt.alloc();
    let fail = vec![in alloc; call].expect(rt, "memory");
    MemStation::new(alloc, Vec::new(alloc), ROOM, ROOM, CALLS, fail).expect(rt, "memory")
}

/// It is sent in parts. Where a later one fails the earlier ones are sent.
#[test]
fn long_table_in_parts(rt: HostRuntime) {
    let feed = long_feed(&rt);
    let table = long_table(&rt);
    let table = table.as_slice();
    let mut whole = failing_roomy_station(&rt, 0);
    execute_bytes(&rt, PRODUCT, "rebuild", feed.as_slice(), &mut whole, 7);
    expect_bytes(&rt, "a long table", whole.output(), table);
    assert!(rt; 1 < whole.calls());
    for call in 1..=whole.calls() {
        let mut station = failing_roomy_station(&rt, call as u64);
        let mut input = must!(&rt; source_of(feed.as_slice()));
        let got = must!(&rt; execute(PRODUCT, "rebuild", &mut input, &mut station));
        expect_outcome(&rt, "a failed send", got, ended(6, 0, 0));
        assert!(rt; table.starts_with(station.output()));
        assert!(rt; station.output().len() < table.len());
        assert_eq!(rt; station.output().is_empty(), call == 1);
        assert_eq!(rt; station.calls(), call);
    }
}
