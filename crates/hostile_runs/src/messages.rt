//! Drawn messages, and frames of bodies.

use crate::draws::Draws;
use std::alloc::{AllocError, Global};

/// The product of all streams: few live orders, so that the book fills, and each step.
pub const PRODUCT: &str = r#"exchange = "GX"
firms = ["AAA", "BBB", "CCC"]
max_orders = 6
journal_limit = 131072

[[instrument]]
name = "ESZ4"
decimals = 2
tick = 1
protection = 2
algorithm = "F"

[[instrument]]
name = "NQZ4"
decimals = 0
tick = 5
protection = 1
algorithm = "K"
steps = ["TOP", "LMM", "SPLIT", "PRORATA", "LEVELING", "FIFO"]
top_min = 2
top_max = 9
least = 2
split = 40
lmm = [{ firm = "BBB", percent = 40 }, { firm = "CCC", percent = 10 }]
"#;

const FIRMS: [&str; 3] = ["AAA", "BBB", "CCC"];

const KINDS: [&str; 11] = ["D", "D", "D", "D", "D", "F", "F", "G", "G", "0", "h"];

/// The market is open most of the time.
const STATUSES: [&str; 4] = ["2", "2", "2", "3"];

const LIVES: [&str; 6] = ["0", "0", "0", "1", "3", "4"];

const ORDER_TYPES: [&str; 6] = ["2", "2", "2", "2", "1", "4"];

const SYMBOLS_AND_PRICES: [&str; 8] = [
    "55=ESZ4|44=99.99|99=100.01|",
    "55=ESZ4|44=100.00|99=100.00|",
    "55=ESZ4|44=100.01|99=99.99|",
    "55=ESZ4|44=100.02|99=99.98|",
    "55=NQZ4|44=9995|99=10005|",
    "55=NQZ4|44=10000|99=10000|",
    "55=NQZ4|44=10005|99=9995|",
    "55=NQZ4|44=10010|99=9990|",
];

/// Fields that count where they stand in front of those that a body has.
const OVERRIDES: [&str; 49] = [
    "49=DDD|",
    "49=GX|",
    "49=|",
    "56=GY|",
    "34=0|",
    "34=1000000000|",
    "52=20241302-09:30:00|",
    "52=20240102-09:30:60.999|",
    "11=\x7f|",
    "11=0123456789012345678901234|",
    "41=a1|",
    "41=zz|",
    "107=NQZ4|",
    "107=NONE|",
    "54=1|",
    "54=2|",
    "54=3|",
    "38=0|",
    "38=1|",
    "38=999999|",
    "38=1000000|",
    "38=5.00|",
    "38=5.1|",
    "40=1|",
    "40=4|",
    "40=7|",
    "44=-37.63|",
    "44=97.501|",
    "44=9x|",
    "44=9999999999.99|",
    "44=99999999999999999999999999999999|",
    "44=.|",
    "99=99.995|",
    "99=-|",
    "59=3|",
    "59=4|",
    "59=6|",
    "110=3|",
    "110=999999|",
    "210=2|",
    "210=999999|",
    "340=03|",
    "340=4|",
    "340=x|",
    "340=0000000002|",
    "58|",
    "=x|",
    "00001=x|",
    "123456=x|",
];

/// The bytes of a text in which `|` stands for SOH.
pub fn bytes_of(alloc: Global, text: &str) -> Result<Vec<u8>, AllocError> {
    text.as_bytes()
        .iter()
        .map(|c| if *c == b'|' { 1 } else { *c })
        .collect(alloc)
}

/// A field that may change what a message asks.
pub fn override_field(alloc: Global, draws: &mut Draws) -> Result<Vec<u8>, AllocError> {
    bytes_of(alloc, draws.text_of(&OVERRIDES))
}

/// Who sends a message of this type: the exchange a change of the trading session, and a drawn firm any other.
fn drawn_sender(draws: &mut Draws, kind: &str) -> &'static str {
    let firm = draws.text_of(&FIRMS);
    if kind == "h" { "GX" } else { firm }
}

/// The body of a message that a client or the exchange may send: a new order, a cancel, a replace, a heartbeat, or a change of the
/// trading session.
pub fn drawn_body(alloc: Global, draws: &mut Draws) -> Result<Vec<u8>, AllocError> {
    let kind = draws.text_of(&KINDS);
    let sender = drawn_sender(draws, kind);
    let (seq, id, old) = (draws.below(99), draws.below(9), draws.below(9));
    let (side, lots) = (draws.below(2), draws.below(20));
    let order_type = draws.text_of(&ORDER_TYPES);
    let symbol_and_prices = draws.text_of(&SYMBOLS_AND_PRICES);
    let life = draws.text_of(&LIVES);
    let status = draws.text_of(&STATUSES);
    let text = format!(in alloc;
        "35={kind}|49={sender}|56=GX|34={}|52=20240102-09:30:00|11=a{id}|41=a{old}|{symbol_and_prices}54={}|38={}|40={order_type}|59={life}|340={status}|",
        seq.wrapping_add(1),
        side.wrapping_add(1),
        lots.wrapping_add(1)
    )?;
    bytes_of(alloc, text.as_str())
}

/// Adds the frame of a body to some bytes.
pub fn push_frame(alloc: Global, bytes: &mut Vec<u8>, body: &[u8]) -> Result<(), AllocError> {
    let front = format!(in alloc; "8=FIX.4.2|9={}|", body.len())?;
    let mut frame = bytes_of(alloc, front.as_str())?;
    frame.extend_from_slice(body)?;
    let mut sum: u8 = 0;
    for byte in frame.as_slice() {
        sum = sum.wrapping_add(*byte);
    }
    let trailer = format!(in alloc; "10={}{}{}|", sum / 100, sum / 10 % 10, sum % 10)?;
    bytes.extend_from_slice(frame.as_slice())?;
    bytes.extend_from_slice(bytes_of(alloc, trailer.as_str())?.as_slice())
}

/// The frames of so many drawn messages.
pub fn drawn_frames(alloc: Global, draws: &mut Draws, count: usize) -> Result<Vec<u8>, AllocError> {
    let mut bytes = Vec::new(alloc);
    for _ in 0..count {
        let body = drawn_body(alloc, draws)?;
        push_frame(alloc, &mut bytes, body.as_slice())?;
    }
    Ok(bytes)
}
