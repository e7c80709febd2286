//! The command `session` over journals that the other commands made, or that were spoiled.
mod memory;

use run_fixtures::{image_then, must, product_text};
use std::process::Abort;

/// A product with few live orders, whose memory is soon taken. Its text has 151 bytes.
const FIFO: &str = product_text!("max_orders = 8", letter: "F");

/// A sell.
const SELL: &str =
    "35=D|49=AAA|56=GX|34=1|52=20240102-09:30:00|11=a1|55=ESZ4|54=2|38=10|40=2|44=100.00|59=0|";

/// A buy of a part of it.
const BUY: &str =
    "35=D|49=BBB|56=GX|34=1|52=20240102-09:30:01|11=b1|55=ESZ4|54=1|38=4|40=2|44=100.00|59=0|";

/// After both each firm has two reports, and its next message is the second one.
const ORDERS: [&str; 2] = [SELL, BUY];

/// The seller logs on.
const LOGON: &str = "35=A|49=AAA|56=GX|34=2|52=20240102-10:00:00|98=0|108=30|";

/// The answer.
const LOGGED_ON: &str = "35=A|34=3|49=GX|52=20240102-10:00:00|56=AAA|98=0|108=30|";

/// It asks for its reports.
const ALL_AGAIN: &str = "35=2|49=AAA|56=GX|34=3|52=20240102-10:00:01|7=1|16=0|";

/// The sell was accepted, again.
const ACCEPTED_AGAIN: &str =
    "35=8|34=1|43=Y|49=GX|52=20240102-10:00:01|56=AAA|37=1|11=a1|17=1|20=0|150=0|39=0|55=ESZ4|54=2|38=10|40=2|44=100.00|59=0|151=10|14=0|6=0|60=20240102-09:30:00|9003=0|";

/// A part of it was traded, again.
const FILLED_AGAIN: &str =
    "35=8|34=2|43=Y|49=GX|52=20240102-10:00:01|56=AAA|37=1|11=a1|17=3|20=0|150=1|39=1|55=ESZ4|54=2|38=10|40=2|44=100.00|59=0|32=4|31=100.00|151=6|14=4|6=0|60=20240102-09:30:01|9001=FIFO|9002=1|9003=0|";

/// A logon and that request, and their answers.
const SERVED: [&str; 2] = [LOGON, ALL_AGAIN];

const ANSWERS: [&str; 3] = [LOGGED_ON, ACCEPTED_AGAIN, FILLED_AGAIN];

/// A journal of the product that keeps these messages.
fn kept(rt: &(impl Abort + AllocGlobal), bodies: &[&str]) -> Vec<u8> {
    must!(rt; image_then(FIFO, "run", bodies, b""))
}

/// A journal of both orders.
fn kept_orders(rt: &(impl Abort + AllocGlobal)) -> Vec<u8> {
    kept(rt, &ORDERS)
}
