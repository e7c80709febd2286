//! Bringing a core to the state of a right image.
ghost use Rattle.std.specs.Prelude.{◌≡◌, ◌+◌, ◌*◌, ◌<◌, ◌≤◌, length, map, None};
ghost use Rattle.gx_base.specs.declared.limits.TheConstants.{ADDRESSEES, MOST_INSTRUMENTS};
ghost use Rattle.order_kinds.specs.State.{empty_state, state_numbered};
ghost use Rattle.order_kinds.specs.Cores.{FitsProduct};
ghost use Rattle.plain_book.specs.Book.{book_cleared};
ghost use Rattle.book_image.specs.Faults.{parts_fault, tops_fault, part_place, resting_rows, resting_count, waiting_rows, waiting_count, orders_at};
ghost use Rattle.book_image.specs.Reading.{state_of_part, desk_of_image, numbers_at, last_at, lasts_at, with_all_tops, entry_of};
ghost use Rattle.plain_book.specs.Numbers.{book_numbered};
ghost use Rattle.book_image.specs.Inner.Loading.{AreRightLasts, IsRightBook};

use crate::format::{COUNT_BYTES, DESK_BYTES, INSTRUMENT_BYTES, ROW_BYTES};
use crate::mark_tops::mark_tops;
use crate::numbers::{byte_at, count_at, number_at, price_at};
use crate::place_rows::place_rows;
use crate::wait_rows::wait_rows;
use gx_base::{ADDRESSEES, Desk, Price, Trading};
use order_kinds::Core;
use plain_book::Book;
use product_file::Product;

/// Where the counters of report lines begin.
const LINES_AT: usize = 32;

/// The counters of report lines.
fn lines_at(payload: &[u8]) -> [u64; ADDRESSEES]
    requires { DESK_BYTES ≤ length payload.now }
    ensures { result ≡ numbers_at payload.now LINES_AT ADDRESSEES }
{
    let mut lines = [0; ADDRESSEES];
    for k in 0..ADDRESSEES {
        lines[k] = number_at(payload, LINES_AT + 8 * k);
    }
    lines
}

/// The counters, of 8 bytes each.
fn desk_of(payload: &[u8]) -> Desk
    requires { DESK_BYTES ≤ length payload.now }
    ensures { result ≡ desk_of_image payload.now }
{
    Desk {
        messages: number_at(payload, 0),
        orders: number_at(payload, 8),
        reports: number_at(payload, 16),
        trades: number_at(payload, 24),
        lines: lines_at(payload),
    }
}

/// The last trade price of an instrument.
fn last_at(payload: &[u8], instrument: usize) -> Option<Price>
    requires { part_place (instrument + 1) ≤ length payload.now }
    ensures { result ≡ last_at payload.now instrument }
{
    let part = DESK_BYTES + INSTRUMENT_BYTES * instrument;
    if byte_at(payload, part) == 1 {
        Some(price_at(payload, part + 1))
    } else {
        None
    }
}

/// Sets the last trade price of each instrument.
fn load_lasts<B: Book>(payload: &[u8], instruments: usize, core: &mut Core<B>)
    requires listed { length core.old.last ≡ instruments }
    requires few { instruments ≤ MOST_INSTRUMENTS }
    requires right { AreRightLasts payload.now instruments }
    ensures { core.new ≡ record core.old { last = lasts_at payload.now 0 instruments } }
{
    for k in 0..instruments {
        core.restore_last(k as u8, last_at(payload, k));
    }
}

/// Brings the orders of an image into an empty book.
fn load_book<B: Book>(payload: &[u8], instruments: usize, book: &mut B)
    requires empty { book_cleared (B.book book.old) ≡ B.book book.old }
    requires listed { (B.book book.old).instruments ≡ instruments }
    requires few { instruments ≤ MOST_INSTRUMENTS }
    requires right { IsRightBook (B.book book.old).capacity instruments payload.now }
    ensures { book_numbered (B.book book.new) ≡ record (B.book book.old) {
      resting = with_all_tops payload.now instruments
          (map entry_of (orders_at payload.now (resting_rows instruments) (resting_count instruments payload.now)));
      waiting = map entry_of
          (orders_at payload.now (waiting_rows instruments payload.now) (waiting_count instruments payload.now));
    } }
{
    let resting = DESK_BYTES + INSTRUMENT_BYTES * instruments;
    let resting_count = count_at(payload, resting) as usize;
    let waiting = resting + COUNT_BYTES + ROW_BYTES * resting_count;
    let waiting_count = count_at(payload, waiting) as usize;
    place_rows(payload, resting + COUNT_BYTES, resting_count, book);
    wait_rows(payload, waiting + COUNT_BYTES, waiting_count, book);
    mark_tops(payload, instruments, book);
}

/// Brings a new core to the state of a right image. The resting orders are placed from the last price to the first, so that none
/// asks for a search among the levels. The session comes last, when all its orders are there.
pub(crate) fn load_image<B: Book>(
    part: &[u8],
    trading: Trading,
    product: &Product,
    core: &mut Core<B>,
)
    requires new { core.old ≡ empty_state product.now }
    requires right { parts_fault trading product.now part.now ≡ None }
    requires tops { tops_fault product.now part.now ≡ None }
    ensures state { state_numbered core.new ≡ state_of_part trading product.now part.now }
    ensures fits { FitsProduct product.now core.new }
{
    product.limits();
    let instruments = product.names().instrument_count();
    core.restore(desk_of(part));
    load_lasts(part, instruments, core);
    load_book(part, instruments, core.book_mut());
    core.set_trading(trading);
}
