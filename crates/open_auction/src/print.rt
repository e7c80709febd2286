//! The openings as text.
ghost use Rattle.std.specs.Prelude.{◌≡◌, ◌<◌, ◌≤◌, [], OnOk, flat_map};
ghost use Rattle.gx_base.specs.Line.{decimals_of};
ghost use Rattle.gx_station.specs.Quiet.{Sends};
ghost use Rattle.exec_report.specs.Pushes.{Pushes};
ghost use Rattle.order_kinds.specs.Cores.{FitsProduct};
ghost use Rattle.open_auction.specs.Openings.{openings};
ghost use Rattle.open_auction.specs.Pairs.{opening_pairs};
ghost use Rattle.open_auction.specs.OpeningText.{candidate_line, pair_line, pair_lines, instrument_opening, opening_text};

use crate::choice::opening;
use crate::lines::{print_candidate, print_name, print_pair, print_price};
use crate::quote::Opening;
use crate::side_walk::SideWalk;
use crate::walk::CandidateWalk;
use exec_report::{ReportBuffer, SendFault, send_waiting};
use gx_base::{MOST_DECIMALS, Names, Price, Side, listed};
use gx_station::Station;
use order_kinds::Core;
use plain_book::Book;
use product_file::Product;
use std::cmp;

/// Puts out the candidates of an instrument, from the highest price down.
fn print_candidates<B: Book, S: Station>(
    book: &B,
    instrument: u8,
    decimals: u8,
    buffer: &mut ReportBuffer,
    station: &mut S,
) -> Result<(), SendFault>
    requires listed { instrument < (B.book book.now).instruments }
    requires decimals { decimals ≤ MOST_DECIMALS }
    ensures { Pushes S.meanings station.old station.new buffer.old buffer.new (flat_map (candidate_line decimals) (openings instrument (B.book book.now).resting)) result }
{
    let mut walk = CandidateWalk::from_highest(book, instrument);
    while let Some(opening) = walk.next(book) {
        print_candidate(decimals, opening, buffer, station)?;
    }
    Ok(())
}

/// Puts out the pairs that would trade at a price.
fn print_pairs<B: Book, S: Station>(
    book: &B,
    instrument: u8,
    decimals: u8,
    price: Price,
    buffer: &mut ReportBuffer,
    station: &mut S,
) -> Result<(), SendFault>
    requires listed { instrument < (B.book book.now).instruments }
    requires decimals { decimals ≤ MOST_DECIMALS }
    ensures { Pushes S.meanings station.old station.new buffer.old buffer.new (flat_map (pair_line decimals price) (opening_pairs instrument (B.book book.now).resting price)) result }
{
    let mut buys = SideWalk::from_first(book, instrument, Side::Buy, price);
    let mut sells = SideWalk::from_first(book, instrument, Side::Sell, price);
    while let (Some(buy), Some(sell)) = (buys.first(book), sells.first(book)) {
        let lots = cmp::min(buy.lots, sell.lots);
        print_pair(
            decimals,
            price,
            lots,
            buy.number,
            sell.number,
            buffer,
            station,
        )?;
        buys.give(book, lots);
        sells.give(book, lots);
    }
    Ok(())
}

/// Puts out the pairs of an opening, if there is one.
fn print_trades<B: Book, S: Station>(
    book: &B,
    instrument: u8,
    decimals: u8,
    opening: Option<Opening>,
    buffer: &mut ReportBuffer,
    station: &mut S,
) -> Result<(), SendFault>
    requires listed { instrument < (B.book book.now).instruments }
    requires decimals { decimals ≤ MOST_DECIMALS }
    ensures { Pushes S.meanings station.old station.new buffer.old buffer.new (pair_lines decimals instrument (B.book book.now).resting opening) result }
{
    match opening {
        None => Ok(()),
        Some(opening) => print_pairs(book, instrument, decimals, opening.price, buffer, station),
    }
}

/// Puts out an instrument: its name, its candidates, its opening price, and the pairs that would trade.
fn print_instrument<B: Book, S: Station>(
    core: &Core<B>,
    names: &Names,
    instrument: u8,
    buffer: &mut ReportBuffer,
    station: &mut S,
) -> Result<(), SendFault>
    requires book { instrument < core.now.book.instruments }
    ensures { Pushes S.meanings station.old station.new buffer.old buffer.new (instrument_opening names.now core.now instrument) result }
{
    let book = core.book();
    let decimals = listed(names, instrument).decimals;
    let opening = opening(book, instrument, core.last(instrument));
    print_name(names, instrument, buffer, station)?;
    print_candidates(book, instrument, decimals, buffer, station)?;
    print_price(decimals, opening, buffer, station)?;
    print_trades(book, instrument, decimals, opening, buffer, station)
}

/// Sends the openings as text: for each instrument, in the order of the product file, its name; its candidates, which are the
/// prices of its resting orders, from the highest down, each with its demand, supply and volume in lots; its opening price with
/// the volume, or `none`; and the pairs that would trade, each with its lots, the opening price, and the numbers of the buy and
/// the sell. Each has a line of its own (our own rule). `Ok` leaves the buffer empty. `SendFault` comes only where the count of
/// send faults rose; a part is sent then. It takes no memory.
pub fn print_opening<B: Book, S: Station>(
    core: &Core<B>,
    product: &Product,
    buffer: &mut ReportBuffer,
    station: &mut S,
) -> Result<(), SendFault>
    requires empty { buffer.old ≡ [] }
    requires fits { FitsProduct product.now core.now }
    ensures sends { Sends S.meanings station.old station.new (opening_text product.now core.now) result }
    ensures empty { OnOk result (buffer.new ≡ []) }
{
    let names = product.names();
    for instrument in 0..names.instrument_count() {
        print_instrument(core, names, instrument as u8, buffer, station)?;
    }
    send_waiting(buffer, station)
}
