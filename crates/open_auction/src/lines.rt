//! The lines of the openings' text.
ghost use Rattle.std.specs.Prelude.{◌≡◌, ◌+◌, ◌≤◌, ◌++◌, length, take};
ghost use Rattle.exec_report.specs.Pushes.{Pushes};
ghost use Rattle.gx_base.specs.Line.{decimals_of};
ghost use Rattle.open_auction.specs.OpeningText.{name_line, candidate_line, opening_line, pair_words};

use crate::quote::Opening;
use exec_report::{ReportBuffer, SendFault, push_text};
use gx_base::{LONGEST_LINE, MOST_DECIMALS, Names, Price, listed};
use gx_station::Station;
use line_parts::pieces::{end_line, number, price, text};

/// Writes the line of an instrument's name.
fn write_name(into: &mut [u8], names: &Names, instrument: u8) -> usize
    requires { LONGEST_LINE ≤ length into.old }
    ensures line { take result into.new ≡ name_line names.now instrument }
    ensures short { result ≤ LONGEST_LINE }
{
    let listed = listed(names, instrument);
    let at = text(into, 0, b"", listed.name.bytes());
    end_line(into, at)
}

/// Writes the line of a candidate.
fn write_candidate(into: &mut [u8], decimals: u8, opening: Opening) -> usize
    requires room { LONGEST_LINE ≤ length into.old }
    requires decimals { decimals ≤ MOST_DECIMALS }
    ensures line { take result into.new ≡ candidate_line decimals opening }
    ensures short { result ≤ LONGEST_LINE }
{
    let at = price(into, 0, b"", opening.price, decimals);
    let at = number(into, at, b" D ", opening.demand);
    let at = number(into, at, b" S ", opening.supply);
    let at = number(into, at, b" V ", opening.volume);
    end_line(into, at)
}

/// Writes the line of the opening price.
fn write_opening(into: &mut [u8], decimals: u8, opening: Option<Opening>) -> usize
    requires room { LONGEST_LINE ≤ length into.old }
    requires decimals { decimals ≤ MOST_DECIMALS }
    ensures line { take result into.new ≡ opening_line decimals opening }
    ensures short { result ≤ LONGEST_LINE }
{
    let at = match opening {
        None => text(into, 0, b"opening none", b""),
        Some(opening) => {
            let at = price(into, 0, b"opening ", opening.price, decimals);
            number(into, at, b" volume ", opening.volume)
        }
    };
    end_line(into, at)
}

/// Writes the line of a pair.
fn write_pair(
    into: &mut [u8],
    decimals: u8,
    at_price: Price,
    lots: u32,
    buy: u64,
    sell: u64,
) -> usize
    requires room { LONGEST_LINE ≤ length into.old }
    requires decimals { decimals ≤ MOST_DECIMALS }
    ensures line { take result into.new ≡ pair_words decimals at_price lots buy sell }
    ensures short { result ≤ LONGEST_LINE }
{
    let at = number(into, 0, b"", u64::from(lots));
    let at = price(into, at, b"@", at_price, decimals);
    let at = number(into, at, b" #", buy);
    let at = number(into, at, b" #", sell);
    end_line(into, at)
}

/// Puts out the line of an instrument's name.
pub(crate) fn print_name<S: Station>(
    names: &Names,
    instrument: u8,
    buffer: &mut ReportBuffer,
    station: &mut S,
) -> Result<(), SendFault>
    ensures { Pushes S.meanings station.old station.new buffer.old buffer.new (name_line names.now instrument) result }
{
    let mut line = [0; LONGEST_LINE];
    let count = write_name(&mut line, names, instrument);
    push_text(buffer, station, &line[..count])
}

/// Puts out the line of a candidate.
pub(crate) fn print_candidate<S: Station>(
    decimals: u8,
    opening: Opening,
    buffer: &mut ReportBuffer,
    station: &mut S,
) -> Result<(), SendFault>
    requires { decimals ≤ MOST_DECIMALS }
    ensures { Pushes S.meanings station.old station.new buffer.old buffer.new (candidate_line decimals opening) result }
{
    let mut line = [0; LONGEST_LINE];
    let count = write_candidate(&mut line, decimals, opening);
    push_text(buffer, station, &line[..count])
}

/// Puts out the line of the opening price.
pub(crate) fn print_price<S: Station>(
    decimals: u8,
    opening: Option<Opening>,
    buffer: &mut ReportBuffer,
    station: &mut S,
) -> Result<(), SendFault>
    requires { decimals ≤ MOST_DECIMALS }
    ensures { Pushes S.meanings station.old station.new buffer.old buffer.new (opening_line decimals opening) result }
{
    let mut line = [0; LONGEST_LINE];
    let count = write_opening(&mut line, decimals, opening);
    push_text(buffer, station, &line[..count])
}

/// Puts out the line of a pair: so many lots, of the orders with these numbers.
pub(crate) fn print_pair<S: Station>(
    decimals: u8,
    price: Price,
    lots: u32,
    buy: u64,
    sell: u64,
    buffer: &mut ReportBuffer,
    station: &mut S,
) -> Result<(), SendFault>
    requires { decimals ≤ MOST_DECIMALS }
    ensures { Pushes S.meanings station.old station.new buffer.old buffer.new (pair_words decimals price lots buy sell) result }
{
    let mut line = [0; LONGEST_LINE];
    let count = write_pair(&mut line, decimals, price, lots, buy, sell);
    push_text(buffer, station, &line[..count])
}
