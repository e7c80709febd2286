//! Blocks and rows as text.
ghost use Rattle.std.specs.Prelude.{◌≡◌, ◌+◌, ◌*◌, ◌≤◌, ◌++◌, ◌∷◌, [], length, take, map, codes, decimal};
ghost use Rattle.exec_report.specs.Pushes.{Pushes};
ghost use Rattle.line_parts.specs.Words.{line_feed};
ghost use Rattle.level_feed.specs.FeedText.{row_words, row_line, text_of_lines};
ghost use Rattle.level_feed.specs.Rows.{with_rows, AreOrdered};
ghost use Rattle.level_feed.specs.Inner.{line_as};

use crate::compare::{comes_first, is_at_level};
use crate::row::Row;
use crate::rows::is_gone;
use exec_report::{ReportBuffer, SendFault, push_text};
use gx_base::{LONGEST_LINE, LONGEST_VALUE, MOST_DECIMALS, Names, listed};
use gx_station::Station;
use line_parts::pieces::{LONGEST_PIECE, end_line, number, price, text};
use line_parts::side_letter;

/// Writes the words of a row.
fn write_words(into: &mut [u8], at: usize, names: &Names, row: &Row) -> usize
    requires room { at + 5 * LONGEST_PIECE ≤ length into.old }
    ensures words { take result into.new ≡ take at into.old ++ row_words names.now.instruments row.now }
    ensures short { result ≤ at + 5 * LONGEST_PIECE }
{
    let listed = listed(names, row.instrument);
    let at = text(into, at, b"", listed.name.bytes());
    let at = text(into, at, b" ", side_letter(row.side));
    let at = price(into, at, b" ", row.price, listed.decimals);
    let at = number(into, at, b" ", row.shown);
    number(into, at, b" ", row.orders)
}

/// Writes the line of a row in a block.
fn write_row(into: &mut [u8], names: &Names, row: &Row) -> usize
    requires { LONGEST_LINE ≤ length into.old }
    ensures line { take result into.new ≡ row_line names.now.instruments row.now ++ line_feed }
    ensures short { result ≤ LONGEST_LINE }
{
    let at = text(into, 0, b"R ", b"");
    let at = write_words(into, at, names, row);
    end_line(into, at)
}

/// Writes the line of a row in a table.
fn write_table_row(into: &mut [u8], names: &Names, row: &Row) -> usize
    requires { LONGEST_LINE ≤ length into.old }
    ensures line { take result into.new ≡ row_words names.now.instruments row.now ++ line_feed }
    ensures short { result ≤ LONGEST_LINE }
{
    let at = write_words(into, 0, names, row);
    end_line(into, at)
}

/// Writes the first line of a snapshot.
fn write_snapshot(into: &mut [u8], of: u64, rows: usize) -> usize
    requires { LONGEST_LINE ≤ length into.old }
    ensures line { take result into.new ≡ codes "S " ++ decimal of ++ codes " " ++ decimal rows ++ line_feed }
    ensures short { result ≤ LONGEST_LINE }
{
    let at = number(into, 0, b"S ", of);
    let at = number(into, at, b" ", rows as u64);
    end_line(into, at)
}

/// Writes the first line of an increment.
fn write_increment(into: &mut [u8], of: u64, last: u64, rows: usize) -> usize
    requires { LONGEST_LINE ≤ length into.old }
    ensures line { take result into.new ≡ codes "I " ++ decimal of ++ codes " " ++ decimal last ++ codes " " ++ decimal rows ++ line_feed }
    ensures short { result ≤ LONGEST_LINE }
{
    let at = number(into, 0, b"I ", of);
    let at = number(into, at, b" ", last);
    let at = number(into, at, b" ", rows as u64);
    end_line(into, at)
}

/// Puts out the line of a row in a block.
fn print_row<S: Station>(
    names: &Names,
    row: &Row,
    buffer: &mut ReportBuffer,
    station: &mut S,
) -> Result<(), SendFault>
    ensures { Pushes S.meanings station.old station.new buffer.old buffer.new (row_line names.now.instruments row.now ++ line_feed) result }
{
    let mut line = [0; LONGEST_LINE];
    let count = write_row(&mut line, names, row);
    push_text(buffer, station, &line[..count])
}

/// Puts out the line of a row in a table.
fn print_table_row<S: Station>(
    names: &Names,
    row: &Row,
    buffer: &mut ReportBuffer,
    station: &mut S,
) -> Result<(), SendFault>
    ensures { Pushes S.meanings station.old station.new buffer.old buffer.new (row_words names.now.instruments row.now ++ line_feed) result }
{
    let mut line = [0; LONGEST_LINE];
    let count = write_table_row(&mut line, names, row);
    push_text(buffer, station, &line[..count])
}

/// Puts out the first line of a snapshot.
pub(crate) fn print_snapshot_line<S: Station>(
    of: u64,
    rows: usize,
    buffer: &mut ReportBuffer,
    station: &mut S,
) -> Result<(), SendFault>
    ensures { Pushes S.meanings station.old station.new buffer.old buffer.new (codes "S " ++ decimal of ++ codes " " ++ decimal rows ++ line_feed) result }
{
    let mut line = [0; LONGEST_LINE];
    let count = write_snapshot(&mut line, of, rows);
    push_text(buffer, station, &line[..count])
}

/// Puts out the first line of an increment.
pub(crate) fn print_increment_line<S: Station>(
    of: u64,
    last: u64,
    rows: usize,
    buffer: &mut ReportBuffer,
    station: &mut S,
) -> Result<(), SendFault>
    ensures { Pushes S.meanings station.old station.new buffer.old buffer.new (codes "I " ++ decimal of ++ codes " " ++ decimal last ++ codes " " ++ decimal rows ++ line_feed) result }
{
    let mut line = [0; LONGEST_LINE];
    let count = write_increment(&mut line, of, last, rows);
    push_text(buffer, station, &line[..count])
}

/// Puts out the rows of a block.
pub(crate) fn print_rows<S: Station>(
    names: &Names,
    rows: &[Row],
    buffer: &mut ReportBuffer,
    station: &mut S,
) -> Result<(), SendFault>
    ensures { Pushes S.meanings station.old station.new buffer.old buffer.new (text_of_lines (map (row_line names.now.instruments) rows.now)) result }
{
    for row in rows {
        print_row(names, row, buffer, station)?;
    }
    Ok(())
}

/// Puts out the line of a row, in a block or in a table.
fn print_row_as<S: Station>(
    names: &Names,
    in_block: bool,
    row: &Row,
    buffer: &mut ReportBuffer,
    station: &mut S,
) -> Result<(), SendFault>
    ensures { Pushes S.meanings station.old station.new buffer.old buffer.new (line_as in_block names.now.instruments row.now ++ line_feed) result }
{
    if in_block {
        return print_row(names, row, buffer, station);
    }
    print_table_row(names, row, buffer, station)
}

/// Puts out the rows after all changes, as those of a block or as those of a table.
pub(crate) fn print_merged<S: Station>(
    names: &Names,
    in_block: bool,
    settled: &[Row],
    changes: &[Row],
    buffer: &mut ReportBuffer,
    station: &mut S,
) -> Result<(), SendFault>
    requires settled { AreOrdered settled.now }
    requires changes { AreOrdered changes.now }
    ensures { Pushes S.meanings station.old station.new buffer.old buffer.new (text_of_lines (map (line_as in_block names.now.instruments) (with_rows changes.now settled.now))) result }
{
    let mut at = 0;
    let mut next = 0;
    while at < settled.len() || next < changes.len() {
        if comes_first(settled, at, changes, next) {
            print_row_as(names, in_block, &settled[at], buffer, station)?;
            at += 1;
        } else {
            let change = &changes[next];
            if at < settled.len() && is_at_level(&settled[at], change) {
                at += 1;
            }
            if !is_gone(change) {
                print_row_as(names, in_block, change, buffer, station)?;
            }
            next += 1;
        }
    }
    Ok(())
}
