//! The rows at noted levels, as they were last sent and as they are in the book.
ghost use Rattle.std.specs.Prelude.{◌≡◌, ◌+◌, ◌≤◌, ◌<◌, ◌++◌, length, vec_capacity};
ghost use Rattle.level_feed.specs.Rows.{level_of_row, levels_of, AreOrdered};
ghost use Rattle.level_feed.specs.Noted.{rows_at};
ghost use Rattle.level_feed.specs.Inner.{picked};

use crate::level_rows::LevelRows;
use crate::row::Row;
use plain_book::Book;

/// Adds the row that was last sent of a level, if there is one.
fn push_sent(rows: &LevelRows, level: &Row, was: &mut Vec<Row>)
    requires room { length was.old.items < vec_capacity was.old }
    ensures rows { was.new.items ≡ was.old.items ++ rows_at (level_of_row level.now) rows.now.rows }
    ensures few { length was.new.items ≤ length was.old.items + 1 }
    ensures capacity { vec_capacity was.new ≡ vec_capacity was.old }
{
    if let Some(row) = rows.find(level) {
        was.push_reserved(row);
    }
}

/// Adds the row of a level of a book, which has so many instruments, if there are orders. A level of no instrument of the book
/// has none.
fn push_level<B: Book>(book: &B, instruments: usize, level: &Row, rows: &mut Vec<Row>)
    requires instruments { instruments ≡ (B.book book.now).instruments }
    requires room { length rows.old.items < vec_capacity rows.old }
    ensures rows { rows.new.items ≡ rows.old.items ++ rows_at (level_of_row level.now) (levels_of (B.book book.now).resting) }
    ensures few { length rows.new.items ≤ length rows.old.items + 1 }
    ensures capacity { vec_capacity rows.new ≡ vec_capacity rows.old }
{
    book.rules();
    if usize::from(level.instrument) >= instruments {
        return;
    }
    let orders = book.count(level.instrument, level.side, level.price);
    if orders == 0 {
        return;
    }
    rows.push_reserved(Row {
        shown: book.shown_total(level.instrument, level.side, level.price),
        orders: u64::from(orders),
        ..*level
    });
}

/// Makes `was` the rows last sent of some levels, level by level.
pub(crate) fn take_sent(rows: &LevelRows, levels: &[Row], was: &mut Vec<Row>)
    requires room { length levels.now ≤ vec_capacity was.old }
    ensures rows { was.new.items ≡ picked levels.now rows.now.rows }
    ensures capacity { vec_capacity was.new ≡ vec_capacity was.old }
{
    was.clear();
    for level in levels {
        push_sent(rows, level, was);
    }
}

/// Makes the rows those of some levels of a book, which has so many instruments, level by level.
pub(crate) fn take_noted<B: Book>(book: &B, instruments: usize, levels: &[Row], rows: &mut Vec<Row>)
    requires instruments { instruments ≡ (B.book book.now).instruments }
    requires room { length levels.now ≤ vec_capacity rows.old }
    ensures rows { rows.new.items ≡ picked levels.now (levels_of (B.book book.now).resting) }
    ensures capacity { vec_capacity rows.new ≡ vec_capacity rows.old }
{
    rows.clear();
    for level in levels {
        push_level(book, instruments, level, rows);
    }
}
