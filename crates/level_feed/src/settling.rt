//! Rows, and changes of them that are kept apart.
ghost use Rattle.std.specs.Prelude.{◌≡◌, ◌+◌, ◌<◌, ◌≤◌, [], ◌∷◌, ◌++◌, false, length, vec_capacity};
ghost use Rattle.std.specs.Bool.{OnTrue};
ghost use Rattle.level_feed.specs.Rows.{is_gone, with_row, with_rows, AreOrdered};
ghost use Rattle.level_feed.specs.Inner.{with_change};

use crate::compare::{comes_first, is_at_level, is_before};
use crate::row::Row;
use crate::rows::{find_place, is_gone};
use std::mem;

/// Adds a change to others, in the place of that of the same level if there is one.
pub(crate) fn put_change(changes: &mut Vec<Row>, row: Row)
    requires ordered { AreOrdered changes.old.items }
    requires room { length changes.old.items < vec_capacity changes.old }
    ensures put { changes.new.items ≡ with_change row changes.old.items }
    ensures ordered { AreOrdered changes.new.items }
    ensures few { length changes.new.items ≤ length changes.old.items + 1 }
    ensures capacity { vec_capacity changes.new ≡ vec_capacity changes.old }
{
    match find_place(changes, &row) {
        Ok(place) => changes[place] = row,
        Err(place) => {
            if changes.insert(place, row).is_err() {
                unreachable!()
            }
        }
    }
}

/// Whether no change is kept apart, and a row comes after all others.
pub(crate) fn comes_last(settled: &[Row], changes: &[Row], row: &Row) -> bool
    requires ordered { AreOrdered settled.now }
    requires shown { is_gone row.now ≡ false }
    ensures { OnTrue result ((changes.now ≡ []) × (with_row row.now settled.now ≡ settled.now ++ row.now ∷ [])) }
{
    if !changes.is_empty() {
        return false;
    }
    match settled.last() {
        Some(last) => is_before(last, row),
        None => true,
    }
}

/// Makes `into` the rows after all changes.
fn merge(settled: &[Row], changes: &[Row], into: &mut Vec<Row>)
    requires settled { AreOrdered settled.now }
    requires changes { AreOrdered changes.now }
    requires room { length (with_rows changes.now settled.now) ≤ vec_capacity into.old }
    ensures rows { into.new.items ≡ with_rows changes.now settled.now }
    ensures capacity { vec_capacity into.new ≡ vec_capacity into.old }
{
    into.clear();
    let mut at = 0;
    let mut next = 0;
    while at < settled.len() || next < changes.len() {
        if comes_first(settled, at, changes, next) {
            into.push_reserved(settled[at]);
            at += 1;
        } else {
            let change = changes[next];
            if at < settled.len() && is_at_level(&settled[at], &change) {
                at += 1;
            }
            if !is_gone(&change) {
                into.push_reserved(change);
            }
            next += 1;
        }
    }
}

/// Makes the rows those after all changes, of which none is left. `room` is what the rows were kept in.
pub(crate) fn settle(settled: &mut Vec<Row>, changes: &mut Vec<Row>, room: &mut Vec<Row>)
    requires settled { AreOrdered settled.old.items }
    requires changes { AreOrdered changes.old.items }
    requires room { length (with_rows changes.old.items settled.old.items) ≤ vec_capacity room.old }
    ensures rows { settled.new.items ≡ with_rows changes.old.items settled.old.items }
    ensures none { changes.new.items ≡ [] }
    ensures ordered { AreOrdered settled.new.items }
    ensures settled_capacity { vec_capacity settled.new ≡ vec_capacity room.old }
    ensures room_capacity { vec_capacity room.new ≡ vec_capacity settled.old }
    ensures changes_capacity { vec_capacity changes.new ≡ vec_capacity changes.old }
{
    merge(settled, changes, room);
    mem::swap(settled, room);
    changes.clear();
}
