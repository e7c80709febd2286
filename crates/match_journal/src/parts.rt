//! Bytes that are written, and then synced.
ghost use Rattle.std.specs.Prelude.{◌+◌, ◌≤◌, ◌^◌, ◌++◌, length};
ghost use Rattle.match_journal.specs.Inner.Stores.{Stores, Stored};

use gx_station::{Failed, Station};

/// Writes bytes, and syncs.
pub(crate) fn store<S: Station>(station: &mut S, at: u64, bytes: &[u8]) -> Result<(), Failed>
    requires within { at ≤ S.meanings.reach station.old }
    requires small { at + length bytes.now ≤ 2 ^ 62 }
    ensures { Stored S.meanings station.old station.new at bytes.now result }
{
    station.write(at, bytes)?;
    station.sync()
}

/// Writes three parts, one after the other.
fn write_parts<S: Station>(
    station: &mut S,
    at: u64,
    head: &[u8],
    middle: &[u8],
    tail: &[u8],
) -> Result<(), Failed>
    requires within { at ≤ S.meanings.reach station.old }
    requires small { at + length head.now + length middle.now + length tail.now ≤ 2 ^ 62 }
    ensures { Stores S.meanings station.old station.new at (head.now ++ (middle.now ++ tail.now)) result }
{
    station.write(at, head)?;
    let behind = at + head.len() as u64;
    station.write(behind, middle)?;
    station.write(behind + middle.len() as u64, tail)
}

/// Writes three parts, one after the other, and syncs.
pub(crate) fn store_parts<S: Station>(
    station: &mut S,
    at: u64,
    head: &[u8],
    middle: &[u8],
    tail: &[u8],
) -> Result<(), Failed>
    requires within { at ≤ S.meanings.reach station.old }
    requires small { at + length head.now + length middle.now + length tail.now ≤ 2 ^ 62 }
    ensures { Stored S.meanings station.old station.new at (head.now ++ (middle.now ++ tail.now)) result }
{
    write_parts(station, at, head, middle, tail)?;
    station.sync()
}
