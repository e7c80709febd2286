//! Reading an image in blocks.
ghost use Rattle.std.specs.Prelude.{◌≡◌, ℕ, ◌+◌, ◌-◌, ◌^◌, ◌<◌, ◌≤◌, List, length, take, drop, min, Some, OnOk};
ghost use Rattle.std.specs.Box.{boxed_slice_len, boxed_slice_items};
ghost use Rattle.gx_station.specs.StoreCalls.{OnStore};
ghost use Rattle.match_journal.specs.Causes.{LooksOnly};

use gx_station::Station;
use match_journal::StoreFault;
use std::alloc::{AllocError, Global};
use std::boxed::BoxedSlice;

/// How many bytes a block has at most.
const BLOCK: usize = 65_536;

/// The block of an image that was read last. One who goes over the image in its order reads each byte once.
#[derive(Drop)]
pub(crate) struct ReadAhead {
    block: BoxedSlice<u8>,
    /// The place of the block in the image.
    at: u64,
    /// How many bytes of the image the block has.
    count: usize,
    ghost inside: { count ≤ boxed_slice_len block },
}

/// Fills `into` with the bytes of the image at a place.
fn read_at<S: Station>(station: &mut S, place: u64, into: &mut [u8]) -> Result<(), StoreFault>
    requires reach { place + length into.old ≤ S.meanings.reach station.old }
    ensures looks { LooksOnly S.meanings station.old station.new (length into.old) }
    ensures reach { S.meanings.reach station.new ≡ S.meanings.reach station.old }
    ensures on_store { OnStore S.meanings station.old station.new result }
    ensures size { length into.new ≡ length into.old }
    ensures bytes { OnOk result ((image : List ℕ) → S.meanings.holds station.old ≡ Some image → into.new ≡ take (length into.old) (drop place image)) }
{
    match station.read(place, into) {
        Ok(()) => Ok(()),
        Err(_) => Err(StoreFault),
    }
}

/// Fills the front of `block` with so many bytes of the image at a place.
fn read_front<S: Station>(
    station: &mut S,
    place: u64,
    count: usize,
    block: &mut [u8],
) -> Result<(), StoreFault>
    requires room { count ≤ length block.old }
    requires reach { place + count ≤ S.meanings.reach station.old }
    ensures looks { LooksOnly S.meanings station.old station.new count }
    ensures reach { S.meanings.reach station.new ≡ S.meanings.reach station.old }
    ensures on_store { OnStore S.meanings station.old station.new result }
    ensures size { length block.new ≡ length block.old }
    ensures bytes { OnOk result ((image : List ℕ) → S.meanings.holds station.old ≡ Some image → take count block.new ≡ take count (drop place image)) }
{
    read_at(station, place, &mut block[0..count])
}

impl ReadAhead {
    ghost use Rattle.book_recovery.specs.Inner.Ahead.{front, IsAhead, GoesAhead};

    /// Takes the memory of a block. An `Err` is want of memory.
    pub fn new(alloc: Global) -> Result<ReadAhead, AllocError> {
        Ok(ReadAhead {
            block: vec![in alloc; 0; BLOCK]?.into_boxed_slice(),
            at: 0,
            count: 0,
        })
    }

    /// Nothing is read yet, and the first byte that is asked for is that at a place.
    pub fn begin(&mut self, place: u64)
        ensures at { self.new.at ≡ place }
        ensures none { self.new.count ≡ 0 }
    {
        self.at = place;
        self.count = 0;
    }

    /// Copies what the block has from a place on into the front of `into`, and answers how many bytes these are.
    fn copy(&self, place: u64, into: &mut [u8]) -> usize
        requires begins { self.now.at ≤ place }
        requires ready { place ≤ front self.now }
        ensures count { result ≡ min (length into.old) (front self.now - place) }
        ensures size { length into.new ≡ length into.old }
        ensures bytes { take result into.new ≡ take result (drop (place - self.now.at) (boxed_slice_items self.now.block)) }
    {
        let from = (place - self.at) as usize;
        let have = into.len().min(self.count - from);
        into[0..have].copy_from_slice(&self.block[from..from + have]);
        have
    }

    /// Reads the next block, as much of one as there is before the end.
    fn read_block<S: Station>(&mut self, station: &mut S, end: u64) -> Result<(), StoreFault>
        requires ends { front self.old ≤ end }
        requires reach { end ≤ S.meanings.reach station.old }
        ensures goes { GoesAhead S.meanings station.old station.new self.old self.new end }
        ensures on_store { OnStore S.meanings station.old station.new result }
        ensures at { self.new.at ≡ front self.old }
        ensures count { self.new.count ≡ min (boxed_slice_len self.old.block) (end - front self.old) }
        ensures bytes { OnOk result ((image : List ℕ) → S.meanings.holds station.old ≡ Some image
            → take self.new.count (boxed_slice_items self.new.block) ≡ take self.new.count (drop self.new.at image)) }
    {
        let place = self.at + self.count as u64;
        let count = (end - place).min(self.block.len() as u64) as usize;
        let read = read_front(station, place, count, self.block.as_mut_slice());
        self.at = place;
        self.count = count;
        read
    }

    /// Fills `into` with the bytes of the image after the block, without the block, which is empty then.
    fn read_past<S: Station>(&mut self, station: &mut S, into: &mut [u8]) -> Result<(), StoreFault>
        requires small { front self.old + length into.old < 2 ^ 64 }
        requires reach { front self.old + length into.old ≤ S.meanings.reach station.old }
        ensures looks { LooksOnly S.meanings station.old station.new (length into.old) }
        ensures reach { S.meanings.reach station.new ≡ S.meanings.reach station.old }
        ensures on_store { OnStore S.meanings station.old station.new result }
        ensures at { self.new.at ≡ front self.old + length into.old }
        ensures count { self.new.count ≡ 0 }
        ensures size { length into.new ≡ length into.old }
        ensures bytes { OnOk result ((image : List ℕ) → S.meanings.holds station.old ≡ Some image → into.new ≡ take (length into.old) (drop (front self.old) image)) }
    {
        let place = self.at + self.count as u64;
        let after = place + into.len() as u64;
        let read = read_at(station, place, into);
        self.begin(after);
        read
    }

    /// Fills `into` with the bytes of the image after the block. Bytes that are longer than a block are read straight into their place.
    fn take_more<S: Station>(
        &mut self,
        station: &mut S,
        end: u64,
        into: &mut [u8],
    ) -> Result<(), StoreFault>
        requires ends { front self.old + length into.old ≤ end }
        requires reach { end ≤ S.meanings.reach station.old }
        ensures goes { GoesAhead S.meanings station.old station.new self.old self.new end }
        ensures on_store { OnStore S.meanings station.old station.new result }
        ensures size { length into.new ≡ length into.old }
        ensures bytes { OnOk result ((image : List ℕ) → S.meanings.holds station.old ≡ Some image → into.new ≡ take (length into.old) (drop (front self.old) image)) }
        ensures ahead { OnOk result (IsAhead S.meanings station.new self.new (front self.old + length into.old) end) }
    {
        if into.len() > self.block.len() {
            return self.read_past(station, into);
        }
        match self.read_block(station, end) {
            Ok(()) => {
                self.copy(self.at, into);
                Ok(())
            }
            Err(fault) => Err(fault),
        }
    }

    /// Fills `into` with the bytes of the image at a place in the block, or just after it. It reads only after the block, in blocks,
    /// and nothing at the end or after it.
    pub fn take<S: Station>(
        &mut self,
        station: &mut S,
        place: u64,
        end: u64,
        into: &mut [u8],
    ) -> Result<(), StoreFault>
        requires ends { place + length into.old ≤ end }
        requires reach { end ≤ S.meanings.reach station.old }
        requires ahead { IsAhead S.meanings station.old self.old place end }
        ensures goes { GoesAhead S.meanings station.old station.new self.old self.new end }
        ensures on_store { OnStore S.meanings station.old station.new result }
        ensures size { length into.new ≡ length into.old }
        ensures bytes { OnOk result ((image : List ℕ) → S.meanings.holds station.old ≡ Some image → into.new ≡ take (length into.old) (drop place image)) }
        ensures ahead { OnOk result (IsAhead S.meanings station.new self.new (place + length into.old) end) }
    {
        let have = self.copy(place, into);
        if have == into.len() {
            return Ok(());
        }
        self.take_more(station, end, &mut into[have..])
    }
}
