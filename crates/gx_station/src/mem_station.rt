//! A station in memory, for tests.
ghost use Rattle.std.specs.Prelude.{◌≡◌, ◌+◌, ◌≤◌, ◌^◌, [], ◌++◌, IfOk, true, false, length, take, max, vec_capacity, vec_len};
ghost use Rattle.gx_station.specs.Disk.{written};
ghost use Rattle.gx_station.specs.Honest.{PassesOutputs};
ghost use Rattle.gx_station.specs.Quiet.{Sends};
ghost use Rattle.gx_station.specs.CrashImages.{filled_image};
ghost use Rattle.gx_station.specs.StoreCalls.{Measures, Reads, Writes, Syncs};
ghost use Rattle.gx_station.specs.MemoryStation.{MemoryStation, memory_meanings, IsSound, Leaves, disk_after, Looked, Synced, Answers, has_turn, fits_write, fits_send, listed, store_refused, send_refused, store_failed, send_failed, was_measured, was_written, write_failed, was_sent};

use crate::count::{count_call, count_fault};
use crate::replay::replayed;
use crate::station::{Failed, Station};
use std::alloc::{AllocError, Global};
use std::marker::Model;

/// A call that is listed: a length or a read of so many bytes, a write at a place of so many bytes, a sync, a send of so many
/// bytes; whether a write and a sync were Ok. The bytes of the writes and those of the sends stand in the station's rows.
#[derive(Clone, Copy, Debug, PartialEq, Eq)]
pub enum Entry {
    Look(usize),
    Write(usize, usize, bool),
    Sync(bool),
    Send(usize),
}

/// Keeps an image and what is sent, in fixed room, and a list of its calls with their bytes. The calls whose numbers, from
/// 1 on over all five methods, stand in `fail` are `Failed`, are listed, and raise a count of faults: such a write leaves
/// what a read gives as it was, and its range counts as written and not synced; such a send sends nothing. A call that finds
/// no room is `Failed`, counts, and does nothing else. Every other call is Ok. No call takes memory.
///
/// It is honest: what a crash could leave is what the disk of `Disk` could, after the calls that are listed.
#[derive(Drop)]
pub struct MemStation {
    /// The image at first.
    first: Vec<u8>,
    /// The image as a read gives it.
    image: Vec<u8>,
    room: usize,
    reach: u64,
    /// The bytes of all writes, one after the other.
    pieces: Vec<u8>,
    output: Vec<u8>,
    sends: usize,
    entries: Vec<Entry>,
    most: usize,
    fail: Vec<u64>,
    calls: u64,
    store_faults: u64,
    send_faults: u64,
}

impl Model for MemStation {
    ghost use Rattle.gx_station.specs.MemoryStation.{MemoryStation};
    ghost use Rattle.gx_station.specs.Entries.{calls_of, written_by, sent_by};

    ghost Value = { MemoryStation };

    ghost use Rattle.std.specs.Prelude.{◌≡◌, ◌≤◌, ◌^◌, vec_len, vec_capacity};
    ghost use Rattle.gx_station.specs.CrashImages.{greatest_end};

    ghost view = { λ s. record {
      first = s.first.items;
      done = calls_of s.entries.items s.pieces.items s.output.items;
      image = s.image.items;
      sent = s.output.items;
      reach = s.reach;
      pieces = vec_len s.pieces;
      room = s.room;
      sends = s.sends;
      most = s.most;
      fail = s.fail.items;
      calls = s.calls;
      store_faults = s.store_faults;
      send_faults
          = s.send_faults;
    } };

    ghost invariant = { λ s. (s.room ≤ vec_capacity s.image) × (s.room ≤ vec_capacity s.pieces) × (s.sends ≤ vec_capacity s.output) × (s.most ≤ vec_capacity s.entries)
        × (written_by s.entries.items ≡ vec_len s.pieces) × (sent_by s.entries.items ≡ vec_len s.output) × (s.reach ≤ vec_len s.image)
        × (greatest_end s.entries.items ≤ 2 ^ 62) };
}

impl MemStation {
    /// A station with this image, room for `room` bytes of image and as many for the pieces of all writes, for
    /// `sends` bytes of output, and for `most` calls in its list. An `Err` is want of memory.
    pub fn new(
        alloc: Global,
        image: Vec<u8>,
        room: usize,
        sends: usize,
        most: usize,
        fail: Vec<u64>,
    ) -> Result<MemStation, AllocError>
        requires { vec_len image ≤ room }
        ensures made { IfOk result
            (λ s. s ≡ record {
              first = image.items;
              done = [];
              image = image.items;
              sent = [];
              reach = 0;
              pieces = 0;
              room = room;
              sends = sends;
              most = most;
              fail = fail.items;
              calls = 0;
              store_faults = 0;
              send_faults = 0;
            }) }
        ensures sound { IfOk result (λ s. IsSound s) }
    {
        let mut present = Vec::with_capacity(alloc, room)?;
        present.extend_from_slice(image.as_slice())?;
        let pieces = Vec::with_capacity(alloc, room)?;
        let output = Vec::with_capacity(alloc, sends)?;
        let entries = Vec::with_capacity(alloc, most)?;
        Ok(MemStation {
            first: image,
            image: present,
            room,
            reach: 0,
            pieces,
            output,
            sends,
            entries,
            most,
            fail,
            calls: 0,
            store_faults: 0,
            send_faults: 0,
        })
    }

    /// How many calls the list has.
    pub fn calls(&self) -> usize
        ensures { result ≡ length self.now.done }
    {
        self.entries.len()
    }

    /// One image that a crash just after that call could leave, where 0 is before the first: each range that no sync has
    /// followed holds `fill`, and the image is as long as may be. An `Err` is want of memory.
    pub fn crash_image(&self, alloc: Global, call: usize, fill: u8) -> Result<Vec<u8>, AllocError>
        requires { call ≤ length self.now.done }
        ensures filled { IfOk result (λ image. image.items ≡ filled_image fill (disk_after self.now.first (take call self.now.done))) }
        ensures leaves { IfOk result (λ image. Leaves (disk_after self.now.first (take call self.now.done)) image.items) }
    {
        let entries = &self.entries[..call];
        replayed(
            alloc,
            self.first.as_slice(),
            entries,
            self.pieces.as_slice(),
            fill,
        )
    }

    /// Lends what was sent.
    pub fn output(&self) -> &[u8]
        ensures { result.now ≡ self.now.sent }
    {
        self.output.as_slice()
    }

    /// Lends the image, as a read gives it.
    pub fn image(&self) -> &[u8]
        ensures { result.now ≡ self.now.image }
    {
        self.image.as_slice()
    }
}

/// Appends to a row that has the room.
fn append(row: &mut Vec<u8>, bytes: &[u8])
    requires { vec_len row.old + length bytes.now ≤ vec_capacity row.old }
    ensures items { row.new.items ≡ row.old.items ++ bytes.now }
    ensures len { vec_len row.new ≡ vec_len row.old + length bytes.now }
    ensures capacity { vec_capacity row.old ≤ vec_capacity row.new }
{
    let _ = row.extend_from_slice(bytes);
}

/// Writes over what is there, and past the end, where there is room.
fn write_over(image: &mut Vec<u8>, at: usize, bytes: &[u8])
    requires within { at ≤ vec_len image.old }
    requires room { at + length bytes.now ≤ vec_capacity image.old }
    ensures items { image.new.items ≡ written at bytes.now image.old.items }
    ensures len { vec_len image.new ≡ max (vec_len image.old) (at + length bytes.now) }
    ensures capacity { vec_capacity image.old ≤ vec_capacity image.new }
{
    let end = at + bytes.len();
    if end <= image.len() {
        image[at..end].copy_from_slice(bytes);
    } else {
        image.truncate(at);
        append(image, bytes);
    }
}

impl Station for MemStation {
    ghost use Rattle.gx_station.specs.MemoryStation.{memory_meanings};
    ghost use Rattle.gx_station.specs.MemoryLaws.{memory_honest};

    ghost meanings = { memory_meanings };

    ghost honest = { memory_honest };

    /// As the trait says, and exactly by the room and the list that `new` was given.
    #[tactic(auto, using(crate::proofs::Entries::one_more))]
    fn length(&mut self) -> Result<u64, Failed>
        ensures measures { Measures memory_meanings self.old self.new result }
        ensures exactly { Answers self.old self.new (has_turn self.old) (was_measured self.old) (store_failed self.old (Looked 0)) (store_refused self.old)
            result }
    {
        let fails = count_call(&mut self.calls, self.fail.as_slice());
        if self.entries.len() >= self.most {
            return Err(count_fault(&mut self.store_faults));
        }
        self.entries.push_reserved(Entry::Look(0));
        if fails {
            return Err(count_fault(&mut self.store_faults));
        }
        let len = self.image.len() as u64;
        self.reach = self.reach.max(len);
        Ok(len)
    }

    /// As the trait says, and exactly by the room and the list that `new` was given.
    #[tactic(auto, using(crate::proofs::Entries::one_more))]
    fn read(&mut self, at: u64, into: &mut [u8]) -> Result<(), Failed>
        requires { at + length into.old ≤ self.old.reach }
        ensures reads { Reads memory_meanings self.old self.new at into.new result }
        ensures exactly { Answers self.old self.new (has_turn self.old) (listed self.old (Looked (length into.new))) (store_failed self.old (Looked 0))
            (store_refused self.old) result }
    {
        let fails = count_call(&mut self.calls, self.fail.as_slice());
        if self.entries.len() >= self.most {
            return Err(count_fault(&mut self.store_faults));
        }
        if fails {
            self.entries.push_reserved(Entry::Look(0));
            return Err(count_fault(&mut self.store_faults));
        }
        self.entries.push_reserved(Entry::Look(into.len()));
        let at = at as usize;
        into.copy_from_slice(&self.image[at..at + into.len()]);
        Ok(())
    }

    /// As the trait says, and exactly by the room and the list that `new` was given.
    #[tactic(auto, using(crate::proofs::Entries::one_more))]
    fn write(&mut self, at: u64, bytes: &[u8]) -> Result<(), Failed>
        requires within { at ≤ self.old.reach }
        requires small { at + length bytes.now ≤ 2 ^ 62 }
        ensures writes { Writes memory_meanings self.old self.new at bytes.now result }
        ensures exactly { Answers self.old self.new (fits_write self.old at (length bytes.now)) (was_written self.old at bytes.now)
            (write_failed self.old at bytes.now) (store_refused self.old) result }
    {
        let fails = count_call(&mut self.calls, self.fail.as_slice());
        let at = at as usize;
        let end = at + bytes.len();
        if self.pieces.len() + bytes.len() > self.room
            || end > self.room
            || self.entries.len() >= self.most
        {
            return Err(count_fault(&mut self.store_faults));
        }
        append(&mut self.pieces, bytes);
        if fails {
            self.entries
                .push_reserved(Entry::Write(at, bytes.len(), false));
            return Err(count_fault(&mut self.store_faults));
        }
        self.entries
            .push_reserved(Entry::Write(at, bytes.len(), true));
        write_over(&mut self.image, at, bytes);
        self.reach = self.reach.max(end as u64);
        Ok(())
    }

    /// As the trait says, and exactly by the room and the list that `new` was given.
    #[tactic(auto, using(crate::proofs::Entries::one_more))]
    fn sync(&mut self) -> Result<(), Failed>
        ensures syncs { Syncs memory_meanings self.old self.new result }
        ensures exactly { Answers self.old self.new (has_turn self.old) (listed self.old (Synced true)) (store_failed self.old (Synced false))
            (store_refused self.old) result }
    {
        let fails = count_call(&mut self.calls, self.fail.as_slice());
        if self.entries.len() >= self.most {
            return Err(count_fault(&mut self.store_faults));
        }
        if fails {
            self.entries.push_reserved(Entry::Sync(false));
            return Err(count_fault(&mut self.store_faults));
        }
        self.entries.push_reserved(Entry::Sync(true));
        Ok(())
    }

    /// As the trait says, and exactly by the room and the list that `new` was given.
    #[tactic(auto, using(crate::proofs::Entries::one_more))]
    fn send(&mut self, bytes: &[u8]) -> Result<(), Failed>
        ensures sends { Sends memory_meanings self.old self.new bytes.now result }
        ensures passes { PassesOutputs memory_meanings self.old self.new }
        ensures exactly { Answers self.old self.new (fits_send self.old (length bytes.now)) (was_sent self.old bytes.now) (send_failed self.old)
            (send_refused self.old) result }
    {
        let fails = count_call(&mut self.calls, self.fail.as_slice());
        if self.output.len() + bytes.len() > self.sends || self.entries.len() >= self.most {
            return Err(count_fault(&mut self.send_faults));
        }
        if fails {
            self.entries.push_reserved(Entry::Send(0));
            return Err(count_fault(&mut self.send_faults));
        }
        self.entries.push_reserved(Entry::Send(bytes.len()));
        append(&mut self.output, bytes);
        Ok(())
    }
}
