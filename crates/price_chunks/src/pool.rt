//! The chunks of all sides, in one block of memory. A side has the numbers of its chunks, in order.
ghost use Rattle.std.specs.Prelude.{◌≡◌, ◌+◌, ◌<◌, ◌≤◌, ◌^◌, ◌∷◌, ◌++◌, [], ℕ, length, replicate, set, take, drop, remove, sum_by, slice_index_or, vec_capacity, IfOk};
ghost use Prim.Native.Nat.{suc};
ghost use Rattle.price_chunks.specs.Steps.{AreWorstFirst, step_at, with_step, without_step, with_open};
ghost use Rattle.price_chunks.specs.Inner.Chunks.{room, half, chunk_at, IsAt};
ghost use Rattle.price_chunks.specs.Inner.Pool.{chunks_at, with_side, with_chunk, numbers_of, row_at, uses, IsTaken};

use crate::chunk::Chunk;
use crate::place::Step;
use gx_base::{Price, Side};
use std::alloc::{AllocError, Global};
use std::marker::Model;
use std::mem;

/// The chunks of all sides. Contracts see a list of chunks for each side, and for how many chunks there is room.
///
/// The memory of all chunks is taken at once, and a chunk is written when it is first in use, so room for levels that never come is
/// taken and not touched. No chunk is on two sides, or twice on one.
#[derive(Drop)]
pub(crate) struct Pool {
    /// Every chunk that was ever in use, by its number.
    chunks: Vec<Chunk>,
    /// The numbers of the chunks of each side, that with the worst prices first.
    sides: Vec<Vec<u32>>,
    /// The numbers of the chunks that were in use and are on no side.
    free: Vec<u32>,
}

impl Model for Pool {
    ghost use Rattle.std.specs.Prelude.{◌≡◌, length, vec_capacity};
    ghost use Rattle.price_chunks.specs.Inner.Pool.{SideChunks, IsPool, gather_all, numbers_of, rooms_of};

    ghost Value = { SideChunks };

    ghost view = { λ p. record { room = vec_capacity p.chunks; sides = gather_all p.chunks.items (numbers_of p.sides.items) } };

    ghost invariant = { λ p. IsPool p.chunks.items (vec_capacity p.chunks) (numbers_of p.sides.items) (rooms_of p.sides.items) p.free.items (vec_capacity p.free)
        × (vec_capacity p.sides ≡ length p.sides.items) };
}

/// The number of a chunk of a side.
fn number_of(sides: &Vec<Vec<u32>>, side_at: usize, at: usize) -> usize
    requires listed { side_at < length sides.now.items }
    requires within { at < length (row_at (numbers_of sides.now.items) side_at) }
    ensures { result ≡ slice_index_or (row_at (numbers_of sides.now.items) side_at) at 0 }
{
    sides[side_at][at] as usize
}

/// A chunk comes to a number that is free, or else to the next that was never in use. Returns the number.
fn keep(chunks: &mut Vec<Chunk>, free: &mut Vec<u32>, chunk: Chunk) -> u32
    requires fits { vec_capacity chunks.old < 2 ^ 32 }
    requires below { (k : ℕ) → length chunks.old.items ≤ k → uses k free.old.items ≡ 0 }
    requires room { length chunks.old.items < vec_capacity chunks.old + length free.old.items }
    ensures taken { IsTaken chunks.old.items chunks.new.items free.old.items free.new.items result chunk }
    ensures capacity { vec_capacity chunks.new ≡ vec_capacity chunks.old }
    ensures free_capacity { vec_capacity free.new ≡ vec_capacity free.old }
{
    if let Some(number) = free.pop() {
        chunks[number as usize] = chunk;
        return number;
    }
    let number = chunks.len() as u32;
    chunks.push_reserved(chunk);
    number
}

/// What is read.
impl Pool {
    /// How many chunks a side has.
    pub(crate) fn len(&self, side_at: usize) -> usize
        requires { side_at < length self.now.sides }
        ensures { result ≡ length (chunks_at self.now.sides side_at) }
    {
        self.sides[side_at].len()
    }

    /// A chunk of a side.
    pub(crate) fn chunk(&self, side_at: usize, at: usize) -> &Chunk
        requires listed { side_at < length self.now.sides }
        requires within { at < length (chunks_at self.now.sides side_at) }
        ensures { result.now ≡ chunk_at (chunks_at self.now.sides side_at) at }
    {
        &self.chunks[number_of(&self.sides, side_at, at)]
    }
}

/// What is changed.
impl Pool {
    /// So many sides of one chunk without levels, with room for so many chunks on all of them together. An `Err` is want of memory.
    pub(crate) fn new(alloc: Global, count: usize, room: usize) -> Result<Pool, AllocError>
        requires some { count < room }
        requires fits { room < 2 ^ 32 }
        ensures { IfOk result (λ p. p ≡ record { room = room; sides = replicate count ([] ∷ []) }) }
    {
        let free = Vec::with_capacity(alloc, room)?;
        let mut chunks = Vec::with_capacity(alloc, room)?;
        let mut sides = Vec::with_capacity(alloc, count)?;
        for number in 0..count {
            let mut numbers = Vec::with_capacity(alloc, room)?;
            numbers.push_reserved(number as u32);
            sides.push_reserved(numbers);
            chunks.push_reserved(Chunk::new());
        }
        Ok(Pool {
            chunks,
            sides,
            free,
        })
    }

    /// A level comes to its place in a chunk. Returns the place.
    pub(crate) fn put(&mut self, side_at: usize, at: usize, side: Side, step: Step) -> usize
        requires listed { side_at < length self.old.sides }
        requires within { at < length (chunks_at self.old.sides side_at) }
        requires ordered { AreWorstFirst side (chunk_at (chunks_at self.old.sides side_at) at) }
        requires room { length (chunk_at (chunks_at self.old.sides side_at) at) < room }
        ensures { self.new ≡ with_chunk self.old side_at at (with_step side step (chunk_at (chunks_at self.old.sides side_at) at)) }
    {
        self.chunks[number_of(&self.sides, side_at, at)].put(side, step)
    }

    /// A level comes to the end of a chunk. Returns its place.
    pub(crate) fn push(&mut self, side_at: usize, at: usize, step: Step) -> usize
        requires listed { side_at < length self.old.sides }
        requires within { at < length (chunks_at self.old.sides side_at) }
        requires room { length (chunk_at (chunks_at self.old.sides side_at) at) < room }
        ensures { self.new ≡ with_chunk self.old side_at at (chunk_at (chunks_at self.old.sides side_at) at ++ step ∷ []) }
    {
        self.chunks[number_of(&self.sides, side_at, at)].push(step)
    }

    /// The level at this place of a chunk goes.
    pub(crate) fn take_at(&mut self, side_at: usize, at: usize, place: usize)
        requires listed { side_at < length self.old.sides }
        requires within { at < length (chunks_at self.old.sides side_at) }
        requires here { place < length (chunk_at (chunks_at self.old.sides side_at) at) }
        ensures { self.new ≡ with_chunk self.old side_at at (remove (chunk_at (chunks_at self.old.sides side_at) at) place) }
    {
        self.chunks[number_of(&self.sides, side_at, at)].take_at(place);
    }

    /// The level at a price goes from a chunk, if there is one.
    pub(crate) fn take_out(&mut self, side_at: usize, at: usize, side: Side, price: Price)
        requires listed { side_at < length self.old.sides }
        requires within { at < length (chunks_at self.old.sides side_at) }
        requires ordered { AreWorstFirst side (chunk_at (chunks_at self.old.sides side_at) at) }
        ensures out { self.new ≡ with_chunk self.old side_at at (without_step price (chunk_at (chunks_at self.old.sides side_at) at)) }
        ensures less { length (chunk_at (chunks_at self.old.sides side_at) at) ≤ length (without_step price (chunk_at (chunks_at self.old.sides side_at) at)) + 1 }
    {
        self.chunks[number_of(&self.sides, side_at, at)].take_out(side, price);
    }

    /// So many lots are open at the level at this place of a chunk now.
    pub(crate) fn set_at(&mut self, side_at: usize, at: usize, place: usize, leaves: u64)
        requires listed { side_at < length self.old.sides }
        requires within { at < length (chunks_at self.old.sides side_at) }
        requires here { place < length (chunk_at (chunks_at self.old.sides side_at) at) }
        ensures { self.new ≡ with_chunk self.old side_at at (set (chunk_at (chunks_at self.old.sides side_at) at) place (record (step_at (chunk_at (chunks_at self.old.sides side_at) at) place) { leaves = leaves })) }
    {
        self.chunks[number_of(&self.sides, side_at, at)].set_at(place, leaves);
    }

    /// So many lots are open at a price of a chunk now, if it has a level there. Returns its place, or where it would come.
    pub(crate) fn set_lots(
        &mut self,
        side_at: usize,
        at: usize,
        side: Side,
        price: Price,
        leaves: u64,
    ) -> usize
        requires listed { side_at < length self.old.sides }
        requires within { at < length (chunks_at self.old.sides side_at) }
        requires ordered { AreWorstFirst side (chunk_at (chunks_at self.old.sides side_at) at) }
        ensures { self.new ≡ with_chunk self.old side_at at (with_open price leaves (chunk_at (chunks_at self.old.sides side_at) at)) }
    {
        self.chunks[number_of(&self.sides, side_at, at)].set_lots(side, price, leaves)
    }

    /// The back half of a chunk moves to a chunk that comes after it.
    pub(crate) fn split(&mut self, side_at: usize, at: usize)
        requires listed { side_at < length self.old.sides }
        requires within { at < length (chunks_at self.old.sides side_at) }
        requires full { half ≤ length (chunk_at (chunks_at self.old.sides side_at) at) }
        requires room { sum_by length self.old.sides < self.old.room }
        ensures { self.new ≡ with_side self.old side_at (take at (chunks_at self.old.sides side_at) ++ take half (chunk_at (chunks_at self.old.sides side_at) at) ∷ (drop half (chunk_at (chunks_at self.old.sides side_at) at) ∷ drop (suc at) (chunks_at self.old.sides side_at))) }
    {
        let back = self.chunks[number_of(&self.sides, side_at, at)].split_off();
        let number = keep(&mut self.chunks, &mut self.free, back);
        if self.sides[side_at].insert(at + 1, number).is_err() {
            unreachable!()
        }
    }

    /// The levels of the next chunk move to the end of a chunk. The next one is free from then on.
    pub(crate) fn join(&mut self, side_at: usize, at: usize)
        requires listed { side_at < length self.old.sides }
        requires within { at + 1 < length (chunks_at self.old.sides side_at) }
        requires fits { length (chunk_at (chunks_at self.old.sides side_at) at) + length (chunk_at (chunks_at self.old.sides side_at) (at + 1)) ≤ room }
        ensures { self.new ≡ with_side self.old side_at (take at (chunks_at self.old.sides side_at) ++ (chunk_at (chunks_at self.old.sides side_at) at ++ chunk_at (chunks_at self.old.sides side_at) (at + 1)) ∷ drop (suc (suc at)) (chunks_at self.old.sides side_at)) }
    {
        let number = self.sides[side_at].remove(at + 1);
        let next = mem::replace(&mut self.chunks[number as usize], Chunk::new());
        self.chunks[number_of(&self.sides, side_at, at)].append(&next);
        self.free.push_reserved(number);
    }
}
