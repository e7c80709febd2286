//! The pool: queues of orders in one block.
ghost use Rattle.std.specs.Prelude.{◌≡◌, ℕ, ◌+◌, ◌*◌, ◌<◌, List, length, option_map, IfSome, IfOk, IsTrue, ◌↔◌, map};
ghost use Rattle.order_pool.specs.Queues.{slot_number, empty_queues, order_of, first_slot, next_slot, IsIn, IsLive, entries_at, removed, appended, live_of, with_entry, opened, rested, with_share, SlotsDiffer};
ghost use Rattle.order_pool.specs.Inner.Rings.{IsPool, HasTaken, HasPut, coming};

use crate::block::Block;
use gx_base::{Order, Slot};
use std::alloc::{AllocError, Global};
use std::marker::Model;

/// A number of queues, with room for a number of orders in all of them together; both are fixed at the start. Contracts see
/// each queue as a list of slots with their orders. A slot is the name of an order from its `push_back` to its `unlink`.
/// Each call takes constant time, but for a `push_back` to a queue above all that ever had an order, which writes the ends between.
/// No call changes how much its block has room for.
#[derive(Drop)]
pub struct Pool {
    block: Block,
}

impl Model for Pool {
    ghost use Rattle.std.specs.Prelude.{ℕ, List};
    ghost use Rattle.order_pool.specs.Queues.{Queues};
    ghost use Rattle.order_pool.specs.Inner.Rings.{queues_in, IsPool};

    ghost Value = { Queues };

    ghost view = { λ p. queues_in p.block };

    ghost invariant = { λ p. (free : List ℕ) × IsPool p.block free };
}

impl Pool {
    /// Empty queues, so many, with room for so many orders. An `Err` is want of memory, also where there are 2 to the power of 31
    /// nodes or queues, or more. It takes all the memory, and writes none of it: for each order the bytes of an `Order` and 24 more,
    /// and 24 for each queue. It is written as orders come and as queues have their first.
    pub fn new(alloc: Global, nodes: u32, queues: u32) -> Result<Pool, AllocError>
        ensures { IfOk result (λ p. p ≡ empty_queues nodes queues) }
    {
        if nodes >= 1 << 31 || queues >= 1 << 31 {
            return Err(AllocError);
        }
        Ok(Pool {
            block: Block::new(alloc, nodes, queues)?,
        })
    }

    /// The greatest number of orders.
    pub fn capacity(&self) -> u32
        ensures { result ≡ self.now.capacity }
    {
        self.block.slots()
    }

    /// How many queues there are.
    pub fn queues(&self) -> u32
        ensures { result ≡ length self.now.queues }
    {
        self.block.queues()
    }

    /// Does nothing. Its clause is what is true of every pool at every moment: no slot is in two places.
    pub fn rules(&self)
        ensures { SlotsDiffer self.now }
    {
        let _ = &self.block;
    }
}

/// What is read.
impl Pool {
    /// The first slot of a queue. `None` exactly where the queue is empty.
    pub fn first(&self, queue: u32) -> Option<Slot>
        requires { queue < length self.now.queues }
        ensures value { option_map slot_number result ≡ first_slot (entries_at self.now.queues queue) }
        ensures live { IfSome result (λ s. IsIn self.now (slot_number s) queue) }
    {
        if let Some(first) = self.block.first(queue) {
            Some(Slot(first))
        } else {
            None
        }
    }

    /// The slot after this one in its queue. `None` exactly where it is the last.
    pub fn next(&self, slot: Slot) -> Option<Slot>
        requires { IsLive self.now (slot_number slot) }
        ensures value { (q : ℕ) → IsIn self.now (slot_number slot) q
            → option_map slot_number result ≡ next_slot (slot_number slot) (entries_at self.now.queues q) }
        ensures live { (q : ℕ) → IsIn self.now (slot_number slot) q → IfSome result (λ s. IsIn self.now (slot_number s) q) }
    {
        if let Some(next) = self.block.next(slot.0) {
            Some(Slot(next))
        } else {
            None
        }
    }

    /// The order of a slot.
    pub fn order(&self, slot: Slot) -> &Order
        requires { IsLive self.now (slot_number slot) }
        ensures { (q : ℕ) → IsIn self.now (slot_number slot) q → result.now ≡ order_of (slot_number slot) (entries_at self.now.queues q) }
    {
        self.block.order(slot.0)
    }

    /// The number of the queue of a slot.
    pub fn queue_of(&self, slot: Slot) -> u32
        requires { IsLive self.now (slot_number slot) }
        ensures { IsIn self.now (slot_number slot) result }
    {
        self.block.queue(slot.0)
    }

    /// How many orders a queue has.
    pub fn len(&self, queue: u32) -> u32
        requires { queue < length self.now.queues }
        ensures { result ≡ length (entries_at self.now.queues queue) }
    {
        self.block.count(queue)
    }

    /// How many orders all queues have together.
    pub fn live(&self) -> u32
        ensures { result ≡ live_of self.now }
    {
        self.block.lent() - self.block.freed()
    }

    /// Whether the slot is in a queue.
    pub fn is_live(&self, slot: Slot) -> bool
        ensures { IsTrue result ↔ IsLive self.now (slot_number slot) }
    {
        slot.0 < self.block.lent() && self.block.queue(slot.0) < self.block.queues()
    }
}

/// What is changed. What a call does not name stays as it was.
impl Pool {
    /// Puts an order at the end of a queue, under a slot that is in no queue.
    pub fn push_back(&mut self, queue: u32, order: &Order) -> Slot
        requires queue_in { queue < length self.old.queues }
        requires room { live_of self.old < self.old.capacity }
        ensures fresh { IsLive self.old (slot_number result) → ⊥ }
        ensures queues { self.new ≡ record self.old { queues = appended queue (slot_number result, order.now) self.old.queues } }
        ensures live { live_of self.new ≡ live_of self.old + 1 }
        ensures placed { IsIn self.new (slot_number result) queue }
    {
        self.push(queue, order, None)
    }

    /// The same of an order that comes to rest: it is a limit order without a minimum there, and so much of it is shown.
    pub fn push_rested(&mut self, queue: u32, order: &Order, shown: u32) -> Slot
        requires queue_in { queue < length self.old.queues }
        requires room { live_of self.old < self.old.capacity }
        ensures fresh { IsLive self.old (slot_number result) → ⊥ }
        ensures queues { self.new ≡ record self.old { queues = appended queue (slot_number result, rested shown order.now) self.old.queues } }
        ensures live { live_of self.new ≡ live_of self.old + 1 }
        ensures placed { IsIn self.new (slot_number result) queue }
    {
        self.push(queue, order, Some(shown))
    }

    /// Puts an order at the end of a queue as it is, or to rest.
    #[inline(always)]
    fn push(&mut self, queue: u32, order: &Order, shown: Option<u32>) -> Slot
        requires queue_in { queue < length self.old.queues }
        requires room { live_of self.old < self.old.capacity }
        ensures fresh { IsLive self.old (slot_number result) → ⊥ }
        ensures queues { self.new ≡ record self.old { queues = appended queue (slot_number result, coming shown order.now) self.old.queues } }
        ensures live { live_of self.new ≡ live_of self.old + 1 }
        ensures placed { IsIn self.new (slot_number result) queue }
    {
        Slot(put_at_end(&mut self.block, queue, order, shown))
    }

    /// Takes an order out of its queue. From then on its slot is in none.
    pub fn unlink(&mut self, slot: Slot)
        requires { IsLive self.old (slot_number slot) }
        ensures queues { self.new ≡ record self.old { queues = removed (slot_number slot) self.old.queues } }
        ensures live { live_of self.new + 1 ≡ live_of self.old }
        ensures room { live_of self.new < self.new.capacity }
    {
        let queue = self.block.queue(slot.0);
        self.block.detach(slot.0);
        self.block.leave(slot.0);
        self.block.lower(queue);
    }

    /// Puts an order at the end of its queue. It keeps its slot.
    pub fn to_back(&mut self, slot: Slot)
        requires { IsLive self.old (slot_number slot) }
        ensures queues { (q : ℕ) → IsIn self.old (slot_number slot) q
            → self.new ≡ record self.old {
              queues = appended q (slot_number slot, order_of (slot_number slot) (entries_at self.old.queues q))
                  (removed (slot_number slot) self.old.queues);
            } }
        ensures live { live_of self.new ≡ live_of self.old }
    {
        let queue = self.block.queue(slot.0);
        self.block.detach(slot.0);
        self.block.attach(slot.0, queue);
    }

    /// Gives a slot another order. It keeps its place.
    pub fn set(&mut self, slot: Slot, order: &Order)
        requires { IsLive self.old (slot_number slot) }
        ensures queues { self.new ≡ record self.old { queues = map (with_entry (slot_number slot) order.now) self.old.queues } }
        ensures live { live_of self.new ≡ live_of self.old }
    {
        self.block.set_order(slot.0, order);
    }

    /// Sets what is filled, open and shown of the order of a slot. It keeps its place, and is not copied.
    pub fn set_open(&mut self, slot: Slot, filled: u32, leaves: u32, shown: u32)
        requires { IsLive self.old (slot_number slot) }
        ensures queues { (q : ℕ) → IsIn self.old (slot_number slot) q
            → self.new ≡ record self.old {
              queues = map (with_entry (slot_number slot) (opened filled leaves shown (order_of (slot_number slot) (entries_at self.old.queues q)))) self.old.queues;
            } }
        ensures live { live_of self.new ≡ live_of self.old }
    {
        self.block.set_open(slot.0, filled, leaves, shown);
    }

    /// Sets the share that a pro rata step gives the order of a slot. It keeps its place, and is not copied.
    pub fn set_prorated(&mut self, slot: Slot, share: u32)
        requires { IsLive self.old (slot_number slot) }
        ensures queues { (q : ℕ) → IsIn self.old (slot_number slot) q
            → self.new ≡ record self.old {
              queues = map (with_entry (slot_number slot) (with_share share (order_of (slot_number slot) (entries_at self.old.queues q)))) self.old.queues;
            } }
        ensures live { live_of self.new ≡ live_of self.old }
    {
        self.block.set_prorated(slot.0, share);
    }
}

/// Gives an order the free slot that became free last, or else one that was never lent. One of these there has to be.
#[inline(always)]
fn take_slot(block: &mut Block, order: &Order) -> u32
    requires pool { (free : List ℕ) × IsPool block.old free }
    requires some { block.old.lent < block.old.slots + block.old.freed }
    ensures taken { (free : List ℕ) × HasTaken block.old block.new free result order.now }
    ensures newest { 0 < block.old.freed → result ≡ block.old.free }
{
    if block.freed() > 0 {
        block.take(order)
    } else {
        block.lend(order)
    }
}

/// The same of an order that comes as it is, or to rest.
#[inline(always)]
fn take_slot_for(block: &mut Block, order: &Order, shown: Option<u32>) -> u32
    requires pool { (free : List ℕ) × IsPool block.old free }
    requires some { block.old.lent < block.old.slots + block.old.freed }
    ensures { (free : List ℕ) × HasTaken block.old block.new free result (coming shown order.now) }
{
    let slot = take_slot(block, order);
    if let Some(shown) = shown {
        block.set_rested(slot, shown);
    }
    slot
}

/// Whether an order can come to a queue without more memory than was ever used.
#[inline(always)]
fn is_ready(block: &Block, queue: u32) -> bool
    requires { queue < block.now.queues }
    ensures { IsTrue result → queue < block.now.used }
{
    block.freed() > 0 && block.is_open(queue)
}

/// Puts an order at the end of a queue whose ends are written.
#[inline(always)]
fn put(block: &mut Block, queue: u32, order: &Order, shown: Option<u32>) -> u32
    requires pool { (free : List ℕ) × IsPool block.old free }
    requires some { block.old.lent < block.old.slots + block.old.freed }
    requires queue_in { queue < block.old.queues }
    requires opened { queue < block.old.used }
    ensures { (free : List ℕ) × HasPut block.old block.new free queue (coming shown order.now) result }
{
    let slot = take_slot_for(block, order, shown);
    block.attach(slot, queue);
    block.raise(queue);
    slot
}

/// Writes the ends of a queue, and puts an order there. A function of its own, so that `push` has to keep nothing across a call.
#[cold]
#[inline(never)]
fn open_and_put(block: &mut Block, queue: u32, order: &Order, shown: Option<u32>) -> u32
    requires pool { (free : List ℕ) × IsPool block.old free }
    requires some { block.old.lent < block.old.slots + block.old.freed }
    requires queue_in { queue < block.old.queues }
    ensures { (free : List ℕ) × HasPut block.old block.new free queue (coming shown order.now) result }
{
    block.open(queue);
    put(block, queue, order, shown)
}

/// Puts an order at the end of a queue, whose ends are written first if they never were.
#[inline(always)]
fn put_at_end(block: &mut Block, queue: u32, order: &Order, shown: Option<u32>) -> u32
    requires pool { (free : List ℕ) × IsPool block.old free }
    requires some { block.old.lent < block.old.slots + block.old.freed }
    requires queue_in { queue < block.old.queues }
    ensures { (free : List ℕ) × HasPut block.old block.new free queue (coming shown order.now) result }
{
    if is_ready(block, queue) {
        put(block, queue, order, shown)
    } else {
        open_and_put(block, queue, order, shown)
    }
}
