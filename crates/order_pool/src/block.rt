//! One block of nodes, whose links are raw pointers, and the ends of queues. A contract sees one list of cells, whose links are numbers.
ghost use Rattle.std.specs.Prelude.{◌≡◌, ℕ, ◌+◌, ◌-◌, ◌*◌, ◌<◌, ◌≤◌, ◌^◌, slice_index, slice_set, IfOk, IsTrue};
ghost use Rattle.order_pool.specs.Queues.{opened, rested, with_share};
ghost use Rattle.order_pool.specs.Inner.Block.{cell_at, new_block, with_order, detached, attached, IsUsed, IsAmong, HasLeft, HasFree, HasOpened, IsLead};

use crate::node::{Ends, Node, number_of, relink, set_last, set_next, set_prev, write_ends};
use crate::pointer::{follow_mut, pointer_to};
use gx_base::{Kind, Order};
use std::alloc::{AllocError, Global};
use std::marker::Model;

/// The ends of how many queues are written at once, so that an order which comes seldom waits for it.
const ENDS_AT_ONCE: u32 = 64;

/// The orders of all queues, each with its links. A slot takes no memory before its first order, and the ends of queues none before
/// a queue at their number, or above, has one. Contracts see a cell for each slot and then one for each queue, used or not.
#[derive(Drop)]
pub(crate) struct Block {
    nodes: Vec<Node>,
    ends: Vec<Ends>,
    /// Past the last node that there is room for. A link that leads to no node leads there.
    past: *mut Node,
    /// The node that became free last, where there is a free one. The link after a free node leads to the one that became free before it.
    free: *mut Node,
    /// How many nodes are free.
    freed: u32,
    slots: u32,
    queues: u32,
}

impl Model for Block {
    ghost use Rattle.order_pool.specs.Inner.Block.{Cells, cells_in, IsBlock};

    ghost Value = { Cells };

    ghost view = { λ b. cells_in b.slots b.queues b.free b.freed b.nodes b.ends };

    ghost invariant = { λ b. IsBlock b.slots b.queues b.past b.free b.nodes b.ends };
}

/// What is read.
impl Block {
    /// No slot is lent, and each queue is empty. The memory of all is taken, and none is written.
    pub(crate) fn new(alloc: Global, slots: u32, queues: u32) -> Result<Block, AllocError>
        requires slots { 2 * slots < 2 ^ 32 }
        requires queues { 2 * queues < 2 ^ 32 }
        ensures { IfOk result (λ b. b ≡ new_block slots queues) }
    {
        let nodes = Vec::with_capacity(alloc, slots as usize)?;
        let past = pointer_to(&nodes, slots as usize);
        Ok(Block {
            nodes,
            ends: Vec::with_capacity(alloc, queues as usize)?,
            past,
            free: past,
            freed: 0,
            slots,
            queues,
        })
    }

    /// How many slots there are.
    pub(crate) fn slots(&self) -> u32
        ensures { result ≡ self.now.slots }
    {
        self.slots
    }

    /// How many queues there are.
    pub(crate) fn queues(&self) -> u32
        ensures { result ≡ self.now.queues }
    {
        self.queues
    }

    /// How many slots were ever lent. They are those below this number.
    pub(crate) fn lent(&self) -> u32
        ensures { result ≡ self.now.lent }
    {
        self.nodes.len() as u32
    }

    /// How many slots are free of those that were ever lent.
    pub(crate) fn freed(&self) -> u32
        ensures { result ≡ self.now.freed }
    {
        self.freed
    }

    /// Whether the ends of a queue are written.
    #[inline(always)]
    pub(crate) fn is_open(&self, queue: u32) -> bool
        requires { queue < self.now.queues }
        ensures { IsTrue result → queue < self.now.used }
    {
        (queue as usize) < self.ends.len()
    }

    /// The order of a slot.
    pub(crate) fn order(&self, slot: u32) -> &Order
        requires { slot < self.now.lent }
        ensures { result.now ≡ (cell_at self.now.cells slot).order }
    {
        &self.nodes[slot as usize].order
    }

    /// The queue of a slot.
    pub(crate) fn queue(&self, slot: u32) -> u32
        requires { slot < self.now.lent }
        ensures { result ≡ (cell_at self.now.cells slot).queue }
    {
        self.nodes[slot as usize].queue
    }

    /// The slot after another one. `None` where it is the last of its queue.
    pub(crate) fn next(&self, slot: u32) -> Option<u32>
        requires { slot < self.now.lent }
        ensures { IsLead self.now.slots result (cell_at self.now.cells slot).next }
    {
        number_of(&self.nodes, self.past, self.nodes[slot as usize].next)
    }

    /// The first slot of a queue. `None` where the queue is empty.
    pub(crate) fn first(&self, queue: u32) -> Option<u32>
        requires { queue < self.now.queues }
        ensures { IsLead self.now.slots result (cell_at self.now.cells (self.now.slots + queue)).next }
    {
        if (queue as usize) < self.ends.len() {
            number_of(&self.nodes, self.past, self.ends[queue as usize].first)
        } else {
            None
        }
    }

    /// How many orders a queue has.
    pub(crate) fn count(&self, queue: u32) -> u32
        requires { queue < self.now.queues }
        ensures { result ≡ slice_index self.now.counts queue }
    {
        if (queue as usize) < self.ends.len() {
            self.ends[queue as usize].count
        } else {
            0
        }
    }
}

/// The ends of how many queues there are to be once those of this one are wanted, of so many.
fn ends_past(queue: u32, all: u32) -> u32
    requires { queue < all }
    ensures more { queue < result }
    ensures within { result ≤ all }
{
    if all - queue > ENDS_AT_ONCE {
        queue + ENDS_AT_ONCE
    } else {
        all
    }
}

/// What is changed.
impl Block {
    /// Joins the neighbours of a slot, whose own links stay.
    pub(crate) fn detach(&mut self, slot: u32)
        requires { IsAmong self.old slot }
        ensures { self.new ≡ record self.old { cells = detached self.old.cells slot } }
    {
        let node = &self.nodes[slot as usize];
        let (prev, next, queue) = (node.prev, node.next, node.queue);
        let past = self.past;
        set_next(&mut self.nodes, &mut self.ends, past, prev, queue, next);
        set_prev(&mut self.nodes, &mut self.ends, past, next, queue, prev);
    }

    /// Puts a slot at the end of a queue.
    pub(crate) fn attach(&mut self, slot: u32, queue: u32)
        requires slot_in { slot < self.old.lent }
        requires queue_in { IsUsed self.old queue }
        ensures { self.new ≡ record self.old { cells = attached self.old.cells slot (self.old.slots + queue) queue } }
    {
        let here = pointer_to(&self.nodes, slot as usize);
        let last = self.ends[queue as usize].last;
        let past = self.past;
        set_next(&mut self.nodes, &mut self.ends, past, last, queue, here);
        relink(&mut self.nodes, slot, last, past, queue);
        set_last(&mut self.ends, queue, here);
    }

    /// Puts a slot before the free ones. It is in no queue.
    pub(crate) fn leave(&mut self, slot: u32)
        requires slot_in { slot < self.old.lent }
        requires fits { self.old.freed < self.old.lent }
        ensures { HasLeft self.old self.new slot }
    {
        let here = pointer_to(&self.nodes, slot as usize);
        let node = &mut self.nodes[slot as usize];
        node.next = self.free;
        node.queue = self.queues;
        self.free = here;
        self.freed += 1;
    }

    /// Gives the slot that became free last an order. It is no longer free, and in no queue.
    pub(crate) fn take(&mut self, order: &Order) -> u32
        requires { HasFree self.old }
        ensures slot { result ≡ self.old.free }
        ensures block { self.new ≡ record self.old {
          cells = with_order self.old.cells self.old.free order.now;
          free = (cell_at self.old.cells self.old.free).next;
          freed = self.old.freed - 1;
        } }
    {
        let node = follow_mut(&mut self.nodes, self.free);
        node.order = *order;
        let slot = node.slot;
        self.free = node.next;
        self.freed -= 1;
        slot
    }

    /// Sets the order of a slot.
    pub(crate) fn set_order(&mut self, slot: u32, order: &Order)
        requires { slot < self.old.lent }
        ensures { self.new ≡ record self.old { cells = with_order self.old.cells slot order.now } }
    {
        self.nodes[slot as usize].order = *order;
    }

    /// Sets what is filled, open and shown of the order of a slot, where it is.
    pub(crate) fn set_open(&mut self, slot: u32, filled: u32, leaves: u32, shown: u32)
        requires { slot < self.old.lent }
        ensures { self.new ≡ record self.old { cells = with_order self.old.cells slot (opened filled leaves shown (cell_at self.old.cells slot).order) } }
    {
        let order = &mut self.nodes[slot as usize].order;
        order.filled = filled;
        order.leaves = leaves;
        order.shown = shown;
    }

    /// Makes the order of a slot a limit order without a minimum, of which so much is shown, where it is.
    pub(crate) fn set_rested(&mut self, slot: u32, shown: u32)
        requires { slot < self.old.lent }
        ensures { self.new ≡ record self.old { cells = with_order self.old.cells slot (rested shown (cell_at self.old.cells slot).order) } }
    {
        let order = &mut self.nodes[slot as usize].order;
        order.kind = Kind::Limit;
        order.min = 0;
        order.shown = shown;
    }

    /// Sets the pro rata share of the order of a slot, where it is.
    pub(crate) fn set_prorated(&mut self, slot: u32, share: u32)
        requires { slot < self.old.lent }
        ensures { self.new ≡ record self.old { cells = with_order self.old.cells slot (with_share share (cell_at self.old.cells slot).order) } }
    {
        self.nodes[slot as usize].order.prorated = share;
    }

    /// One order more in a queue.
    pub(crate) fn raise(&mut self, queue: u32)
        requires queue_in { IsUsed self.old queue }
        requires fits { slice_index self.old.counts queue + 1 < 2 ^ 32 }
        ensures { self.new ≡ record self.old { counts = slice_set self.old.counts queue (slice_index self.old.counts queue + 1) } }
    {
        self.ends[queue as usize].count += 1;
    }

    /// One order less in a queue.
    pub(crate) fn lower(&mut self, queue: u32)
        requires queue_in { queue < self.old.queues }
        requires some { 0 < slice_index self.old.counts queue }
        ensures { self.new ≡ record self.old { counts = slice_set self.old.counts queue (slice_index self.old.counts queue - 1) } }
    {
        self.ends[queue as usize].count -= 1;
    }

    /// Sees to it that the ends of a queue are written.
    #[inline(always)]
    pub(crate) fn open(&mut self, queue: u32)
        requires { queue < self.old.queues }
        ensures { HasOpened self.old self.new queue }
    {
        if self.ends.len() <= queue as usize {
            let end = ends_past(queue, self.queues);
            write_ends(&mut self.ends, self.past, end);
        }
    }

    /// Gives the next slot that was never lent an order. It is in no queue.
    pub(crate) fn lend(&mut self, order: &Order) -> u32
        requires { self.old.lent < self.old.slots }
        ensures slot { result ≡ self.old.lent }
        ensures block { self.new ≡ record self.old { lent = self.old.lent + 1; cells = with_order self.old.cells self.old.lent order.now } }
    {
        let slot = self.lent();
        self.nodes.push_reserved(Node {
            order: *order,
            prev: self.past,
            next: self.past,
            slot,
            queue: self.queues,
        });
        slot
    }
}
