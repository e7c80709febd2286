//! An order with its two links, and the ends of a queue.
ghost use Rattle.std.specs.Prelude.{◌≡◌, ◌≢◌, ℕ, ◌<◌, ◌≤◌, vec_len, vec_capacity, MatchOption, MatchBool};
ghost use Rattle.std.specs.Vec.{vec_ptr, with_item};
ghost use Rattle.order_pool.specs.Inner.Places.{place, index_of};
ghost use Rattle.order_pool.specs.Inner.Block.{node_size, node_in, no_ends, ends_in, ends_or, IsLink, IsPast, AreNumbered, nodes_next, nodes_prev, ends_first, ends_last};

use crate::pointer::{follow, follow_mut, is_same};
use gx_base::Order;

/// An order of a queue, with links to the nodes before and after it. The link of the first or the last one leads past all nodes.
#[derive(Clone, Copy)]
pub(crate) struct Node {
    pub(crate) order: Order,
    pub(crate) prev: *mut Node,
    pub(crate) next: *mut Node,
    /// Its number in the block.
    pub(crate) slot: u32,
    /// Its queue. In a free node the number of queues.
    pub(crate) queue: u32,
}

/// Where a queue begins and ends, and how many orders it has. The links of an empty queue lead past all nodes.
#[derive(Clone, Copy)]
pub(crate) struct Ends {
    pub(crate) first: *mut Node,
    pub(crate) last: *mut Node,
    pub(crate) count: u32,
}

/// The number of the node that a link leads to, if it leads to one.
#[inline(always)]
pub(crate) fn number_of(nodes: &Vec<Node>, past: *mut Node, p: *mut Node) -> Option<u32>
    requires past { IsPast (vec_ptr nodes.now) (vec_capacity nodes.now) past }
    requires link { IsLink (vec_ptr nodes.now) (vec_capacity nodes.now) (vec_len nodes.now) p }
    requires numbered { AreNumbered nodes.now.items }
    ensures { MatchOption result (vec_capacity nodes.now ≤ index_of node_size (vec_ptr nodes.now) p) (λ k. (k < vec_len nodes.now) × (k ≡ index_of node_size (vec_ptr nodes.now) p)) }
{
    if is_same(p, past) {
        None
    } else {
        Some(follow(nodes, p).slot)
    }
}

/// Sets the link after a node. Where there is no node, it is the first of its queue.
#[inline(always)]
pub(crate) fn set_next(
    nodes: &mut Vec<Node>,
    ends: &mut Vec<Ends>,
    past: *mut Node,
    at: *mut Node,
    queue: u32,
    next: *mut Node,
)
    requires past { IsPast (vec_ptr nodes.old) (vec_capacity nodes.old) past }
    requires link { IsLink (vec_ptr nodes.old) (vec_capacity nodes.old) (vec_len nodes.old) at }
    requires queue_in { queue < vec_len ends.old }
    ensures nodes { nodes.new ≡ nodes_next nodes.old at next }
    ensures ends { ends.new ≡ ends_first nodes.old ends.old at queue next }
{
    if is_same(at, past) {
        ends[queue as usize].first = next;
    } else {
        follow_mut(nodes, at).next = next;
    }
}

/// Sets the link before a node. Where there is no node, it is the last of its queue.
#[inline(always)]
pub(crate) fn set_prev(
    nodes: &mut Vec<Node>,
    ends: &mut Vec<Ends>,
    past: *mut Node,
    at: *mut Node,
    queue: u32,
    prev: *mut Node,
)
    requires past { IsPast (vec_ptr nodes.old) (vec_capacity nodes.old) past }
    requires link { IsLink (vec_ptr nodes.old) (vec_capacity nodes.old) (vec_len nodes.old) at }
    requires queue_in { queue < vec_len ends.old }
    ensures nodes { nodes.new ≡ nodes_prev nodes.old at prev }
    ensures ends { ends.new ≡ ends_last nodes.old ends.old at queue prev }
{
    if is_same(at, past) {
        ends[queue as usize].last = prev;
    } else {
        follow_mut(nodes, at).prev = prev;
    }
}

/// Sets the links and the queue of a node.
#[inline(always)]
pub(crate) fn relink(nodes: &mut Vec<Node>, slot: u32, prev: *mut Node, next: *mut Node, queue: u32)
    requires { slot < vec_len nodes.old }
    ensures { nodes.new ≡ with_item nodes.old slot (record (node_in nodes.old.items slot) { prev = prev; next = next; queue = queue }) }
{
    let node = &mut nodes[slot as usize];
    node.prev = prev;
    node.next = next;
    node.queue = queue;
}

/// Sets the last node of a queue.
#[inline(always)]
pub(crate) fn set_last(ends: &mut Vec<Ends>, queue: u32, last: *mut Node)
    requires { queue < vec_len ends.old }
    ensures { ends.new ≡ with_item ends.old queue (record (ends_in ends.old.items queue) { last = last }) }
{
    ends[queue as usize].last = last;
}

/// Ends of empty queues come after those that are there, up to a queue.
#[cold]
#[inline(never)]
pub(crate) fn write_ends(ends: &mut Vec<Ends>, past: *mut Node, end: u32)
    requires room { end ≤ vec_capacity ends.old }
    requires fewer { vec_len ends.old ≤ end }
    ensures same { (q : ℕ) → ends_or (no_ends past) ends.new.items q ≡ ends_or (no_ends past) ends.old.items q }
    ensures long { vec_len ends.new ≡ end }
    ensures capacity { vec_capacity ends.new ≡ vec_capacity ends.old }
{
    let written = ends.len() as u32;
    for _queue in written..end {
        ends.push_reserved(Ends {
            first: past,
            last: past,
            count: 0,
        });
    }
}
