//! The buckets, each with a tree of the ids whose hash leads there.
//!
//! Each node has one id. An id below it stands on the side that its bit at the depth of the node says, so all ids below a node
//! have the way to it in common. A way is no longer than a key has bits, but for the few keys whose bits are all the same: a
//! firm that chooses its ids so that they meet makes a search long, but not longer than that.
ghost use Rattle.std.specs.Prelude.{◌≡◌, ◌≢◌, ◌<◌, ◌+◌, ◌*◌, ℕ, [], true, false, None, Some, IfOk, MatchOption, replicate, vec_len, vec_capacity};
ghost use Rattle.std.specs.FinMap as map;
ghost use Rattle.id_table.specs.Ids.{key};
ghost use Rattle.id_table.specs.Inner.Nodes.{nowhere, key_of, is_live_at, slots_of};
ghost use Rattle.id_table.specs.Inner.Places.{IsWithin, IsLinked};
ghost use Rattle.id_table.specs.Inner.Forests.{IsForest, IsSpot, IsOwnSpot, IsLeafBelow, IsTaken, HasSameRoom};

use crate::hash::home_of;
use crate::node::{Entry, NOWHERE, Node, is_end, is_leaf, move_entry, set_entry};
use crate::spot::{Place, Spot, next_spot};
use crate::way::is_high;
use gx_base::{ShortId, Slot};
use std::alloc::{AllocError, Global};

/// Trees of nodes in one row, whose links are places in the row.
#[derive(Drop)]
pub(crate) struct Forest {
    /// For each bucket a link to the root of its tree.
    pub buckets: Vec<u32>,
    /// The nodes that have had an id, with room for one for each id.
    pub nodes: Vec<Node>,
    /// How many ids there is room for. There are twice as many buckets, and one.
    pub capacity: u32,
}

/// What is left of an id that was taken out.
#[derive(Clone, Copy)]
pub(crate) struct Taken {
    /// The node that is free now.
    pub at: u32,
    pub slot: Slot,
}

/// So many empty buckets, with room for no more.
fn empty_buckets(alloc: Global, count: usize) -> Result<Vec<u32>, AllocError>
    ensures items { IfOk result (λ buckets. buckets.items ≡ replicate count nowhere) }
    ensures room { IfOk result (λ buckets. vec_capacity buckets ≡ count) }
{
    let mut buckets = Vec::with_capacity(alloc, count)?;
    for _ in 0..count {
        buckets.push_reserved(NOWHERE);
    }
    Ok(buckets)
}

impl Forest {
    /// Empty buckets, with room for so many ids.
    pub(crate) fn new(alloc: Global, capacity: u32) -> Result<Forest, AllocError>
        ensures forest { IfOk result (λ f. IsForest f) }
        ensures nodes { IfOk result (λ f. f.nodes.items ≡ []) }
        ensures capacity { IfOk result (λ f. f.capacity ≡ capacity) }
        ensures buckets_room { IfOk result (λ f. vec_capacity f.buckets ≡ 2 * capacity + 1) }
        ensures nodes_room { IfOk result (λ f. vec_capacity f.nodes ≡ capacity) }
    {
        Ok(Forest {
            buckets: empty_buckets(alloc, 2 * capacity as usize + 1)?,
            nodes: Vec::with_capacity(alloc, capacity as usize)?,
            capacity,
        })
    }

    /// Where the way of an id ends: at a link to the node that has it, or else at one that leads nowhere. In each caller, so that
    /// `find` does not keep the places that it passes.
    #[inline(always)]
    fn spot_of(&self, firm: u8, id: &ShortId) -> Spot
        requires { IsForest self.now }
        ensures { IsSpot self.now (key firm id.now) result }
    {
        let home = home_of(self.capacity, firm, id);
        let mut spot = Spot {
            place: Place::Bucket(home),
            link: self.buckets[home],
            depth: 0,
        };
        while !is_end(&self.nodes, spot.link, firm, id) {
            spot = next_spot(&self.nodes, spot, is_high(spot.depth, firm, id));
        }
        spot
    }

    /// The slot of an id. `None` exactly where no bucket has it.
    #[inline]
    pub(crate) fn find(&self, firm: u8, id: &ShortId) -> Option<Slot>
        requires { IsForest self.now }
        ensures { result ≡ map.get (slots_of self.now.nodes.items) (key firm id.now) }
    {
        let spot = self.spot_of(firm, id);
        if spot.link == NOWHERE {
            None
        } else {
            Some(self.nodes[spot.link as usize].entry.slot)
        }
    }

    /// Sets the link at a place.
    fn set_link(&mut self, place: Place, link: u32)
        requires { IsWithin self.old place }
        ensures linked { IsLinked place link self.old self.new }
        ensures room { HasSameRoom self.old self.new }
    {
        match place {
            Place::Bucket(at) => self.buckets[at] = link,
            Place::Low(at) => self.nodes[at].low = link,
            Place::High(at) => self.nodes[at].high = link,
        }
    }

    /// Puts an id that no bucket has at the end of its way, in a free node.
    pub(crate) fn put(&mut self, at: u32, entry: Entry)
        requires forest { IsForest self.old }
        requires within { at < vec_len self.old.nodes }
        requires free { is_live_at self.old.nodes.items at ≡ false }
        requires live { entry.is_live ≡ true }
        requires absent { map.get (slots_of self.old.nodes.items) (key_of entry) ≡ None }
        ensures forest { IsForest self.new }
        ensures slots { slots_of self.new.nodes.items ≡ map.insert (slots_of self.old.nodes.items) (key_of entry) entry.slot }
        ensures others { (i : ℕ) → i ≢ at → is_live_at self.new.nodes.items i ≡ is_live_at self.old.nodes.items i }
        ensures room { HasSameRoom self.old self.new }
    {
        let spot = self.spot_of(entry.firm, &entry.id);
        self.set_link(spot.place, at);
        set_entry(&mut self.nodes, at, entry);
    }

    /// A spot whose link leads to a node with nothing below it: this one, or one below it.
    fn leaf_below(&self, spot: Spot) -> Spot
        requires forest { IsForest self.now }
        requires spot { IsOwnSpot self.now spot }
        ensures { IsLeafBelow self.now spot result }
    {
        let mut leaf = spot;
        while !is_leaf(&self.nodes[leaf.link as usize]) {
            let high = self.nodes[leaf.link as usize].low == NOWHERE;
            leaf = next_spot(&self.nodes, leaf, high);
        }
        leaf
    }

    /// Takes an id out. `None` exactly where no bucket has it. A leaf below its node takes its place, since the id of each of
    /// them has the way to the node in common with it.
    pub(crate) fn take(&mut self, firm: u8, id: &ShortId) -> Option<Taken>
        requires { IsForest self.old }
        ensures forest { IsForest self.new }
        ensures slots { slots_of self.new.nodes.items ≡ map.remove (slots_of self.old.nodes.items) (key firm id.now) }
        ensures taken { MatchOption result (map.get (slots_of self.old.nodes.items) (key firm id.now) ≡ None)
            (λ t. IsTaken self.old self.new (key firm id.now) t) }
        ensures room { HasSameRoom self.old self.new }
    {
        let spot = self.spot_of(firm, id);
        if spot.link == NOWHERE {
            return None;
        }
        let slot = self.nodes[spot.link as usize].entry.slot;
        let leaf = self.leaf_below(spot);
        self.set_link(leaf.place, NOWHERE);
        move_entry(&mut self.nodes, leaf.link, spot.link);
        Some(Taken {
            at: leaf.link,
            slot,
        })
    }
}
