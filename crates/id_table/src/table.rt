//! The table.
ghost use Rattle.std.specs.Prelude.{◌≡◌, ◌<◌, ◌≤◌, ◌≢◌, None, Some, IfOk};
ghost use Rattle.std.specs.FinMap as map;
ghost use Rattle.gx_base.specs.declared.order.Slot.{Slot as SlotValue};
ghost use Rattle.id_table.specs.Ids.{key, empty_ids, with_slots};

use crate::forest::Forest;
use crate::free::take_free;
use crate::node::Entry;
use gx_base::{ShortId, Slot};
use std::alloc::{AllocError, Global};
use std::marker::Model;

/// A map from a firm and an id to a slot, for a number of ids that is fixed at the start. Contracts see it as a finite
/// map, with that number.
#[derive(Drop)]
pub struct IdTable {
    forest: Forest,
    /// The nodes that had an id and have none now.
    free: Vec<u32>,
    live: u32,
}

impl Model for IdTable {
    ghost use Rattle.id_table.specs.Ids.{Ids, ids_code};

    ghost Value = { Ids };

    ghost coded = { ids_code };

    ghost use Rattle.std.specs.Prelude.{vec_capacity};
    ghost use Rattle.id_table.specs.Inner.Nodes.{slots_of};
    ghost use Rattle.id_table.specs.Inner.Kept.{IsKept, HasRoom};

    ghost view = { λ t. record { capacity = t.forest.capacity; slots = slots_of t.forest.nodes.items } };

    ghost invariant = { λ t. IsKept t.forest t.free.items t.live × HasRoom t.forest (vec_capacity t.free) };
}

impl IdTable {
    /// An empty table for so many ids. An `Err` is want of memory: it takes 56 bytes for each of them, and 4 more, in three
    /// pieces. That is all the memory: no call changes how much a part has room for.
    pub fn new(alloc: Global, capacity: u32) -> Result<IdTable, AllocError>
        ensures { IfOk result (λ t. t ≡ empty_ids capacity) }
    {
        Ok(IdTable {
            forest: Forest::new(alloc, capacity)?,
            free: Vec::with_capacity(alloc, capacity as usize)?,
            live: 0,
        })
    }

    /// The greatest number of ids.
    pub fn capacity(&self) -> u32
        ensures { result ≡ self.now.capacity }
    {
        self.forest.capacity
    }

    /// How many ids there are.
    pub fn len(&self) -> u32
        ensures count { result ≡ map.len self.now.slots }
        ensures few { result ≤ self.now.capacity }
    {
        self.live
    }

    /// The slot of an id. `None` exactly where the firm has no such id here.
    pub fn find(&self, firm: u8, id: &ShortId) -> Option<Slot>
        ensures { result ≡ map.get self.now.slots (key firm id.now) }
    {
        self.forest.find(firm, id)
    }

    /// Gives an id that is not here a slot.
    pub fn insert(&mut self, firm: u8, id: ShortId, slot: Slot)
        requires room { map.len self.old.slots < self.old.capacity }
        requires absent { map.get self.old.slots (key firm id) ≡ None }
        ensures { self.new ≡ with_slots (map.insert self.old.slots (key firm id) slot) self.old }
    {
        let at = take_free(&mut self.free, &mut self.forest.nodes);
        let entry = Entry {
            id,
            slot,
            firm,
            is_live: true,
        };
        self.forest.put(at, entry);
        self.live += 1;
    }

    /// Takes an id out.
    pub fn remove(&mut self, firm: u8, id: &ShortId)
        requires { map.get self.old.slots (key firm id.now) ≢ None }
        ensures { self.new ≡ with_slots (map.remove self.old.slots (key firm id.now)) self.old }
    {
        if let Some(taken) = self.forest.take(firm, id) {
            self.free.push_reserved(taken.at);
            self.live -= 1;
        }
    }

    /// Gives the slot of an id to another id of the same firm, which is not here.
    pub fn rename(&mut self, firm: u8, old: &ShortId, new: ShortId)
        requires present { map.get self.old.slots (key firm old.now) ≢ None }
        requires absent { map.get self.old.slots (key firm new) ≡ None }
        ensures { (slot : SlotValue) → map.get self.old.slots (key firm old.now) ≡ Some slot
            → self.new ≡ with_slots (map.insert (map.remove self.old.slots (key firm old.now)) (key firm new) slot) self.old }
    {
        if let Some(taken) = self.forest.take(firm, old) {
            let entry = Entry {
                id: new,
                slot: taken.slot,
                firm,
                is_live: true,
            };
            self.forest.put(taken.at, entry);
        }
    }
}
