//! The table of ids.
use super::CALLS;
use gx_base::{ShortId, Slot};
use id_table::IdTable;
use rand::rngs::SmallRng;
use rand::{RngExt, SeedableRng};
use std::collections::BTreeMap;
use std::process::Abort;

/// An id comes, for which there has to be room, and which is not there yet.
fn insert(rt: &impl Abort, table: &mut IdTable, firm: u8, id: ShortId, slot: u32) {
    assert!(rt; table.len() < table.capacity() && table.find(firm, &id).is_none());
    table.insert(firm, id, Slot(slot));
}

/// An id that is there gets a name that is not.
fn rename(rt: &impl Abort, table: &mut IdTable, firm: u8, old: &ShortId, new: ShortId) {
    assert!(rt; table.find(firm, old).is_some() && table.find(firm, &new).is_none());
    table.rename(firm, old, new);
}

/// An id leaves that is there.
fn remove(rt: &impl Abort, table: &mut IdTable, firm: u8, id: &ShortId) {
    assert!(rt; table.find(firm, id).is_some());
    table.remove(firm, id);
}

/// Looks for this slot of an id, or for none.
fn expect_slot(rt: &impl Abort, table: &IdTable, firm: u8, id: &ShortId, slot: Option<Slot>) {
    assert_eq!(rt; table.find(firm, id), slot);
}

#[test]
fn ids_after_a_few_calls(rt: HostRuntime) {
    let x = ShortId::new(b"x").expect(&rt, "an id");
    let y = ShortId::new(b"y").expect(&rt, "an id");
    let mut table = IdTable::new(rt.alloc(), 2).expect(&rt, "memory");
    insert(&rt, &mut table, 0, x, 7);
    insert(&rt, &mut table, 1, x, 3);
    rename(&rt, &mut table, 0, &x, y);
    remove(&rt, &mut table, 1, &x);
    expect_slot(&rt, &table, 0, &x, None);
    expect_slot(&rt, &table, 1, &x, None);
    expect_slot(&rt, &table, 0, &y, Some(Slot(7)));
    assert_eq!(rt; table.len(), 1);
}

/// An id of 19 digits, as clients count them.
fn id_of(rt: &(impl Abort + AllocGlobal), number: u32) -> ShortId {
    let text = format!(in rt.alloc(); "{number:019}").expect(rt, "memory");
    ShortId::new(text.as_bytes()).expect(rt, "an id")
}

/// Three ids come, the first one leaves, and the second one takes its name.
fn first_of_three_leaves(rt: &(impl Abort + AllocGlobal), x: ShortId, y: ShortId, z: ShortId) {
    let mut table = IdTable::new(rt.alloc(), 3).expect(rt, "memory");
    insert(rt, &mut table, 0, x, 1);
    insert(rt, &mut table, 0, y, 2);
    insert(rt, &mut table, 0, z, 3);
    expect_slot(rt, &table, 0, &x, Some(Slot(1)));
    remove(rt, &mut table, 0, &x);
    expect_slot(rt, &table, 0, &y, Some(Slot(2)));
    expect_slot(rt, &table, 0, &z, Some(Slot(3)));
    rename(rt, &mut table, 0, &y, x);
    expect_slot(rt, &table, 0, &x, Some(Slot(2)));
    expect_slot(rt, &table, 0, &y, None);
    expect_slot(rt, &table, 0, &z, Some(Slot(3)));
}

/// Each three of sixteen ids, in each order. A table for three has few buckets, so some of them meet in one, where the first
/// stands above the two others, on one side or on both.
#[test]
fn ids_that_meet(rt: HostRuntime) {
    for three in 0..4096 {
        let (a, b, c) = (three % 16, three / 16 % 16, three / 256);
        if a != b && b != c && c != a {
            let x = id_of(&rt, a);
            let y = id_of(&rt, b);
            let z = id_of(&rt, c);
            first_of_three_leaves(&rt, x, y, z);
        }
    }
}

#[test]
fn table_beside_a_map(rt: HostRuntime) {
    let mut pair = Pair {
        table: IdTable::new(rt.alloc(), 50).expect(&rt, "memory"),
        slots: BTreeMap::new(rt.alloc()),
    };
    let mut draws = SmallRng::seed_from_u64(1);
    for call in 0..CALLS {
        let firm = draws.random_range(0..3);
        let number = draws.random_range(0..40);
        let other = draws.random_range(0..40);
        pair.step(&rt, firm, number, other, Slot(call as u32));
    }
}

/// A table and the map that it should be. Its ids are the numbers of which they are made.
#[derive(Drop)]
struct Pair {
    table: IdTable,
    slots: BTreeMap<(u8, u32), Slot>,
}

impl Pair {
    /// One drawn call: an id that is there leaves or is renamed, and one that is not there comes.
    fn step(
        &mut self,
        rt: &(impl Abort + AllocGlobal),
        firm: u8,
        number: u32,
        other: u32,
        slot: Slot,
    ) {
        let id = id_of(rt, number);
        let new = id_of(rt, other);
        let was = self.table.find(firm, &id);
        assert_eq!(rt; was, self.slots.get(&(firm, number)).copied());
        if let Some(was) = was {
            self.slots.remove(&(firm, number));
            if self.table.find(firm, &new).is_none() {
                self.table.rename(firm, &id, new);
                let renamed: Result<_, _> = self.slots.insert((firm, other), was);
                renamed.expect(rt, "memory");
            } else {
                self.table.remove(firm, &id);
            }
        } else if self.table.len() < self.table.capacity() {
            self.table.insert(firm, id, slot);
            let added: Result<_, _> = self.slots.insert((firm, number), slot);
            added.expect(rt, "memory");
        }
        assert_eq!(rt; self.table.len() as usize, self.slots.len());
    }
}
