//! The pool.
ghost use Rattle.std.specs.Prelude.{◌<◌};

use super::{CALLS, order};
use gx_base::{Order, Slot};
use order_pool::Pool;
use rand::rngs::SmallRng;
use rand::{RngExt, SeedableRng};
use std::process::Abort;

const QUEUES: u32 = 7;

/// A queue as a plain list.
type Line = Vec<(Slot, Order)>;

/// Looks for this slot, or for none.
fn expect_slot(rt: &impl Abort, got: Option<Slot>, want: Option<Slot>) {
    assert_eq!(rt; got, want);
}

/// Looks for this order.
fn expect_order(rt: &impl Abort, got: &Order, want: &Order) {
    assert_eq!(rt; *got, *want);
}

/// Looks for this number.
fn expect_number(rt: &impl Abort, got: usize, want: usize) {
    assert_eq!(rt; got, want);
}

/// An order with this number comes, for which there has to be room.
fn push_back(rt: &impl Abort, pool: &mut Pool, queue: u32, number: u64) -> Slot {
    assert!(rt; queue < pool.queues() && pool.live() < pool.capacity());
    pool.push_back(queue, &order(number))
}

/// An order leaves, which has to be live and to have this number.
fn unlink(rt: &impl Abort, pool: &mut Pool, slot: Slot, number: u64) {
    assert!(rt; pool.is_live(slot));
    expect_order(rt, pool.order(slot), &order(number));
    pool.unlink(slot);
}

/// An order goes to the back of its queue, and has to be live.
fn to_back(rt: &impl Abort, pool: &mut Pool, slot: Slot) {
    assert!(rt; pool.is_live(slot));
    pool.to_back(slot);
}

#[test]
fn queues_after_a_few_calls(rt: HostRuntime) {
    let mut pool = Pool::new(rt.alloc(), 3, 2).expect(&rt, "memory");
    let a = push_back(&rt, &mut pool, 0, 1);
    let b = push_back(&rt, &mut pool, 0, 2);
    let c = push_back(&rt, &mut pool, 0, 3);
    unlink(&rt, &mut pool, b, 2);
    let d = push_back(&rt, &mut pool, 1, 4);
    unlink(&rt, &mut pool, c, 3);
    let e = push_back(&rt, &mut pool, 0, 5);
    to_back(&rt, &mut pool, a);
    expect_queue(&rt, &pool, 0, &[(e, order(5)), (a, order(1))]);
    expect_queue(&rt, &pool, 1, &[(d, order(4))]);
    expect_number(&rt, pool.live() as usize, 3);
}

#[test]
fn pool_beside_lists(rt: HostRuntime) {
    let mut lines = Vec::new(rt.alloc());
    for _ in 0..QUEUES {
        lines.push(Vec::new(rt.alloc())).expect(&rt, "memory");
    }
    let pool = Pool::new(rt.alloc(), 60, QUEUES).expect(&rt, "memory");
    let mut pair = Pair { pool, lines };
    let mut draws = SmallRng::seed_from_u64(1);
    for call in 0..CALLS {
        let queue = draws.random_range(0..QUEUES);
        pair.step(&rt, &mut draws, queue, &order(call));
        pair.expect_equal(&rt, queue);
    }
}

/// A queue has just these entries, in this order, and so say all calls that read.
fn expect_queue(rt: &impl Abort, pool: &Pool, queue: u32, line: &[(Slot, Order)]) {
    assert!(rt; queue < pool.queues());
    let mut next = pool.first(queue);
    for &(slot, order) in line {
        expect_slot(rt, next, Some(slot));
        assert!(rt; pool.is_live(slot));
        expect_order(rt, pool.order(slot), &order);
        expect_number(rt, pool.queue_of(slot) as usize, queue as usize);
        next = pool.next(slot);
    }
    expect_slot(rt, next, None);
    expect_number(rt, pool.len(queue) as usize, line.len());
}

/// A pool and the queues that it should have.
#[derive(Drop)]
struct Pair {
    pool: Pool,
    lines: Vec<Line>,
}

impl Pair {
    /// One drawn call.
    fn step(&mut self, rt: &impl Abort, draws: &mut SmallRng, queue: u32, order: &Order) {
        assert!(rt; queue < self.pool.queues());
        let line = self.lines.get_mut(queue as usize).expect(rt, "a queue");
        if line.is_empty() || draws.random_range(0..8) < 3 {
            if self.pool.live() < self.pool.capacity() {
                let slot = self.pool.push_back(queue, order);
                line.push((slot, *order)).expect(rt, "memory");
            }
            return;
        }
        let place = draws.random_range(0..line.len());
        let (slot, was) = line[place];
        assert!(rt; self.pool.is_live(slot));
        match draws.random_range(0..3) {
            0 => {
                expect_order(rt, self.pool.order(slot), &was);
                self.pool.unlink(slot);
                assert!(rt; !self.pool.is_live(slot));
                line.remove(place);
            }
            1 => {
                self.pool.to_back(slot);
                line.remove(place);
                line.push((slot, was)).expect(rt, "memory");
            }
            _ => {
                self.pool.set(slot, order);
                line[place] = (slot, *order);
            }
        }
    }

    /// The queue is the list, and the pool has as many orders as all lists together.
    fn expect_equal(&self, rt: &impl Abort, queue: u32) {
        let mut live = 0;
        for line in &self.lines {
            live = usize::saturating_add(live, line.len());
        }
        expect_number(rt, self.pool.live() as usize, live);
        let line = self.lines.get(queue as usize).expect(rt, "a line");
        expect_queue(rt, &self.pool, queue, line);
    }
}
