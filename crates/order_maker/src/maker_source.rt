//! A source of made messages.
ghost use Rattle.std.specs.Prelude.{◌≡◌, ◌≢◌, ◌+◌, ◌^◌, ◌<◌, ◌≤◌, [], ◌++◌, ◌==◌, if◌then◌else◌, length, take, IfOk, IsOk};
ghost use Rattle.gx_station.specs.Counts.{counted};
ghost use Rattle.gx_station.specs.Sources.{Takes};
ghost use Rattle.order_maker.specs.Inner.{Stands};
ghost use Rattle.order_maker.specs.Stream.{MadeStream, generator_meanings, made_stream, frames_from};

use crate::frame::write_message;
use crate::made::draw_message;
use crate::turn::{Turn, turn_after, turn_at};
use gx_base::LONGEST_LINE;
use gx_station::{Failed, LEAST_READ, Source};
use product_file::Product;
use std::marker::Model;

/// Where a stream stands: the turn of the next message, how many are left, and the state of the draws.
#[derive(Clone, Copy)]
struct Stand {
    turn: Turn,
    left: u64,
    state: u32,
}

/// Gives the frames of made messages, one after the other, and never fails. Contracts see it as the bytes that are left
/// of the stream, and the count of the reads that have placed some.
#[derive(Drop)]
pub struct MakerSource<'a> {
    product: &'a Product,
    stand: Stand,
    reads: u64,
}

impl<'a> Model for MakerSource<'a> {
    ghost use Rattle.order_maker.specs.Stream.{MadeStream};

    ghost Value = { MadeStream };

    ghost use Rattle.order_maker.specs.Inner.{Stands};
    ghost use Rattle.order_maker.specs.Stream.{frames_from};

    ghost view = { λ s. record { left = frames_from s.product.now s.stand.state s.stand.turn.number s.stand.left; reads = s.reads } };

    ghost invariant = { λ s. Stands s.product.now s.stand.turn s.stand.left };
}

impl<'a> MakerSource<'a> {
    /// The stream of `count` messages of a product, with `first` as the first state. It takes no memory, nor does a read.
    pub fn new(product: &'a Product, first: u32, count: u32) -> MakerSource<'a>
        ensures { result ≡ record { left = made_stream product.now first count; reads = 0 } }
    {
        let stand = Stand {
            turn: turn_at(product, 1),
            left: u64::from(count),
            state: first,
        };
        MakerSource {
            product,
            stand,
            reads: 0,
        }
    }
}

impl<'a> Source for MakerSource<'a> {
    ghost meanings = { generator_meanings };

    /// As the trait says. It never fails, and places whole frames, as many as are sure to fit: while one is left, less than
    /// `LONGEST_LINE` bytes stay unused.
    fn read(&mut self, into: &mut [u8]) -> Result<usize, Failed>
        requires { LEAST_READ ≤ length into.old }
        ensures takes { Takes generator_meanings self.old self.new into.new result }
        ensures no_fault { IsOk result }
        ensures full { IfOk result (λ count. self.new.left ≢ [] → length into.new < count + LONGEST_LINE) }
    {
        let count = place_frames(self.product, &mut self.stand, into);
        self.reads = count_read(self.reads, count);
        Ok(count)
    }
}

/// The reads after one that placed so many bytes.
fn count_read(reads: u64, placed: usize) -> u64
    ensures { result ≡ (if placed == 0 then reads else counted reads) }
{
    if placed == 0 {
        reads
    } else {
        reads.saturating_add(1)
    }
}

/// Places frames in the front of `into` while one is left and any frame would fit, and answers where they end.
fn place_frames(product: &Product, stand: &mut Stand, into: &mut [u8]) -> usize
    requires room { LONGEST_LINE ≤ length into.old }
    requires stands { Stands product.now stand.old.turn stand.old.left }
    ensures within { result ≤ length into.new }
    ensures frames { frames_from product.now stand.old.state stand.old.turn.number stand.old.left
        ≡ take result into.new ++ frames_from product.now stand.new.state stand.new.turn.number stand.new.left }
    ensures end { result ≡ 0 → stand.old.left ≡ 0 }
    ensures full { stand.new.left ≢ 0 → length into.new < result + LONGEST_LINE }
    ensures stands { Stands product.now stand.new.turn stand.new.left }
{
    let mut end = 0;
    while stand.left > 0 && into.len() - end >= LONGEST_LINE {
        end = place_next(product, stand, into, end);
    }
    end
}

/// Writes the next frame after the first `at` bytes of `into`, and answers where it ends.
fn place_next(product: &Product, stand: &mut Stand, into: &mut [u8], at: usize) -> usize
    requires room { at + LONGEST_LINE ≤ length into.old }
    requires some { 1 ≤ stand.old.left }
    requires stands { Stands product.now stand.old.turn stand.old.left }
    ensures within { result ≤ length into.new }
    ensures frame { take at into.old ++ frames_from product.now stand.old.state stand.old.turn.number stand.old.left
        ≡ take result into.new ++ frames_from product.now stand.new.state stand.new.turn.number stand.new.left }
    ensures further { at < result }
    ensures left { stand.new.left + 1 ≡ stand.old.left }
    ensures stands { Stands product.now stand.new.turn stand.new.left }
{
    let made = draw_message(product, &stand.turn, &mut stand.state);
    let end = write_message(into, at, product, &stand.turn, &made);
    stand.turn = turn_after(product, &stand.turn);
    stand.left -= 1;
    end
}
