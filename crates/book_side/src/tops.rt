//! TOP of each side.
ghost use Rattle.std.specs.Prelude.{◌≡◌, ◌<◌, ◌==◌, if◌then◌else◌, option_map, length, IfOk, replicate, vec_capacity};
ghost use Rattle.gx_base.specs.declared.order.Side.{Side};
ghost use Rattle.plain_book.specs.Book.{slot_number};
ghost use Rattle.book_side.specs.Inner.Content.{no_tops, top_of_side, top_at};
ghost use Rattle.book_side.specs.Inner.Steps.{IsTopSet, IsTopPlaced, IsTopDropped, dropped};

use gx_base::{Order, Side, Slot};
use std::alloc::{AllocError, Global};

/// TOP of an instrument's two sides.
#[derive(Clone, Copy)]
pub(crate) struct SideTops {
    pub(crate) buy: Option<Slot>,
    pub(crate) sell: Option<Slot>,
}

/// No TOP on any side of so many instruments, with room for no more. An `Err` is want of memory.
pub(crate) fn no_tops(alloc: Global, instruments: u8) -> Result<Vec<SideTops>, AllocError>
    ensures items { IfOk result (λ v. v.items ≡ replicate instruments no_tops) }
    ensures room { IfOk result (λ v. vec_capacity v ≡ instruments) }
{
    let mut tops = Vec::with_capacity(alloc, instruments as usize)?;
    for _ in 0..instruments {
        tops.push_reserved(SideTops {
            buy: None,
            sell: None,
        });
    }
    Ok(tops)
}

fn of_side(tops: &SideTops, side: Side) -> Option<Slot>
    ensures { result ≡ top_of_side side tops.now }
{
    match side {
        Side::Buy => tops.buy,
        Side::Sell => tops.sell,
    }
}

/// TOP of a side.
pub(crate) fn top_at(tops: &[SideTops], instrument: u8, side: Side) -> Option<Slot>
    requires { instrument < length tops.now }
    ensures { option_map slot_number result ≡ top_at tops.now instrument side }
{
    of_side(&tops[instrument as usize], side)
}

/// Sets TOP of a side.
pub(crate) fn set_top_at(tops: &mut Vec<SideTops>, instrument: u8, side: Side, top: Option<Slot>)
    requires { instrument < length tops.old.items }
    ensures length { length tops.new.items ≡ length tops.old.items }
    ensures room { vec_capacity tops.new ≡ vec_capacity tops.old }
    ensures tops { IsTopSet tops.old.items tops.new.items instrument side (option_map slot_number top) }
{
    match side {
        Side::Buy => tops[instrument as usize].buy = top,
        Side::Sell => tops[instrument as usize].sell = top,
    }
}

/// Ends TOP of an order's side where the order is better than all of it. The order is TOP then, where enough of it is open.
pub(crate) fn place_top(
    tops: &mut Vec<SideTops>,
    order: &Order,
    best: bool,
    enough: bool,
    slot: Slot,
)
    requires { order.now.instrument < length tops.old.items }
    ensures length { length tops.new.items ≡ length tops.old.items }
    ensures room { vec_capacity tops.new ≡ vec_capacity tops.old }
    ensures tops { IsTopPlaced best enough slot.0 order.now tops.old.items tops.new.items }
{
    if best {
        let top = if enough { Some(slot) } else { None };
        set_top_at(tops, order.instrument, order.side, top);
    }
}

fn without_slot(top: Option<Slot>, slot: Slot) -> Option<Slot>
    ensures { option_map slot_number result ≡ dropped slot.0 (option_map slot_number top) }
{
    match top {
        None => None,
        Some(top) => { if top.0 == slot.0 { None } else { Some(top) } }
    }
}

/// The order of a slot is TOP no more.
pub(crate) fn drop_top(tops: &mut Vec<SideTops>, order: &Order, slot: Slot)
    requires { order.now.instrument < length tops.old.items }
    ensures length { length tops.new.items ≡ length tops.old.items }
    ensures room { vec_capacity tops.new ≡ vec_capacity tops.old }
    ensures tops { IsTopDropped slot.0 order.now tops.old.items tops.new.items }
{
    let top = without_slot(top_at(tops, order.instrument, order.side), slot);
    set_top_at(tops, order.instrument, order.side, top);
}
