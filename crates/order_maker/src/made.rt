//! What is drawn for each message.
ghost use Rattle.std.specs.Prelude.{◌≡◌, ◌<◌};
ghost use Rattle.order_maker.specs.Draws.{next_state, drawn};
ghost use Rattle.order_maker.specs.Inner.{IsTurn};
ghost use Rattle.order_maker.specs.Messages.{lowest, target_of, new_of, cancel_of, replace_of, message_of};

use crate::draws::draw;
use crate::turn::Turn;
use gx_base::Side;
use product_file::Product;

/// The lowest price of a replace, and of a new order that sells, in ticks.
const LOWEST_SELL: u32 = 9_990;

/// The lowest price of a new order that buys, in ticks.
const LOWEST_BUY: u32 = 9_900;

/// What a message asks for. Messages are named by their numbers, from 1 on. The laws above name it, so it is public.
#[derive(Clone, Copy)]
pub enum Made {
    /// A new order of so many lots, at a price in ticks.
    New { lots: u32, ticks: u32 },
    /// To cancel the order of that message.
    Cancel { target: u64 },
    /// To replace the order of that message by one of so many lots, at a price in ticks.
    Replace { target: u64, lots: u32, ticks: u32 },
}

/// Draws what a message asks for: eight of ten are new orders, one is a cancel and one a replace.
#[tactic(auto, unfolding(crate::specs::Messages::message_of))]
pub(crate) fn draw_message(product: &Product, turn: &Turn, state: &mut u32) -> Made
    requires { IsTurn product.now turn.now }
    ensures { (result, state.new) ≡ message_of product.now turn.now.number state.old }
{
    match draw(state, 10) {
        0..=7 => draw_new(turn.side, state),
        8 => draw_cancel(turn.number, state),
        _ => draw_replace(turn.number, state),
    }
}

/// Draws a new order of a side.
fn draw_new(side: Side, state: &mut u32) -> Made
    ensures { (result, state.new) ≡ new_of side state.old }
{
    let ticks = lowest(side) + draw(state, 110);
    let lots = draw(state, 100) + 1;
    Made::New { lots, ticks }
}

/// The lowest price of new orders of a side, in ticks.
fn lowest(side: Side) -> u32
    ensures lowest { result ≡ lowest side }
    ensures few { result < 10000 }
{
    match side {
        Side::Buy => LOWEST_BUY,
        Side::Sell => LOWEST_SELL,
    }
}

/// Draws a cancel.
fn draw_cancel(number: u64, state: &mut u32) -> Made
    ensures { (result, state.new) ≡ cancel_of number state.old }
{
    let target = draw_target(number, state);
    Made::Cancel { target }
}

/// Draws a replace.
fn draw_replace(number: u64, state: &mut u32) -> Made
    ensures { (result, state.new) ≡ replace_of number state.old }
{
    let target = draw_target(number, state);
    let lots = draw(state, 100) + 1;
    let ticks = LOWEST_SELL + draw(state, 20);
    Made::Replace {
        target,
        lots,
        ticks,
    }
}

/// Draws the message whose order a message changes: one of the thousand before it, and no earlier one than the first.
fn draw_target(number: u64, state: &mut u32) -> u64
    ensures target { result ≡ target_of number (drawn 1000 state.new) }
    ensures state { state.new ≡ next_state state.old }
{
    let back = u64::from(draw(state, 1000));
    number.saturating_sub(1).saturating_sub(back).max(1)
}
