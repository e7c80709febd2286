//! All orders leave, an instrument at a time.
ghost use Rattle.std.specs.Prelude.{◌≡◌, ◌≢◌, ◌<◌, ◌+◌, false, MatchOption};
ghost use Rattle.std.specs.List.{AllByRecursion};
ghost use Rattle.plain_book.specs.Orders.{HasSlot, is_on};
ghost use Rattle.plain_book.specs.Book.{live_orders};
ghost use Rattle.book_side.specs.Inner.Steps.{AreFrom};

use crate::linked::LinkedBook;
use gx_base::{Side, Slot};
use plain_book::Book;

/// An order that rests on a side. `None` exactly where none does.
fn any_on(book: &LinkedBook, instrument: u8, side: Side) -> Option<Slot>
    requires { instrument < book.now.instruments }
    ensures { MatchOption result (AllByRecursion (λ e. is_on instrument side e ≡ false) book.now.resting) (λ s. HasSlot s.0 (live_orders book.now)) }
{
    match book.best(instrument, side) {
        None => None,
        Some(price) => book.first(instrument, side, price),
    }
}

/// A live order of an instrument. `None` exactly where there is none.
fn any_of(book: &LinkedBook, instrument: u8) -> Option<Slot>
    requires { instrument < book.now.instruments }
    ensures { MatchOption result (AllByRecursion (λ e. e.order.instrument ≢ instrument) (live_orders book.now)) (λ s. HasSlot s.0 (live_orders book.now)) }
{
    match any_on(book, instrument, Side::Buy) {
        Some(slot) => Some(slot),
        None => match any_on(book, instrument, Side::Sell) {
            Some(slot) => Some(slot),
            None => book.first_waiting(instrument),
        },
    }
}

/// Takes the orders of an instrument out, of which no earlier one has orders.
pub(crate) fn clear_instrument(book: &mut LinkedBook, instrument: u8)
    requires listed { instrument < book.old.instruments }
    requires from { AreFrom instrument (live_orders book.old) }
    ensures capacity { book.new.capacity ≡ book.old.capacity }
    ensures instruments { book.new.instruments ≡ book.old.instruments }
    ensures from { AreFrom (instrument + 1) (live_orders book.new) }
{
    while let Some(slot) = any_of(book, instrument) {
        book.rules();
        book.remove(slot);
    }
}
