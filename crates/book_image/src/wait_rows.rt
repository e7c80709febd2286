//! Lining up the waiting stops of an image.
ghost use Rattle.std.specs.Prelude.{◌≡◌, ◌+◌, ◌≤◌, [], length, map};
ghost use Rattle.book_image.specs.Reading.{entry_of};
ghost use Rattle.book_image.specs.Inner.Loading.{order_in, orders_from, AreRows, AreRightWaiting, HasWaiting};

use crate::place_rows::order_at;
use plain_book::Book;

/// Lines up the stops of the waiting rows, where none waits yet.
pub(crate) fn wait_rows<B: Book>(payload: &[u8], first: usize, count: usize, book: &mut B)
    requires rows { AreRows payload.now first count }
    requires right { AreRightWaiting (B.book book.old).instruments (B.book book.old).resting (order_in payload.now first) count }
    requires room { length (B.book book.old).resting + count ≤ (B.book book.old).capacity }
    requires none_waits { (B.book book.old).waiting ≡ [] }
    ensures { HasWaiting (B.book book.old) (B.book book.new) (map entry_of (orders_from (order_in payload.now first) 0 count)) }
{
    for k in 0..count {
        book.wait(order_at(payload, first, k));
    }
}
