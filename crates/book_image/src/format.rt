//! How many bytes the parts of a book image have (our own rule).
ghost use Rattle.std.specs.Prelude.{◌≡◌};
ghost use Rattle.book_image.specs.Image.{image_len};

/// The counters.
pub const DESK_BYTES: usize = 552;

/// The last trade price and the TOP orders of an instrument.
pub const INSTRUMENT_BYTES: usize = 25;

/// The number of the rows after it.
pub const COUNT_BYTES: usize = 4;

/// An order.
pub const ROW_BYTES: usize = 82;

/// The trading session.
pub const SESSION_BYTES: usize = 1;

/// The byte of a session in which the market is open.
pub(crate) const OPEN: u8 = 1;

/// The byte of one in which it is closed.
pub(crate) const CLOSED: u8 = 0;

/// How many bytes the image of a book has that has so many instruments and live orders.
pub fn image_len(instruments: u32, orders: u32) -> usize
    ensures { result ≡ image_len instruments orders }
{
    DESK_BYTES
        + 2 * COUNT_BYTES
        + INSTRUMENT_BYTES * instruments as usize
        + ROW_BYTES * orders as usize
        + SESSION_BYTES
}
