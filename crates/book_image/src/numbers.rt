//! Numbers and prices in bytes, the highest byte first.
ghost use Rattle.std.specs.Prelude.{◌≡◌, ◌+◌, ◌≤◌, ◌<◌, length};
ghost use Rattle.book_image.specs.Rows.{byte_at, number_at, count_at, price_at};

use gx_base::Price;

/// The byte at a place.
pub(crate) fn byte_at(bytes: &[u8], at: usize) -> u8
    requires { at < length bytes.now }
    ensures { result ≡ byte_at bytes.now at }
{
    bytes[at]
}

/// The number of 8 bytes at a place.
pub(crate) fn number_at(bytes: &[u8], at: usize) -> u64
    requires { at + 8 ≤ length bytes.now }
    ensures { result ≡ number_at bytes.now at }
{
    let mut number = [0; 8];
    number.copy_from_slice(&bytes[at..at + 8]);
    u64::from_be_bytes(number)
}

/// The number of 4 bytes at a place.
pub(crate) fn count_at(bytes: &[u8], at: usize) -> u32
    requires { at + 4 ≤ length bytes.now }
    ensures { result ≡ count_at bytes.now at }
{
    let mut count = [0; 4];
    count.copy_from_slice(&bytes[at..at + 4]);
    u32::from_be_bytes(count)
}

/// The price of 8 bytes at a place.
pub(crate) fn price_at(bytes: &[u8], at: usize) -> Price
    requires { at + 8 ≤ length bytes.now }
    ensures { result ≡ price_at bytes.now at }
{
    Price(number_at(bytes, at).cast_signed())
}
