//! Texts of quantities.
ghost use Rattle.std.specs.Prelude.{◌≡◌};
ghost use Rattle.gx_base.specs.Numbers.{quantity_of};

use crate::bytes::split_at_byte;
use crate::digits::{MOST_DIGITS, are_digits, are_zeros, read_digits};

/// The number of a quantity text, in lots. `None` exactly where the text is not one to nine digits, or these and a
/// point and any number of zeros. Our own rule, within the quantity format of FIX 4.2.
pub fn read_quantity(text: &[u8]) -> Option<u32>
    ensures { result ≡ quantity_of text.now }
{
    let (digits, zeros) = split_at_byte(text, b'.');
    if digits.is_empty() || digits.len() > MOST_DIGITS || !are_digits(digits) || !are_zeros(zeros) {
        return None;
    }
    Some(read_digits(digits))
}
