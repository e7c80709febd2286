//! A product that was taken, lent to a command.
ghost use Rattle.std.specs.Prelude.{◌≡◌, ◌≤◌, length, Ok};
ghost use Rattle.product_file.specs.ProductTexts.{product_of};
ghost use Rattle.product_file.specs.declared.limits.TheConstants.{LONGEST_TEXT};

use product_file::{LONGEST_TEXT, Product};

/// A product, and the text that it was read from, which is no longer than a text may be.
#[derive(Drop)]
pub struct Taken<'a> {
    pub product: &'a Product,
    pub text: &'a [u8],
    ghost short: { length text.now ≤ LONGEST_TEXT },
    ghost gives: { product_of text.now ≡ Ok product.now },
}
