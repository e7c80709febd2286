//! The products of all texts of a journal.
ghost use Rattle.std.specs.Prelude.{◌≡◌, ◌+◌, ◌<◌, ◌≤◌, [], ◌∷◌, ◌++◌, length, get_or};
ghost use Rattle.book_recovery.specs.Histories.{FollowEachOther};
ghost use Rattle.book_recovery.specs.Inner.Following.{follow-prop};

use product_file::Product;
use thiserror::Error;

/// Why the products of a journal were not taken.
#[derive(Clone, Copy, Debug, Error, PartialEq, Eq)]
pub enum NoProducts {
    #[error("a call on the store has failed")]
    Store,
    #[error("there is no memory for the products of the journal")]
    NoMemory,
    /// With the gate of the first record with a bad head; or else with 9 if the header's text gives no product; or else with the gate of
    /// the first amendment whose text is bad.
    #[error("the journal is bad, at {0}")]
    Bad(u64),
}

/// The products of a journal: that of the header's text, and that of each amendment's text, in their order. Each may follow the one
/// before it.
#[derive(Drop)]
pub struct Products<'a> {
    pub(crate) earlier: Vec<Product>,
    /// The product of the last text, which was taken before the journal was opened.
    pub last: &'a Product,
    ghost follow: { FollowEachOther (earlier.items ++ last.now ∷ []) } by { follow-prop (earlier.items ++ last.now ∷ []) },
}

impl<'a> Products<'a> {
    ghost use Rattle.book_recovery.specs.Products.{all_products};

    /// The product of a number: from 0 for that of the header's text on. A greater number than there are products has the last one.
    pub fn get(&self, number: usize) -> &Product
        ensures { result.now ≡ get_or (all_products self.now) number self.now.last.now }
    {
        if number < self.earlier.len() {
            return &self.earlier[number];
        }
        self.last
    }

    /// The number of the product that comes after one with this number. None comes after the last.
    pub(crate) fn after(&self, number: usize) -> usize
        ensures rises { number < length self.now.earlier.items → result ≡ number + 1 }
        ensures ends { length self.now.earlier.items ≤ number → result ≡ number }
    {
        if number < self.earlier.len() {
            return number + 1;
        }
        number
    }
}
