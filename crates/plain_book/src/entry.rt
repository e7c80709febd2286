//! An order in its list.
use gx_base::Order;

/// A live order, with the number of its slot, and whether it is TOP of its side: the order that bettered the market, and
/// that a TOP step favors.
#[derive(Clone, Copy, Debug, PartialEq, Eq)]
pub struct Entry {
    pub slot: u32,
    pub order: Order,
    pub is_top: bool,
}
