//! Whether the market is open.

/// The trading session (340 in FIX 4.2). That there are these two is our own rule.
#[derive(Clone, Copy, Debug, PartialEq, Eq)]
pub enum Trading {
    /// Orders are taken and matched.
    Open,
    /// New orders and replaces are refused, and cancels are taken. All live orders are good till cancelled.
    Closed,
}
