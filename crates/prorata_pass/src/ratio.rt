//! The part of what is wanted that an order trades.
ghost use Rattle.std.specs.Prelude.{◌≡◌, ◌≤◌, ◌<◌, ◌^◌, min};
ghost use Rattle.plain_book.specs.Steps.{prorata_share};

use gx_base::Order;
use plain_book::ShareRule;

/// What the shares of a step are computed from, in lots.
#[derive(Drop)]
pub(crate) struct Ratio {
    /// A share below this is none.
    least: u32,
    /// What all orders together are to trade.
    pool: u64,
    /// What all orders together show.
    total: u64,
    ghost some: { 0 < total },
    ghost part: { pool ≤ total },
    ghost small: { pool < 2 ^ 32 },
}

impl Ratio {
    /// No more is to be traded than is wanted, and than is shown.
    pub(crate) fn new(least: u32, wanted: u32, total: u64) -> Ratio
        requires { 0 < total }
        ensures least { result.least ≡ least }
        ensures pool { result.pool ≡ min wanted total }
        ensures total { result.total ≡ total }
    {
        Ratio {
            least,
            pool: u64::from(wanted).min(total),
            total,
        }
    }

    /// The share of an order that shows so much: its part of the pool, rounded down, and nothing where that is below the
    /// least.
    fn share_of(&self, shown: u32) -> u32
        ensures { result ≡ prorata_share self.now.least self.now.pool self.now.total shown }
    {
        let share = self.pool * u64::from(shown) / self.total;
        if share < u64::from(self.least) {
            return 0;
        }
        share as u32
    }
}

impl ShareRule for Ratio {
    ghost use Rattle.prorata_pass.specs.Parts.{parts};

    ghost meanings = { parts };

    fn share(&mut self, order: &Order) -> u32 {
        self.share_of(order.shown)
    }

    fn is_spent(&self) -> bool {
        false
    }
}
