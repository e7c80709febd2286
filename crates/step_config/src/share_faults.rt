//! What is wrong with the shares of an LMM step.
ghost use Rattle.std.specs.Prelude.{◌≡◌, ◌≤◌, length};
ghost use Rattle.step_config.specs.Rules.{is_percent, has_firm, first_firm_twice, first_wrong_percent, percent_sum, fault_of_shares};

use crate::step::{MOST_SHARES, StepFault};
use gx_base::LmmShare;

/// The first fault of these shares.
pub(crate) fn fault_of_shares(shares: &[LmmShare]) -> Option<StepFault>
    requires { length shares.now ≤ MOST_SHARES }
    ensures { result ≡ fault_of_shares shares.now }
{
    if let Some(firm) = first_firm_twice(shares) {
        return Some(StepFault::Firm(firm));
    }
    if let Some(percent) = first_wrong_percent(shares) {
        return Some(StepFault::Percent(percent as u32));
    }
    let sum = percent_sum(shares);
    if sum > 100 {
        return Some(StepFault::Percent(sum));
    }
    None
}

/// The firm of the first share whose firm an earlier share has.
fn first_firm_twice(shares: &[LmmShare]) -> Option<u8>
    ensures { result ≡ first_firm_twice shares.now }
{
    for (i, share) in shares.iter().enumerate() {
        if has_firm(share.firm, &shares[..i]) {
            return Some(share.firm);
        }
    }
    None
}

/// Whether one of these shares is of this firm.
fn has_firm(firm: u8, shares: &[LmmShare]) -> bool
    ensures { result ≡ has_firm firm shares.now }
{
    shares.iter().any(|share| share.firm == firm)
}

/// The first percentage that is not from 1 to 100.
fn first_wrong_percent(shares: &[LmmShare]) -> Option<u8>
    ensures { result ≡ first_wrong_percent shares.now }
{
    let wrong = shares.iter().find(|share| !is_percent(share.percent))?;
    Some(wrong.percent)
}

/// Whether this is a percentage from 1 to 100.
pub(crate) fn is_percent(percent: u8) -> bool
    ensures { result ≡ is_percent percent }
{
    1 <= percent && percent <= 100
}

/// The sum of the percentages.
fn percent_sum(shares: &[LmmShare]) -> u32
    requires { length shares.now ≤ MOST_SHARES }
    ensures { result ≡ percent_sum shares.now }
{
    let mut sum = 0;
    for share in shares {
        sum += share.percent as u32;
    }
    sum
}
