//! The shares of an instrument's lead market makers.
ghost use Rattle.std.specs.Prelude.{◌≡◌, ◌≤◌, ◌<◌, length, position, bytes_eq};
ghost use Rattle.toml.specs.View.{view};
ghost use Rattle.step_config.specs.Rules.{has_firm};
ghost use Rattle.product_file.specs.Inner.Shares.{share_firm, share_of, shares_of};

use crate::faults::{Key, ProductFault};
use crate::keys::{number_at, tables_or_none, text_at};
use arrayvec::ArrayVec;
use gx_base::{LmmShare, MOST_FIRMS, ShortId};
use step_config::MOST_SHARES;
use toml::Value;

/// The shares of an instrument, none where it has no `lmm`.
#[tactic(auto, unfolding(crate::specs::Inner::Shares::shares_of))]
pub(crate) fn shares_of(
    firms: &[ShortId],
    table: &Value,
) -> Result<ArrayVec<LmmShare, MOST_SHARES>, ProductFault>
    requires { length firms.now ≤ MOST_FIRMS }
    ensures { result ≡ shares_of firms.now (view table.now) }
{
    let entries = tables_or_none(table, Key::Lmm)?;
    if entries.len() > MOST_SHARES {
        return Err(ProductFault::Range(Key::Lmm));
    }
    let mut shares = ArrayVec::new();
    for entry in entries {
        let share = share_of(firms, &shares, entry)?;
        shares.push(share);
    }
    Ok(shares)
}

/// The share of an entry: its firm, and after that its percent.
#[tactic(auto, unfolding(crate::specs::Inner::Shares::share_of))]
fn share_of(
    firms: &[ShortId],
    earlier: &[LmmShare],
    entry: &Value,
) -> Result<LmmShare, ProductFault>
    requires { length firms.now ≤ MOST_FIRMS }
    ensures { result ≡ share_of firms.now earlier.now (view entry.now) }
{
    let firm = share_firm(firms, earlier, entry)?;
    let percent = number_at(entry, Key::LmmPercent, 1, 100)?;
    Ok(LmmShare {
        firm,
        percent: percent as u8,
    })
}

/// The number of the firm that an entry names, which no earlier entry names.
#[tactic(auto, unfolding(crate::specs::Inner::Shares::share_firm))]
fn share_firm(firms: &[ShortId], earlier: &[LmmShare], entry: &Value) -> Result<u8, ProductFault>
    requires { length firms.now ≤ MOST_FIRMS }
    ensures { result ≡ share_firm firms.now earlier.now (view entry.now) }
{
    let name = text_at(entry, Key::LmmFirm)?;
    match find_name(firms, name.as_bytes()) {
        Some(at) if has_firm(at as u8, earlier) => Err(ProductFault::Twice(firms[at])),
        Some(at) => Ok(at as u8),
        None => Err(ProductFault::UnknownFirm(Key::LmmFirm)),
    }
}

/// The place of the name that has these bytes.
fn find_name(names: &[ShortId], bytes: &[u8]) -> Option<usize>
    ensures { result ≡ position (λ listed. bytes_eq listed bytes.now) names.now }
{
    names.iter().position(|listed| listed.bytes() == bytes)
}

/// Whether one of these shares is of this firm.
fn has_firm(firm: u8, shares: &[LmmShare]) -> bool
    ensures { result ≡ has_firm firm shares.now }
{
    shares.iter().any(|share| share.firm == firm)
}
