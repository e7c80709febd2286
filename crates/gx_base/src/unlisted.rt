//! Firms and instruments that need not be listed.
ghost use Rattle.std.specs.Prelude.{◌≡◌, ◌≤◌};
ghost use Rattle.gx_base.specs.Line.{addressee, instrument_name, decimals_of};

use crate::id::ShortId;
use crate::limits::MOST_DECIMALS;
use crate::names::{Listed, Names};

/// The name of a report's addressee, `UNKNOWN` where it is not known or not listed.
pub fn addressee(names: &Names, firm: Option<u8>) -> ShortId
    ensures { result ≡ addressee names.now firm }
{
    match firm {
        Some(firm) if (firm as usize) < names.firm_count() => *names.firm(firm),
        _ => ShortId::default(),
    }
}

/// An instrument. One that is not listed has the name `UNKNOWN` and no decimals.
pub fn listed(names: &Names, instrument: u8) -> Listed
    ensures name { result.name ≡ instrument_name names.now instrument }
    ensures decimals { result.decimals ≡ decimals_of names.now instrument }
    ensures few { result.decimals ≤ MOST_DECIMALS }
{
    if (instrument as usize) < names.instrument_count() {
        *names.listed(instrument)
    } else {
        Listed::default()
    }
}
