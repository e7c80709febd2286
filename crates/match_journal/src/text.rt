//! The product text in an image, and the one that is handed in.
ghost use Rattle.std.specs.Prelude.{◌≡◌, ℕ, ◌+◌, ◌<◌, ◌≤◌, ◌^◌, List, length, take, drop, None, Some, IfOk, IfSome};
ghost use Rattle.gx_station.specs.StoreCalls.{OnStore};
ghost use Rattle.match_journal.specs.Causes.{LooksOnly};
ghost use Rattle.match_journal.specs.Classes.{first_difference};
ghost use Rattle.match_journal.specs.Inner.Fronts.{TextAnswers};
ghost use Rattle.match_journal.specs.declared.limits.TheConstants.{MOST_TEXT};
ghost use Rattle.match_journal.specs.declared.text.TheConstants.{PIECE};

use crate::class::common_front;
use gx_station::{Failed, Station};

/// Where a text stands in an image, and how many bytes it has.
#[derive(Clone, Copy, Debug, PartialEq, Eq)]
pub(crate) struct TextPlace {
    pub at: u64,
    pub len: u32,
}

/// How many bytes are compared at a time.
const PIECE: usize = 4096;

/// How many bytes of a part of the text stand in the image from a place on.
fn same_in<S: Station>(station: &mut S, at: u64, part: &[u8]) -> Result<usize, Failed>
    requires few { length part.now ≤ PIECE }
    requires reach { at + length part.now ≤ S.meanings.reach station.old }
    ensures looks { LooksOnly S.meanings station.old station.new (length part.now) }
    ensures reach { S.meanings.reach station.new ≡ S.meanings.reach station.old }
    ensures on_store { OnStore S.meanings station.old station.new result }
    ensures within { IfOk result (λ same. same ≤ length part.now) }
    ensures value { IfOk result (λ same. (image : List ℕ) → S.meanings.holds station.old ≡ Some image
        → same ≡ first_difference (take (length part.now) (drop at image)) part.now) }
{
    let mut piece = [0; PIECE];
    let count = part.len();
    station.read(at, &mut piece[..count])?;
    Ok(common_front(&piece[..count], part))
}

/// Where the product differs from the text that stands there.
pub(crate) fn difference<S: Station>(
    station: &mut S,
    place: TextPlace,
    product: &[u8],
) -> Result<Option<usize>, Failed>
    requires few { place.len ≤ MOST_TEXT }
    requires reach { place.at + place.len ≤ S.meanings.reach station.old }
    requires small { place.at + place.len < 2 ^ 64 }
    ensures looks { LooksOnly S.meanings station.old station.new place.len }
    ensures reach { S.meanings.reach station.new ≡ S.meanings.reach station.old }
    ensures on_store { OnStore S.meanings station.old station.new result }
    ensures size { IfOk result (λ found. found ≡ None → place.len ≡ length product.now) }
    ensures within { IfOk result (λ found. IfSome found (λ at. at ≤ place.len)) }
    ensures text { (image text : List ℕ) → S.meanings.holds station.old ≡ Some image → take place.len (drop place.at image) ≡ text → length text ≡ place.len
        → IfOk result (TextAnswers text product.now) }
{
    let size = place.len as usize;
    let most = size.min(product.len());
    let mut at = 0;
    while at < most {
        let count = (most - at).min(PIECE);
        let same = same_in(station, place.at + at as u64, &product[at..at + count])?;
        at += same;
        if same < count {
            return Ok(Some(at));
        }
    }
    if size == product.len() {
        Ok(None)
    } else {
        Ok(Some(most))
    }
}
