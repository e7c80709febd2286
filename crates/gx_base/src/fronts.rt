//! The constant fronts of report lines, written once for each name: a copy of a few blocks takes the place of a store for each tag, and of
//! a copy of the name.
ghost use Rattle.std.specs.Prelude.{◌≡◌, ◌+◌, ◌≤◌, ◌++◌, length};
ghost use Rattle.gx_base.specs.Fronts.{AreFronts, side_front, side_fronts};

use crate::bytes::append_few;
use crate::id::ShortId;
use crate::limits::{LONGEST_NAME, MOST_FIRMS, MOST_INSTRUMENTS};
use crate::names::Listed;
use crate::order::Side;
use crate::text::Text;
use arrayvec::ArrayVec;

/// How many bytes the front with the exchange or with a firm has at most: a name, and two tags of four bytes.
pub const LONGEST_NAME_FRONT: usize = 32;

/// How many bytes the front with an instrument has at most: a name, a side, and three tags of four bytes.
pub const LONGEST_SIDE_FRONT: usize = 37;

/// The fronts with one instrument.
#[derive(Clone, Copy, Default)]
pub(crate) struct SideFronts {
    buy: Text<LONGEST_SIDE_FRONT>,
    sell: Text<LONGEST_SIDE_FRONT>,
}

/// The fronts of a product's names, in the order of its lists.
#[derive(Drop)]
pub(crate) struct Fronts {
    pub(crate) exchange: Text<LONGEST_NAME_FRONT>,
    pub(crate) firms: ArrayVec<Text<LONGEST_NAME_FRONT>, MOST_FIRMS>,
    pub(crate) instruments: ArrayVec<SideFronts, MOST_INSTRUMENTS>,
}

impl SideFronts {
    /// The front with this side.
    #[inline]
    pub(crate) fn of_side(&self, side: Side) -> &Text<LONGEST_SIDE_FRONT>
        ensures { result.now ≡ side_front self.now side }
    {
        match side {
            Side::Buy => &self.buy,
            Side::Sell => &self.sell,
        }
    }
}

impl Fronts {
    /// The fronts of these names. Takes no memory.
    pub(crate) fn new(exchange: &ShortId, firms: &[ShortId], instruments: &[Listed]) -> Fronts
        requires firms { length firms.now ≤ MOST_FIRMS }
        requires instruments { length instruments.now ≤ MOST_INSTRUMENTS }
        ensures { AreFronts (record { exchange = exchange.now; firms = firms.now; instruments = instruments.now }) result }
    {
        let mut firm_fronts = ArrayVec::new();
        for firm in firms {
            firm_fronts.push(front(b"\x0156=", firm, b"\x0137="));
        }
        let mut instrument_fronts = ArrayVec::new();
        for listed in instruments {
            instrument_fronts.push(side_fronts(listed));
        }
        Fronts {
            exchange: front(b"\x0149=", exchange, b"\x0152="),
            firms: firm_fronts,
            instruments: instrument_fronts,
        }
    }
}

/// The fronts with this instrument.
fn side_fronts(listed: &Listed) -> SideFronts
    ensures { result ≡ side_fronts listed.now }
{
    SideFronts {
        buy: front(b"\x0155=", &listed.name, b"\x0154=1\x0138="),
        sell: front(b"\x0155=", &listed.name, b"\x0154=2\x0138="),
    }
}

/// A name between two constant texts.
fn front<const N: usize>(before: &[u8], name: &ShortId, after: &[u8]) -> Text<N>
    requires room { N ≤ 255 }
    requires short { length before.now + LONGEST_NAME + length after.now ≤ N }
    ensures { result ≡ before.now ++ name.now ++ after.now }
{
    let mut room = [0; N];
    let end = append_few(&mut room, 0, before);
    let end = name.append_to(&mut room, end);
    let end = append_few(&mut room, end, after);
    Text::new(&room[..end])
}
