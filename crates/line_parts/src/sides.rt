//! A side as lines write it.
ghost use Rattle.std.specs.Prelude.{◌≡◌, ◌≤◌, length};
ghost use Rattle.gx_base.specs.Line.{side_text};
ghost use Rattle.line_parts.specs.Words.{side_letter};

use gx_base::{LONGEST_VALUE, Side};

/// The value of tag 54 in FIX 4.2.
pub fn side_text(side: Side) -> &'static [u8]
    ensures text { result.now ≡ side_text side }
    ensures short { length result.now ≤ LONGEST_VALUE }
{
    match side {
        Side::Buy => b"1",
        Side::Sell => b"2",
    }
}

/// `B` for a buy, `S` for a sell.
pub fn side_letter(side: Side) -> &'static [u8]
    ensures letter { result.now ≡ side_letter side }
    ensures short { length result.now ≤ LONGEST_VALUE }
{
    match side {
        Side::Buy => b"B",
        Side::Sell => b"S",
    }
}
