//! The place of a value, by its tag.
ghost use Rattle.std.specs.Prelude.{◌≡◌, ◌<◌};
ghost use Rattle.fix_request.specs.Inner.Slots.{slot_of, slot_of_digits};

/// How many places there are: one for the tags that no rule names, and one for each that a rule names.
pub const PLACES: usize = 19;

/// The digit `0`.
const ZERO: usize = 48;

/// The place of each tag below 100, by its two digits: 0 if no rule names it.
static OF_DIGITS: [[u8; 10]; 10] = [
    [0, 0, 0, 0, 0, 0, 0, 0, 0, 0],
    [0, 6, 0, 0, 0, 0, 0, 0, 0, 0],
    [0, 0, 0, 0, 0, 0, 0, 0, 0, 0],
    [0, 0, 0, 0, 4, 1, 0, 0, 11, 0],
    [12, 7, 0, 0, 13, 0, 0, 0, 0, 2],
    [0, 0, 5, 0, 10, 8, 3, 0, 0, 15],
    [0, 0, 0, 0, 0, 0, 0, 0, 0, 0],
    [0, 0, 0, 0, 0, 0, 0, 0, 0, 0],
    [0, 0, 0, 0, 0, 0, 0, 0, 0, 0],
    [0, 0, 0, 0, 0, 0, 0, 0, 0, 14],
];

/// The place of a tag of these two bytes. `None` if they are not two digits, the first not 0.
#[inline(always)]
pub fn slot_of_digits(first: u8, second: u8) -> Option<usize>
    ensures { result ≡ slot_of_digits first second }
{
    if !(b'1'..=b'9').contains(&first) || !second.is_ascii_digit() {
        return None;
    }
    // As words before the subtraction: of bytes, it takes four instructions more.
    let row = &OF_DIGITS[usize::from(first) - ZERO];
    Some(usize::from(row[usize::from(second) - ZERO]))
}

/// The place of a tag.
#[tactic(auto, unfolding(crate::specs::Inner::Slots::slot_of))]
pub fn slot_of(tag: u32) -> usize
    ensures place { result ≡ slot_of tag }
    ensures low { result < PLACES }
{
    match tag {
        35 => 1,
        49 => 2,
        56 => 3,
        34 => 4,
        52 => 5,
        11 => 6,
        41 => 7,
        55 => 8,
        107 => 9,
        54 => 10,
        38 => 11,
        40 => 12,
        44 => 13,
        99 => 14,
        59 => 15,
        110 => 16,
        210 => 17,
        340 => 18,
        _ => 0,
    }
}
