//! Whole rooms of ids, compared by words of eight bytes. The library's comparison is a call, which looks at the lengths first.
ghost use Rattle.std.specs.Prelude.{◌≡◌, length, bytes_eq};
ghost use Rattle.std.specs.Int.{w64, to_le_bytes};

use gx_base::LONGEST_NAME;

/// Whether two rooms have the same bytes: each room is three words.
#[inline(always)]
pub(crate) fn are_same_rooms(left: &[u8; LONGEST_NAME], right: &[u8; LONGEST_NAME]) -> bool
    ensures { result ≡ bytes_eq left.now right.now }
{
    is_same_word(&left[..8], &right[..8])
        && is_same_word(&left[8..16], &right[8..16])
        && is_same_word(&left[16..], &right[16..])
}

/// Whether eight bytes are the same.
#[inline(always)]
fn is_same_word(left: &[u8], right: &[u8]) -> bool
    requires left { length left.now ≡ 8 }
    requires right { length right.now ≡ 8 }
    ensures { result ≡ bytes_eq left.now right.now }
{
    word(left) == word(right)
}

/// Eight bytes as one number, the lowest first.
#[inline(always)]
fn word(bytes: &[u8]) -> u64
    requires { length bytes.now ≡ 8 }
    ensures { to_le_bytes w64 result ≡ bytes.now }
{
    u64::from_le_bytes([
        bytes[0], bytes[1], bytes[2], bytes[3], bytes[4], bytes[5], bytes[6], bytes[7],
    ])
}
