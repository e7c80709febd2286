//! Fronts of a known length, compared by words of four bytes. The library's comparison is a call, which looks at the lengths first.
ghost use Rattle.std.specs.Prelude.{◌≡◌, ◌≤◌, length, take, bytes_eq};
ghost use Rattle.fix_frame.specs.Scans.{begin_text};

use crate::place::BEGIN;
use line_parts::TRAILER_LENGTH;

/// Whether these four bytes are those of a word.
#[inline(always)]
fn is_word(bytes: &[u8], word: &[u8]) -> bool
    requires bytes { length bytes.now ≡ 4 }
    requires word { length word.now ≡ 4 }
    ensures { result ≡ bytes_eq word.now bytes.now }
{
    let seen = u32::from_le_bytes([bytes[0], bytes[1], bytes[2], bytes[3]]);
    let sought = u32::from_le_bytes([word[0], word[1], word[2], word[3]]);
    seen == sought
}

/// Whether some bytes begin with the begin string and the tag of the length.
#[inline(always)]
pub(crate) fn begins_frame(bytes: &[u8]) -> bool
    requires { 12 ≤ length bytes.now }
    ensures { result ≡ bytes_eq begin_text (take 12 bytes.now) }
{
    let begin = &BEGIN[..];
    is_word(&bytes[..4], &begin[..4])
        && is_word(&bytes[4..8], &begin[4..8])
        && is_word(&bytes[8..12], &begin[8..12])
}

/// Whether some bytes begin with this trailer. The byte in the middle is compared twice.
#[inline(always)]
pub(crate) fn begin_with_trailer(bytes: &[u8], trailer: &[u8; TRAILER_LENGTH]) -> bool
    requires { 7 ≤ length bytes.now }
    ensures { result ≡ bytes_eq trailer.now (take 7 bytes.now) }
{
    is_word(&bytes[..4], &trailer[..4]) && is_word(&bytes[3..7], &trailer[3..7])
}
