//! The lines of some bytes.
ghost use Rattle.std.specs.Prelude.{◌≡◌, ◌++◌, ◌∷◌, IfSome, MatchOption};
ghost use Rattle.feed_reader.specs.Inner.{HasNoEnd};

use gx_base::split_at_byte;

/// The first line of some bytes, without its line feed, and what comes after it. `None` if there is no line feed.
#[inline(always)]
pub(crate) fn split_line(bytes: &[u8]) -> Option<(&[u8], &[u8])>
    ensures whole { IfSome result (λ parts. bytes.now ≡ parts.0.now ++ 10 ∷ parts.1.now) }
    ensures first { MatchOption result (HasNoEnd bytes.now) (λ parts. HasNoEnd parts.0.now) }
{
    let (line, behind) = split_at_byte(bytes, b'\n');
    if line.len() < bytes.len() {
        Some((line, behind))
    } else {
        None
    }
}
