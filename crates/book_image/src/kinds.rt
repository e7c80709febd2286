//! The two kinds of images: those of now, and those of the old form.
ghost use Rattle.std.specs.Prelude.{◌≡◌, length};
ghost use Rattle.book_image.specs.Kinds.{part_of, session_of, trading_of};

use crate::format::{CLOSED, OPEN, SESSION_BYTES};
use gx_base::Trading;
use match_journal::EntryKind;

/// The bytes of the old form: of an image of now all but the byte of the session.
pub(crate) fn part_of(kind: EntryKind, payload: &[u8]) -> &[u8]
    ensures { result.now ≡ part_of kind payload.now }
{
    match kind {
        EntryKind::Image => &payload[..payload.len().saturating_sub(SESSION_BYTES)],
        EntryKind::OldImage | EntryKind::Frames | EntryKind::Amendment => payload,
    }
}

/// The byte of the session. An image of the old form has none, and is of an open market.
pub(crate) fn session_of(kind: EntryKind, payload: &[u8]) -> u8
    ensures { result ≡ session_of kind payload.now }
{
    match kind {
        EntryKind::Image => payload.last().copied().unwrap_or(CLOSED),
        EntryKind::OldImage | EntryKind::Frames | EntryKind::Amendment => OPEN,
    }
}

/// The session that a byte is read as.
pub(crate) fn trading_of(session: u8) -> Trading
    ensures { result ≡ trading_of session }
{
    if session == CLOSED {
        Trading::Closed
    } else {
        Trading::Open
    }
}
