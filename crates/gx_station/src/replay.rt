//! What calls made of an image, and what a crash could make of it.
ghost use Rattle.std.specs.Prelude.{◌≡◌, ◌+◌, ◌≤◌, ◌^◌, [], ◌++◌, length, take, drop, OnOk, IfOk, fold};
ghost use Rattle.gx_station.specs.Disk.{Disk};
ghost use Rattle.gx_station.specs.MemoryStation.{disk_step, first_disk};
ghost use Rattle.gx_station.specs.Entries.{calls_of, written_by};
ghost use Rattle.gx_station.specs.CrashImages.{filled, filled_image, IsReplayed, call_of, piece_count, end_of, greatest_end};

use crate::mem_station::Entry;
use std::alloc::{AllocError, Global};

/// The image with other bytes between two places, of which the second may stand past its end.
fn replaced(
    alloc: Global,
    image: &[u8],
    from: usize,
    part: &[u8],
    end: usize,
) -> Result<Vec<u8>, AllocError>
    ensures { IfOk result (λ v. v.items ≡ take from image.now ++ (part.now ++ drop end image.now)) }
{
    let mut next = image[..from.min(image.len())].to_vec(alloc)?;
    next.extend_from_slice(part)?;
    next.extend_from_slice(&image[end.min(image.len())..])?;
    Ok(next)
}

/// The image with a range of one byte, and with it in a gap before the range.
fn filled_range(
    alloc: Global,
    image: &[u8],
    at: usize,
    count: usize,
    fill: u8,
) -> Result<Vec<u8>, AllocError>
    requires { at + count ≤ 2 ^ 62 }
    ensures { IfOk result (λ v. v.items ≡ filled fill (record { at = at; count = count }) image.now) }
{
    let end = at + count;
    let filling = vec![in alloc; fill; end - at.min(image.len())]?;
    replaced(alloc, image, at, filling.as_slice(), end)
}

/// What a read gives after some calls, and one image that a crash could leave.
#[derive(Drop)]
pub(crate) struct Images {
    pub holds: Vec<u8>,
    pub left: Vec<u8>,
}

impl Images {
    /// One call more.
    fn step(
        &mut self,
        alloc: Global,
        entry: Entry,
        bytes: &[u8],
        fill: u8,
    ) -> Result<(), AllocError>
        requires bytes { length bytes.now ≡ piece_count entry }
        requires end { end_of entry ≤ 2 ^ 62 }
        ensures { OnOk result ((d : Disk) → IsReplayed fill d self.old → IsReplayed fill (disk_step d (call_of entry bytes.now)) self.new) }
    {
        match entry {
            Entry::Write(at, count, is_ok) => {
                self.left = filled_range(alloc, self.left.as_slice(), at, count, fill)?;
                if is_ok {
                    self.holds = replaced(alloc, self.holds.as_slice(), at, bytes, at + count)?;
                }
            }
            Entry::Sync(true) => {
                self.left = self.holds.as_slice().to_vec(alloc)?;
            }
            Entry::Sync(false) | Entry::Look(_) | Entry::Send(_) => {}
        }
        Ok(())
    }
}

/// How many bytes of the row of writes an entry has.
fn size_of_piece(entry: Entry) -> usize
    ensures { result ≡ piece_count entry }
{
    match entry {
        Entry::Write(_, count, _) => count,
        Entry::Look(_) | Entry::Sync(_) | Entry::Send(_) => 0,
    }
}

/// Replays the calls over the image at first: each range that no sync has followed holds `fill`.
pub(crate) fn replayed(
    alloc: Global,
    first: &[u8],
    entries: &[Entry],
    pieces: &[u8],
    fill: u8,
) -> Result<Vec<u8>, AllocError>
    requires pieces { written_by entries.now ≤ length pieces.now }
    requires ends { greatest_end entries.now ≤ 2 ^ 62 }
    ensures { IfOk result (λ v. v.items ≡ filled_image fill (fold disk_step (first_disk first.now) (calls_of entries.now pieces.now []))) }
{
    let mut images = Images {
        holds: first.to_vec(alloc)?,
        left: first.to_vec(alloc)?,
    };
    let mut rest = pieces;
    for entry in entries {
        let (bytes, behind) = rest.split_at(size_of_piece(*entry));
        images.step(alloc, *entry, bytes, fill)?;
        rest = behind;
    }
    Ok(images.left)
}
