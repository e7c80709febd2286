//! The bucket of an id.
ghost use Rattle.std.specs.Prelude.{◌≡◌, ◌*◌, ◌≤◌};
ghost use Rattle.id_table.specs.Ids.{key};
ghost use Rattle.id_table.specs.Inner.Ways.{hash_of, home_of};

use gx_base::ShortId;
use std::hash::{FoldHasher, Hasher};

/// The hash of a firm and an id. It takes the whole room of the id, so that the compiler knows how many bytes there are.
#[inline]
fn hash_of(firm: u8, id: &ShortId) -> u64
    ensures { result ≡ hash_of (key firm id.now) }
{
    let mut hasher = FoldHasher::default();
    hasher.write_u8(firm);
    hasher.write(id.room());
    hasher.finish()
}

/// The bucket of an id: one of `2 * capacity + 1`, by the hash as a part of all hashes.
#[inline]
pub(crate) fn home_of(capacity: u32, firm: u8, id: &ShortId) -> usize
    ensures value { result ≡ home_of capacity (key firm id.now) }
    ensures within { result ≤ 2 * capacity }
{
    let part = hash_of(firm, id) >> 33;
    ((part * (2 * u64::from(capacity) + 1)) >> 31) as usize
}
