//! Room for bytes that are written later.
ghost use Rattle.std.specs.Prelude.{◌≡◌, IfOk, vec_len, vec_capacity};

use std::alloc::{AllocError, Global};

/// So many zeros, with room for no more. An `Err` is want of memory.
pub fn zeros(alloc: Global, count: usize) -> Result<Vec<u8>, AllocError>
    ensures len { IfOk result (λ v. vec_len v ≡ count) }
    ensures room { IfOk result (λ v. vec_capacity v ≡ count) }
{
    let mut bytes = Vec::with_capacity(alloc, count)?;
    for _ in 0..count {
        bytes.push_reserved(0);
    }
    Ok(bytes)
}
