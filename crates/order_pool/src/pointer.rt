//! Raw pointers to the elements of a `Vec`. Only this file makes one that leads to something, and reads, writes or tests one.
//! Four of its functions are proved by hand, and know nothing of what the elements are. Each begins with a copy of its
//! pointer: there the proof says where that leads, once the `Vec` is open.
ghost use Rattle.std.specs.Prelude.{◌≡◌, ◌≢◌, ◌*◌, ◌^◌, ◌<◌, ◌≤◌, slice_index_or, vec_len, vec_capacity, MatchBool};
ghost use Rattle.std.specs.Borrow.{sem};
ghost use Rattle.std.specs.Vec.{vec_ptr, vec_follows_item};
ghost use denote.RawPtr.{InBlock};
ghost use Rattle.std.specs.Mem.{type_size};
ghost use Rattle.order_pool.specs.Inner.Places.{place, index_of, IsPlace, AreNear};

use std::alloc::Allocator;

/// Where element `i` lies, or would lie, given where the first does.
fn pointer_from<T, A: Allocator>(items: &Vec<T, A>, start: *const T, i: usize) -> *mut T
    requires { (start ≡ vec_ptr items.now) × (i ≤ vec_capacity items.now) × (type_size T.row < 2 ^ 64) }
    ensures value { result ≡ place (type_size T.row) (vec_ptr items.now) i }
    ensures in_block { InBlock (vec_ptr items.now) }
    ensures small { vec_capacity items.now * type_size T.row < 2 ^ 63 }
{
    let from = start;
    unsafe { from.add(i) }.cast_mut()
}

/// Where element `i` lies, or past the last one of a full `Vec`.
pub(crate) fn pointer_to<T, A: Allocator>(items: &Vec<T, A>, i: usize) -> *mut T
    requires within { i ≤ vec_capacity items.now }
    requires size { type_size T.row < 2 ^ 64 }
    ensures value { result ≡ place (type_size T.row) (vec_ptr items.now) i }
    ensures in_block { InBlock (vec_ptr items.now) }
    ensures small { vec_capacity items.now * type_size T.row < 2 ^ 63 }
{
    pointer_from(items, items.as_ptr(), i)
}

/// The element at `p`.
pub(crate) fn follow<T, A: Allocator>(items: &Vec<T, A>, p: *mut T) -> &T
    requires { IsPlace (type_size T.row) (vec_ptr items.now) (vec_len items.now) p }
    ensures { result.now ≡ slice_index_or items.now.items (index_of (type_size T.row) (vec_ptr items.now) p) result.now }
{
    let at = p;
    unsafe { &*at }
}

/// The element at `p`, to be written.
pub(crate) fn follow_mut<T, A: Allocator>(items: &mut Vec<T, A>, p: *mut T) -> &mut T
    requires { IsPlace (type_size T.row) (vec_ptr items.old) (vec_len items.old) p }
    ensures* writes_back { sem 𝓛 (vec_follows_item T.row A.row A.Allocator items.entry (index_of (type_size T.row) (vec_ptr items.old) p) result) }
    ensures value { result.now ≡ slice_index_or items.old.items (index_of (type_size T.row) (vec_ptr items.old) p) result.now }
{
    let at = p;
    unsafe { &mut *at }
}

/// Whether two pointers into one block are the same.
#[inline(always)]
pub(crate) fn is_same<T>(p: *mut T, q: *mut T) -> bool
    requires { AreNear p q }
    ensures { MatchBool result (p ≡ q) (p ≢ q) }
{
    p == q
}
