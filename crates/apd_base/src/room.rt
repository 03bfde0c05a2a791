//! Room for more elements in vectors.

ghost use Rattle.std.specs.Prelude.{◌≡◌, ◌+◌, ◌<◌, ◌≤◌, vec_len, vec_capacity, OnOk};

use std::alloc::AllocError;
use std::mem::size_of_val;

/// The bytes of a vector from which on it fills whole large pages when it grows.
const LARGE: usize = 256 * 1024;

/// The bytes of a large page, which a system gives at once where a block begins and ends with
/// one.
const LARGE_PAGE: usize = 2 * 1024 * 1024;

/// The bytes of its pages that a vector leaves to the allocator, which puts a header before each block.
const HEADER: usize = 32;

/// Room for one more element in a vector. Where it is there, as it mostly is, that takes a
/// comparison: a step of a search pushes on several vectors, and each push would be a call.
#[inline(always)]
pub fn room_for_one<T>(v: &mut Vec<T>) -> Result<(), AllocError>
    ensures items { v.new.items ≡ v.old.items }
    ensures len { vec_len v.new ≡ vec_len v.old }
    ensures room { OnOk result (vec_len v.new < vec_capacity v.new) }
{
    if v.len() < v.capacity() {
        return Ok(());
    }
    grow(v, 1)
}

/// Room for so many elements more in a vector, as [`room_for_one`] makes it for one.
#[inline(always)]
pub fn room_for<T>(v: &mut Vec<T>, count: usize) -> Result<(), AllocError>
    ensures items { v.new.items ≡ v.old.items }
    ensures len { vec_len v.new ≡ vec_len v.old }
    ensures room { OnOk result (vec_len v.new + count ≤ vec_capacity v.new) }
{
    if count <= v.capacity() - v.len() {
        return Ok(());
    }
    grow(v, count)
}

/// Makes a vector larger, so that there is room for so many elements more: a large one by whole
/// large pages, where there is memory for them. It is told to be seldom called: else the compiler
/// takes both ways of a push for equally likely, and this one takes registers of a search's loop.
#[inline(never)]
#[cold]
fn grow<T>(v: &mut Vec<T>, count: usize) -> Result<(), AllocError>
    ensures items { v.new.items ≡ v.old.items }
    ensures len { vec_len v.new ≡ vec_len v.old }
    ensures room { OnOk result (vec_len v.new + count ≤ vec_capacity v.new) }
{
    let bytes = size_of_val(v.as_slice());
    if bytes >= LARGE && v.reserve(larger(v.len(), bytes).max(count)).is_ok() {
        return Ok(());
    }
    v.reserve(count)
}

/// How many elements more a vector is given that has so many, which take so many bytes, so that it
/// fills whole large pages. A block that does is put where such a page begins, and the system gives
/// what is new of it by the page, not 4 KB by 4 KB.
fn larger(len: usize, bytes: usize) -> usize {
    if len == 0 {
        return 0;
    }
    let pages = bytes / (LARGE_PAGE / 2) + 1;
    let room = pages.saturating_mul(LARGE_PAGE).saturating_sub(HEADER);
    let element = (bytes / len).max(1);
    (room / element).saturating_sub(len)
}
