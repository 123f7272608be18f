//! Appending to a list that has room already.

ghost use Rattle.std.specs.Prelude.{◌≡◌, ◌+◌, ◌≤◌, ◌++◌, length, vec_len, vec_capacity};

use std::mem;

/// Appends elements where there is room for them. Unlike `extend_from_slice` it stores each element from a register, so
/// elements that were just computed take no way through memory.
#[inline(always)]
pub(crate) fn push_all<T: Copy>(items: &[T], out: &mut Vec<T>)
    requires { vec_len out.old + length items.now ≤ vec_capacity out.old }
    ensures items { out.new.items ≡ out.old.items ++ items.now }
    ensures len { vec_len out.new ≡ vec_len out.old + length items.now }
    ensures capacity { vec_capacity out.new ≡ vec_capacity out.old }
{
    for item in items {
        out.push_reserved(*item);
    }
}

/// Takes a list out of its place, where an empty one stays. A loop that owns its list keeps the list's address and
/// length in registers, where a loop over a borrowed one reads them again after each store.
#[inline(always)]
pub(crate) fn take_out<T: Drop>(out: &mut Vec<T>) -> Vec<T>
    ensures items { result.items ≡ out.old.items }
    ensures len { vec_len result ≡ vec_len out.old }
    ensures capacity { vec_capacity result ≡ vec_capacity out.old }
{
    let alloc = *out.allocator();
    mem::replace(out, Vec::new(alloc))
}
