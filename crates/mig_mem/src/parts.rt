//! A list in parts of one length, one after another. `Pages` keeps pages so, and `Slots` leaves.
//! Lent memory is read and written so.

ghost use Rattle.std.specs.Prelude.{◌≡◌, ◌+◌, ◌*◌, ◌<◌, ◌≤◌, ◌++◌, length, slice_set, vec_capacity, vec_len};
ghost use Rattle.mig_mem.specs.Parts.{part_at, ChangesPart};

use std::alloc::Allocator;

/// Returns part `part` of `items`, each part of which has `size` of them.
pub(crate) fn part_of<T>(items: &[T], size: u64, part: u64) -> &[T]
    requires { part * size + size ≤ length items.now }
    ensures { result.now ≡ part_at size items.now part }
{
    let start = (part * size) as usize;
    &items[start..start + size as usize]
}

/// Writes part `part` of `items`.
pub(crate) fn write_part<T: Copy>(items: &mut [T], size: u64, part: u64, content: &[T])
    requires room { part * size + size ≤ length items.old }
    requires len { length content.now ≡ size }
    ensures { ChangesPart size items.old items.new part content.now }
{
    let start = (part * size) as usize;
    items[start..start + size as usize].copy_from_slice(content);
}

// Writes one item.
fn write_item<T: Copy>(items: &mut [T], at: u64, item: T)
    requires { at < length items.old }
    ensures { items.new ≡ slice_set items.old at item }
{
    items[at as usize] = item;
}

/// Writes one item of part `part`, `offset` items into it.
pub(crate) fn write_in_part<T: Copy>(items: &mut [T], size: u64, part: u64, offset: u64, item: T)
    requires room { part * size + size ≤ length items.old }
    requires offset { offset < size }
    ensures { ChangesPart size items.old items.new part (slice_set (part_at size items.old part) offset item) }
{
    write_item(items, part * size + offset, item);
}

/// Appends `more`, for which `kept` has room.
pub(crate) fn append<T: Copy, A: Allocator>(kept: &mut Vec<T, A>, more: &[T])
    requires { vec_len kept.old + length more.now ≤ vec_capacity kept.old }
    ensures items { kept.new.items ≡ kept.old.items ++ more.now }
    ensures len { vec_len kept.new ≡ vec_len kept.old + length more.now }
    ensures capacity { vec_capacity kept.old ≤ vec_capacity kept.new }
{
    kept.extend_from_slice(more).unwrap();
}

/// Appends `more`, for which `kept` has room, with `item` in the place of one of them.
pub(crate) fn append_with<T: Copy, A: Allocator>(
    kept: &mut Vec<T, A>,
    more: &[T],
    offset: u64,
    item: T,
)
    requires room { vec_len kept.old + length more.now ≤ vec_capacity kept.old }
    requires offset { offset < length more.now }
    ensures items { kept.new.items ≡ kept.old.items ++ slice_set more.now offset item }
    ensures len { vec_len kept.new ≡ vec_len kept.old + length more.now }
    ensures capacity { vec_capacity kept.old ≤ vec_capacity kept.new }
{
    let at = kept.len() as u64 + offset;
    append(kept, more);
    write_item(kept, at, item);
}
