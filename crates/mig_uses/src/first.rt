//! Sends all pages of a guest as a single stream, and loads it again, in one function. README and
//! the documentation of `zimgasol` quote it.

ghost use Rattle.std.specs.Prelude.{◌≡◌, IfSome};

use crate::every_page;
use std::alloc::Allocator;
use zimgasol::{MAX_TOTAL, Memory, SingleSender, load_single};

/// Sends all pages of a guest as one round of a stream, loads the stream, and returns the loaded
/// memory, which equals the guest's. Returns None if an allocation was refused.
pub fn copy<A: Allocator + Copy>(alloc: A, memory: &Memory<A>) -> Option<Memory<A>>
    ensures { IfSome result (λ loaded. loaded ≡ memory.now) }
{
    let table = memory.table();
    let dirty = every_page(alloc, table).ok()?;
    let mut sender = SingleSender::new(alloc, table).ok()?;
    sender.round(memory, &dirty).ok()?;
    let stream = sender.finish().ok()?;
    let loaded = load_single(alloc, table.page_size(), &stream, MAX_TOTAL);
    loaded.verdict.ok()?;
    loaded.memory
}

#[cfg(test)]
mod tests {
    use super::*;
    use zimgasol::{PAGE_SIZE_4K, Table, first_difference};

    // Creates a guest with one block of two pages, the second of which has a byte. Returns None if
    // an allocation was refused.
    fn guest<A: Allocator + Copy>(alloc: A) -> Option<Memory<A>> {
        let id = Vec::from_slice(alloc, b"pc.ram").ok()?;
        let mut blocks = Vec::new(alloc);
        blocks.push((id, 2)).ok()?;
        let table = Table::new(alloc, PAGE_SIZE_4K, blocks).ok()?;
        let mut memory = Memory::zeroed(alloc, &table).ok()?;
        // shows that the byte of `set` exists
        let table = memory.table();
        if table.len() == 0 || 4101 >= table.pages(0) * table.page_size() {
            return None;
        }
        memory.set(0, 4101, 7);
        Some(memory)
    }

    // Returns whether the copy of such a guest equals its memory.
    fn is_copied<A: Allocator + Copy>(alloc: A) -> Option<bool> {
        let memory = guest(alloc)?;
        let loaded = copy(alloc, &memory)?;
        Some(loaded.table().same(memory.table()) && first_difference(&loaded, &memory) == None)
    }

    #[test]
    fn a_guest_is_copied(rt: HostRuntime) {
        assert!(rt; is_copied(rt.alloc()) == Some(true));
    }
}
