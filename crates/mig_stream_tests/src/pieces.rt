//! The loader that is fed in pieces, with the allocation of the guest's memory refused: the
//! sections wait, and are applied when there is memory.

use crate::building::two_rounds;
use mig_fixtures::{TestHeap, at, has_byte, is_full};
use mig_load_types::{FeedFault, LoadSettings};
use mig_mem::{MAX_TOTAL, PAGE_SIZE_4K};
use mig_single_load::SingleLoader;

// Returns a loader that was fed a stream with allocation `nth` refused, if that left it without the
// guest's memory.
fn without_guest_memory<'a>(
    heap: &'a TestHeap,
    stream: &[u8],
    nth: u64,
) -> Option<SingleLoader<&'a TestHeap>> {
    let mut loader = SingleLoader::new(heap, LoadSettings::new(PAGE_SIZE_4K, MAX_TOTAL));
    if stream.len() as u64 > MAX_TOTAL {
        return None;
    }
    heap.refuse(nth);
    let answer = loader.feed(stream);
    heap.refuse(0);
    if answer == Err(FeedFault::NoGuestMemory) {
        Some(loader)
    } else {
        None
    }
}

// Returns whether a loader without a memory applies the sections of the stream that wait.
fn settles(loader: &mut SingleLoader<&TestHeap>) -> bool {
    if loader.memory().is_some() || loader.settle() != Ok(()) || loader.verdict() != Ok(()) {
        return false;
    }
    match loader.memory() {
        Some(memory) => has_byte(memory, at(0, 1), 0, 7) && is_full(memory, at(1, 64), 0),
        None => false,
    }
}

#[test]
fn settled_once_there_is_memory(rt: HostRuntime) {
    let heap = TestHeap::new(rt.alloc());
    let stream = two_rounds(&rt);
    let mut settled = 0u64;
    for nth in 1..100u64 {
        if let Some(mut loader) = without_guest_memory(&heap, &stream, nth) {
            assert!(rt; settles(&mut loader));
            settled = settled.saturating_add(1);
        }
    }
    assert!(rt; settled > 0);
}
