//! The allocator of tests: its counts, and the allocation that it refuses.

use mig_fixtures::TestHeap;
use std::alloc::{AllocError, AllocGlobal};
use std::process::Abort;

// Returns `len` bytes of a heap.
fn bytes<'a>(heap: &'a TestHeap, len: usize) -> Result<Vec<u8, &'a TestHeap>, AllocError> {
    vec![in heap; 0u8; len]
}

// Returns whether a heap holds `held` bytes, and held `peak` at once.
fn counts(heap: &TestHeap, held: u64, peak: u64) -> bool {
    heap.held() == held && heap.peak() == peak
}

// Takes 100 bytes and 50 words, and gives the bytes back. Returns whether each is counted.
fn are_counted(heap: &TestHeap) -> Option<bool> {
    let first = bytes(heap, 100).ok()?;
    let second = vec![in heap; 0u32; 50].ok()?;
    let are_held = counts(heap, 300, 300);
    drop(first);
    let is_given_back = counts(heap, 200, 300);
    heap.reset_peak();
    drop(second);
    Some(are_held && is_given_back && counts(heap, 0, 200))
}

#[test]
fn held_and_peak(rt: HostRuntime) {
    assert!(rt; are_counted(&TestHeap::new(rt.alloc())) == Some(true));
}

// No system has this much memory.
#[test]
fn allocation_that_the_system_refuses_is_not_held(rt: HostRuntime) {
    let heap = TestHeap::new(rt.alloc());
    let is_refused = bytes(&heap, 1 << 62).is_err();
    assert!(rt; is_refused && counts(&heap, 0, 0));
}

// Returns whether the second of three allocations is refused, and no other one.
fn second_is_refused(heap: &TestHeap) -> Option<bool> {
    let was_waiting = heap.is_waiting();
    heap.refuse(2);
    let first = bytes(heap, 100).ok()?;
    let is_waiting = heap.is_waiting();
    let is_refused = bytes(heap, 50).is_err() && !heap.is_waiting() && counts(heap, 100, 100);
    drop(first);
    let third = bytes(heap, 50).ok()?;
    let is_held = counts(heap, 50, 100);
    drop(third);
    Some(!was_waiting && is_waiting && is_refused && is_held && counts(heap, 0, 100))
}

#[test]
fn second_allocation_is_refused_and_not_held(rt: HostRuntime) {
    assert!(rt; second_is_refused(&TestHeap::new(rt.alloc())) == Some(true));
}
