//! An allocator that refuses one allocation, and counts the bytes that are held.
//!
//! A call that allocates can find no memory at any of its allocations. A test passes it a
//! [`TestHeap`], which refuses the allocation of a chosen number and passes each other one on. The
//! test runs the call with its first allocation refused, then with its second, and so on until a
//! run has no refusal. After each run it compares the answer, and the state of the values that the
//! call was passed. [`with_each_allocation_refused!`] is that loop, for a test that ends with its
//! last run.
//!
//! A call that promises to need little memory is run over a `TestHeap`, too, and its peak is
//! compared with what was promised. What is held at the end shows whether all was given back.
//!
//! It is no allocator for programs, and it has no memory of its own: each block comes from the
//! allocator inside it and goes back to that one. Pass it by reference, since `&TestHeap` is itself
//! an allocator, and `Copy`:
//!
//! ```text
//! let heap = TestHeap::new(rt.alloc());   // refuses none: make what the call takes
//! heap.refuse(nth);                       // from here on, refuses allocation number nth
//! let answer = Table::new(&heap, list);
//! heap.is_waiting()                       // true: no allocation was refused
//! heap.peak()                             // the most bytes that were held at once
//! ```
//!
//! Threads may share it. They share one count of allocations. So one allocation among all of theirs
//! is refused, and the schedule decides whose it is. They share one count of bytes, too.
//!
//! What is proved is that it is safe to use: a block that it returns is one of the allocator inside
//! it, with room for what was asked. No contract can say what an atomic holds, so none says which
//! allocation is refused and how many bytes are held: tests show it.

use std::alloc::{AllocError, Allocator, Global};
use std::sync::atomic::{AtomicU64, Ordering};

/// An allocator that passes each call on to another one, refuses one allocation, chosen by its
/// number, and counts the bytes that were asked for and aren't given back.
///
/// An allocation is a call of `allocate`. Each one is counted, from 1, also where the other
/// allocator then has no memory. A `grow` or a `shrink` of a block is one too, since it allocates
/// the new block before it gives the old one back, and for that time the bytes of both are held.
/// Giving a block back is neither counted as an allocation nor refused. The count of allocations is
/// exact for 2^63 of them, far more than a test makes. The bytes of a refused allocation aren't
/// counted, whichever allocator refused it.
pub struct TestHeap<A: Allocator = Global> {
    inner: A,
    tally: Tally,
}

// Written out, so that a caller's proof passes a call where a value is dropped.
impl<A: Allocator> Drop for TestHeap<A> {
    fn drop(self) {
        let TestHeap { inner: _, tally: _ } = self;
    }
}

#[derive(Drop)]
struct Tally {
    // The allocations up to the one to refuse, that one included. Below 1 it wraps round, and
    // refuses none.
    countdown: AtomicU64,
    // The bytes that are held, and the most that were.
    held: AtomicU64,
    peak: AtomicU64,
}

impl<A: Allocator> TestHeap<A> {
    /// Passes calls on to `inner`, refuses no allocation, and has counted nothing.
    pub fn new(inner: A) -> TestHeap<A> {
        let tally = Tally {
            countdown: AtomicU64::new(0),
            held: AtomicU64::new(0),
            peak: AtomicU64::new(0),
        };
        TestHeap { inner, tally }
    }

    /// Refuses allocation number `nth`, counted from 1 from here on, and none if `nth` is 0.
    pub fn refuse(&self, nth: u64) {
        self.tally.countdown.store(nth, Ordering::SeqCst);
    }

    /// Returns whether the chosen allocation is still to be refused. It is false after the refusal,
    /// and if none was chosen.
    pub fn is_waiting(&self) -> bool {
        let countdown = self.tally.countdown.load(Ordering::SeqCst);
        countdown > 0 && countdown <= u64::MAX / 2
    }

    /// Returns the bytes that are held now.
    pub fn held(&self) -> u64 {
        self.tally.held.load(Ordering::SeqCst)
    }

    /// Returns the most bytes that were held at once.
    pub fn peak(&self) -> u64 {
        self.tally.peak.load(Ordering::SeqCst)
    }

    /// Sets the peak to the bytes that are held now.
    pub fn reset_peak(&self) {
        self.tally.peak.store(self.held(), Ordering::SeqCst);
    }
}

impl Tally {
    // Counts one allocation, and returns whether it is the one to refuse.
    fn refuses(&self) -> bool {
        self.countdown.fetch_sub(1, Ordering::SeqCst) == 1
    }

    // Counts bytes that were taken, and bytes that are given back.
    fn count(&self, taken: usize, given: usize) {
        let change = (taken as u64).wrapping_sub(given as u64);
        let before = self.held.fetch_add(change, Ordering::SeqCst);
        self.peak
            .fetch_max(before.wrapping_add(change), Ordering::SeqCst);
    }
}

unsafe impl<A: Allocator> Allocator for TestHeap<A> {
    ghost dealloc_token = { λ heap ty ptr. A.dealloc_token heap.inner ty ptr };

    fn allocate(&self, size: usize, align: usize) -> Result<*mut u8, AllocError> {
        if self.tally.refuses() {
            return Err(AllocError);
        }
        match self.inner.allocate(size, align) {
            Ok(block) => {
                self.tally.count(size, 0);
                Ok(block)
            }
            Err(error) => Err(error),
        }
    }

    unsafe fn deallocate(&self, ptr: *mut u8, size: usize, align: usize) {
        self.tally.count(0, size);
        self.inner.deallocate(ptr, size, align);
    }
}

/// Runs a call with allocation 1 refused, then with allocation 2, and so on, up to the first run
/// that has no refusal, whose answer is passed to the block. A run with a refusal has to return
/// fault 60, and there has to be one.
#[macro_export]
macro_rules! with_each_allocation_refused {
    ($rt:expr, $heap:expr, $call:expr, $answer:ident => $checks:block) => {
        for nth in 1..1000u64 {
            $heap.refuse(nth);
            let run = $call;
            let is_waiting = $heap.is_waiting();
            $heap.refuse(0);
            match run {
                Ok($answer) => {
                    assert!($rt; is_waiting);
                    assert!($rt; nth > 1);
                    $checks
                    return Ok(());
                }
                Err(fault) => {
                    assert!($rt; !is_waiting);
                    assert_eq!($rt; fault.number(), 60);
                }
            }
        }
        panic!($rt; "each run had a refusal");
    };
}
