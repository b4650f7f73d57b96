//! A gate that one worker alone doesn't pass.

use mig_packet::{Gate, Step};
use std::sync::atomic::{AtomicU64, Ordering};
use std::thread::yield_now;

/// Waits until a word has all these bits, and returns whether it has. It gives up after a while.
pub(crate) fn reaches(word: &AtomicU64, bits: u64) -> bool {
    for turn in 0..100_000_000u64 {
        if word.load(Ordering::SeqCst) & bits == bits {
            return true;
        }
        if turn % 16 == 0 {
            yield_now();
        }
    }
    false
}

/// A gate of two channels: each worker waits at its first step until the other has reached its
/// first step.
#[derive(Drop)]
pub(crate) struct Meeting {
    come: AtomicU64,
    given_up: AtomicU64,
}

impl Meeting {
    pub(crate) fn new() -> Meeting {
        Meeting {
            come: AtomicU64::new(0),
            given_up: AtomicU64::new(0),
        }
    }

    /// Returns whether both workers came, and neither gave up.
    pub(crate) fn have_met(&self) -> bool {
        self.come.load(Ordering::SeqCst) == 3 && self.given_up.load(Ordering::SeqCst) == 0
    }
}

impl Gate for Meeting {
    fn pass(&self, channel: usize, _: Step) {
        let bit = if channel == 0 { 1 } else { 2 };
        let before = self.come.fetch_or(bit, Ordering::SeqCst);
        if before & bit == 0 && !reaches(&self.come, 3) {
            self.given_up.fetch_add(1, Ordering::SeqCst);
        }
    }
}
