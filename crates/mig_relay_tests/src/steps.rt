//! The steps of a feeder, which it reports to its gate, on one thread.

use crate::pieces::{drain, feed, relay_of};
use crate::texts::{syncs, two_channels};
use mig_packet::{Gate, Step};
use std::sync::atomic::{AtomicU64, Ordering};

// A gate of channel 1 that counts the steps that pass it in order: item i is found as step 2 * i,
// and pushed as the next one.
#[derive(Drop)]
struct Steps {
    reported: AtomicU64,
    strange: AtomicU64,
}

impl Gate for Steps {
    fn pass(&self, channel: usize, step: Step) {
        if channel == 0 {
            return;
        }
        let place = self.reported.fetch_add(1, Ordering::SeqCst);
        let is_next = match step {
            Step::Found(piece) => piece.wrapping_mul(2) == place,
            Step::Pushed(piece) => piece.wrapping_mul(2).wrapping_add(1) == place,
            _ => false,
        };
        if channel != 1 || !is_next {
            self.strange.fetch_add(1, Ordering::SeqCst);
        }
    }
}

impl Steps {
    fn are_ten(&self) -> bool {
        self.reported.load(Ordering::SeqCst) == 10 && self.strange.load(Ordering::SeqCst) == 0
    }
}

// The hello, three SYNC packets and the stop make ten steps.
#[test]
fn steps_of_a_feeder(rt: HostRuntime) {
    let texts = two_channels(&rt, syncs(&rt, 0, 1, 0), syncs(&rt, 1, 1, 3));
    let (feeders, collector) = relay_of(&rt, &texts, 64);
    let gate = Steps {
        reported: AtomicU64::new(0),
        strange: AtomicU64::new(0),
    };
    for feeder in feeders {
        feed(&rt, feeder, &gate);
    }
    assert!(rt; gate.are_ten());
    drain(&rt, collector, 2);
}
