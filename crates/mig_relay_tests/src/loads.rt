//! Loads on several channels whose workers pass a gate: the items that each worker found and
//! pushed, and that the workers run concurrently for the whole load.
//!
//! Loads whose workers pass no gate are cases of `mig_rows`, in `several.txt`.

use crate::meeting::{Meeting, reaches};
use crate::texts::{
    LIMIT, channels_of_sevens, is_done, is_failed, is_read_to, main_of, one_channel, syncs,
    two_channels,
};
use mig_load_types::{Fault, Loaded};
use mig_packet::{Gate, Step};
use mig_relay::load_multi;
use std::alloc::AllocGlobal;
use std::process::Abort;
use std::sync::Wait;
use std::sync::atomic::{AtomicU64, Ordering};
use std::thread::Threads;
use uuid::Uuid;

// Loads streams with a gate.
fn load<R: AllocGlobal + Abort + Threads + Wait + Sync, G: Gate + Sync>(
    rt: &R,
    main: &[u8],
    channels: &[Vec<u8>],
    gate: &G,
) -> Loaded {
    assert!(rt; 1 <= channels.len() && channels.len() <= 255);
    load_multi(
        rt,
        rt.alloc(),
        4096,
        &Uuid::nil(),
        main,
        channels,
        LIMIT,
        gate,
    )
}

// A gate that counts the items found and those pushed.
#[derive(Drop)]
struct Counting {
    found: AtomicU64,
    pushed: AtomicU64,
}

impl Gate for Counting {
    fn pass(&self, _: usize, step: Step) {
        match step {
            Step::Found(_) => self.found.fetch_add(1, Ordering::SeqCst),
            Step::Pushed(_) => self.pushed.fetch_add(1, Ordering::SeqCst),
            _ => 0,
        };
    }
}

impl Counting {
    fn has_counted(&self, items: u64) -> bool {
        self.found.load(Ordering::SeqCst) == items && self.pushed.load(Ordering::SeqCst) == items
    }
}

// The verdict is reached at the first of 100 rounds. The worker still pushes its hello, the SYNC
// packets and the stop, and has ended when the load returns.
#[test]
fn channel_with_many_rounds_more(rt: HostRuntime) {
    let gate = Counting {
        found: AtomicU64::new(0),
        pushed: AtomicU64::new(0),
    };
    let texts = one_channel(&rt, syncs(&rt, 0, 1, 100));
    let loaded = load(&rt, &main_of(&rt, 1, 0), &texts, &gate);
    assert!(rt; is_failed(&loaded, Fault::Extra) && gate.has_counted(102));
}

// Workers that run in turn don't get through.
#[test]
fn two_workers_at_once(rt: HostRuntime) {
    let gate = Meeting::new();
    let loaded = load(&rt, &main_of(&rt, 2, 1), &channels_of_sevens(&rt), &gate);
    assert!(rt; is_done(&loaded, 1, 7) && gate.have_met());
    assert!(rt; is_read_to(&loaded, 0, 101));
}

// A gate of two channels: channel 0 waits with its first item until channel 1 has pushed its item
// 2.
#[derive(Drop)]
struct Lasting {
    pushed: AtomicU64,
    given_up: AtomicU64,
}

impl Gate for Lasting {
    fn pass(&self, channel: usize, step: Step) {
        if channel == 1 && step == Step::Pushed(2) {
            self.pushed.store(1, Ordering::SeqCst);
        }
        if channel == 0 && step == Step::Found(0) && !reaches(&self.pushed, 1) {
            self.given_up.fetch_add(1, Ordering::SeqCst);
        }
    }
}

impl Lasting {
    fn has_lasted(&self) -> bool {
        self.pushed.load(Ordering::SeqCst) == 1 && self.given_up.load(Ordering::SeqCst) == 0
    }
}

// Item 2 is the SYNC packet of the second round: workers that are started again for each round
// wouldn't get through.
#[test]
fn worker_that_lasts(rt: HostRuntime) {
    let gate = Lasting {
        pushed: AtomicU64::new(0),
        given_up: AtomicU64::new(0),
    };
    let texts = two_channels(&rt, syncs(&rt, 0, 2, 2), syncs(&rt, 1, 2, 2));
    let loaded = load(&rt, &main_of(&rt, 1, 2), &texts, &gate);
    assert!(rt; is_done(&loaded, 2, 0) && gate.has_lasted());
    assert!(rt; is_read_to(&loaded, 1, 127));
}
