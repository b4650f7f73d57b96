//! The items that a load and a drain leave in a relay, the capacity of a queue, and the steps at
//! which a feeder passes its gate.

use crate::meeting::reaches;
use crate::pieces::{drain, feed, is_over, relay_of, takes};
use crate::texts::{LIMIT, is_failed, main_of, one_channel, syncs, two_channels};
use mig_load_types::Fault;
use mig_packet::{Gate, OpenGate, Step};
use mig_relay::{Collector, Feeder, FeederStep, load_relayed};
use std::alloc::AllocGlobal;
use std::process::Abort;
use std::sync::Wait;
use std::sync::atomic::{AtomicU64, Ordering};
use std::thread::{self, Threads, yield_now};

// Pushes an item that isn't the stop.
fn step<'a, R: Abort + Wait>(rt: &R, feeder: Feeder<'a>) -> Feeder<'a> {
    match feeder.step(rt, &OpenGate) {
        FeederStep::More(feeder) => feeder,
        FeederStep::Ended(_) => panic!(rt; "the stop"),
    }
}

// Loads a relay beside a main stream without a round. Returns whether there is a round too many.
fn is_extra<R: AllocGlobal + Abort + Wait>(rt: &R, collector: &mut Collector<'_>) -> bool {
    let loaded = load_relayed(rt, rt.alloc(), collector, &main_of(rt, 1, 0), LIMIT);
    is_failed(&loaded, Fault::Extra)
}

// The main stream has no round, so the first SYNC packet decides the load: it doesn't wait for
// items that are pushed later.
#[test]
fn load_takes_no_more_than_it_needs(rt: HostRuntime) {
    let texts = one_channel(&rt, syncs(&rt, 0, 1, 3));
    let (mut feeders, mut collector) = relay_of(&rt, &texts, 64);
    // (the hello and the first SYNC packet)
    let feeder = step(&rt, step(&rt, feeders.pop().expect(&rt, "a feeder")));
    assert!(rt; is_extra(&rt, &mut collector));
    feed(&rt, feeder, &OpenGate);
    drain(&rt, collector, 1);
}

// The second channel's feeder never pushes, as a worker that couldn't be started: the drain of the
// first one doesn't wait for it.
#[test]
fn drain_leaves_channels_without_a_worker(rt: HostRuntime) {
    let texts = two_channels(&rt, syncs(&rt, 0, 1, 1), syncs(&rt, 1, 1, 1));
    let (mut feeders, collector) = relay_of(&rt, &texts, 64);
    let second = feeders.pop().expect(&rt, "a feeder");
    feed(&rt, feeders.pop().expect(&rt, "a feeder"), &OpenGate);
    drain(&rt, collector, 1);
    drop(second);
}

// 102 items wait in a queue that has room for them.
#[test]
fn queue_has_room_for_its_capacity(rt: HostRuntime) {
    let texts = one_channel(&rt, syncs(&rt, 0, 1, 100));
    let (mut feeders, collector) = relay_of(&rt, &texts, 102);
    feed(&rt, feeders.pop().expect(&rt, "a feeder"), &OpenGate);
    drain(&rt, collector, 1);
}

// ---- one more thread

// The steps that the gate below has seen, as bits: item 1 was found, and item 1 was pushed.
const FOUND: u64 = 1;

const PUSHED: u64 = 2;

// A gate that shows the feeder's progress with item 1.
#[derive(Drop)]
struct Watch {
    seen: AtomicU64,
}

impl Gate for Watch {
    fn pass(&self, _: usize, step: Step) {
        match step {
            Step::Found(1) => drop(self.seen.fetch_or(FOUND, Ordering::SeqCst)),
            Step::Pushed(1) => drop(self.seen.fetch_or(PUSHED, Ordering::SeqCst)),
            _ => {}
        }
    }
}

// Item 1 is found while item 0 is in the queue, and isn't pushed before item 0 is taken.
fn item_1_waits<R: Wait>(rt: &R, collector: &mut Collector<'_>, gate: &Watch) -> bool {
    if !reaches(&gate.seen, FOUND) {
        return false;
    }
    for _ in 0..10_000u64 {
        yield_now();
    }
    gate.seen.load(Ordering::SeqCst) == FOUND
        && takes(rt, collector, 0, 5)
        && is_over(rt, collector, 0)
}

// Starts a worker for the feeder, and takes its items.
fn take_beside<'a, R: Abort + Threads + Wait + Sync>(
    rt: &R,
    feeder: Feeder<'a>,
    collector: Collector<'a>,
    gate: &Watch,
) {
    thread::scope(thread::scope_env(), rt, move |scope| {
        let mut collector = collector;
        let Ok(worker) = scope.spawn(move || feed(rt, feeder, gate)) else {
            panic!(rt; "a worker")
        };
        assert!(rt; item_1_waits(rt, &mut collector, gate));
        worker.join(rt);
    });
}

// A hello, three SYNC packets and the stop pass a queue that holds one item.
#[test]
fn queue_of_one_holds_one_item(rt: HostRuntime) {
    let texts = one_channel(&rt, syncs(&rt, 0, 1, 3));
    let (mut feeders, collector) = relay_of(&rt, &texts, 1);
    let feeder = feeders.pop().expect(&rt, "a feeder");
    let gate = Watch {
        seen: AtomicU64::new(0),
    };
    take_beside(&rt, feeder, collector, &gate);
    assert!(rt; gate.seen.load(Ordering::SeqCst) == FOUND | PUSHED);
}
