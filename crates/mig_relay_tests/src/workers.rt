//! A relay with a worker for each channel, each on its own thread, while the collector takes on
//! another thread.

use crate::pieces::{Seen, drain, feed, has_received, is_over, relay_of, takes};
use crate::texts::{channels_of_sevens, syncs, two_channels};
use mig_packet::OpenGate;
use mig_relay::{ChannelEnd, Collector, Feeder};
use std::alloc::AllocGlobal;
use std::process::Abort;
use std::sync::Wait;
use std::thread::{self, JoinHandle, Scope, Threads};

// The items to take from a channel: its first ones, and whether the stop is one of them.
#[derive(Clone, Copy)]
struct Wanted<'a> {
    pieces: &'a [Seen],
    over: bool,
}

// Starts a worker for each feeder.
fn start_workers<'s, 'a: 's, E, R: Abort + Threads + Wait + Sync>(
    scope: &'s Scope<'s, E>,
    rt: &'s R,
    feeders: Vec<Feeder<'a>>,
    workers: &mut Vec<JoinHandle<()>>,
) {
    for feeder in feeders {
        let Ok(worker) = scope.spawn(move || feed(rt, feeder, &OpenGate)) else {
            panic!(rt; "a worker")
        };
        assert!(rt; workers.push(worker).is_ok());
    }
}

// Takes the wanted items of each channel.
fn takes_wanted<R: Wait>(rt: &R, collector: &mut Collector<'_>, wanted: &[Wanted<'_>]) -> bool {
    for (j, wanted) in wanted.iter().enumerate() {
        if !takes(rt, collector, j, wanted.pieces.len()) {
            return false;
        }
        if wanted.over && !is_over(rt, collector, j) {
            return false;
        }
        if !has_received(collector, j, wanted.pieces) {
            return false;
        }
    }
    true
}

// Relays the streams through queues of this capacity, takes the wanted items, drains, and waits for
// the workers to end.
fn relay<R: AllocGlobal + Abort + Threads + Wait + Sync>(
    rt: &R,
    texts: &[Vec<u8>],
    capacity: usize,
    wanted: &[Wanted<'_>],
) {
    let (feeders, collector) = relay_of(rt, texts, capacity);
    thread::scope(thread::scope_env(), rt, move |scope| {
        let mut collector = collector;
        let mut workers = Vec::new(rt.alloc());
        start_workers(scope, rt, feeders, &mut workers);
        assert!(rt; takes_wanted(rt, &mut collector, wanted));
        drain(rt, collector, wanted.len());
        for worker in workers {
            worker.join(rt);
        }
    });
}

const CLEAN: Seen = Seen::Stop(ChannelEnd::Clean);

const ALL: [Wanted<'static>; 2] = [
    Wanted {
        pieces: &[Seen::Hello(0), Seen::Page(0), Seen::Sync(2), CLEAN],
        over: true,
    },
    Wanted {
        pieces: &[Seen::Hello(1), Seen::Page(1), Seen::Sync(3), CLEAN],
        over: true,
    },
];

// All items of two channels, also through queues that have room for one item.
#[test]
fn two_channels_on_two_threads(rt: HostRuntime) {
    let texts = channels_of_sevens(&rt);
    relay(&rt, &texts, 64, &ALL);
    relay(&rt, &texts, 1, &ALL);
}

const FEW: [Wanted<'static>; 2] = [
    Wanted {
        pieces: &[Seen::Hello(0), Seen::Sync(0), Seen::Sync(1)],
        over: false,
    },
    Wanted {
        pieces: &[],
        over: false,
    },
];

// Three of 102 items are taken of one channel, and none of the other: a worker that waits at a full
// queue continues when the rest is dropped.
#[test]
fn pieces_that_nobody_takes(rt: HostRuntime) {
    let texts = two_channels(&rt, syncs(&rt, 0, 1, 100), syncs(&rt, 1, 1, 100));
    relay(&rt, &texts, 64, &FEW);
    relay(&rt, &texts, 1, &FEW);
}
