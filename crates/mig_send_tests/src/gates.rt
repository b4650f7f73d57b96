//! The sender on two channels with gates that one worker alone doesn't pass. Each channel's packets
//! are those of the steps that its worker passed.

use crate::multi::{Round, finish, uuid};
use crate::working::Reported;
use mig_fixtures::{at, zeroed};
use mig_mem::Dirty;
use mig_packet::{ChannelReader, Gate, PacketRound, Step};
use mig_send::{MultiSender, Sent};
use std::alloc::{AllocGlobal, Global};
use std::process::Abort;
use std::sync::atomic::{AtomicU64, Ordering};
use std::thread::{Threads, yield_now};

// The most pages of a batch.
const LIMIT: usize = 128;

// The content of each page.
const SEVENS: [u8; 4096] = [7; 4096];

// Returns a round of all pages of one block.
fn round_of(alloc: Global, pages: u64) -> Option<Round> {
    let mut memory = zeroed(alloc, &[("a", pages)])?;
    let mut dirty = Dirty::none(alloc, memory.table()).ok()?;
    for page in 0..pages {
        let place = at(0, page);
        if !memory.table().holds(place) || memory.table().page_size() != 4096 {
            return None;
        }
        memory.put_page(place, &SEVENS);
        if !dirty.table().holds(place) {
            return None;
        }
        dirty.mark(place).ok()?;
    }
    Some(Round { memory, dirty })
}

// ---- gates

// A gate's state of a channel: its steps so far, one more than the last number that it drew, and
// the number of the other channel for which it is held, if it is held.
#[derive(Drop)]
struct Lane {
    reported: Reported,
    drawn: AtomicU64,
    until: Option<u64>,
}

impl Lane {
    fn new(rt: &(impl AllocGlobal + Abort), channel: usize, until: Option<u64>) -> Lane {
        Lane {
            reported: Reported::new(rt, channel),
            drawn: AtomicU64::new(0),
            until,
        }
    }

    // Waits until this channel has drawn this number or a later one, and returns whether it did. It
    // gives up after a while.
    fn reaches(&self, number: u64) -> bool {
        for turn in 0..100_000_000u64 {
            if self.drawn.load(Ordering::SeqCst) > number {
                return true;
            }
            if turn % 16 == 0 {
                yield_now();
            }
        }
        false
    }
}

// A gate of two channels. It holds each at its first draw until the other has drawn the number of
// its lane or a later one, and counts how often it gave up.
#[derive(Drop)]
struct Holding {
    first: Lane,
    second: Lane,
    given_up: AtomicU64,
}

impl Holding {
    fn new(rt: &(impl AllocGlobal + Abort), first: Option<u64>, second: Option<u64>) -> Holding {
        Holding {
            first: Lane::new(rt, 0, first),
            second: Lane::new(rt, 1, second),
            given_up: AtomicU64::new(0),
        }
    }
}

impl Gate for Holding {
    fn pass(&self, channel: usize, step: Step) {
        let (lane, other) = if channel == 0 {
            (&self.first, &self.second)
        } else {
            (&self.second, &self.first)
        };
        lane.reported.pass(channel, step);
        let Step::Drawn(number) = step else { return };
        let is_first = lane.drawn.swap(number.wrapping_add(1), Ordering::SeqCst) == 0;
        let Some(until) = lane.until else { return };
        if is_first && !other.reaches(until) {
            self.given_up.fetch_add(1, Ordering::SeqCst);
        }
    }
}

// ---- the packets of a channel

// Returns the only round of a channel.
fn round_in(alloc: Global, channel: &[u8]) -> Option<PacketRound> {
    let mut reader = ChannelReader::new(alloc, 4096, uuid(), 2);
    if reader.ended() || reader.fed().checked_add(channel.len() as u64).is_none() {
        return None;
    }
    reader.feed(channel).ok()?;
    reader.take_round().ok()?
}

// Returns the steps of the worker that wrote a round, as `Reported` keeps them: the draw and the
// packing of each packet with pages, and the draw that gave the SYNC packet its number.
fn steps_in(alloc: Global, round: &PacketRound) -> Option<Vec<u64>> {
    let mut steps = Vec::new(alloc);
    for packet in &round.packets().ok()? {
        let drawn = packet.number().wrapping_mul(2);
        steps.push(drawn).ok()?;
        if !packet.sync() {
            steps.push(drawn.wrapping_add(1)).ok()?;
        }
    }
    Some(steps)
}

// Returns whether a channel's packets are those of the steps that its gate was passed.
fn is_reported(alloc: Global, reported: &Reported, channel: &[u8]) -> bool {
    let Some(round) = round_in(alloc, channel) else {
        return false;
    };
    match steps_in(alloc, &round) {
        Some(steps) => reported.is(&steps),
        None => false,
    }
}

// Returns whether that is so of both channels, which have `len` bytes together, and the gate never
// gave up.
fn are_reported(alloc: Global, gate: &Holding, sent: &Sent, len: usize) -> bool {
    let [first, second] = sent.channels.as_slice() else {
        return false;
    };
    gate.given_up.load(Ordering::SeqCst) == 0
        && first.len().checked_add(second.len()) == Some(len)
        && is_reported(alloc, &gate.first.reported, first)
        && is_reported(alloc, &gate.second.reported, second)
}

// ---- two channels that are held

// Sends a round of one block of `pages` pages on two channels.
fn send<R: AllocGlobal + Abort + Threads + Sync>(rt: &R, pages: u64, gate: &Holding) -> Sent {
    let round = round_of(rt.alloc(), pages).expect(rt, "a round");
    let made = MultiSender::new(rt.alloc(), round.memory.table(), uuid(), 2, LIMIT);
    let mut sender = made.expect(rt, "a sender");
    assert!(rt; sender.round(rt, &round.memory, &round.dirty, gate) == Ok(()));
    finish(rt, sender)
}

// Two batches. No worker continues after its first draw before the other has drawn, so workers that
// run in turn don't get through, and each draws one batch: its draw, its packing, and the last draw
// make three steps. Two hellos, four heads and all pages make the bytes.
#[test]
fn two_workers_at_once(rt: HostRuntime) {
    let gate = Holding::new(&rt, Some(0), Some(0));
    let sent = send(&rt, 129, &gate);
    assert!(rt; are_reported(rt.alloc(), &gate, &sent, 128 + 4 * 1344 + 129 * 4096));
    assert!(rt; gate.first.reported.count() == 3 && gate.second.reported.count() == 3);
}

// Four batches, so numbers from 4 on claim none. One worker is held at its first draw until the
// other has drawn its last number. So the other packs all that is left, and the held one at most
// one batch, in three steps. This shows that a worker draws as it goes. If batch i were channel i
// mod 2's from the start, the gate would open too, but the held worker would pack two batches.
#[test]
fn one_worker_held(rt: HostRuntime) {
    let len = 128 + 6 * 1344 + 385 * 4096;
    let gate = Holding::new(&rt, Some(4), None);
    assert!(rt; are_reported(rt.alloc(), &gate, &send(&rt, 385, &gate), len));
    assert!(rt; gate.first.reported.count() <= 3);
    let gate = Holding::new(&rt, None, Some(4));
    assert!(rt; are_reported(rt.alloc(), &gate, &send(&rt, 385, &gate), len));
    assert!(rt; gate.second.reported.count() <= 3);
}
