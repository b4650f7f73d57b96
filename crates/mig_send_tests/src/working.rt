//! A worker that has a deal for itself: its packets, and the steps that it passes to its gate, also
//! after a refused allocation.

use crate::alone::work_alone;
use crate::batches::{batches_of, memory_of};
use mig_fixtures::{TestHeap, at, put_page_and_zeros};
use mig_mem::Place;
use mig_packet::{Gate, Step};
use mig_send::Packed;
use std::alloc::{AllocGlobal, Global};
use std::process::Abort;
use std::sync::atomic::{AtomicU64, Ordering};

const CHANNEL: usize = 3;

/// A gate of one channel that keeps the steps that pass it, in order: twice the number of a draw,
/// and one more if its packet was made.
#[derive(Drop)]
pub(crate) struct Reported {
    channel: usize,
    count: AtomicU64,
    steps: Vec<AtomicU64>,
}

impl Reported {
    /// Creates a gate that keeps up to 16 steps.
    pub(crate) fn new(rt: &(impl AllocGlobal + Abort), channel: usize) -> Reported {
        let mut steps = Vec::new(rt.alloc());
        for _ in 0..16 {
            assert!(rt; steps.push(AtomicU64::new(u64::MAX)).is_ok());
        }
        Reported {
            channel,
            count: AtomicU64::new(0),
            steps,
        }
    }

    /// Returns how many steps have passed it.
    pub(crate) fn count(&self) -> u64 {
        self.count.load(Ordering::SeqCst)
    }

    /// Returns whether exactly these steps have passed it.
    pub(crate) fn is(&self, wanted: &[u64]) -> bool {
        for (reported, step) in self.steps.iter().zip(wanted) {
            if reported.load(Ordering::SeqCst) != *step {
                return false;
            }
        }
        self.count() == wanted.len() as u64 && wanted.len() <= self.steps.len()
    }
}

impl Gate for Reported {
    fn pass(&self, channel: usize, step: Step) {
        let reported = match step {
            Step::Drawn(number) if channel == self.channel => number.wrapping_mul(2),
            Step::Packed(number) if channel == self.channel => number
                .wrapping_mul(2)
                .wrapping_add(1),
            _ => u64::MAX,
        };
        let place = self.count.fetch_add(1, Ordering::SeqCst);
        if let Some(step) = self.steps.get(place as usize) {
            step.store(reported, Ordering::SeqCst);
        }
    }
}

// Returns whether packets are one, number 0, with a page and a page of zeros.
fn are_one(alloc: Global, packets: &[Packed]) -> Option<bool> {
    let mut wanted = Vec::new(alloc);
    put_page_and_zeros(&mut wanted).ok()?;
    let packet = packets.first()?;
    Some(packets.len() == 1 && packet.number() == 0 && packet.bytes() == wanted.as_slice())
}

#[test]
fn one_batch(rt: HostRuntime) {
    let memory = memory_of(&rt, &[("a", 2)]);
    let batches = batches_of(&rt, memory.table(), &[at(0, 0), at(0, 1)], 128);
    let gate = Reported::new(&rt, CHANNEL);
    let alone = work_alone(&rt, rt.alloc(), 0, CHANNEL, &memory, &batches, &gate);
    assert!(rt; alone.last == 1 && alone.next == 2 && gate.is(&[0, 1, 2]));
    assert!(rt; are_one(rt.alloc(), &alone.packets.expect(&rt, "packets")) == Some(true));
}

// Three batches of a page each.
const PLACES: [Place; 3] = [
    Place { block: 0, page: 0 },
    Place { block: 0, page: 2 },
    Place { block: 1, page: 1 },
];

// The numbers of their packets, the first bytes of their blocks' ids, and the offsets of their
// pages in units of 256 bytes.
const PACKETS: [(u64, u8, u8); 3] = [(7, b'a', 0), (8, b'a', 0x20), (9, b'b', 0x10)];

// Returns whether a packet has this number and one zero page, of a block whose id is this byte, at
// the offset `offset` * 256.
fn is_zeros(packet: &Packed, number: u64, id: u8, offset: u8) -> bool {
    let bytes = packet.bytes();
    packet.number() == number
        && bytes.len() == 1344
        && bytes.get(24..32) == Some(&number.to_be_bytes()[..])
        && bytes.get(64) == Some(&id)
        && bytes.get(320..328) == Some(&[0, 0, 0, 0, 0, 0, offset, 0][..])
}

// Returns whether packets are those three.
fn are_packed(packets: &[Packed]) -> bool {
    for (packet, (number, id, offset)) in packets.iter().zip(PACKETS) {
        if !is_zeros(packet, number, id, offset) {
            return false;
        }
    }
    packets.len() == 3
}

#[test]
fn batches_of_two_blocks(rt: HostRuntime) {
    let memory = memory_of(&rt, &[("a", 3), ("b", 2)]);
    let batches = batches_of(&rt, memory.table(), &PLACES, 1);
    let gate = Reported::new(&rt, CHANNEL);
    let alone = work_alone(&rt, rt.alloc(), 7, CHANNEL, &memory, &batches, &gate);
    assert!(rt; alone.last == 10 && alone.next == 11);
    assert!(rt; gate.is(&[14, 15, 16, 17, 18, 19, 20]));
    assert!(rt; are_packed(&alone.packets.expect(&rt, "packets")));
}

// After the allocation of the second packet was refused it continues to draw, and packs no more.
#[test]
fn draws_on_after_a_refusal(rt: HostRuntime) {
    let heap = TestHeap::new(rt.alloc());
    let memory = memory_of(&rt, &[("a", 3), ("b", 2)]);
    let batches = batches_of(&rt, memory.table(), &PLACES, 1);
    let gate = Reported::new(&rt, CHANNEL);
    heap.refuse(5);
    let alone = work_alone(&rt, &heap, 0, CHANNEL, &memory, &batches, &gate);
    assert!(rt; alone.last == 3 && alone.next == 4 && alone.packets.is_err());
    assert!(rt; gate.is(&[0, 1, 2, 4, 6]));
}
