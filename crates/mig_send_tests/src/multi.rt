//! The sender on several channels, each channel's worker on a thread of its own: two rounds of one
//! guest, whose streams are also made by hand, of the same batches and their packets.

use crate::batches::{cut_at, memory_of};
use mig_fixtures::{at, places_of, set, table};
use mig_mem::{Dirty, Memory};
use mig_packet::{Gate, Step, hello, put_packet};
use mig_send::{MultiSender, Sent, pack};
use mig_stream::StreamWriter;
use std::alloc::{AllocGlobal, Allocator};
use std::process::Abort;
use std::sync::atomic::{AtomicU64, Ordering};
use std::thread::{Threads, yield_now};
use uuid::Uuid;

/// The most pages of a batch.
pub(crate) const LIMIT: usize = 2;

/// The guest's blocks.
pub(crate) const BLOCKS: [(&str, u64); 2] = [("a", 3), ("b", 3)];

/// Returns the UUID of all senders.
pub(crate) fn uuid() -> Uuid {
    Uuid::from_bytes([1, 2, 3, 4, 5, 6, 7, 8, 9, 10, 11, 12, 13, 14, 15, 16])
}

// ---- the rounds

/// A guest's memory, and its dirty pages.
#[derive(Drop)]
pub(crate) struct Round {
    pub(crate) memory: Memory,
    pub(crate) dirty: Dirty,
}

/// Returns six pages in four batches: pages 0 and 1 of block 0, then its page 2, and these pages of
/// block 1. All but page 1 of block 0 are zeros.
pub(crate) fn first_round(rt: &(impl AllocGlobal + Abort)) -> Round {
    let memory = memory_of(rt, &BLOCKS);
    let places = [at(0, 0), at(0, 1), at(0, 2), at(1, 0), at(1, 1), at(1, 2)];
    let dirty = places_of(rt.alloc(), memory.table(), &places).expect(rt, "a set");
    Round { memory, dirty }
}

/// Returns two pages in two batches: one of zeros, and one that is no longer zeros.
pub(crate) fn second_round(rt: &(impl AllocGlobal + Abort)) -> Round {
    let mut memory = memory_of(rt, &BLOCKS);
    assert!(rt; set(&mut memory, 1, 8191, 7));
    let places = [at(0, 2), at(1, 1)];
    let dirty = places_of(rt.alloc(), memory.table(), &places).expect(rt, "a set");
    Round { memory, dirty }
}

// ---- the streams by hand

// Appends the packets of a round by their numbers, after those of the rounds before: one for each
// batch, and a SYNC packet for each channel.
fn put_round(
    rt: &(impl AllocGlobal + Abort),
    packets: &mut Vec<Vec<u8>>,
    round: &Round,
    channels: usize,
) {
    let run = cut_at(rt, rt.alloc(), round.memory.table(), &round.dirty, LIMIT);
    for batch in &run.expect(rt, "batches") {
        let number = packets.len() as u64;
        let packed = pack(rt.alloc(), &round.memory, batch, number).expect(rt, "a packet");
        let bytes = Vec::from_slice(rt.alloc(), packed.bytes()).expect(rt, "a packet");
        assert!(rt; packets.push(bytes).is_ok());
    }
    for _ in 0..channels {
        let number = packets.len() as u64;
        let mut bytes = Vec::new(rt.alloc());
        assert!(rt; put_packet(4096, &mut bytes, number, true, &[], &[], &[], &[]).is_ok());
        assert!(rt; packets.push(bytes).is_ok());
    }
}

/// Returns the packets of both rounds by their numbers.
pub(crate) fn packets_by_hand(rt: &(impl AllocGlobal + Abort), channels: usize) -> Vec<Vec<u8>> {
    let mut packets = Vec::new(rt.alloc());
    put_round(rt, &mut packets, &first_round(rt), channels);
    put_round(rt, &mut packets, &second_round(rt), channels);
    packets
}

/// Returns the main stream: a FLUSH for each round.
pub(crate) fn main_by_hand(rt: &(impl AllocGlobal + Abort)) -> Vec<u8> {
    let table = table(rt.alloc(), &BLOCKS).expect(rt, "a table");
    let mut writer = StreamWriter::new(rt.alloc(), &table).expect(rt, "a writer");
    assert!(rt; writer.flush_part().is_ok() && writer.flush_part().is_ok());
    writer.finish().ok().expect(rt, "a stream")
}

/// Returns which numbers a channel's packets have, as bits. The channel is its hello, and then some
/// of these packets, with rising numbers. None if it is no such channel.
pub(crate) fn numbers_in<A: Allocator>(
    sent: &Sent<A>,
    channel: u8,
    packets: &[Vec<u8>],
) -> Option<u64> {
    let bytes = sent.channels.get(usize::from(channel))?;
    let mut rest = bytes.strip_prefix(hello(&uuid(), channel).as_slice())?;
    let mut numbers = 0u64;
    let mut bit = 1u64;
    for packet in packets {
        if let Some(more) = rest.strip_prefix(packet.as_slice()) {
            rest = more;
            numbers |= bit;
        }
        bit = bit.wrapping_mul(2);
    }
    if rest.is_empty() { Some(numbers) } else { None }
}

// ---- senders

/// Returns a sender of the guest's table, on `channels` channels.
pub(crate) fn sender_on(rt: &(impl AllocGlobal + Abort), channels: usize) -> MultiSender {
    let table = table(rt.alloc(), &BLOCKS).expect(rt, "a table");
    MultiSender::new(rt.alloc(), &table, uuid(), channels, LIMIT).expect(rt, "a sender")
}

/// Sends both rounds, with a gate.
pub(crate) fn send_both<R: AllocGlobal + Abort + Threads + Sync, G: Gate + Sync>(
    rt: &R,
    sender: &mut MultiSender,
    gate: &G,
) {
    for round in [first_round(rt), second_round(rt)] {
        assert!(rt; sender.round(rt, &round.memory, &round.dirty, gate) == Ok(()));
    }
}

/// Returns the streams of a sender, with ample memory.
pub(crate) fn finish(rt: &impl Abort, sender: MultiSender) -> Sent {
    match sender.finish() {
        Ok(sent) => sent,
        Err(_) => panic!(rt; "memory"),
    }
}

// ---- gates

// A gate of four workers. It holds each at its first draw until all four have drawn, and notes what
// each has drawn and packed, as bits, and the number of workers that continued alone.
#[derive(Drop)]
struct Barrier {
    come: AtomicU64,
    alone: AtomicU64,
    drawn: [AtomicU64; 4],
    packed: [AtomicU64; 4],
}

fn zeros() -> [AtomicU64; 4] {
    [
        AtomicU64::new(0),
        AtomicU64::new(0),
        AtomicU64::new(0),
        AtomicU64::new(0),
    ]
}

impl Barrier {
    fn new() -> Barrier {
        Barrier {
            come: AtomicU64::new(0),
            alone: AtomicU64::new(0),
            drawn: zeros(),
            packed: zeros(),
        }
    }

    // Waits until four workers have come, and gives up after a while.
    fn meet(&self) {
        self.come.fetch_add(1, Ordering::SeqCst);
        for _ in 0..10_000_000u64 {
            if self.come.load(Ordering::SeqCst) >= 4 {
                return;
            }
            yield_now();
        }
        self.alone.fetch_add(1, Ordering::SeqCst);
    }
}

// Notes a number below 64, and returns whether it is the first of its channel.
fn note(numbers: &[AtomicU64], channel: usize, number: u64) -> bool {
    match numbers.get(channel) {
        Some(bits) if number < 64 => bits.fetch_or(1 << number, Ordering::SeqCst) == 0,
        _ => false,
    }
}

impl Gate for Barrier {
    fn pass(&self, channel: usize, step: Step) {
        match step {
            Step::Drawn(number) => {
                if note(&self.drawn, channel, number) {
                    self.meet();
                }
            }
            Step::Packed(number) => {
                note(&self.packed, channel, number);
            }
            _ => {}
        }
    }
}

// Returns the numbers that were noted for a channel.
fn noted(numbers: &[AtomicU64], channel: u8) -> Option<u64> {
    Some(numbers.get(usize::from(channel))?.load(Ordering::SeqCst))
}

// Returns whether a channel has one of the first four packets, and the gate was passed the numbers
// of its packets and no others. Packets 0 to 3, and 8 and 9 of the second round, have pages.
fn is_reported(gate: &Barrier, channel: u8, numbers: u64) -> bool {
    (numbers & 0b1111).count_ones() == 1
        && noted(&gate.drawn, channel) == Some(numbers)
        && noted(&gate.packed, channel) == Some(numbers & 0b11_0000_1111)
}

// Returns whether that is so of all four channels.
fn are_reported(gate: &Barrier, sent: &Sent, packets: &[Vec<u8>]) -> bool {
    for channel in 0..4u8 {
        match numbers_in(sent, channel, packets) {
            Some(numbers) if is_reported(gate, channel, numbers) => {}
            _ => return false,
        }
    }
    gate.alone.load(Ordering::SeqCst) == 0
}

// When the four continue, each has drawn one of the first four numbers.
#[test]
fn four_workers_at_once(rt: HostRuntime) {
    let gate = Barrier::new();
    let mut sender = sender_on(&rt, 4);
    send_both(&rt, &mut sender, &gate);
    let sent = finish(&rt, sender);
    assert!(rt; are_reported(&gate, &sent, &packets_by_hand(&rt, 4)));
}
