//! Rounds on several channels whose workers the caller steps: on threads of its own, and one after
//! another, drained after each step, with the bytes made by hand; and workers that write heads
//! alone, whose pages the caller sends.

ghost use Rattle.std.specs.Prelude.{◌≡◌};
ghost use Rattle.mig_send.specs.ChannelWork.{HasEnded};
ghost use Rattle.mig_send.specs.MultiSending.{HasSentOne};
ghost use Rattle.mig_send.specs.MultiRound.{HasBegun, HandsOut, TakesBack, EndsRound};
ghost use Rattle.mig_send_tests.specs.Stepped.{HasRun};

use crate::multi::{
    Round, finish, first_round, main_by_hand, numbers_in, packets_by_hand, second_round, sender_on,
    uuid,
};
use mig_mem::{Dirty, Memory, Place};
use mig_packet::hello;
use mig_send::{ChannelWorker, MultiRound, MultiSender, Sent};
use std::alloc::{AllocGlobal, Global};
use std::process::Abort;
use std::thread::{Threads, join_mut};

// ---- the calls, with ample memory

fn begin(rt: &impl Abort, sender: MultiSender, dirty: &Dirty) -> MultiRound
    ensures { HasBegun dirty.now sender result }
{
    match sender.begin_round(dirty) {
        Ok(round) => round,
        Err(_) => panic!(rt; "memory"),
    }
}

fn worker_of(rt: &impl Abort, round: &mut MultiRound) -> ChannelWorker
    ensures { HandsOut round.old round.new result }
{
    assert!(rt; round.workers_left() > 0);
    match round.worker() {
        Ok(worker) => worker,
        Err(_) => panic!(rt; "memory"),
    }
}

fn step(rt: &impl Abort, worker: &mut ChannelWorker, memory: &Memory)
    ensures { HasRun memory.now worker.old worker.new }
{
    assert!(rt; memory.table().same(worker.table()));
    assert!(rt; worker.step(memory).is_ok());
}

// Steps a worker once for each packet of a small round, and once for SYNC.
fn run(rt: &impl Abort, worker: &mut ChannelWorker, memory: &Memory)
    ensures run { HasRun memory.now worker.old worker.new }
    ensures ended { HasEnded worker.new.hand }
{
    'steps: for _ in 0..8 {
        step(rt, worker, memory);
    }
    assert!(rt; worker.has_ended());
}

fn give_back(rt: &impl Abort, round: &mut MultiRound, worker: ChannelWorker)
    requires own { worker.terms ≡ round.old.terms }
    ensures { TakesBack worker round.old round.new }
{
    assert!(rt; worker.has_ended());
    assert!(rt; worker.channel() == round.given_back());
    assert!(rt; round.given_back() < round.channels().saturating_sub(round.workers_left()));
    match round.give_back(worker) {
        Ok(()) => {}
        Err(_) => panic!(rt; "memory"),
    }
}

fn end(rt: &impl Abort, round: MultiRound) -> MultiSender
    ensures { EndsRound round result }
{
    assert!(rt; round.given_back() == round.channels());
    match round.end_round() {
        Ok(sender) => sender,
        Err(_) => panic!(rt; "memory"),
    }
}

// ---- on threads

// Runs two workers at once.
fn run_both<R: Threads + Abort + Sync>(
    rt: &R,
    a: &mut ChannelWorker,
    b: &mut ChannelWorker,
    memory: &Memory,
)
    ensures a { HasRun memory.now a.old a.new }
    ensures b { HasRun memory.now b.old b.new }
{
    join_mut(rt, &mut || run(rt, a, memory), &mut || run(rt, b, memory));
}

// Returns a round whose workers run at once. It is proved to be sent, whichever worker packs a
// batch.
fn on_threads<R: Threads + Abort + Sync>(rt: &R, sender: MultiSender, given: &Round) -> MultiSender
    ensures { HasSentOne (record { image = given.now.memory; dirty = given.now.dirty.marked }) sender result }
{
    assert!(rt; given.memory.table().same(sender.table()));
    let mut round = begin(rt, sender, &given.dirty);
    let mut a = worker_of(rt, &mut round);
    let mut b = worker_of(rt, &mut round);
    run_both(rt, &mut a, &mut b, &given.memory);
    give_back(rt, &mut round, a);
    give_back(rt, &mut round, b);
    end(rt, round)
}

// Returns whether streams are those of both rounds on two channels. 4 and 5 are the SYNC packets of
// the first round, and 8 and 9 those of the second.
fn are_on_two_channels(sent: &Sent, main: &[u8], packets: &[Vec<u8>]) -> Option<bool> {
    let a = numbers_in(sent, 0, packets)?;
    let b = numbers_in(sent, 1, packets)?;
    let is_each_on_one = a | b == 0b11_1111_1111 && a & b == 0;
    let first = (a & 0b00_0011_0000).count_ones();
    let second = (a & 0b11_0000_0000).count_ones();
    Some(sent.main.as_slice() == main && is_each_on_one && first == 1 && second == 1)
}

// A worker's bytes that weren't drained are appended to the sender's channel.
#[test]
fn workers_on_threads(rt: HostRuntime) {
    let mut sender = sender_on(&rt, 2);
    for given in [first_round(&rt), second_round(&rt)] {
        sender = on_threads(&rt, sender, &given);
    }
    let sent = finish(&rt, sender);
    let main = main_by_hand(&rt);
    assert!(rt; are_on_two_channels(&sent, &main, &packets_by_hand(&rt, 2)) == Some(true));
}

// A round that is taken back leaves nothing behind.
#[test]
fn rounds_taken_back(rt: HostRuntime) {
    let mut sender = sender_on(&rt, 2);
    for given in [first_round(&rt), second_round(&rt)] {
        let round = begin(&rt, sender, &given.dirty);
        assert!(rt; round.workers_left() == round.channels());
        sender = on_threads(&rt, round.take_back(), &given);
    }
    let sent = finish(&rt, sender);
    let main = main_by_hand(&rt);
    assert!(rt; are_on_two_channels(&sent, &main, &packets_by_hand(&rt, 2)) == Some(true));
}

// ---- drained after each step

// Steps a worker to its end, and appends its bytes after each step.
fn drain_each_step(worker: &mut ChannelWorker, memory: &Memory, bytes: &mut Vec<u8>) -> bool
    ensures { worker.new.terms ≡ worker.old.terms }
{
    let mut buffer = Vec::new(*bytes.allocator());
    'steps: for _ in 0..8u8 {
        if !memory.table().same(worker.table()) || worker.step(memory).is_err() {
            return false;
        }
        worker.drain_into(&mut buffer);
        if bytes.extend_from_slice(&buffer).is_err() {
            return false;
        }
        if worker.has_ended() {
            return true;
        }
    }
    false
}

// Sends a round on one channel. Returns the drained bytes.
fn drained(rt: &(impl AllocGlobal + Abort), given: &Round) -> Vec<u8> {
    let mut round = begin(rt, sender_on(rt, 1), &given.dirty);
    let mut worker = worker_of(rt, &mut round);
    let mut bytes = Vec::new(rt.alloc());
    assert!(rt; drain_each_step(&mut worker, &given.memory, &mut bytes));
    give_back(rt, &mut round, worker);
    let sender = end(rt, round);
    assert!(rt; sender.base() == 5 && sender.rounds() == 1);
    bytes
}

// Returns the bytes of the only channel: its hello, and these packets.
fn channel_by_hand(alloc: Global, packets: &[Vec<u8>]) -> Option<Vec<u8>> {
    let mut bytes = Vec::from_slice(alloc, &hello(&uuid(), 0)).ok()?;
    for packet in packets {
        bytes.extend_from_slice(packet).ok()?;
    }
    Some(bytes)
}

// The hello comes with the first packet. The round's packets are 0 to 4.
#[test]
fn worker_drained_after_each_step(rt: HostRuntime) {
    let packets = packets_by_hand(&rt, 1);
    let packets = packets.get(..5).expect(&rt, "packets");
    let wanted = channel_by_hand(rt.alloc(), packets).expect(&rt, "a channel");
    assert!(rt; drained(&rt, &first_round(&rt)).as_slice() == wanted.as_slice());
}

// ---- heads alone, with the pages from where they lie

// Which pages of the worker's batch are zeros, and the contents of the others. None if the next
// packet is the SYNC packet.
fn next_pages(
    worker: &ChannelWorker,
    memory: &Memory,
    zeros: &mut Vec<bool>,
    contents: &mut Vec<u8>,
) -> Option<usize> {
    let batch = worker.batch()?;
    zeros.clear();
    contents.clear();
    for page in batch.pages.as_slice() {
        let place = Place {
            block: batch.block,
            page: *page,
        };
        let content = memory.page(place)?;
        let is_zero = content.iter().all(|byte| *byte == 0);
        zeros.push(is_zero).ok()?;
        if !is_zero {
            contents.extend_from_slice(content).ok()?;
        }
    }
    Some(zeros.len())
}

// Writes the head of the next packet if it has pages, or makes a step, and appends the channel's
// bytes with the contents after them.
fn send_next(
    worker: &mut ChannelWorker,
    memory: &Memory,
    zeros: &mut Vec<bool>,
    contents: &mut Vec<u8>,
    bytes: &mut Vec<u8>,
) -> Option<()>
    ensures { worker.new.terms ≡ worker.old.terms }
{
    let mut buffer = Vec::new(*bytes.allocator());
    worker.claim();
    let has_pages = next_pages(worker, memory, zeros, contents).is_some();
    let count = worker.batch().map(|batch| batch.pages.len());
    match count {
        Some(count) if has_pages && count == zeros.len() => worker.put_head(zeros).ok()?,
        _ => {
            if !memory.table().same(worker.table()) {
                return None;
            }
            contents.clear();
            worker.step(memory).ok()?;
        }
    }
    worker.drain_into(&mut buffer);
    bytes.extend_from_slice(&buffer).ok()?;
    bytes.extend_from_slice(contents).ok()
}

// Sends a round on one channel. Returns its bytes.
fn sent_by_heads(rt: &(impl AllocGlobal + Abort), given: &Round) -> Vec<u8> {
    let mut round = begin(rt, sender_on(rt, 1), &given.dirty);
    let mut worker = worker_of(rt, &mut round);
    let mut bytes = Vec::new(rt.alloc());
    let (mut zeros, mut contents) = (Vec::new(rt.alloc()), Vec::new(rt.alloc()));
    'packets: for _ in 0..5u8 {
        let sent = send_next(
            &mut worker,
            &given.memory,
            &mut zeros,
            &mut contents,
            &mut bytes,
        );
        assert!(rt; sent.is_some());
    }
    give_back(rt, &mut round, worker);
    end(rt, round);
    bytes
}

#[test]
fn heads_and_pages_sent_apart(rt: HostRuntime) {
    let packets = packets_by_hand(&rt, 1);
    let packets = packets.get(..5).expect(&rt, "packets");
    let wanted = channel_by_hand(rt.alloc(), packets).expect(&rt, "a channel");
    assert!(rt; sent_by_heads(&rt, &first_round(&rt)).as_slice() == wanted.as_slice());
}
