//! Streams of random guests and streams worked by hand, in random pieces.

use crate::both::{below, loaded};
use crate::texts::{nines_and_zeros, sevens_then_zeros};
use mig_answer::Verdict;
use mig_fixtures::{at, is_full, set, table, table_of};
use mig_mem::{Dirty, Memory, PAGE_SIZE_4K, PAGE_SIZE_8K, Place, Table, first_difference};
use mig_packet::OpenGate;
use mig_send::{MultiSender, Sent};
use rand_core::Rng;
use rand_pcg::Pcg32;
use std::alloc::AllocGlobal;
use std::process::Abort;
use std::thread::Threads;
use uuid::Uuid;

// ---- worked streams

// Loads streams of a block of `pages` pages in pieces of at most `most` bytes. Returns whether the
// load is done with `rounds` rounds, and a page is filled with a byte.
fn is_done(
    rt: &(impl AllocGlobal + Abort),
    sent: &Sent,
    most: u64,
    pages: u64,
    rounds: u64,
    full: (u64, u8),
) -> bool {
    let table = table(rt.alloc(), &[("a", pages)]).expect(rt, "a table");
    let both = loaded(rt, &table, sent, most, &mut Pcg32::new(3, most));
    both.in_place.verdict() == Verdict::Done
        && both.in_place.rounds() == rounds
        && is_full(&both.memory, at(0, full.0), full.1)
}

fn are_done(rt: &(impl AllocGlobal + Abort), most: u64) -> bool {
    is_done(rt, &nines_and_zeros(rt), most, 2, 1, (1, 9))
        && is_done(rt, &sevens_then_zeros(rt), most, 1, 2, (0, 0))
}

#[test]
fn worked_streams(rt: HostRuntime) {
    for most in [1u64, 7, 1000, 100_000] {
        assert!(rt; are_done(&rt, most));
    }
}

// ---- random guests

// The guest writes a byte to a page, which is marked.
fn is_written(memory: &mut Memory, dirty: &mut Dirty, place: Place, byte: u8) -> bool {
    let offset = place.page.wrapping_mul(memory.table().page_size());
    dirty.table().holds(place)
        && dirty.mark(place).is_ok()
        && set(memory, place.block, offset, byte)
}

// The guest writes to some of its pages.
fn are_written(memory: &mut Memory, dirty: &mut Dirty, random: &mut Pcg32) -> bool {
    for _ in 0..below(random, 24) {
        let number = below(random, 23);
        let place = match number.checked_sub(20) {
            None => at(0, number),
            Some(page) => at(1, page),
        };
        if !is_written(memory, dirty, place, (random.next_u32() % 3) as u8) {
            return false;
        }
    }
    true
}

// Sends a round of the pages that the guest writes.
fn is_sent(
    rt: &(impl AllocGlobal + Abort + Threads + Sync),
    sender: &mut MultiSender,
    memory: &mut Memory,
    random: &mut Pcg32,
) -> bool {
    let mut dirty = Dirty::none(rt.alloc(), memory.table()).expect(rt, "a set");
    are_written(memory, &mut dirty, random) && sender.round(rt, memory, &dirty, &OpenGate).is_ok()
}

// Returns the streams of a guest whose memory was zeros at first.
fn sent(
    rt: &(impl AllocGlobal + Abort + Threads + Sync),
    memory: &mut Memory,
    channels: usize,
    rounds: u64,
    random: &mut Pcg32,
) -> Sent {
    let made = MultiSender::new(rt.alloc(), memory.table(), Uuid::nil(), channels, 4);
    let mut sender = made.expect(rt, "a sender");
    for _ in 0..rounds {
        assert!(rt; is_sent(rt, &mut sender, memory, random));
    }
    sender.finish().ok().expect(rt, "streams")
}

// Loads streams in pieces of at most `most` bytes. Returns whether the memory is that of the guest
// that sent them.
fn is_loaded(
    rt: &(impl AllocGlobal + Abort),
    sent: &Sent,
    rounds: u64,
    memory: &Memory,
    most: u64,
    random: &mut Pcg32,
) -> bool {
    let both = loaded(rt, memory.table(), sent, most, random);
    both.in_place.verdict() == Verdict::Done
        && both.in_place.rounds() == rounds
        && both.memory.table().same(memory.table())
        && first_difference(&both.memory, memory).is_none()
}

// Sends and loads a guest of some rounds.
fn is_guest_loaded(
    rt: &(impl AllocGlobal + Abort + Threads + Sync),
    table: &Table,
    channels: usize,
    rounds: u64,
    random: &mut Pcg32,
) -> bool {
    let mut memory = Memory::zeroed(rt.alloc(), table).expect(rt, "a memory");
    let sent = sent(rt, &mut memory, channels, rounds, random);
    for most in [100u64, 6000, 70_000] {
        if !is_loaded(rt, &sent, rounds, &memory, most, random) {
            return false;
        }
    }
    true
}

// Sends and loads guests of up to three rounds, on one channel and on three.
fn are_guests_loaded(
    rt: &(impl AllocGlobal + Abort + Threads + Sync),
    page_size: u64,
    seed: u64,
) -> bool {
    let blocks = [("pc.ram", 20u64), ("b", 3)];
    let table = table_of(rt.alloc(), page_size, &blocks).expect(rt, "a table");
    let mut random = Pcg32::new(seed, 0);
    for rounds in 0..4u64 {
        for channels in [1usize, 3] {
            if !is_guest_loaded(rt, &table, channels, rounds, &mut random) {
                return false;
            }
        }
    }
    true
}

#[test]
fn random_pieces_of_random_guests(rt: HostRuntime) {
    assert!(rt; are_guests_loaded(&rt, PAGE_SIZE_4K, 6));
    assert!(rt; are_guests_loaded(&rt, PAGE_SIZE_8K, 7));
}
