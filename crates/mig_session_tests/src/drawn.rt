//! Guests from a seeded generator, each of a seed of its own: one to three blocks, pages of either
//! size, up to four rounds, 1 to 8 or 255 channels, and any batch limit. Loading the streams that
//! the sender on several channels wrote, its channels in some order, gives the guest's memory, and
//! so does loading the single stream of the same rounds.

use crate::feeding::{LIMIT, is_same};
use crate::guests::{below, is_written};
use mig_fixtures::{at, table_of};
use mig_load_types::Loaded;
use mig_mem::{Dirty, Memory, PAGE_SIZE_4K, PAGE_SIZE_8K, Table, is_page_size};
use mig_packet::{OpenGate, page_limit};
use mig_relay::load_multi;
use mig_send::{MultiSender, SingleSender};
use mig_single_load::load_single;
use rand_core::Rng;
use rand_pcg::Pcg32;
use std::alloc::AllocGlobal;
use std::process::Abort;
use std::sync::Wait;
use std::thread::Threads;
use uuid::Uuid;

// ---- a guest

// Returns a table of one to three blocks with 1 to 40 pages each, of either size.
fn random_table(rt: &(impl AllocGlobal + Abort), random: &mut Pcg32) -> Table {
    let page_size = if below(random, 2) == 0 {
        PAGE_SIZE_4K
    } else {
        PAGE_SIZE_8K
    };
    let mut blocks = Vec::new(rt.alloc());
    let more = below(random, 3);
    for (name, i) in ["pc.ram", "vga.vram", "b"].iter().zip(0u64..) {
        if i <= more {
            let pages = below(random, 40).wrapping_add(1);
            assert!(rt; blocks.push((*name, pages)).is_ok());
        }
    }
    table_of(rt.alloc(), page_size, &blocks).expect(rt, "a table")
}

// Returns a memory of zeros of such a table.
fn random_memory(rt: &(impl AllocGlobal + Abort), random: &mut Pcg32) -> Memory {
    let table = random_table(rt, random);
    Memory::zeroed(rt.alloc(), &table).expect(rt, "a memory")
}

// Returns a number of channels: usually few, sometimes the most that there may be.
fn random_channels(random: &mut Pcg32) -> usize {
    match below(random, 20) {
        0 => 255,
        1..5 => 1,
        _ => below(random, 8) as usize + 1,
    }
}

// A guest's senders, of a single stream and on several channels.
#[derive(Drop)]
struct Senders {
    single: SingleSender,
    several: MultiSender,
}

// Returns senders on some channels, with some batch limit.
fn random_senders(
    rt: &(impl AllocGlobal + Abort),
    memory: &Memory,
    uuid: Uuid,
    random: &mut Pcg32,
) -> Senders {
    let table = memory.table();
    let page_size = table.page_size();
    assert!(rt; is_page_size(page_size));
    let limit = 1 + below(random, page_limit(page_size) as u64) as usize;
    let several = MultiSender::new(rt.alloc(), table, uuid, random_channels(random), limit);
    Senders {
        single: SingleSender::new(rt.alloc(), table).expect(rt, "a sender"),
        several: several.expect(rt, "a sender"),
    }
}

// ---- its rounds

// The guest writes to some pages, or makes them zeros, and they are marked.
fn are_written(memory: &mut Memory, dirty: &mut Dirty, random: &mut Pcg32) -> bool {
    for _ in 0..below(random, 60) {
        let block = below(random, memory.table().len() as u64) as usize;
        if block >= memory.table().len() {
            return false;
        }
        let page = below(random, memory.table().pages(block));
        if !is_written(memory, dirty, at(block, page), random) {
            return false;
        }
    }
    true
}

// Sends a round of a guest both ways.
fn is_sent<R: AllocGlobal + Abort + Threads + Sync>(
    rt: &R,
    senders: &mut Senders,
    memory: &mut Memory,
    random: &mut Pcg32,
) -> bool {
    let mut dirty = Dirty::none(rt.alloc(), memory.table()).expect(rt, "a set");
    are_written(memory, &mut dirty, random)
        && senders.single.round(memory, &dirty).is_ok()
        && senders.several.round(rt, memory, &dirty, &OpenGate).is_ok()
}

// ---- their loads

// Returns whether a load is Ok, has `rounds` rounds and this memory.
fn is_whole(loaded: &Loaded, rounds: u64, guest: &Memory) -> bool {
    match &loaded.memory {
        Some(memory) => {
            loaded.verdict == Ok(()) && loaded.rounds == rounds && is_same(memory, guest)
        }
        None => false,
    }
}

// Returns whether a guest's single stream is loaded to its memory. START and END count as rounds,
// too.
fn is_single_loaded(
    rt: &(impl AllocGlobal + Abort),
    sender: SingleSender,
    rounds: u64,
    guest: &Memory,
) -> bool {
    let stream = sender.finish().ok().expect(rt, "a stream");
    let page_size = guest.table().page_size();
    if !is_page_size(page_size) {
        return false;
    }
    let loaded = load_single(rt.alloc(), page_size, &stream, LIMIT);
    is_whole(&loaded, rounds.wrapping_add(2), guest)
}

// Permutes streams.
fn shuffle(texts: &mut [Vec<u8>], random: &mut Pcg32) {
    for i in 0..texts.len() {
        let j = below(random, texts.len() as u64) as usize;
        if j < texts.len() {
            texts.swap(i, j);
        }
    }
}

// Returns whether a guest's streams of several channels, in some order, are loaded to its memory.
fn is_several_loaded<R: AllocGlobal + Abort + Threads + Wait + Sync>(
    rt: &R,
    sender: MultiSender,
    uuid: &Uuid,
    rounds: u64,
    guest: &Memory,
    random: &mut Pcg32,
) -> bool {
    let mut sent = sender.finish().ok().expect(rt, "streams");
    shuffle(&mut sent.channels, random);
    let channels = sent.channels.as_slice();
    let page_size = guest.table().page_size();
    if !is_page_size(page_size) || channels.is_empty() || channels.len() > 255 {
        return false;
    }
    let loaded = load_multi(
        rt,
        rt.alloc(),
        page_size,
        uuid,
        &sent.main,
        channels,
        LIMIT,
        &OpenGate,
    );
    is_whole(&loaded, rounds, guest)
}

// Draws the guest of a seed, sends its rounds, and loads them both ways.
fn is_loaded_both_ways<R: AllocGlobal + Abort + Threads + Wait + Sync>(rt: &R, seed: u64) -> bool {
    let mut random = Pcg32::new(seed, 0);
    let mut memory = random_memory(rt, &mut random);
    let uuid = Uuid::from_u64_pair(random.next_u64(), random.next_u64());
    let mut senders = random_senders(rt, &memory, uuid, &mut random);
    let rounds = below(&mut random, 5);
    for _ in 0..rounds {
        assert!(rt; is_sent(rt, &mut senders, &mut memory, &mut random));
    }
    let Senders { single, several } = senders;
    let is_single = is_single_loaded(rt, single, rounds, &memory);
    let is_several = is_several_loaded(rt, several, &uuid, rounds, &memory, &mut random);
    is_single && is_several
}

// Returns whether the guests of a hundred seeds, from this one on, are loaded to their memories.
fn are_hundred_loaded<R: AllocGlobal + Abort + Threads + Wait + Sync>(rt: &R, from: u64) -> bool {
    for i in 0..100u64 {
        if !is_loaded_both_ways(rt, from.wrapping_add(i)) {
            return false;
        }
    }
    true
}

#[test]
fn guests_0_to_99(rt: HostRuntime) {
    assert!(rt; are_hundred_loaded(&rt, 0));
}

#[test]
fn guests_100_to_199(rt: HostRuntime) {
    assert!(rt; are_hundred_loaded(&rt, 100));
}

#[test]
fn guests_200_to_299(rt: HostRuntime) {
    assert!(rt; are_hundred_loaded(&rt, 200));
}
