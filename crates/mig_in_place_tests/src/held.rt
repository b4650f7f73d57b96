//! The bytes that a load in place holds in addition to the guest's memory.

use crate::both::{LIMIT, feed, source_at};
use crate::texts::text_of;
use mig_fixtures::{TestHeap, at, table};
use mig_in_place::InPlaceSession;
use mig_load_types::LoadSettings;
use mig_mem::{Dirty, Memory, Place, Table};
use mig_packet::OpenGate;
use mig_send::{MultiSender, Sent};
use std::alloc::{AllocGlobal, Allocator};
use std::process::Abort;
use std::thread::Threads;
use uuid::Uuid;

// Fills a page with 7, and marks it.
fn is_filled(memory: &mut Memory, dirty: &mut Dirty, place: Place) -> bool {
    if !dirty.table().holds(place) || dirty.mark(place).is_err() {
        return false;
    }
    if !memory.table().holds(place) || memory.table().page_size() != 4096 {
        return false;
    }
    memory.put_page(place, &[7u8; 4096]);
    true
}

// Sends a round of 3,000 pages, none of them zeros.
fn is_sent(
    rt: &(impl AllocGlobal + Abort + Threads + Sync),
    sender: &mut MultiSender,
    table: &Table,
) -> bool {
    let mut memory = Memory::zeroed(rt.alloc(), table).expect(rt, "a memory");
    let mut dirty = Dirty::none(rt.alloc(), table).expect(rt, "a set");
    for page in 0..3000u64 {
        if !is_filled(&mut memory, &mut dirty, at(0, page)) {
            return false;
        }
    }
    sender.round(rt, &memory, &dirty, &OpenGate).is_ok()
}

// Returns the streams of that round on four channels.
fn whole_guest(rt: &(impl AllocGlobal + Abort + Threads + Sync), table: &Table) -> Sent {
    let made = MultiSender::new(rt.alloc(), table, Uuid::nil(), 4, 128);
    let mut sender = made.expect(rt, "a sender");
    assert!(rt; is_sent(rt, &mut sender, table));
    sender.finish().ok().expect(rt, "streams")
}

// Feeds a source completely.
fn takes_all<A: Allocator + Copy>(
    rt: &impl Abort,
    load: &mut InPlaceSession<A>,
    memory: &mut Memory,
    sent: &Sent,
    number: usize,
) -> bool {
    let source = source_at(number);
    for piece in text_of(rt, sent, source).chunks(65_536) {
        if feed(rt, load, memory, source, piece) != Ok(piece.len()) {
            return false;
        }
    }
    true
}

// Loads the round into a new memory, each source completely, one after another.
fn is_loaded<A: Allocator + Copy>(
    rt: &(impl AllocGlobal + Abort),
    alloc: A,
    table: &Table,
    sent: &Sent,
) -> bool {
    let mut memory = Memory::zeroed(rt.alloc(), table).expect(rt, "a memory");
    let settings = LoadSettings::new(table.page_size(), LIMIT);
    let load = InPlaceSession::new(alloc, settings, table, &Uuid::nil(), 4);
    let mut load = load.expect(rt, "a load");
    for number in 0..5usize {
        if !takes_all(rt, &mut load, &mut memory, sent, number) {
            return false;
        }
    }
    load.rounds() == 1
}

// A round of 12 MB is loaded with a head and a page for each channel, one more head, and the marks.
#[test]
fn round_of_a_whole_guest(rt: HostRuntime) {
    let table = table(rt.alloc(), &[("a", 3000)]).expect(&rt, "a table");
    let sent = whole_guest(&rt, &table);
    let heap = TestHeap::new(rt.alloc());
    assert!(rt; is_loaded(&rt, &heap, &table, &sent) && heap.peak() < 40_000);
}
