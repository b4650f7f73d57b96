//! Loading the streams of two channels, sent by workers that wait for each other, gives the memory
//! that was sent.

use crate::meeting::Meeting;
use crate::texts::LIMIT;
use mig_fixtures::{at, places_of, set, zeroed};
use mig_load_types::Loaded;
use mig_mem::{Memory, first_difference};
use mig_packet::{Gate, OpenGate};
use mig_relay::load_multi;
use mig_send::{MultiSender, Sent};
use std::alloc::AllocGlobal;
use std::process::Abort;
use std::sync::Wait;
use std::thread::Threads;
use uuid::Uuid;

// Returns a guest of two pages that aren't zeros.
fn guest(rt: &(impl AllocGlobal + Abort)) -> Memory {
    let mut memory = zeroed(rt.alloc(), &[("a", 2)]).expect(rt, "a memory");
    assert!(rt; set(&mut memory, 0, 0, 7) && set(&mut memory, 0, 4096, 9));
    memory
}

// Returns the streams of its pages on two channels, in batches of one page. The workers pass
// `gate`.
fn sent_after<R: AllocGlobal + Abort + Threads + Sync, G: Gate + Sync>(
    rt: &R,
    guest: &Memory,
    gate: &G,
) -> Sent {
    let table = guest.table();
    let dirty = places_of(rt.alloc(), table, &[at(0, 0), at(0, 1)]).expect(rt, "a set");
    let made = MultiSender::new(rt.alloc(), table, Uuid::nil(), 2, 1);
    let mut sender = made.expect(rt, "a sender");
    assert!(rt; sender.round(rt, guest, &dirty, gate) == Ok(()));
    sender.finish().ok().expect(rt, "streams")
}

// Loads streams of two channels.
fn load<R: AllocGlobal + Abort + Threads + Wait + Sync>(rt: &R, sent: &Sent) -> Loaded {
    let channels = sent.channels.as_slice();
    assert!(rt; channels.len() == 2);
    load_multi(
        rt,
        rt.alloc(),
        4096,
        &Uuid::nil(),
        &sent.main,
        channels,
        LIMIT,
        &OpenGate,
    )
}

// Returns whether a load is done with one round, and has the guest's memory.
fn is_same(loaded: &Loaded, guest: &Memory) -> bool {
    match &loaded.memory {
        Some(memory) => {
            loaded.verdict == Ok(())
                && loaded.rounds == 1
                && memory.table().same(guest.table())
                && first_difference(memory, guest).is_none()
        }
        None => false,
    }
}

// Neither worker continues with its first number before the other has drawn one.
#[test]
fn sent_by_two_workers_at_once(rt: HostRuntime) {
    let guest = guest(&rt);
    let gate = Meeting::new();
    let sent = sent_after(&rt, &guest, &gate);
    assert!(rt; gate.have_met() && is_same(&load(&rt, &sent), &guest));
}
