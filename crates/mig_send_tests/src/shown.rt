//! The `Debug` output of batches, packets and senders: small numbers, and no byte of a page or a
//! stream.

use crate::batches::{batches_of, memory_of};
use crate::multi::{finish, sender_on};
use mig_fixtures::at;
use mig_send::{SingleSender, pack};
use std::alloc::{AllocGlobal, Global};
use std::fmt::Debug;
use std::process::Abort;

// Returns whether a value has this `Debug` output.
fn shows<T: Debug>(alloc: Global, value: &T, wanted: &str) -> bool {
    match format!(in alloc; "{value:?}") {
        Ok(shown) => shown.as_str() == wanted,
        Err(_) => false,
    }
}

#[test]
fn batches_and_packets(rt: HostRuntime) {
    let memory = memory_of(&rt, &[("a", 2)]);
    let batches = batches_of(&rt, memory.table(), &[at(0, 0), at(0, 1)], 64);
    let batch = batches.first().expect(&rt, "a batch");
    assert!(rt; shows(rt.alloc(), batch, "Batch { block: 0, pages: [0, 1] }"));
    let packed = pack(rt.alloc(), &memory, batch, 7).expect(&rt, "a packet");
    assert!(rt; shows(rt.alloc(), &packed, "Packed { number: 7, .. }"));
}

fn sender_shows(rt: &(impl AllocGlobal + Abort)) -> bool {
    let sender = sender_on(rt, 2);
    shows(rt.alloc(), &sender, "MultiSender { .. }")
        && shows(rt.alloc(), &finish(rt, sender), "Sent { .. }")
}

// Returns a sender of a single stream.
fn single(rt: &(impl AllocGlobal + Abort)) -> SingleSender {
    let memory = memory_of(rt, &[("a", 2)]);
    SingleSender::new(rt.alloc(), memory.table()).expect(rt, "a sender")
}

fn open_round_shows(alloc: Global, sender: SingleSender) -> bool {
    match sender.begin_round() {
        Ok(round) => shows(alloc, &round, "OpenRound { .. }"),
        Err(_) => false,
    }
}

#[test]
fn senders(rt: HostRuntime) {
    assert!(rt; sender_shows(&rt));
    let sender = single(&rt);
    assert!(rt; shows(rt.alloc(), &sender, "SingleSender { .. }"));
    assert!(rt; open_round_shows(rt.alloc(), sender));
}
