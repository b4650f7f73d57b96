//! Streams of complete migrations on one channel.

use mig_fixtures::Part;
use mig_send::Sent;
use std::alloc::AllocGlobal;
use std::process::Abort;

/// Returns the main stream of `pages` pages and `rounds` rounds.
pub(crate) fn main_of(rt: &(impl AllocGlobal + Abort), pages: u64, rounds: u64) -> Vec<u8> {
    mig_fixtures::main_of(rt.alloc(), pages, rounds).expect(rt, "a stream")
}

/// Returns a channel: a hello with this id, and packets, each with its number.
pub(crate) fn channel_of(
    rt: &(impl AllocGlobal + Abort),
    id: u8,
    packets: &[(u64, Part)],
) -> Vec<u8> {
    mig_fixtures::channel_of(rt.alloc(), id, packets).expect(rt, "a channel")
}

/// Returns streams of one channel, which has id 0 and these packets.
pub(crate) fn one(rt: &(impl AllocGlobal + Abort), main: Vec<u8>, packets: &[(u64, Part)]) -> Sent {
    let mut channels = Vec::new(rt.alloc());
    assert!(rt; channels.push(channel_of(rt, 0, packets)).is_ok());
    Sent { main, channels }
}

/// Returns one round of two pages on one channel: page 1 is filled with 9. The main stream has 101
/// bytes, its table in the first 43 of them, and its round in the first 69. The channel has 6848
/// bytes.
pub(crate) fn nines(rt: &(impl AllocGlobal + Abort)) -> Sent {
    one(
        rt,
        main_of(rt, 2, 1),
        &[(0, Part::Page(1, 9)), (1, Part::Sync)],
    )
}
