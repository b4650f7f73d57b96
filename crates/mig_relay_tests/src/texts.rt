//! Streams of complete migrations, made by hand, and what their loads returned.

use mig_fixtures::{Part, at, is_full, put_all};
use mig_load_types::{Fault, LoadFault, Loaded, Origin};
use std::alloc::AllocGlobal;
use std::process::Abort;

/// The limit of the blocks' bytes.
pub(crate) const LIMIT: u64 = 1 << 40;

// ---- channels

/// Returns the main stream of `pages` pages and `rounds` rounds.
pub(crate) fn main_of(rt: &(impl AllocGlobal + Abort), pages: u64, rounds: u64) -> Vec<u8> {
    mig_fixtures::main_of(rt.alloc(), pages, rounds).expect(rt, "a stream")
}

/// Returns a channel: a hello with this id, and packets, each with its number.
pub(crate) fn channel_of(
    rt: &(impl AllocGlobal + Abort),
    id: u8,
    packets: &[(u64, Part)],
) -> Vec<u8> {
    mig_fixtures::channel_of(rt.alloc(), id, packets).expect(rt, "a channel")
}

/// Returns a list of one channel.
pub(crate) fn one_channel(rt: &(impl AllocGlobal + Abort), text: Vec<u8>) -> Vec<Vec<u8>> {
    let mut texts = Vec::new(rt.alloc());
    assert!(rt; texts.push(text).is_ok());
    texts
}

/// Returns a list of two channels.
pub(crate) fn two_channels(
    rt: &(impl AllocGlobal + Abort),
    first: Vec<u8>,
    second: Vec<u8>,
) -> Vec<Vec<u8>> {
    let mut texts = one_channel(rt, first);
    assert!(rt; texts.push(second).is_ok());
    texts
}

/// Returns a channel that has only SYNC packets, `count` of them. The first one's number is the id,
/// and each further one is `step` more.
pub(crate) fn syncs(rt: &(impl AllocGlobal + Abort), id: u8, step: u64, count: u64) -> Vec<u8> {
    let mut text = channel_of(rt, id, &[]);
    for i in 0..count {
        let number = i.wrapping_mul(step).wrapping_add(u64::from(id));
        assert!(rt; put_all(&mut text, &[(number, Part::Sync)]).is_some());
    }
    text
}

/// Returns two channels of one round of two pages, each filled with 7: packet 0 and SYNC packet 2
/// in one, packet 1 and SYNC packet 3 in the other.
pub(crate) fn channels_of_sevens(rt: &(impl AllocGlobal + Abort)) -> Vec<Vec<u8>> {
    let first = channel_of(rt, 0, &[(0, Part::Page(0, 7)), (2, Part::Sync)]);
    let second = channel_of(rt, 1, &[(1, Part::Page(1, 7)), (3, Part::Sync)]);
    two_channels(rt, first, second)
}

// ---- loads

/// Returns whether a load is done with `rounds` rounds, and page 0 is filled with this byte.
pub(crate) fn is_done(loaded: &Loaded, rounds: u64, byte: u8) -> bool {
    match &loaded.memory {
        Some(memory) => {
            loaded.verdict == Ok(()) && loaded.rounds == rounds && is_full(memory, at(0, 0), byte)
        }
        None => false,
    }
}

/// Returns whether a load lacks `missing` pages, and its main stream has `len` bytes without a
/// fault.
pub(crate) fn is_read_to(loaded: &Loaded, missing: u64, len: u64) -> bool {
    loaded.missing == Some(missing)
        && loaded.closed_at == Some(len)
        && loaded.valid_up_to == Some(len)
}

/// Returns whether a load failed in its first round, with a fault of channel 0.
pub(crate) fn is_failed(loaded: &Loaded, fault: Fault) -> bool {
    let failed = LoadFault {
        round: 0,
        source: Origin::Channel(0),
        fault,
    };
    loaded.rounds == 0 && loaded.verdict == Err(failed)
}
