//! A limit on what may wait in a channel's round: which packet is at fault, and that a round after
//! a SYNC packet has room again. Both readers of a channel report the same.
//!
//! A round of the channel is a packet with one page of contents and one of zeros, which counts 3,
//! and a SYNC packet without pages, which counts 1.

use mig_fixtures::put_page_and_zeros;
use mig_packet::{
    ChannelEvent, ChannelFault, ChannelReader, ChannelState, PageReader, hello, put_packet,
};
use std::alloc::Global;
use uuid::Uuid;

const WAITING: ChannelState = ChannelState::Bad(ChannelFault::Waiting);

// Where the hello, the first packet and two rounds end.
const HELLO: u64 = 64;

const PACKET: u64 = HELLO + 1344 + 4096;

const NEXT_ROUND: u64 = HELLO + 2 * (1344 + 4096 + 1344);

// Returns a hello and two rounds.
fn channel(alloc: Global) -> Option<Vec<u8>> {
    let mut bytes = Vec::from_slice(alloc, &hello(&Uuid::nil(), 0)).ok()?;
    for _ in 0..2u8 {
        put_page_and_zeros(&mut bytes).ok()?;
        put_packet(4096, &mut bytes, 1, true, &[], &[], &[], &[]).ok()?;
    }
    Some(bytes)
}

// What a channel is read to: its state, and up to where it is valid.
type Read = (ChannelState, u64);

// Reads a channel by packets, in pieces of 1,000 bytes.
fn read_by_packets(alloc: Global, waiting: Option<u64>, channel: &[u8]) -> Option<Read> {
    let mut reader = ChannelReader::new_with(alloc, 4096, Uuid::nil(), 1, waiting);
    for piece in channel.chunks(1000) {
        if reader.ended() || reader.fed().checked_add(piece.len() as u64).is_none() {
            return None;
        }
        reader.feed(piece).ok()?;
    }
    Some((reader.state(), reader.valid_up_to()))
}

// Reads a channel by pages.
fn read_by_pages(alloc: Global, waiting: Option<u64>, channel: &[u8]) -> Option<Read> {
    let mut reader = PageReader::new(alloc, 4096, Uuid::nil(), 1, waiting).ok()?;
    let mut rest = channel;
    for _ in 0..100u8 {
        if reader.fed().checked_add(rest.len() as u64).is_none() {
            return None;
        }
        let (event, taken) = reader.read_on(rest);
        rest = rest.get(taken..)?;
        if let ChannelEvent::More | ChannelEvent::Over = event {
            return Some((reader.state(), reader.valid_up_to()));
        }
    }
    None
}

// Returns whether a channel is read so by both readers.
fn is_read(alloc: Global, waiting: Option<u64>, channel: &[u8], wanted: Read) -> bool {
    read_by_packets(alloc, waiting, channel) == Some(wanted)
        && read_by_pages(alloc, waiting, channel) == Some(wanted)
}

// A round that is complete leaves its room to the next one.
const LIMITS: [(Option<u64>, Read); 4] = [
    (None, (ChannelState::Reading, NEXT_ROUND)),
    (Some(4), (ChannelState::Reading, NEXT_ROUND)),
    (Some(3), (WAITING, PACKET)),
    (Some(2), (WAITING, HELLO)),
];

#[test]
fn rounds_within_limits(rt: HostRuntime) {
    let channel = channel(rt.alloc()).expect(&rt, "a channel");
    for (waiting, wanted) in LIMITS {
        assert!(rt; is_read(rt.alloc(), waiting, &channel, wanted));
    }
}
