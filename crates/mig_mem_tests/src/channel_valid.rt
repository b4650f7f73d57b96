//! The valid prefix of a channel's bytes, fed in pieces.
//!
//! The channel has a hello of 64 bytes, a packet of two pages with 1344 bytes and a page's 4096,
//! and a SYNC packet of 1344.

use mig_fixtures::put_page_and_zeros;
use mig_packet::{ChannelReader, hello, put_packet};
use std::alloc::Global;
use uuid::Uuid;

// The ends of the channel's items.
const HELLO: u64 = 64;

const PACKET: u64 = 64 + 1344 + 4096;

const SYNC: u64 = 64 + 1344 + 4096 + 1344;

fn channel(alloc: Global) -> Option<Vec<u8>> {
    let mut bytes = Vec::from_slice(alloc, &hello(&Uuid::nil(), 0)).ok()?;
    put_page_and_zeros(&mut bytes).ok()?;
    put_packet(4096, &mut bytes, 1, true, &[], &[], &[], &[]).ok()?;
    Some(bytes)
}

// Returns the number of the channel's first `len` bytes that are complete items.
fn whole(len: u64) -> u64 {
    match len {
        0..HELLO => 0,
        HELLO..PACKET => HELLO,
        PACKET..SYNC => PACKET,
        _ => SYNC,
    }
}

// Returns whether the complete items of a channel are found after each piece of `len` bytes.
fn are_found(alloc: Global, channel: &[u8], len: usize) -> bool {
    let mut reader = ChannelReader::new(alloc, 4096, Uuid::nil(), 1);
    for piece in channel.chunks(len.max(1)) {
        if reader.ended() || reader.fed().checked_add(piece.len() as u64).is_none() {
            return false;
        }
        if reader.feed(piece).is_err() || reader.valid_up_to() != whole(reader.fed()) {
            return false;
        }
    }
    reader.valid_up_to() == SYNC
}

#[test]
fn in_pieces(rt: HostRuntime) {
    let channel = channel(rt.alloc()).expect(&rt, "a channel");
    for len in [1usize, 1000] {
        assert!(rt; are_found(rt.alloc(), &channel, len));
    }
}
