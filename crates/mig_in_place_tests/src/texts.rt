//! Streams of complete migrations, and streams that were changed.

use mig_fixtures::Part;
use mig_send::Sent;
use mig_sources::Source;
use std::alloc::AllocGlobal;
use std::process::Abort;

/// Returns the main stream of `pages` pages and `rounds` rounds.
pub(crate) fn main_of(rt: &(impl AllocGlobal + Abort), pages: u64, rounds: u64) -> Vec<u8> {
    mig_fixtures::main_of(rt.alloc(), pages, rounds).expect(rt, "a stream")
}

/// Returns a channel: a hello with this id, and packets, each with its number.
pub(crate) fn channel_of(
    rt: &(impl AllocGlobal + Abort),
    id: u8,
    packets: &[(u64, Part)],
) -> Vec<u8> {
    mig_fixtures::channel_of(rt.alloc(), id, packets).expect(rt, "a channel")
}

/// Returns the streams of one channel.
pub(crate) fn one(rt: &(impl AllocGlobal + Abort), main: Vec<u8>, channel: Vec<u8>) -> Sent {
    let mut channels = Vec::new(rt.alloc());
    assert!(rt; channels.push(channel).is_ok());
    Sent { main, channels }
}

/// Returns one round of two pages on one channel: page 0 as zeros, and page 1 filled with 9. The
/// main stream has 101 bytes.
pub(crate) fn nines_and_zeros(rt: &(impl AllocGlobal + Abort)) -> Sent {
    let packets = [(0, Part::Page(1, 9)), (1, Part::Zeros(0)), (2, Part::Sync)];
    one(rt, main_of(rt, 2, 1), channel_of(rt, 0, &packets))
}

/// Returns two rounds of the only page on two channels: filled with 7, and then zeros. One channel
/// has the page of the first round, the other has the page of the second. A hello has 64 bytes, a
/// packet with a filled page 5440, and each other packet 1344. The main stream has 127 bytes.
pub(crate) fn sevens_then_zeros(rt: &(impl AllocGlobal + Abort)) -> Sent {
    let first = [(0, Part::Page(0, 7)), (1, Part::Sync), (3, Part::Sync)];
    let second = [(2, Part::Sync), (4, Part::Zeros(0)), (5, Part::Sync)];
    let mut sent = one(rt, main_of(rt, 1, 2), channel_of(rt, 0, &first));
    assert!(rt; sent.channels.push(channel_of(rt, 1, &second)).is_ok());
    sent
}

/// Returns the stream of a source.
pub(crate) fn text_of<'a>(rt: &impl Abort, sent: &'a Sent, source: Source) -> &'a [u8] {
    match source {
        Source::Main => &sent.main,
        Source::Channel(j) => sent.channels.get(j).expect(rt, "a channel"),
    }
}

/// Returns the streams with a byte of a source changed.
pub(crate) fn with_byte(
    rt: &impl Abort,
    mut sent: Sent,
    source: Source,
    at: usize,
    byte: u8,
) -> Sent {
    let text = match source {
        Source::Main => &mut sent.main,
        Source::Channel(j) => sent.channels.get_mut(j).expect(rt, "a channel"),
    };
    *text.get_mut(at).expect(rt, "a byte") = byte;
    sent
}
