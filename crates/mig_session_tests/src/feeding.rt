//! Sessions under a UUID of zeros, and what feeds and ends their sources.

use mig_mem::{Memory, first_difference, is_page_size};
use mig_send::Sent;
use mig_session::{Session, Source};
use std::alloc::Allocator;
use std::process::Abort;
use uuid::Uuid;

/// The limit of the sum of the blocks' lengths: 1 TiB.
pub(crate) const LIMIT: u64 = 1 << 40;

/// Returns the sources in order: the main stream is number 0, and channel 0 is number 1.
pub(crate) fn source_at(number: usize) -> Source {
    match number.checked_sub(1) {
        None => Source::Main,
        Some(j) => Source::Channel(j),
    }
}

/// Returns the stream of a source.
pub(crate) fn text_of<'a>(rt: &impl Abort, sent: &'a Sent, source: Source) -> &'a [u8] {
    match source {
        Source::Main => &sent.main,
        Source::Channel(j) => sent.channels.get(j).expect(rt, "a channel"),
    }
}

/// Returns a session of `channels` channels.
pub(crate) fn new_session<A: Allocator + Copy>(
    rt: &impl Abort,
    alloc: A,
    page_size: u64,
    channels: usize,
) -> Session<A> {
    assert!(rt; is_page_size(page_size) && 1 <= channels && channels <= 255);
    Session::new(alloc, page_size, &Uuid::nil(), channels, LIMIT).expect(rt, "a session")
}

/// Feeds a piece of a source. Returns whether it was taken.
pub(crate) fn is_fed<A: Allocator + Copy>(
    session: &mut Session<A>,
    source: Source,
    piece: &[u8],
) -> bool {
    if !session.has(source) {
        return false;
    }
    !session.ended(source)
        && session.has_room(source, piece.len())
        && session.feed(source, piece) == Ok(())
}

/// Feeds a source's bytes in pieces of `len` bytes. Returns whether all were taken.
pub(crate) fn are_fed<A: Allocator + Copy>(
    session: &mut Session<A>,
    source: Source,
    bytes: &[u8],
    len: usize,
) -> bool {
    for piece in bytes.chunks(len.max(1)) {
        if !is_fed(session, source, piece) {
            return false;
        }
    }
    true
}

/// Ends a source. Returns whether the session has it.
pub(crate) fn ends<A: Allocator>(session: &mut Session<A>, source: Source) -> bool {
    if !session.has(source) {
        return false;
    }
    session.end(source);
    true
}

/// Returns whether a source was ended after `fed` bytes.
pub(crate) fn is_ended(session: &Session, source: Source, fed: u64) -> bool {
    session.has(source) && session.ended(source) && session.fed(source) == fed
}

/// Returns whether two memories have the same table and the same bytes.
pub(crate) fn is_same(a: &Memory, b: &Memory) -> bool {
    a.table().same(b.table()) && first_difference(a, b).is_none()
}
