//! A load whose pages others read to their places: packets are claimed and taken, and the other
//! bytes are fed.

use crate::both::{LIMIT, failed};
use crate::texts::{channel_of, main_of, nines_and_zeros, one, text_of};
use mig_answer::Verdict;
use mig_apart::{ApartSession, Claim};
use mig_assemble::RoundFault;
use mig_fixtures::{Part, at, is_full, zeroed};
use mig_load_types::{Fault, LoadSettings, Origin};
use mig_mem::{GuestTarget, Memory, Place};
use mig_packet::PacketHead;
use mig_send::Sent;
use mig_sources::Source;
use std::alloc::AllocGlobal;
use std::process::Abort;
use uuid::Uuid;

// The lengths of a hello, of a packet's head, and of a page.
const HELLO: usize = 64;

const HEAD: usize = 1344;

const PAGE: usize = 4096;

// Returns a load of some channels, and its memory.
fn load_of(rt: &(impl AllocGlobal + Abort), pages: u64, channels: usize) -> (ApartSession, Memory) {
    assert!(rt; 1 <= channels && channels <= 255);
    let memory = zeroed(rt.alloc(), &[("a", pages)]).expect(rt, "a memory");
    let settings = LoadSettings::new(4096, LIMIT);
    let made = ApartSession::new(rt.alloc(), settings, memory.table(), &Uuid::nil(), channels);
    (made.expect(rt, "a load"), memory)
}

// Feeds some bytes of a source. Returns whether the load took all of them.
fn feeds(
    rt: &impl Abort,
    load: &mut ApartSession,
    memory: &mut Memory,
    source: Source,
    piece: &[u8],
) -> bool {
    assert!(rt; load.claimed() == 0);
    assert!(rt; load.load().has(source));
    assert!(rt; !load.load().ended(source) && load.load().has_room(source, piece.len()));
    load.feed(memory, source, piece) == Ok(piece.len())
}

// Ends a source.
fn ends(rt: &impl Abort, load: &mut ApartSession, source: Source) {
    assert!(rt; load.load().has(source));
    load.end(source);
}

// Claims the next packet of a channel.
fn claim<'h>(
    rt: &impl Abort,
    load: &mut ApartSession,
    channel: usize,
    head: &'h [u8],
) -> Claim<'h> {
    assert!(rt; load.load().has(Source::Channel(channel)));
    load.claim(channel, head)
}

// Returns the bytes of a channel from `at` on, `len` of them.
fn part<'a>(rt: &impl Abort, sent: &'a Sent, channel: usize, at: usize, len: usize) -> &'a [u8] {
    let text = text_of(rt, sent, Source::Channel(channel));
    text.get(at..)
        .unwrap_or_default()
        .get(..len)
        .unwrap_or_default()
}

// Writes a page to its place, as a thread would read it there; or clears it.
fn put(
    rt: &impl Abort,
    memory: &mut Memory,
    head: &PacketHead<'_>,
    block: usize,
    i: usize,
    content: &[u8],
) {
    assert!(rt; i < head.normal_len() + head.zero_len());
    let page = head.offset(i).checked_div(4096).unwrap_or(0);
    let place = Place { block, page };
    assert!(rt; memory.table().holds(place));
    if content.is_empty() {
        memory.put_zero_page(place);
        return;
    }
    assert!(rt; content.len() as u64 == memory.table().page_size());
    memory.put_page(place, content);
}

// Claims the packet of a channel whose head begins at `at`, and takes it with its only page, which
// is filled or zeros. Returns whether the load took it.
fn takes(
    rt: &impl Abort,
    load: &mut ApartSession,
    memory: &mut Memory,
    sent: &Sent,
    channel: usize,
    at: usize,
) -> bool {
    let head = part(rt, sent, channel, at, HEAD);
    let Claim::Pages(found, block) = claim(rt, load, channel, head) else {
        return false;
    };
    assert!(rt; load.load().has(Source::Channel(channel)));
    if found.normal_len() == 0 {
        put(rt, memory, &found, block, 0, &[]);
        return load.take(channel, head, &[]) == Ok(true);
    }
    let content = part(rt, sent, channel, at.wrapping_add(HEAD), PAGE);
    put(rt, memory, &found, block, 0, content);
    load.take(channel, head, &[content]) == Ok(true)
}

// Returns whether the bytes at `at` aren't taken apart, and feeds them.
fn is_fed(
    rt: &impl Abort,
    load: &mut ApartSession,
    memory: &mut Memory,
    sent: &Sent,
    channel: usize,
    at: usize,
) -> bool {
    let head = part(rt, sent, channel, at, HEAD);
    matches!(claim(rt, load, channel, head), Claim::Feed)
        && feeds(rt, load, memory, Source::Channel(channel), head)
}

// Loads a round of a filled page and a page of zeros, both taken apart.
fn loads_both_pages(rt: &(impl AllocGlobal + Abort)) -> bool {
    let (mut load, mut memory) = load_of(rt, 2, 1);
    let sent = nines_and_zeros(rt);
    let hello = part(rt, &sent, 0, 0, HELLO);
    let zeros = HELLO.wrapping_add(HEAD).wrapping_add(PAGE);
    let came = feeds(rt, &mut load, &mut memory, Source::Main, &sent.main)
        && feeds(rt, &mut load, &mut memory, Source::Channel(0), hello)
        && takes(rt, &mut load, &mut memory, &sent, 0, HELLO)
        && takes(rt, &mut load, &mut memory, &sent, 0, zeros)
        && is_fed(
            rt,
            &mut load,
            &mut memory,
            &sent,
            0,
            zeros.wrapping_add(HEAD),
        );
    ends(rt, &mut load, Source::Main);
    ends(rt, &mut load, Source::Channel(0));
    came && load.load().verdict() == Verdict::Done
        && is_full(&memory, at(0, 1), 9)
        && is_full(&memory, at(0, 0), 0)
}

#[test]
fn pages_taken_apart(rt: HostRuntime) {
    assert!(rt; loads_both_pages(&rt));
}

// Returns the streams of a round in which both channels have page 0.
fn page_on_both(rt: &(impl AllocGlobal + Abort)) -> Sent {
    let first = [(0, Part::Page(0, 7)), (2, Part::Sync)];
    let second = [(1, Part::Page(0, 8)), (3, Part::Sync)];
    let mut sent = one(rt, main_of(rt, 1, 1), channel_of(rt, 0, &first));
    assert!(rt; sent.channels.push(channel_of(rt, 1, &second)).is_ok());
    sent
}

// Claims a page that is claimed for the other channel. Returns whether it waits until that one is
// taken, and the round is refused.
fn waits_for_the_other(rt: &(impl AllocGlobal + Abort)) -> bool {
    let (mut load, mut memory) = load_of(rt, 1, 2);
    let sent = page_on_both(rt);
    let came = feeds(rt, &mut load, &mut memory, Source::Main, &sent.main)
        && feeds(
            rt,
            &mut load,
            &mut memory,
            Source::Channel(0),
            part(rt, &sent, 0, 0, HELLO),
        )
        && feeds(
            rt,
            &mut load,
            &mut memory,
            Source::Channel(1),
            part(rt, &sent, 1, 0, HELLO),
        );
    let (head, other) = (
        part(rt, &sent, 0, HELLO, HEAD),
        part(rt, &sent, 1, HELLO, HEAD),
    );
    let content = part(rt, &sent, 0, HELLO.wrapping_add(HEAD), PAGE);
    let behind = HELLO.wrapping_add(HEAD).wrapping_add(PAGE);
    let claimed = matches!(claim(rt, &mut load, 0, head), Claim::Pages(_, 0))
        && matches!(claim(rt, &mut load, 1, other), Claim::Wait)
        && load.claimed() == 1;
    assert!(rt; load.load().has(Source::Channel(0)));
    let taken = load.take(0, head, &[content]) == Ok(true) && load.claimed() == 0;
    let double = Fault::Round(RoundFault::DoublePage(Place { block: 0, page: 0 }));
    came && claimed
        && taken
        && takes(rt, &mut load, &mut memory, &sent, 1, HELLO)
        && is_fed(rt, &mut load, &mut memory, &sent, 0, behind)
        && is_fed(rt, &mut load, &mut memory, &sent, 1, behind)
        && load.load().verdict() == failed(0, Origin::Round, double)
}

#[test]
fn page_claimed_for_another_channel(rt: HostRuntime) {
    assert!(rt; waits_for_the_other(&rt));
}
