//! Guests from a seeded generator: the streams of the sender on several channels are fed in pieces
//! and in a random order of the sources. Small guests are fed in random pieces, and guests whose
//! rounds have several MiB in the pieces of a reader of files or sockets.

ghost use Rattle.std.specs.Prelude.{◌≡◌, ◌<◌, ◌⊎◌};

use crate::feeding::{is_fed, is_same, new_session, source_at, text_of};
use mig_answer::Verdict;
use mig_fixtures::{at, set, table_of};
use mig_mem::{Dirty, Memory, PAGE_SIZE_4K, PAGE_SIZE_8K, Place};
use mig_packet::OpenGate;
use mig_send::{MultiSender, Sent};
use mig_session::{Session, Source};
use rand_core::Rng;
use rand_pcg::Pcg32;
use std::alloc::AllocGlobal;
use std::process::Abort;
use std::thread::Threads;
use uuid::Uuid;

// The kind of the random guests, and of the pieces in which their streams are fed.
#[derive(Clone, Copy)]
struct Kind {
    // The pages of the guest's blocks.
    pages: [u64; 2],
    // The fewest writes before a round. A random number of others, less than `more`, are made in
    // addition.
    least: u64,
    more: u64,
    // The batch limit is at random from 1 to this number.
    packet: u64,
    // The fewest bytes that the channels have for each round.
    bytes: u64,
    // The length of each piece; if it is None, each piece has a random one.
    piece: Option<usize>,
}

const SMALL: Kind = Kind {
    pages: [20, 3],
    least: 0,
    more: 24,
    packet: 4,
    bytes: 0,
    piece: None,
};

// Rounds with some 1,200 pages and more that aren't zeros.
const LARGE: Kind = Kind {
    pages: [3000, 200],
    least: 3000,
    more: 3000,
    packet: 64,
    bytes: 4 << 20,
    piece: Some(65_536),
};

/// Returns a number below `n`; 0 if `n` is 0.
pub(crate) fn below(random: &mut Pcg32, n: u64) -> u64
    ensures { (result < n) ⊎ (result ≡ 0) }
{
    random.next_u64().checked_rem(n).unwrap_or(0)
}

// ---- the streams of a guest's rounds

/// The guest writes a byte to a page, or makes it zeros, and the page is marked.
pub(crate) fn is_written(
    memory: &mut Memory,
    dirty: &mut Dirty,
    place: Place,
    random: &mut Pcg32,
) -> bool {
    if !dirty.table().holds(place) || dirty.mark(place).is_err() {
        return false;
    }
    if !memory.table().holds(place) {
        return false;
    }
    if below(random, 3) == 0 {
        memory.put_zero_page(place);
        return true;
    }
    let size = memory.table().page_size();
    let offset = place
        .page
        .wrapping_mul(size)
        .wrapping_add(below(random, size));
    set(memory, place.block, offset, (random.next_u32() % 256) as u8)
}

// Returns the place of the page with this number. The pages are numbered through all blocks, in
// their order.
fn place_of(kind: Kind, number: u64) -> Place {
    match number.checked_sub(kind.pages[0]) {
        None => at(0, number),
        Some(page) => at(1, page),
    }
}

// The guest writes to some pages, or makes them zeros, and they are marked.
fn are_written(kind: Kind, memory: &mut Memory, dirty: &mut Dirty, random: &mut Pcg32) -> bool {
    let pages = kind.pages[0].wrapping_add(kind.pages[1]);
    for _ in 0..kind.least.wrapping_add(below(random, kind.more)) {
        let place = place_of(kind, below(random, pages));
        if !is_written(memory, dirty, place, random) {
            return false;
        }
    }
    true
}

// Sends a round of the pages that the guest writes.
fn is_sent<R: AllocGlobal + Abort + Threads + Sync>(
    rt: &R,
    kind: Kind,
    sender: &mut MultiSender,
    memory: &mut Memory,
    random: &mut Pcg32,
) -> bool {
    let mut dirty = Dirty::none(rt.alloc(), memory.table()).expect(rt, "a set");
    are_written(kind, memory, &mut dirty, random)
        && sender.round(rt, memory, &dirty, &OpenGate).is_ok()
}

// Returns the streams of a guest whose memory was zeros at first.
fn sent<R: AllocGlobal + Abort + Threads + Sync>(
    rt: &R,
    kind: Kind,
    memory: &mut Memory,
    channels: usize,
    rounds: u64,
    random: &mut Pcg32,
) -> Sent {
    let limit = 1 + below(random, kind.packet) as usize;
    let made = MultiSender::new(rt.alloc(), memory.table(), Uuid::nil(), channels, limit);
    let mut sender = made.expect(rt, "a sender");
    for _ in 0..rounds {
        assert!(rt; is_sent(rt, kind, &mut sender, memory, random));
    }
    sender.finish().ok().expect(rt, "streams")
}

// ---- their loads

// Returns the length of a piece: the kind's, or a random one that is often short and sometimes as
// long as several packets.
fn length_of_piece(kind: Kind, random: &mut Pcg32) -> usize {
    if let Some(len) = kind.piece {
        return len;
    }
    let most = match below(random, 3) {
        0 => 100,
        1 => 6000,
        _ => 70_000,
    };
    below(random, most) as usize
}

// Feeds the next bytes of a source, at most `len`, or ends it after its last byte.
fn steps(session: &mut Session, source: Source, text: &[u8], len: usize) -> bool {
    if !session.has(source) {
        return false;
    }
    if session.ended(source) {
        return true;
    }
    let rest = text.get(session.fed(source) as usize..).unwrap_or_default();
    if rest.is_empty() {
        session.end(source);
        return true;
    }
    is_fed(session, source, &rest[..len.min(rest.len())])
}

// Feeds the streams in pieces and in a random order of the sources, until there is a verdict.
fn is_done(
    rt: &impl Abort,
    kind: Kind,
    session: &mut Session,
    sent: &Sent,
    random: &mut Pcg32,
) -> bool {
    let sources = sent.channels.len().wrapping_add(1) as u64;
    for _ in 0..1_000_000u64 {
        let source = source_at(below(random, sources) as usize);
        let len = length_of_piece(kind, random);
        if !steps(session, source, text_of(rt, sent, source), len) {
            return false;
        }
        if session.verdict() != Verdict::Running {
            return session.verdict() == Verdict::Done;
        }
    }
    false
}

// Loads the streams of a guest in pieces. Returns whether the memory is the guest's.
fn is_loaded(
    rt: &(impl AllocGlobal + Abort),
    kind: Kind,
    sent: &Sent,
    rounds: u64,
    guest: &Memory,
    random: &mut Pcg32,
) -> bool {
    let channels = sent.channels.len();
    let mut session = new_session(rt, rt.alloc(), guest.table().page_size(), channels);
    if !is_done(rt, kind, &mut session, sent, random) || session.rounds() != rounds {
        return false;
    }
    match session.memory() {
        Some(memory) => is_same(memory, guest),
        None => false,
    }
}

// Returns the sum of the channels' lengths.
fn bytes_of(sent: &Sent) -> u64 {
    let mut bytes = 0u64;
    for text in sent.channels.iter() {
        bytes = bytes.wrapping_add(text.len() as u64);
    }
    bytes
}

// Sends some rounds of a guest, and loads them four times.
fn is_guest_loaded<R: AllocGlobal + Abort + Threads + Sync>(
    rt: &R,
    kind: Kind,
    mut memory: Memory,
    channels: usize,
    rounds: u64,
    random: &mut Pcg32,
) -> bool {
    let sent = sent(rt, kind, &mut memory, channels, rounds, random);
    for _ in 0..4u8 {
        if !is_loaded(rt, kind, &sent, rounds, &memory, random) {
            return false;
        }
    }
    bytes_of(&sent) >= rounds.wrapping_mul(kind.bytes)
}

// Returns a memory of zeros for a guest.
fn zeroed(rt: &(impl AllocGlobal + Abort), kind: Kind, page_size: u64) -> Memory {
    let blocks = [("pc.ram", kind.pages[0]), ("b", kind.pages[1])];
    let table = table_of(rt.alloc(), page_size, &blocks).expect(rt, "a table");
    Memory::zeroed(rt.alloc(), &table).expect(rt, "a memory")
}

// Sends and loads guests of up to five rounds on some channels.
fn are_guests_loaded<R: AllocGlobal + Abort + Threads + Sync>(
    rt: &R,
    page_size: u64,
    channels: usize,
    random: &mut Pcg32,
) -> bool {
    for rounds in 0..6u64 {
        let memory = zeroed(rt, SMALL, page_size);
        if !is_guest_loaded(rt, SMALL, memory, channels, rounds, random) {
            return false;
        }
    }
    true
}

#[test]
fn random_pieces_of_random_guests(rt: HostRuntime) {
    let mut random = Pcg32::new(1, 0);
    for channels in [1usize, 2, 4] {
        assert!(rt; are_guests_loaded(&rt, PAGE_SIZE_4K, channels, &mut random));
        assert!(rt; are_guests_loaded(&rt, PAGE_SIZE_8K, channels, &mut random));
    }
}

#[test]
fn rounds_of_several_mib_in_pieces_of_64_kib(rt: HostRuntime) {
    let mut random = Pcg32::new(2, 0);
    for page_size in [PAGE_SIZE_4K, PAGE_SIZE_8K] {
        let memory = zeroed(&rt, LARGE, page_size);
        assert!(rt; is_guest_loaded(&rt, LARGE, memory, 4, 3, &mut random));
    }
}
