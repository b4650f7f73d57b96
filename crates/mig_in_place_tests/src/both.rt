//! Feeds a session and two loads in place the same bytes, and compares what they report. One of the
//! two keeps each round apart until it was judged: its memory is the session's at any time.

use crate::texts::text_of;
use mig_answer::Verdict;
use mig_in_place::InPlaceSession;
use mig_load_types::{Fault, InPlaceFault, LoadFault, LoadSettings, Origin};
use mig_mem::{Memory, Table, first_difference, is_page_size};
use mig_send::Sent;
use mig_session::{Session, Source};
use mig_staged::Staged;
use rand_core::Rng;
use rand_pcg::Pcg32;
use std::alloc::{AllocGlobal, Allocator};
use std::process::Abort;
use uuid::Uuid;

pub(crate) const LIMIT: u64 = 1 << 40;

/// A session, a load in place with its memory, and one of whole rounds with its own.
#[derive(Drop)]
pub(crate) struct Both {
    session: Session,
    pub(crate) in_place: InPlaceSession,
    pub(crate) memory: Memory,
    by_rounds: InPlaceSession,
    staged: Staged<Memory>,
}

/// Returns a random number below `n`.
pub(crate) fn below(random: &mut Pcg32, n: u64) -> u64 {
    random.next_u64().checked_rem(n).unwrap_or(0)
}

/// Returns the sources in order: the main stream is number 0, and channel 0 is number 1.
pub(crate) fn source_at(number: usize) -> Source {
    match number.checked_sub(1) {
        None => Source::Main,
        Some(j) => Source::Channel(j),
    }
}

/// Returns the verdict of a load that failed.
pub(crate) fn failed(round: u64, source: Origin, fault: Fault) -> Verdict {
    Verdict::Failed(LoadFault {
        round,
        source,
        fault,
    })
}

// Returns a memory of zeros that keeps the open round apart.
fn staged(rt: &(impl AllocGlobal + Abort), table: &Table) -> Staged<Memory> {
    let memory = Memory::zeroed(rt.alloc(), table).expect(rt, "a memory");
    Staged::new(rt.alloc(), memory).ok().expect(rt, "a memory")
}

// Returns loads of `channels` channels, into memories of zeros.
fn both_of(rt: &(impl AllocGlobal + Abort), table: &Table, channels: usize) -> Both {
    let size = table.page_size();
    assert!(rt; is_page_size(size) && 1 <= channels && channels <= 255);
    let session = Session::new(rt.alloc(), size, &Uuid::nil(), channels, LIMIT);
    let settings = LoadSettings::new(size, LIMIT);
    let in_place = InPlaceSession::new(rt.alloc(), settings, table, &Uuid::nil(), channels);
    let by_rounds = InPlaceSession::new(rt.alloc(), settings, table, &Uuid::nil(), channels);
    Both {
        session: session.expect(rt, "a session"),
        in_place: in_place.expect(rt, "a load"),
        memory: Memory::zeroed(rt.alloc(), table).expect(rt, "a memory"),
        by_rounds: by_rounds.expect(rt, "a load"),
        staged: staged(rt, table),
    }
}

/// Feeds a piece to a load in place.
pub(crate) fn feed<A: Allocator + Copy>(
    rt: &impl Abort,
    load: &mut InPlaceSession<A>,
    memory: &mut Memory,
    source: Source,
    piece: &[u8],
) -> Result<usize, InPlaceFault> {
    assert!(rt; load.has(source));
    assert!(rt; !load.ended(source) && load.has_room(source, piece.len()));
    load.feed(memory, source, piece)
}

// Feeds a piece to a session. Returns whether it was taken.
fn is_fed(session: &mut Session, source: Source, piece: &[u8]) -> bool {
    if !session.has(source) {
        return false;
    }
    !session.ended(source)
        && session.has_room(source, piece.len())
        && session.feed(source, piece) == Ok(())
}

/// Ends a source of a load in place. Returns whether the load has it.
pub(crate) fn ends(load: &mut InPlaceSession, source: Source) -> bool {
    if !load.has(source) {
        return false;
    }
    load.end(source);
    true
}

// Ends a source of a session.
fn session_ends(session: &mut Session, source: Source) -> bool {
    if !session.has(source) {
        return false;
    }
    session.end(source);
    true
}

// Feeds a piece to the load of whole rounds. Returns how many bytes it took.
fn rounds_fed(
    load: &mut InPlaceSession,
    memory: &mut Staged<Memory>,
    source: Source,
    piece: &[u8],
) -> Option<usize> {
    if !load.has(source) {
        return None;
    }
    if load.ended(source) || !load.has_room(source, piece.len()) {
        return None;
    }
    load.feed_rounds(memory, source, piece).ok()
}

// Feeds a piece to the loads in place, and what they took to the session. Returns whether both took
// as much, and what they left waits.
fn is_taken(rt: &impl Abort, both: &mut Both, source: Source, piece: &[u8]) -> bool {
    let Ok(taken) = feed(rt, &mut both.in_place, &mut both.memory, source, piece) else {
        return false;
    };
    if rounds_fed(&mut both.by_rounds, &mut both.staged, source, piece) != Some(taken) {
        return false;
    }
    if taken < piece.len() && takes(&both.in_place, source) {
        return false;
    }
    match piece.get(..taken) {
        Some(front) => is_fed(&mut both.session, source, front),
        None => false,
    }
}

fn takes(load: &InPlaceSession, source: Source) -> bool {
    load.has(source) && load.takes(source)
}

// Returns how many bytes of a source were taken, if it can be fed or ended now.
fn fed(load: &InPlaceSession, source: Source, text: &[u8]) -> Option<usize> {
    if !load.has(source) {
        return None;
    }
    let fed = load.fed(source) as usize;
    if load.ended(source) || (fed < text.len() && !load.takes(source)) {
        return None;
    }
    Some(fed)
}

// Feeds at most `most` of the bytes that are left of a source, or ends it if none is left.
fn steps(rt: &impl Abort, both: &mut Both, source: Source, rest: &[u8], most: usize) -> bool {
    if rest.is_empty() {
        return ends(&mut both.in_place, source)
            && ends(&mut both.by_rounds, source)
            && session_ends(&mut both.session, source);
    }
    match rest.get(..most.min(rest.len())) {
        Some(piece) => is_taken(rt, both, source, piece),
        None => false,
    }
}

// Returns whether a load in place reports what the session does: rounds, verdict, and where the
// main stream is closed.
fn is_alike(load: &InPlaceSession, session: &Session) -> bool {
    load.rounds() == session.rounds()
        && load.verdict() == session.verdict()
        && load.closed_at() == session.closed_at()
}

fn are_alike(both: &Both) -> bool {
    is_alike(&both.in_place, &both.session) && is_alike(&both.by_rounds, &both.session)
}

// Returns whether the memory of whole rounds is the session's, once that has one.
fn have_same_memory(both: &Both) -> bool {
    let (Some(memory), kept) = (both.session.memory(), both.staged.memory()) else {
        return true;
    };
    kept.table().same(memory.table()) && first_difference(kept, memory).is_none()
}

// Returns whether they report the same place up to which a source is valid.
fn are_valid_alike(both: &Both, source: Source) -> bool {
    if !both.in_place.has(source) || !both.session.has(source) {
        return false;
    }
    both.in_place.valid_up_to(source) == both.session.valid_up_to(source)
}

// Feeds the next piece of a source. Returns whether they are alike after it.
fn steps_alike(rt: &impl Abort, both: &mut Both, source: Source, text: &[u8], most: usize) -> bool {
    let Some(from) = fed(&both.in_place, source, text) else {
        return true;
    };
    let rest = text.get(from..).unwrap_or_default();
    steps(rt, both, source, rest, most) && are_alike(both) && are_valid_alike(both, source)
}

// Returns whether the memories are compared after a piece. After small ones they seldom are.
fn is_compared(most: u64, random: &mut Pcg32) -> bool {
    let pieces = 4096u64.checked_div(most).unwrap_or(0);
    below(random, pieces.wrapping_add(1)) == 0
}

// Feeds streams to the loads until there is a verdict, in pieces of at most `most` bytes and in a
// random order. Returns whether they are alike after each piece, as are the memories that are
// compared.
fn are_fed_alike(
    rt: &impl Abort,
    both: &mut Both,
    sent: &Sent,
    most: u64,
    random: &mut Pcg32,
) -> bool {
    let sources = sent.channels.len().wrapping_add(1) as u64;
    for _ in 0..1_000_000u64 {
        let source = source_at(below(random, sources) as usize);
        let len = 1u64.wrapping_add(below(random, most)) as usize;
        if !steps_alike(rt, both, source, text_of(rt, sent, source), len) {
            return false;
        }
        if both.in_place.verdict() != Verdict::Running {
            return have_same_memory(both);
        }
        if is_compared(most, random) && !have_same_memory(both) {
            return false;
        }
    }
    false
}

/// Returns loads that were fed these streams in this way, and were alike after each piece.
pub(crate) fn loaded(
    rt: &(impl AllocGlobal + Abort),
    table: &Table,
    sent: &Sent,
    most: u64,
    random: &mut Pcg32,
) -> Both {
    let mut both = both_of(rt, table, sent.channels.len());
    assert!(rt; are_fed_alike(rt, &mut both, sent, most, random));
    both
}
