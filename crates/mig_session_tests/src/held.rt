//! The bytes that a session holds while it runs, and after its verdict.

use crate::feeding::{are_fed, ends, is_fed, new_session, source_at};
use crate::texts::{channel_of, main_of};
use mig_answer::Verdict;
use mig_fixtures::{Part, TestHeap, put_all};
use mig_session::{Session, Source};
use std::alloc::{AllocGlobal, Allocator};
use std::process::Abort;

const ROUNDS: u64 = 200;

const PAGES: u64 = 4;

// Returns the place in the main stream at which a round's FLUSH ends: byte 69 for the first round,
// and 26 bytes more for each further round.
fn end_of(round: u64) -> usize {
    round.wrapping_mul(26).wrapping_add(69) as usize
}

// Returns a channel's part of a round: two of the four pages, and a SYNC packet. Each round has six
// packets.
fn part_of(rt: &(impl AllocGlobal + Abort), channel: u8, round: u64) -> Vec<u8> {
    let mut text = if round == 0 {
        channel_of(rt, channel, &[])
    } else {
        Vec::new(rt.alloc())
    };
    let first = u64::from(channel).wrapping_mul(2);
    let number = round
        .wrapping_mul(6)
        .wrapping_add(u64::from(channel).wrapping_mul(3));
    let byte = (round % 256) as u8;
    let packets = [
        (number, Part::Page(first, byte)),
        (
            number.wrapping_add(1),
            Part::Page(first.wrapping_add(1), byte),
        ),
        (number.wrapping_add(2), Part::Sync),
    ];
    assert!(rt; put_all(&mut text, &packets).is_some());
    text
}

// Feeds a round on both channels, and then on the main stream. Returns whether it is counted.
fn is_counted<A: Allocator + Copy>(
    rt: &(impl AllocGlobal + Abort),
    session: &mut Session<A>,
    main: &[u8],
    round: u64,
) -> bool {
    for channel in [0u8, 1] {
        let text = part_of(rt, channel, round);
        if !are_fed(session, Source::Channel(channel as usize), &text, 1000) {
            return false;
        }
    }
    let from = if round == 0 {
        0
    } else {
        end_of(round.wrapping_sub(1))
    };
    let part = main.get(from..end_of(round)).unwrap_or_default();
    is_fed(session, Source::Main, part) && session.rounds() == round.wrapping_add(1)
}

// Feeds all rounds. Returns whether none leaves more bytes held than the first two did.
fn holds_no_more<A: Allocator + Copy>(
    rt: &(impl AllocGlobal + Abort),
    heap: &TestHeap,
    session: &mut Session<A>,
    main: &[u8],
) -> bool {
    let mut most = 0u64;
    for round in 0..ROUNDS {
        if !is_counted(rt, session, main, round) {
            return false;
        }
        if round < 2 {
            most = heap.held();
        }
        if heap.held() > most {
            return false;
        }
    }
    true
}

// Feeds the rest of the main stream, and ends all sources.
fn is_done<A: Allocator + Copy>(session: &mut Session<A>, main: &[u8]) -> bool {
    let rest = main
        .get(end_of(ROUNDS.wrapping_sub(1))..)
        .unwrap_or_default();
    if !is_fed(session, Source::Main, rest) {
        return false;
    }
    for number in 0..3usize {
        if session.verdict() != Verdict::Running || !ends(session, source_at(number)) {
            return false;
        }
    }
    session.verdict() == Verdict::Done && session.rounds() == ROUNDS
}

// Returns how many bytes a copy of a session's memory holds.
fn bytes_of_memory<A: Allocator + Copy>(heap: &TestHeap, session: &Session<A>) -> Option<u64> {
    let before = heap.held();
    let _copy = session.memory()?.try_copy().ok()?;
    Some(heap.held().wrapping_sub(before))
}

// Loads the rounds. Returns whether the session that is done holds the guest's memory, and no more
// than a few small lists and sets in addition.
fn holds_its_memory<A: Allocator + Copy>(
    rt: &(impl AllocGlobal + Abort),
    heap: &TestHeap,
    alloc: A,
    main: &[u8],
) -> bool {
    let mut session = new_session(rt, alloc, 4096, 2);
    if !holds_no_more(rt, heap, &mut session, main) {
        return false;
    }
    let running = heap.held();
    if !is_done(&mut session, main) {
        return false;
    }
    let done = heap.held();
    let guest = bytes_of_memory(heap, &session).unwrap_or(0);
    0 < guest && guest <= done && done <= guest.wrapping_add(768) && done < running
}

#[test]
fn rounds_one_by_one(rt: HostRuntime) {
    let main = main_of(&rt, PAGES, ROUNDS);
    let heap = TestHeap::new(rt.alloc());
    assert!(rt; holds_its_memory(&rt, &heap, &heap, &main) && heap.held() == 0);
}
