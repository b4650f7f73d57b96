//! What a load says before its sources end: that all rounds are in, which source broke, and how
//! many pages no round named.

use crate::both::{LIMIT, ends, feed};
use crate::texts::{channel_of, main_of, one, sevens_then_zeros, text_of};
use mig_answer::Verdict;
use mig_fixtures::{Part, zeroed};
use mig_in_place::InPlaceSession;
use mig_load_types::{Fault, LoadSettings};
use mig_mem::Memory;
use mig_packet::ChannelFault;
use mig_send::Sent;
use mig_sources::Source;
use std::alloc::AllocGlobal;
use std::process::Abort;
use uuid::Uuid;

// Returns a load of some channels, and its memory.
fn load_of(
    rt: &(impl AllocGlobal + Abort),
    pages: u64,
    channels: usize,
) -> (InPlaceSession, Memory) {
    assert!(rt; 1 <= channels && channels <= 255);
    let memory = zeroed(rt.alloc(), &[("a", pages)]).expect(rt, "a memory");
    let settings = LoadSettings::new(4096, LIMIT);
    let made = InPlaceSession::new(rt.alloc(), settings, memory.table(), &Uuid::nil(), channels);
    (made.expect(rt, "a load"), memory)
}

// Feeds what is left of a source. Returns whether the load took all of it.
fn feeds_rest(
    rt: &impl Abort,
    load: &mut InPlaceSession,
    memory: &mut Memory,
    sent: &Sent,
    source: Source,
) -> bool {
    let text = text_of(rt, sent, source);
    assert!(rt; load.has(source));
    let rest = text.get(load.fed(source) as usize..).unwrap_or_default();
    feed(rt, load, memory, source, rest) == Ok(rest.len())
}

// Returns the fault of a source's own bytes.
fn fault_of(rt: &impl Abort, load: &InPlaceSession, source: Source) -> Option<Fault> {
    assert!(rt; load.has(source));
    load.fault_of(source)
}

// Feeds both rounds: a channel that is ahead waits, and the other one takes both. Returns whether
// all rounds are in with the last SYNC packet, and not before.
fn is_in_with_the_last_sync(
    rt: &impl Abort,
    load: &mut InPlaceSession,
    memory: &mut Memory,
    sent: &Sent,
) -> bool {
    let (first, second) = (Source::Channel(0), Source::Channel(1));
    feeds_rest(rt, load, memory, sent, Source::Main)
        && !feeds_rest(rt, load, memory, sent, first)
        && feeds_rest(rt, load, memory, sent, second)
        && load.rounds() == 1
        && !load.has_all_rounds()
        && feeds_rest(rt, load, memory, sent, first)
        && load.has_all_rounds()
        && load.verdict() == Verdict::Running
}

#[test]
fn all_rounds_are_in_before_the_channels_end(rt: HostRuntime) {
    let (mut load, mut memory) = load_of(&rt, 1, 2);
    let sent = sevens_then_zeros(&rt);
    assert!(rt; is_in_with_the_last_sync(&rt, &mut load, &mut memory, &sent));
    assert!(rt; ends(&mut load, Source::Channel(0)) && ends(&mut load, Source::Channel(1)));
    assert!(rt; load.verdict() == Verdict::Done && load.has_all_rounds());
}

// Loads a round of one page, of three. Returns whether the others are missing when the load is
// done.
fn lacks_two_pages(rt: &(impl AllocGlobal + Abort)) -> bool {
    let (mut load, mut memory) = load_of(rt, 3, 1);
    let (page, sync) = ((0, Part::Page(1, 7)), (1, Part::Sync));
    let sent = one(rt, main_of(rt, 3, 1), channel_of(rt, 0, &[page, sync]));
    let channel = Source::Channel(0);
    let before = load.missing();
    feeds_rest(rt, &mut load, &mut memory, &sent, Source::Main)
        && feeds_rest(rt, &mut load, &mut memory, &sent, channel)
        && ends(&mut load, Source::Main)
        && ends(&mut load, channel)
        && load.verdict() == Verdict::Done
        && (before, load.missing()) == (3, 2)
}

#[test]
fn pages_that_no_round_named_are_missing(rt: HostRuntime) {
    assert!(rt; lacks_two_pages(&rt));
}

// Loads a round, after which a packet of the next one comes. Returns whether the load says that
// not all is in.
fn waits_for_a_round(rt: &(impl AllocGlobal + Abort)) -> bool {
    let (mut load, mut memory) = load_of(rt, 1, 1);
    let (page, sync, next) = (
        (0, Part::Page(0, 7)),
        (1, Part::Sync),
        (2, Part::Page(0, 8)),
    );
    let sent = one(rt, main_of(rt, 1, 1), channel_of(rt, 0, &[page, sync]));
    let more = channel_of(rt, 0, &[page, sync, next]);
    let channel = Source::Channel(0);
    let behind = more
        .get(text_of(rt, &sent, channel).len()..)
        .unwrap_or_default();
    feeds_rest(rt, &mut load, &mut memory, &sent, Source::Main)
        && feeds_rest(rt, &mut load, &mut memory, &sent, channel)
        && load.has_all_rounds()
        && feed(rt, &mut load, &mut memory, channel, behind) == Ok(behind.len())
        && load.verdict() == Verdict::Running
        && !load.has_all_rounds()
}

#[test]
fn packet_after_the_last_round(rt: HostRuntime) {
    assert!(rt; waits_for_a_round(&rt));
}

// Ends a channel within its hello. Returns whether the load, which goes on, says that it is cut,
// and that the other sources have no fault.
fn is_reported_by_its_source(rt: &(impl AllocGlobal + Abort)) -> bool {
    let (mut load, mut memory) = load_of(rt, 1, 2);
    let sent = sevens_then_zeros(rt);
    let cut = Source::Channel(1);
    let part = text_of(rt, &sent, cut).get(..20).unwrap_or_default();
    feed(rt, &mut load, &mut memory, cut, part) == Ok(20)
        && fault_of(rt, &load, cut) == None
        && ends(&mut load, cut)
        && load.verdict() == Verdict::Running
        && fault_of(rt, &load, cut) == Some(Fault::Channel(ChannelFault::Truncated))
        && fault_of(rt, &load, Source::Main) == None
        && fault_of(rt, &load, Source::Channel(0)) == None
}

#[test]
fn channel_that_is_cut(rt: HostRuntime) {
    assert!(rt; is_reported_by_its_source(&rt));
}
