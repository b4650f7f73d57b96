//! A main stream of a machine, loaded in place.

use crate::both::{LIMIT, ends, feed};
use crate::texts::{nines_and_zeros, text_of};
use mig_answer::Verdict;
use mig_fixtures::{at, is_full, zeroed};
use mig_in_place::InPlaceSession;
use mig_load_types::LoadSettings;
use mig_mem::Memory;
use mig_send::Sent;
use mig_sources::Source;
use mig_stream::Frame;
use std::alloc::AllocGlobal;
use std::process::Abort;
use uuid::Uuid;

const CHANNEL: Source = Source::Channel(0);

/// Returns the streams of `nines_and_zeros` with a machine's main stream: with the configuration
/// `pc` and OPEN_RETURN_PATH before START, and a device's section of 11 bytes after the 18 bytes of
/// END, which begin at byte 82 of RAM's sections.
pub(crate) fn machines_texts(rt: &(impl AllocGlobal + Abort)) -> Sent {
    let mut sent = nines_and_zeros(rt);
    let mut main = Vec::new(rt.alloc());
    for piece in [
        sent.main.get(..8).expect(rt, "a header"),
        b"\x07\x00\x00\x00\x02pc\x08\x00\x01\x00\x00",
        sent.main.get(8..82).expect(rt, "sections"),
        b"\x08\x00\x0b\x00\x00",
        sent.main.get(82..100).expect(rt, "END"),
        b"\x04\x00\x00\x00\x02\x05timer",
    ] {
        assert!(rt; main.extend_from_slice(piece).is_ok());
    }
    sent.main = main;
    sent
}

/// Returns a load of one channel in a frame.
pub(crate) fn load_in(
    rt: &(impl AllocGlobal + Abort),
    frame: Frame,
    memory: &Memory,
) -> InPlaceSession {
    let settings = LoadSettings::new(4096, LIMIT).with_frame(frame);
    let made = InPlaceSession::new(rt.alloc(), settings, memory.table(), &Uuid::nil(), 1);
    made.expect(rt, "a load")
}

// Feeds a machine's streams. Returns whether the load is done: the main stream is closed after 117
// of its 128 bytes, by END's footer.
fn is_done(rt: &impl Abort, load: &mut InPlaceSession, memory: &mut Memory, sent: &Sent) -> bool {
    feed(rt, load, memory, Source::Main, &sent.main) == Ok(128)
        && feed(rt, load, memory, CHANNEL, text_of(rt, sent, CHANNEL)).is_ok()
        && ends(load, CHANNEL)
        && load.verdict() == Verdict::Done
        && load.closed_at() == Some(117)
}

#[test]
fn machines_main_stream(rt: HostRuntime) {
    let mut memory = zeroed(rt.alloc(), &[("a", 2)]).expect(&rt, "a memory");
    let mut load = load_in(&rt, Frame::Machine, &memory);
    assert!(rt; is_done(&rt, &mut load, &mut memory, &machines_texts(&rt)));
    assert!(rt; is_full(&memory, at(0, 1), 9));
}
