//! Streams of one round on one channel, worked by hand, in small pieces.

use crate::feeding::{LIMIT, are_fed, ends, is_fed, new_session, text_of};
use crate::texts::nines;
use mig_answer::Verdict;
use mig_fixtures::{at, is_full};
use mig_load_types::LoadSettings;
use mig_send::Sent;
use mig_session::{Session, Source};
use mig_stream::Frame;
use std::alloc::AllocGlobal;
use std::process::Abort;
use uuid::Uuid;

const CHANNEL: Source = Source::Channel(0);

// Feeds all of the channel, and ends it.
fn has_channel(rt: &impl Abort, session: &mut Session, sent: &Sent) -> bool {
    are_fed(session, CHANNEL, text_of(rt, sent, CHANNEL), 1) && ends(session, CHANNEL)
}

// Returns whether page 1 is filled with this byte.
fn has_page(session: &Session, byte: u8) -> bool {
    session
        .memory()
        .is_some_and(|memory| is_full(memory, at(0, 1), byte))
}

// Returns whether the results are right after `main` bytes of the main stream, and all of the
// channel.
fn is_right_after(session: &Session, main: usize) -> bool {
    match main {
        0..43 => session.memory().is_none() && session.rounds() == 0,
        43..69 => has_page(session, 0) && session.rounds() == 0,
        69..101 => session.verdict() == Verdict::Running && session.rounds() == 1,
        _ => session.verdict() == Verdict::Done && has_page(session, 9),
    }
}

// Returns how many of the two pages are missing then. The round names page 1.
fn missing_after(main: usize) -> Option<u64> {
    match main {
        0..43 => None,
        43..69 => Some(2),
        _ => Some(1),
    }
}

// Feeds a byte of the main stream, its number `main`. Returns whether the results are right.
fn is_right_with(session: &mut Session, piece: &[u8], main: usize) -> bool {
    is_fed(session, Source::Main, piece)
        && is_right_after(session, main)
        && session.missing() == missing_after(main)
}

// Feeds the main stream byte by byte. Returns whether the results are right after each byte.
fn is_right_after_each(session: &mut Session, main: &[u8]) -> bool {
    for (at, piece) in main.chunks(1).enumerate() {
        if !is_right_with(session, piece, at.wrapping_add(1)) {
            return false;
        }
    }
    true
}

// The load is done with the main stream's last byte, before that stream is ended.
#[test]
fn channel_and_then_each_byte_of_main(rt: HostRuntime) {
    let sent = nines(&rt);
    let mut session = new_session(&rt, rt.alloc(), 4096, 1);
    assert!(rt; has_channel(&rt, &mut session, &sent));
    assert!(rt; is_right_after_each(&mut session, &sent.main));
}

// ---- a machine's main stream

// Returns the main stream of `nines` as a machine's: with the configuration `pc` and
// OPEN_RETURN_PATH before START, and a device's section after the 18 bytes of END, which begin at
// byte 82 of RAM's sections.
fn machines_main(rt: &(impl AllocGlobal + Abort), ram: &[u8]) -> Vec<u8> {
    let mut main = Vec::new(rt.alloc());
    for piece in [
        ram.get(..8).expect(rt, "a header"),
        b"\x07\x00\x00\x00\x02pc\x08\x00\x01\x00\x00",
        ram.get(8..82).expect(rt, "sections"),
        b"\x08\x00\x0b\x00\x00",
        ram.get(82..100).expect(rt, "END"),
        b"\x04\x00\x00\x00\x02\x05timer",
    ] {
        assert!(rt; main.extend_from_slice(piece).is_ok());
    }
    main
}

fn machines_session(rt: &(impl AllocGlobal + Abort)) -> Session {
    let settings = LoadSettings::new(4096, LIMIT).with_frame(Frame::Machine);
    Session::new_with(rt.alloc(), settings, &Uuid::nil(), 1).expect(rt, "a session")
}

// Loads a machine's main stream in pieces of `len` bytes. It is closed after 117 bytes, by END's
// footer.
fn is_done(rt: &(impl AllocGlobal + Abort), sent: &Sent, main: &[u8], len: usize) -> bool {
    let mut session = machines_session(rt);
    has_channel(rt, &mut session, sent)
        && are_fed(&mut session, Source::Main, main, len)
        && session.verdict() == Verdict::Done
        && session.closed_at() == Some(117)
        && has_page(&session, 9)
}

#[test]
fn machines_main_stream(rt: HostRuntime) {
    let sent = nines(&rt);
    let main = machines_main(&rt, &sent.main);
    for len in [1usize, 7, 4096] {
        assert!(rt; is_done(&rt, &sent, &main, len));
    }
}
