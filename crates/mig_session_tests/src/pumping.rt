//! Pumps from readers with short reads, readers that don't end and readers that fail.

use crate::feeding::{are_fed, ends, is_ended, new_session, source_at, text_of};
use crate::texts::nines;
use mig_answer::Verdict;
use mig_send::Sent;
use mig_session::{Counted, PumpFault, Session, Source, pump};
use std::alloc::AllocGlobal;
use std::io::{self, Read};
use std::process::Abort;

// A reader that returns `len` bytes from the first read, and `more` bytes more from each further
// one. It fails once, at read `fails_at`, counted from 1; at none if that is 0.
#[derive(Drop)]
struct Slow<'a> {
    rest: &'a [u8],
    len: usize,
    more: usize,
    fails_at: usize,
}

impl<'a> Read for Slow<'a> {
    fn read(&mut self, buf: &mut [u8]) -> io::Result<usize> {
        let fails = self.fails_at == 1;
        self.fails_at = self.fails_at.saturating_sub(1);
        if fails {
            return Err(io::Error::from(io::ErrorKind::Other));
        }
        let n = self.len.min(self.rest.len()).min(buf.len());
        let (piece, rest) = self.rest.split_at(n);
        buf[..n].copy_from_slice(piece);
        self.rest = rest;
        self.len = self.len.saturating_add(self.more);
        Ok(n)
    }
}

// Returns a session that was fed all of the other source.
fn start(rt: &(impl AllocGlobal + Abort), sent: &Sent, number: usize) -> Session {
    let other = source_at(1usize.saturating_sub(number));
    let mut session = new_session(rt, rt.alloc(), 4096, 1);
    assert!(rt; are_fed(&mut session, other, text_of(rt, sent, other), 1000));
    assert!(rt; ends(&mut session, other));
    session
}

// Pumps a source by at most `turns` reads. Returns whether the result is this one.
fn has_result<R: Read + Drop>(
    rt: &(impl AllocGlobal + Abort),
    session: &mut Session,
    source: Source,
    reader: R,
    turns: u64,
    wanted: Result<u64, PumpFault>,
) -> bool {
    if !session.has(source) || session.ended(source) {
        return false;
    }
    if turns > 1 << 40 || session.fed(source) > 1 << 62 {
        return false;
    }
    let mut reader = Counted::new(reader);
    pump(rt.alloc(), &mut reader, session, source, turns) == wanted
}

// ---- reads that fail

// Returns a reader of one byte a read.
fn slow_reader(rest: &[u8], fails_at: usize) -> Slow<'_> {
    Slow {
        rest,
        len: 1,
        more: 0,
        fails_at,
    }
}

// Pumps the main stream, which fails after `good` reads, and then its rest from another reader.
fn goes_on_after(rt: &(impl AllocGlobal + Abort), sent: &Sent, good: usize) -> bool {
    let mut session = start(rt, sent, 0);
    let (main, failed) = (Source::Main, Err(PumpFault::Read));
    let reader = slow_reader(&sent.main, good.wrapping_add(1));
    if !has_result(rt, &mut session, main, reader, 102, failed) {
        return false;
    }
    if !session.has(main) || session.fed(main) != good as u64 {
        return false;
    }
    let rest = sent.main.get(good..).unwrap_or_default();
    let all = Ok(rest.len() as u64);
    has_result(rt, &mut session, main, slow_reader(rest, 0), 102, all)
        && is_ended(&session, main, 101)
        && session.verdict() == Verdict::Done
}

// The main stream has 101 bytes, and one more read finds its end.
#[test]
fn each_read_failing(rt: HostRuntime) {
    let sent = nines(&rt);
    for good in 0..102usize {
        assert!(rt; goes_on_after(&rt, &sent, good));
    }
}

// ---- the lengths of reads

// Pumps a source by `turns` reads, of `len` bytes and one more with each read. Returns whether the
// result is this one.
fn is_pumped(
    rt: &(impl AllocGlobal + Abort),
    session: &mut Session,
    source: Source,
    text: &[u8],
    len: usize,
    turns: u64,
    wanted: Result<u64, PumpFault>,
) -> bool {
    let reader = Slow {
        rest: text,
        len,
        more: 1,
        fails_at: 0,
    };
    has_result(rt, session, source, reader, turns, wanted)
}

// Returns whether a source is pumped to its end by exactly `turns` reads.
fn takes_turns(
    rt: &(impl AllocGlobal + Abort),
    sent: &Sent,
    number: usize,
    len: usize,
    turns: u64,
) -> bool {
    let source = source_at(number);
    let text = text_of(rt, sent, source);
    let few = Err(PumpFault::TooManyTurns);
    let mut session = start(rt, sent, number);
    if !is_pumped(
        rt,
        &mut session,
        source,
        text,
        len,
        turns.saturating_sub(1),
        few,
    ) {
        return false;
    }
    let all = text.len() as u64;
    session = start(rt, sent, number);
    is_pumped(rt, &mut session, source, text, len, turns, Ok(all))
        && is_ended(&session, source, all)
        && session.verdict() == Verdict::Done
}

// The main stream and the channel, by reads of 1, 2, 3 and more bytes, and by one read of all
// bytes. One more read finds the end.
#[test]
fn reads_of_many_lengths(rt: HostRuntime) {
    let sent = nines(&rt);
    for (number, len, turns) in [
        (0usize, 1usize, 15u64),
        (0, usize::MAX, 2),
        (1, 1, 118),
        (1, usize::MAX, 2),
    ] {
        assert!(rt; takes_turns(&rt, &sent, number, len, turns));
    }
}

// Returns whether one read of a channel of zeros takes 65,536 bytes.
fn has_room(rt: &(impl AllocGlobal + Abort), zeros: &[u8]) -> bool {
    let mut session = new_session(rt, rt.alloc(), 4096, 1);
    let few = Err(PumpFault::TooManyTurns);
    let channel = Source::Channel(0);
    has_result(rt, &mut session, channel, zeros, 1, few)
        && session.has(channel)
        && session.fed(channel) == 65_536
}

#[test]
fn room_of_a_read(rt: HostRuntime) {
    assert!(rt; has_room(&rt, &[0; 70_000]));
}
