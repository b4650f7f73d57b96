//! Loads in place that are fed by turns, from readers with short reads and readers that fail.

use crate::both::{LIMIT, below, source_at};
use crate::framed::{load_in, machines_texts};
use crate::texts::{sevens_then_zeros, text_of};
use mig_answer::Verdict;
use mig_fixtures::{at, is_full, zeroed};
use mig_in_place::{
    InPlaceSession, RoundRobin, SourceReader, Turn, TurnFault, TurnOrder, pump_by_turns,
};
use mig_load_types::LoadSettings;
use mig_mem::Memory;
use mig_send::Sent;
use mig_session::{Counted, PieceReader, Source};
use mig_stream::Frame;
use rand_pcg::Pcg32;
use std::alloc::{AllocGlobal, Allocator};
use std::io::{self, Read};
use std::process::Abort;
use uuid::Uuid;

// A reader that returns at most `len` bytes a read. It fails once, at read `fails_at`, counted from
// 1; at none if that is 0.
#[derive(Drop)]
struct Slow<'a> {
    rest: &'a [u8],
    len: usize,
    fails_at: usize,
}

impl<'a> Read for Slow<'a> {
    fn read(&mut self, buf: &mut [u8]) -> io::Result<usize> {
        let fails = self.fails_at == 1;
        self.fails_at = self.fails_at.saturating_sub(1);
        if fails {
            return Err(io::Error::from(io::ErrorKind::Other));
        }
        let n = self.len.min(self.rest.len()).min(buf.len());
        let (piece, rest) = self.rest.split_at(n);
        buf[..n].copy_from_slice(piece);
        self.rest = rest;
        Ok(n)
    }
}

// An order that chooses at random, also numbers that no source has.
#[derive(Drop)]
struct ByChance(Pcg32);

impl TurnOrder for ByChance {
    fn next_turn<A: Allocator>(&mut self, load: &InPlaceSession<A>) -> usize {
        let numbers = load.channels().saturating_add(3);
        below(&mut self.0, numbers as u64) as usize
    }
}

type Reader<'a> = SourceReader<Counted<Slow<'a>>>;

// A load, its memory, and a reader of each source.
#[derive(Drop)]
struct Turning<'a> {
    load: InPlaceSession,
    memory: Memory,
    sources: Vec<Reader<'a>>,
}

// Returns readers of streams, the main stream's first, of at most `len` bytes a read.
fn readers<'a>(
    rt: &(impl AllocGlobal + Abort),
    sent: &'a Sent,
    len: usize,
    fails_at: usize,
) -> Vec<Reader<'a>> {
    let mut sources = Vec::new(rt.alloc());
    for number in 0..=sent.channels.len() {
        let rest = text_of(rt, sent, source_at(number));
        let reader = Counted::new(Slow {
            rest,
            len,
            fails_at,
        });
        let source = SourceReader::new(rt.alloc(), reader).expect(rt, "a buffer");
        assert!(rt; sources.push(source).is_ok());
    }
    sources
}

// Returns a load of the streams of `sevens_then_zeros`, and their readers.
fn made<'a>(
    rt: &(impl AllocGlobal + Abort),
    sent: &'a Sent,
    len: usize,
    fails_at: usize,
) -> Turning<'a> {
    let memory = zeroed(rt.alloc(), &[("a", 1)]).expect(rt, "a memory");
    let settings = LoadSettings::new(4096, LIMIT);
    let load = InPlaceSession::new(rt.alloc(), settings, memory.table(), &Uuid::nil(), 2);
    Turning {
        load: load.expect(rt, "a load"),
        memory,
        sources: readers(rt, sent, len, fails_at),
    }
}

// Takes a turn of a source, whose reader this is. Returns whether it has this result.
fn has_turn<P: PieceReader>(
    reader: &mut SourceReader<P>,
    load: &mut InPlaceSession,
    memory: &mut Memory,
    source: Source,
    wanted: Result<Turn, TurnFault>,
) -> bool {
    if !load.has(source) {
        return false;
    }
    load.has_room(source, 65_536) && reader.turn(load, memory, source) == wanted
}

// The number of a source, and the result of its turn.
type Turned = (usize, Result<Turn, TurnFault>);

impl<'a> Turning<'a> {
    // Takes turns of sources. Returns whether each has its result.
    fn have_turns(&mut self, turns: &[Turned]) -> bool {
        for (number, wanted) in turns {
            let Some(reader) = self.sources.get_mut(*number) else {
                return false;
            };
            let source = source_at(*number);
            if !has_turn(reader, &mut self.load, &mut self.memory, source, *wanted) {
                return false;
            }
        }
        true
    }

    // Pumps by at most `turns` turns.
    fn pump(&mut self, order: &mut impl TurnOrder, turns: u64) -> Result<Verdict, TurnFault> {
        pump_by_turns(
            &mut self.sources,
            order,
            &mut self.load,
            &mut self.memory,
            turns,
        )
    }

    // Returns whether both rounds were loaded.
    fn is_done(&self) -> bool {
        self.load.verdict() == Verdict::Done
            && self.load.rounds() == 2
            && is_full(&self.memory, at(0, 0), 0)
    }
}

// ---- turns

// A channel isn't read on after its hello, before the main stream's table is known, nor if it is a
// round ahead. Its bytes that were read wait. With the last byte of the first round the second
// round begins.
const AHEAD: [Turned; 12] = [
    (1, Ok(Turn::Taken(64))),
    (1, Ok(Turn::Waits)),
    (0, Ok(Turn::Taken(127))),
    (1, Ok(Turn::Taken(5440 + 1344))),
    (1, Ok(Turn::Waits)),
    (2, Ok(Turn::Taken(64 + 3 * 1344))),
    (2, Ok(Turn::Waits)),
    (1, Ok(Turn::Taken(1344))),
    (0, Ok(Turn::Waits)),
    (1, Ok(Turn::Ended)),
    (2, Ok(Turn::Ended)),
    (1, Ok(Turn::Waits)),
];

#[test]
fn source_that_is_ahead_waits(rt: HostRuntime) {
    let sent = sevens_then_zeros(&rt);
    let mut turning = made(&rt, &sent, usize::MAX, 0);
    assert!(rt; turning.have_turns(&AHEAD) && turning.is_done());
}

// After a read that failed the next turn reads on.
const FAILING: [Turned; 5] = [
    (0, Ok(Turn::Taken(127))),
    (1, Ok(Turn::Taken(1000))),
    (1, Err(TurnFault::Read)),
    (1, Ok(Turn::Taken(1000))),
    (1, Ok(Turn::Taken(1000))),
];

#[test]
fn read_that_fails(rt: HostRuntime) {
    let sent = sevens_then_zeros(&rt);
    let mut turning = made(&rt, &sent, 1000, 2);
    assert!(rt; turning.have_turns(&FAILING));
}

// ---- pumps

// Pumps streams from readers of at most `len` bytes.
fn is_pumped(
    rt: &(impl AllocGlobal + Abort),
    len: usize,
    order: &mut impl TurnOrder,
    turns: u64,
) -> bool {
    let sent = sevens_then_zeros(rt);
    let mut turning = made(rt, &sent, len, 0);
    turning.pump(order, turns) == Ok(Verdict::Done) && turning.is_done()
}

#[test]
fn pumped_to_the_end(rt: HostRuntime) {
    for (len, turns) in [(1usize, 100_000u64), (1000, 100), (usize::MAX, 20)] {
        assert!(rt; is_pumped(&rt, len, &mut RoundRobin::new(), turns));
    }
}

// A load doesn't depend on the order of turns.
#[test]
fn pumped_by_chance(rt: HostRuntime) {
    for seed in 0..20u64 {
        let mut random = Pcg32::new(seed, 0);
        let len = below(&mut random, 3000).saturating_add(1) as usize;
        assert!(rt; is_pumped(&rt, len, &mut ByChance(random), 100_000));
    }
}

// Pumps from readers whose second read fails: each channel's, since the main stream is closed with
// its first one.
fn is_pumped_on(turning: &mut Turning<'_>) -> bool {
    let mut order = RoundRobin::new();
    turning.pump(&mut order, 100) == Err(TurnFault::Read)
        && turning.pump(&mut order, 100) == Err(TurnFault::Read)
        && turning.pump(&mut order, 100) == Ok(Verdict::Done)
}

#[test]
fn pumped_on_after_reads_that_fail(rt: HostRuntime) {
    let sent = sevens_then_zeros(&rt);
    let mut turning = made(&rt, &sent, usize::MAX, 2);
    assert!(rt; is_pumped_on(&mut turning) && turning.is_done());
}

// ---- the bytes of a device

// Takes two turns of 60 bytes of a machine's main stream. Returns whether `rest` are the bytes that
// were read after its end.
fn reads_after<R: Read + Drop>(
    rt: &(impl AllocGlobal + Abort),
    memory: &mut Memory,
    connection: R,
    rest: Option<&[u8]>,
) -> bool {
    let mut load = load_in(rt, Frame::Machine, memory);
    let main = SourceReader::new(rt.alloc(), Counted::new(connection));
    let mut main = main.expect(rt, "a buffer");
    for _ in 0..2 {
        if !has_turn(
            &mut main,
            &mut load,
            memory,
            Source::Main,
            Ok(Turn::Taken(60)),
        ) {
            return false;
        }
    }
    main.unread(&load) == rest
}

// The main stream is closed after 117 bytes. A reader that was lent gives the device's other bytes.
#[test]
fn reader_that_was_lent(rt: HostRuntime) {
    let sent = machines_texts(&rt);
    let mut memory = zeroed(rt.alloc(), &[("a", 2)]).expect(&rt, "a memory");
    let mut connection = Slow {
        rest: &sent.main,
        len: 60,
        fails_at: 0,
    };
    let rest = sent.main.get(117..120);
    assert!(rt; reads_after(&rt, &mut memory, &mut connection, rest));
    assert!(rt; sent.main.get(120..) == Some(connection.rest));
}
