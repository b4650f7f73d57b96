//! Times works, and prints each time beside those of copies of the same bytes.

use crate::guest::Guest;
use mig_mem::{MAX_TOTAL, PAGE_SIZE_4K};
use mig_packet::OpenGate;
use mig_relay::load_multi;
use mig_send::Sent;
use mig_single_load::load_single;
use mig_zero::is_zero;
use std::alloc::Global;
use std::io;
use std::rt::Clock;
use std::sync::Wait;
use std::thread::Threads;
use std::time::Instant;
use uuid::Uuid;

pub const PAGE_SIZE: usize = 4096;

const RUNS: usize = 5;

/// What is timed. Each returns a number that depends on all that it did, so that no compiler leaves
/// out a part.
#[derive(Clone, Copy)]
pub enum Work<'a> {
    /// A copy to another buffer, of as many bytes as both have, so many of them at once.
    Copy(&'a [u8], usize),
    /// The zero test of each page of a memory. Returns how many are zeros.
    ZeroTest(&'a [u8]),
    /// One round as one stream. Returns the stream's length, or 0 if an allocation is refused.
    Send(&'a Guest),
    /// A load of a complete stream. Returns how many of its sections were applied.
    Load(&'a [u8]),
    /// A load of complete streams of several channels. Returns how many rounds were applied.
    LoadMulti(&'a Sent),
}

// Does a work, of which a copy alone writes to `to`.
fn run<R: Threads + Wait + Sync>(rt: &R, alloc: Global, work: Work, to: &mut [u8]) -> usize {
    match work {
        Work::Copy(from, step) => copy(from, to, step),
        Work::ZeroTest(memory) => zero_pages(memory),
        Work::Send(guest) => len_of(guest.sent(alloc)),
        Work::Load(stream) => load_single(alloc, PAGE_SIZE_4K, stream, MAX_TOTAL).rounds as usize,
        Work::LoadMulti(sent) => rounds_of(rt, alloc, sent),
    }
}

fn len_of(stream: Option<Vec<u8>>) -> usize {
    match stream {
        Some(stream) => stream.len(),
        None => 0,
    }
}

fn copy(from: &[u8], to: &mut [u8], step: usize) -> usize {
    if step == 0 {
        return 0;
    }
    for (from, to) in from.chunks_exact(step).zip(to.chunks_exact_mut(step)) {
        to.copy_from_slice(from);
    }
    to.len()
}

fn zero_pages(memory: &[u8]) -> usize {
    memory
        .chunks_exact(PAGE_SIZE)
        .filter(|page| is_zero(page))
        .count()
}

fn rounds_of<R: Threads + Wait + Sync>(rt: &R, alloc: Global, sent: &Sent) -> usize {
    let channels = sent.channels.as_slice();
    if channels.is_empty() || channels.len() > 255 {
        return 0;
    }
    let uuid = Uuid::nil();
    let main = &sent.main;
    load_multi(
        rt,
        alloc,
        PAGE_SIZE_4K,
        &uuid,
        main,
        channels,
        MAX_TOTAL,
        &OpenGate,
    )
    .rounds as usize
}

/// The times of copies of the same bytes in nanoseconds: page by page, as a guest's pages are
/// handled, and at once. Each copies the bytes, and each work is done, `times` times in a run.
#[derive(Clone, Copy)]
pub struct Yardstick {
    by_pages: u64,
    at_once: u64,
    times: usize,
}

impl Yardstick {
    /// Copies `from` to `to`, as many bytes as both have.
    pub fn new<R: Clock + Threads + Wait + Sync>(
        rt: &R,
        alloc: Global,
        from: &[u8],
        to: &mut [u8],
        times: usize,
    ) -> io::Result<Yardstick> {
        let len = from.len();
        let by_pages = least_time(rt, alloc, Work::Copy(from, PAGE_SIZE), to, times)?;
        let at_once = least_time(rt, alloc, Work::Copy(from, len), to, times)?;
        Ok(Yardstick {
            by_pages: by_pages.0,
            at_once: at_once.0,
            times,
        })
    }

    /// Copies `len` bytes, in memory that it frees.
    pub fn in_buffers<R: Clock + Threads + Wait + Sync>(
        rt: &R,
        alloc: Global,
        len: usize,
    ) -> io::Result<Yardstick> {
        let from = vec![in alloc; 1u8; len]?;
        let mut to = vec![in alloc; 1u8; len]?;
        Yardstick::new(rt, alloc, &from, &mut to, 1)
    }
}

// Runs a work five times, and returns the least time in nanoseconds, since other load on the
// machine only adds to it, and what the last run returned.
fn least_time<R: Clock + Threads + Wait + Sync>(
    rt: &R,
    alloc: Global,
    work: Work,
    to: &mut [u8],
    times: usize,
) -> io::Result<(u64, usize)> {
    let mut least = (u64::MAX, 0);
    for _ in 0..RUNS {
        let start = Instant::now(rt)?;
        least.1 = run_times(rt, alloc, work, to, times);
        let time = u64::try_from(start.elapsed(rt)?.as_nanos()).unwrap_or(u64::MAX);
        least.0 = time.min(least.0);
    }
    Ok(least)
}

fn run_times<R: Threads + Wait + Sync>(
    rt: &R,
    alloc: Global,
    work: Work,
    to: &mut [u8],
    times: usize,
) -> usize {
    let mut answer = 0;
    for _ in 0..times {
        answer = run(rt, alloc, work, to);
    }
    answer
}

/// Prints what is measured, on how many pages.
pub fn put_title(rt: &impl Print, title: &str, pages: u64) -> io::Result<()> {
    println!(rt;
        "{title}, {pages} pages of {PAGE_SIZE} bytes: the least time of five runs, as a ratio to a copy of them"
    )
}

/// Measures a work, and prints its time beside those of the copies, and what it returned.
pub fn report<R: Clock + Print + Threads + Wait + Sync>(
    rt: &R,
    alloc: Global,
    name: &str,
    unit: &str,
    copies: &Yardstick,
    work: Work,
) -> io::Result<()> {
    let mut nowhere = [0u8; 0];
    let (time, answer) = least_time(rt, alloc, work, &mut nowhere, copies.times)?;
    print!(rt; "{name:<22}")?;
    put_ratio(rt, time, copies.by_pages)?;
    print!(rt; " by pages, ")?;
    put_ratio(rt, time, copies.at_once)?;
    println!(rt; " at once; {answer} {unit}")
}

// Prints the ratio of two times, rounded to hundredths.
fn put_ratio(rt: &impl Print, time: u64, unit: u64) -> io::Result<()> {
    let hundredths = (100 * u128::from(time) + u128::from(unit / 2)) / u128::from(unit.max(1));
    print!(rt;
        "{}.{}{}",
        hundredths / 100,
        hundredths / 10 % 10,
        hundredths % 10
    )
}
