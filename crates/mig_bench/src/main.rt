//! Benchmarks of what the library for C has no call for: the zero test, and loads of complete
//! streams. `bench/` has those of the library. Each figure is the least time of five runs, as a
//! ratio to that of a copy of the same bytes in the same run of the program, since times alone
//! don't compare from one machine to another.
//!
//! The first argument names the benchmark. Nothing here is part of the library, and no test
//! compares a figure.
#![tactic(auto)]

mod guest;
mod measure;

ghost use Rattle.std.specs.Prelude.{◌<◌};

use crate::guest::{Guest, PAGES, ZERO_TENTHS};
use crate::measure::{PAGE_SIZE, Work, Yardstick, put_title, report};
use std::alloc::Global;
use std::rt::Clock;
use std::sync::Wait;
use std::thread::Threads;
use std::{env, io};

// How many bytes the zero test reads that no cache holds, and how many that one does.
const LEN: usize = 1 << 28;

const CACHED_LEN: usize = 1 << 17;

// On how many channels a round is loaded.
const CHANNELS: [(usize, &str); 3] = [
    (1, "  whole streams, 1"),
    (2, "  whole streams, 2"),
    (4, "  whole streams, 4"),
];

fn main(rt: HostRuntime) -> io::Result<()> {
    let word = env::args(&rt)?.nth(1);
    let alloc = rt.alloc();
    match word.as_deref() {
        Some("zero") => {
            report_in_memory(&rt, alloc)?;
            report_in_cache(&rt, alloc)
        }
        Some("load") => report_loads(&rt, alloc, "a guest sent and loaded", false),
        Some("load_multi") => {
            report_loads(&rt, alloc, "a round loaded from several channels", true)
        }
        _ => println!(rt; "usage: mig_bench zero|load|load_multi"),
    }
}

// Tests pages that no cache holds: of zeros, and with one byte set.
fn report_in_memory<R: Clock + Print + Threads + Wait + Sync>(
    rt: &R,
    alloc: Global,
) -> io::Result<()> {
    let mut memory = vec![in alloc; 0u8; LEN]?;
    let mut other = vec![in alloc; 0u8; LEN]?;
    let copies = Yardstick::new(rt, alloc, &memory, &mut other, 1)?;
    put_title(rt, "the zero test", (LEN / PAGE_SIZE) as u64)?;
    report_test(rt, alloc, "pages of zeros", &copies, &memory)?;
    set_in_each_page(&mut memory, 0, 1);
    report_test(rt, alloc, "first byte set", &copies, &memory)?;
    set_in_each_page(&mut memory, 0, 0);
    set_in_each_page(&mut memory, PAGE_SIZE - 1, 1);
    report_test(rt, alloc, "last byte set", &copies, &memory)
}

// Tests zeros that a cache holds, as many times as it takes to read as many bytes.
fn report_in_cache<R: Clock + Print + Threads + Wait + Sync>(
    rt: &R,
    alloc: Global,
) -> io::Result<()> {
    let memory = vec![in alloc; 0u8; CACHED_LEN]?;
    let mut other = vec![in alloc; 0u8; CACHED_LEN]?;
    let copies = Yardstick::new(rt, alloc, &memory, &mut other, LEN / CACHED_LEN)?;
    report_test(rt, alloc, "zeros in a cache", &copies, &memory)
}

fn report_test<R: Clock + Print + Threads + Wait + Sync>(
    rt: &R,
    alloc: Global,
    name: &str,
    copies: &Yardstick,
    memory: &[u8],
) -> io::Result<()> {
    report(
        rt,
        alloc,
        name,
        "found zero",
        copies,
        Work::ZeroTest(memory),
    )
}

fn set_in_each_page(memory: &mut [u8], at: usize, byte: u8)
    requires { at < PAGE_SIZE }
{
    for page in memory.chunks_exact_mut(PAGE_SIZE) {
        page[at] = byte;
    }
}

// Loads all pages of a guest that were sent in one round, with none, half and nine tenths of them
// zeros: from one stream, or from several channels.
fn report_loads<R: Clock + Print + Threads + Wait + Sync>(
    rt: &R,
    alloc: Global,
    title: &str,
    is_multi: bool,
) -> io::Result<()> {
    let Some(mut guest) = Guest::new(alloc) else {
        return println!(rt; "no memory for the guest");
    };
    let copies = Yardstick::in_buffers(rt, alloc, PAGES as usize * PAGE_SIZE)?;
    put_title(rt, title, PAGES)?;
    for (tenths, name) in &ZERO_TENTHS {
        guest.fill(*tenths);
        if is_multi {
            println!(rt; "{name}")?;
            report_multi(rt, alloc, &guest, &copies)?;
        } else {
            report_single(rt, alloc, name, &guest, &copies)?;
        }
    }
    Ok(())
}

// Sends a guest as one stream, and loads that.
fn report_single<R: Clock + Print + Threads + Wait + Sync>(
    rt: &R,
    alloc: Global,
    name: &str,
    guest: &Guest,
    copies: &Yardstick,
) -> io::Result<()> {
    report(rt, alloc, name, "bytes sent", copies, Work::Send(guest))?;
    let Some(stream) = guest.sent(alloc) else {
        return println!(rt; "no memory for the stream");
    };
    report(
        rt,
        alloc,
        "  whole",
        "rounds loaded",
        copies,
        Work::Load(&stream),
    )
}

// Loads a round from one channel, from two and from four, by a worker on a thread of its own for
// each.
fn report_multi<R: Clock + Print + Threads + Wait + Sync>(
    rt: &R,
    alloc: Global,
    guest: &Guest,
    copies: &Yardstick,
) -> io::Result<()> {
    for (channels, name) in &CHANNELS {
        let Some(sent) = guest.sent_on(rt, alloc, *channels) else {
            return println!(rt; "no memory for the streams");
        };
        report(
            rt,
            alloc,
            name,
            "rounds loaded",
            copies,
            Work::LoadMulti(&sent),
        )?;
    }
    Ok(())
}
