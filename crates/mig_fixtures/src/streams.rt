//! Streams of complete migrations, made by hand: the UUID is zeros, pages have 4096 bytes, and the
//! only block is `a`.

use crate::table;
use mig_packet::{hello, put_packet};
use mig_stream::StreamWriter;
use std::alloc::Allocator;
use uuid::Uuid;

/// Returns the main stream of `pages` pages and `rounds` rounds.
pub fn main_of<A: Allocator + Copy>(alloc: A, pages: u64, rounds: u64) -> Option<Vec<u8, A>> {
    let table = table(alloc, &[("a", pages)])?;
    let mut writer = StreamWriter::new(alloc, &table).ok()?;
    for _ in 0..rounds {
        writer.flush_part().ok()?;
    }
    writer.finish().ok()
}

/// What a packet has: a page that is filled with a byte, a page as zeros, or SYNC and no page.
#[derive(Clone, Copy)]
pub enum Part {
    Page(u64, u8),
    Zeros(u64),
    Sync,
}

// Appends a packet.
fn put<A: Allocator>(text: &mut Vec<u8, A>, number: u64, part: Part) -> Option<()> {
    let put = match part {
        Part::Page(page, byte) => {
            let contents = [byte; 4096];
            let normal = [page.wrapping_mul(4096)];
            put_packet(4096, text, number, false, b"a", &normal, &contents, &[])
        }
        Part::Zeros(page) => {
            let zero = [page.wrapping_mul(4096)];
            put_packet(4096, text, number, false, b"a", &[], &[], &zero)
        }
        Part::Sync => put_packet(4096, text, number, true, &[], &[], &[], &[]),
    };
    put.ok()
}

/// Appends packets, each with its number.
pub fn put_all<A: Allocator>(text: &mut Vec<u8, A>, packets: &[(u64, Part)]) -> Option<()> {
    for (number, part) in packets {
        put(text, *number, *part)?;
    }
    Some(())
}

/// Returns a channel: a hello with this id, and packets, each with its number.
pub fn channel_of<A: Allocator + Copy>(
    alloc: A,
    id: u8,
    packets: &[(u64, Part)],
) -> Option<Vec<u8, A>> {
    let mut text = Vec::from_slice(alloc, &hello(&Uuid::nil(), id)).ok()?;
    put_all(&mut text, packets)?;
    Some(text)
}
