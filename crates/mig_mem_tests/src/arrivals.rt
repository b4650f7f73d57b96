//! The verdict on a round that is judged as it arrives: a page record and three packets.

use crate::rounds::records;
use mig_assemble::{Arrivals, RoundFault};
use mig_fixtures::{at, places_of, table, zeroed};
use mig_mem::{NoMemory, PAGE_SIZE_4K, Place};
use mig_packet::{PacketRead, put_packet, read_packet};
use mig_stream::StreamRound;
use std::alloc::{AllocGlobal, Global};
use std::process::Abort;

// The blocks of these rounds.
const BLOCKS: [(&str, u64); 2] = [("a", 2), ("b", 3)];

// A packet with one zero page: its number, the id of its block, and the page's offset.
type Sent = (u64, &'static [u8; 1], u64);

type Verdict = Result<(), RoundFault>;

// Returns a round of one record, of page 1 of `b`.
fn one_record(rt: &(impl AllocGlobal + Abort)) -> StreamRound<'static> {
    let image = zeroed(rt.alloc(), &BLOCKS).expect(rt, "a memory");
    let dirty = places_of(rt.alloc(), image.table(), &[at(1, 1)]).expect(rt, "a set");
    records(rt, image, dirty)
}

// Returns the bytes of packets.
fn bytes_of(alloc: Global, sent: &[Sent]) -> Result<Vec<u8>, NoMemory> {
    let mut bytes = Vec::new(alloc);
    for (number, id, offset) in sent {
        let id: &[u8] = *id;
        if put_packet(
            PAGE_SIZE_4K,
            &mut bytes,
            *number,
            false,
            id,
            &[],
            &[],
            &[*offset],
        )
        .is_err()
        {
            return Err(NoMemory);
        }
    }
    Ok(bytes)
}

// Adds three packets.
fn add_packets(arrivals: &mut Arrivals, bytes: &[u8]) -> Option<()> {
    let mut rest = bytes;
    for _ in 0..3u8 {
        let PacketRead::Whole(packet, len) = read_packet(PAGE_SIZE_4K, rest) else {
            return None;
        };
        if arrivals.table().page_size() != packet.page_size() {
            return None;
        }
        arrivals.packet(&packet.head()).ok()?;
        rest = rest.get(len..)?;
    }
    Some(())
}

// Returns the verdict on a round of these records and packets, numbered from 0 on.
fn verdict_on(alloc: Global, records: &StreamRound<'_>, bytes: &[u8]) -> Option<Verdict> {
    let mut arrivals = Arrivals::new(alloc, &table(alloc, &BLOCKS)?).ok()?;
    if !arrivals.fits(records) {
        return None;
    }
    arrivals.records(records);
    add_packets(&mut arrivals, bytes)?;
    if arrivals.len() != 3 {
        return None;
    }
    Some(arrivals.judge(0))
}

// A lawful round, and some that are refused.
const ROUNDS: [([Sent; 3], Verdict); 6] = [
    ([(0, b"a", 0), (1, b"b", 0), (2, b"b", 8192)], Ok(())),
    (
        [(0, b"a", 0), (1, b"b", 0), (3, b"b", 8192)],
        Err(RoundFault::Missing(2)),
    ),
    (
        [(0, b"a", 0), (1, b"b", 0), (1, b"b", 8192)],
        Err(RoundFault::Doubled(1)),
    ),
    (
        [(0, b"a", 0), (1, b"c", 0), (2, b"b", 0)],
        Err(RoundFault::UnknownBlock(1)),
    ),
    (
        [(0, b"a", 0), (1, b"b", 0), (2, b"b", 12288)],
        Err(RoundFault::Offset(2, 0)),
    ),
    (
        [(0, b"a", 0), (1, b"b", 4096), (2, b"b", 0)],
        Err(RoundFault::DoublePage(Place { block: 1, page: 1 })),
    ),
];

#[test]
fn judged_as_it_arrives(rt: HostRuntime) {
    let records = one_record(&rt);
    for (sent, verdict) in ROUNDS {
        let bytes = bytes_of(rt.alloc(), &sent).expect(&rt, "packets");
        assert!(rt; verdict_on(rt.alloc(), &records, &bytes) == Some(verdict));
    }
}
